//! Lines and columns of a text, and the two parts of the line at a byte.
ghost use Rattle.std.specs.Prelude.{◌≡◌, take, drop};
ghost use Rattle.kpn_command_explain.specs.Lines as spec;

/// A place in a text: its line, and its column, which counts bytes. Both count from 1.
#[derive(Clone, Copy)]
pub(crate) struct Position {
    pub line: usize,
    pub column: usize,
}

/// The place of this byte of a text. If the text is shorter, it is the place of its end.
pub(crate) fn place_at(text: &[u8], at: usize) -> Position
    ensures { result ≡ spec.place_at text.now at }
{
    place_behind(front(text, at))
}

/// The place after a text.
fn place_behind(text: &[u8]) -> Position
    ensures { result ≡ spec.place_behind text.now }
{
    let mut line = 1;
    let mut column = 1;
    for byte in text {
        if *byte == b'\n' {
            line += 1;
            column = 1;
        } else {
            column += 1;
        }
    }
    Position { line, column }
}

/// The bytes of a text before this one.
pub fn front(text: &[u8], at: usize) -> &[u8]
    ensures { result.now ≡ take at text.now }
{
    if at < text.len() { &text[..at] } else { text }
}

/// The bytes of a text from this one on.
pub fn back(text: &[u8], at: usize) -> &[u8]
    ensures { result.now ≡ drop at text.now }
{
    if at < text.len() {
        &text[at..]
    } else {
        &text[text.len()..]
    }
}

/// The part of a line before a byte.
pub(crate) fn line_before(text: &[u8], at: usize) -> &[u8] {
    let front = front(text, at);
    match front.iter().rposition(|&byte| byte == b'\n') {
        Some(feed) => &front[feed + 1..],
        None => front,
    }
}

/// The part of a line from a byte on, without the line feed.
pub(crate) fn line_behind(text: &[u8], at: usize) -> &[u8] {
    let back = back(text, at);
    match back.iter().position(|&byte| byte == b'\n') {
        Some(feed) => &back[..feed],
        None => back,
    }
}

/// The byte at which the line of this number begins, if lines are counted from 1. If the text has fewer lines, it is
/// the end of the text.
pub fn line_start(text: &[u8], line: usize) -> usize
    ensures { result ≡ spec.line_start text.now line }
{
    behind_feeds(text, line.saturating_sub(1))
}

/// The byte after this many line feeds, or the end of the text.
fn behind_feeds(text: &[u8], feeds: usize) -> usize
    ensures { result ≡ spec.behind_feeds feeds text.now }
{
    let mut left = feeds;
    for (at, byte) in text.iter().enumerate() {
        if left == 0 {
            return at;
        }
        if *byte == b'\n' {
            left -= 1;
        }
    }
    text.len()
}
