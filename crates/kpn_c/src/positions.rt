//! Lines and columns of a text.
ghost use Rattle.std.specs.Prelude.{◌≡◌};
ghost use Rattle.kpn_c.specs.Explaining.{position_behind, position_at};

/// A line and a column, which counts bytes. Both count from 1.
#[derive(Clone, Copy)]
pub(crate) struct TextPosition {
    pub line: usize,
    pub column: usize,
}

/// Where this byte of a text is, or its end if the text is shorter.
pub(crate) fn position_at(text: &[u8], at: usize) -> TextPosition
    ensures { result ≡ position_at text.now at }
{
    position_behind(if at < text.len() { &text[..at] } else { text })
}

/// Where the byte after a text would be.
fn position_behind(text: &[u8]) -> TextPosition
    ensures { result ≡ position_behind text.now }
{
    let mut line = 1;
    let mut column = 1;
    for byte in text {
        if *byte == b'\n' {
            line += 1;
            column = 1;
        } else {
            column += 1;
        }
    }
    TextPosition { line, column }
}
