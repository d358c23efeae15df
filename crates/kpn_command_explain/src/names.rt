//! Names in a text, by their first bytes.
ghost use Rattle.std.specs.Prelude.{◌≡◌, not, position};
ghost use Rattle.kpn_command_explain.specs.Names as spec;

use crate::lines::back;

/// The name that begins at a byte of a text. It is empty if none begins there.
pub fn name_at(text: &[u8], at: usize) -> &[u8]
    ensures { result.now ≡ spec.name_beginning_at text.now at }
{
    first_name(back(text, at))
}

fn first_name(text: &[u8]) -> &[u8]
    ensures { result.now ≡ spec.first_name text.now }
{
    match name_end(text) {
        Some(end) => &text[..end],
        None => text,
    }
}

fn name_end(text: &[u8]) -> Option<usize>
    ensures { result ≡ position (λ b. not (spec.is_in_name b)) text.now }
{
    text.iter().position(|&byte| !is_in_name(byte))
}

fn is_in_name(byte: u8) -> bool
    ensures { result ≡ spec.is_in_name byte }
{
    byte.is_ascii_alphabetic() || byte.is_ascii_digit() || byte == b'_'
}

fn later(
    text: &[u8],
    name: &[u8],
    bound: usize,
    found: Option<usize>,
    start: usize,
) -> Option<usize>
    ensures { result ≡ spec.later text.now name.now bound found start }
{
    if start < bound && name_at(text, start) == name {
        Some(start)
    } else {
        found
    }
}

/// The last of the names that begin at these bytes that is this name and stands before the bound.
pub(crate) fn last_before(text: &[u8], name: &[u8], bound: usize, starts: &[usize]) -> Option<usize>
    ensures { result ≡ spec.last_before text.now name.now bound starts.now }
{
    let mut found = None;
    for start in starts {
        found = later(text, name, bound, found, *start);
    }
    found
}

fn is_between(text: &[u8], name: &[u8], from: usize, to: usize, start: usize) -> bool
    ensures { result ≡ spec.is_between text.now name.now from to start }
{
    from < start && start < to && name_at(text, start) == name
}

/// The first of the names that begin at these bytes that is this name and stands between the bounds.
pub(crate) fn first_between(
    text: &[u8],
    name: &[u8],
    from: usize,
    to: usize,
    starts: &[usize],
) -> Option<usize>
    ensures { result ≡ spec.first_between text.now name.now from to starts.now }
{
    starts
        .iter()
        .copied()
        .find(|start| is_between(text, name, from, to, *start))
}

/// The first of these bytes that stands after another one, or else the byte given.
pub(crate) fn first_behind(at: usize, otherwise: usize, starts: &[usize]) -> usize
    ensures { result ≡ spec.first_behind at otherwise starts.now }
{
    match next_start(at, starts) {
        Some(start) => start,
        None => otherwise,
    }
}

fn next_start(at: usize, starts: &[usize]) -> Option<usize>
    ensures { result ≡ spec.next_start at starts.now }
{
    starts.iter().copied().find(|start| at < *start)
}
