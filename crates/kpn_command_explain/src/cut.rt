//! What an explanation says of a legal history: what the audit says, with no more than the first 20 items of a channel.
ghost use Rattle.std.specs.Prelude.{◌≡◌, ◌++◌, [], length, take, codes, slice_index_or, None, IfOk, OnOk};
ghost use Rattle.std.specs.String.{string_bytes};
ghost use Rattle.std.specs.Fmt.{decimal};
ghost use Rattle.kpn_command_base.specs.Added.{Adds};
ghost use Rattle.kpn_command_base.specs.ListText.{spaced_items};
ghost use Rattle.kpn_command_base.specs.AuditText.{exact_line, cap_text};
ghost use Rattle.kpn_command_explain.specs.Cut.{digit_text, with_commas, more_text, cut_text};

use itoa::Buffer;
use kpn_audit::Audit;
use kpn_command_base::Pushed;
use kpn_text::Document;
use std::alloc::{AllocError, Global};

/// The most items of a channel that are shown.
const MOST_ITEMS_SHOWN: usize = 20;

/// `legal`, whether the journals are exact, and a line for each channel in order of number.
pub(crate) fn cut_text(
    alloc: Global,
    document: &Document,
    audit: &Audit,
) -> Result<Vec<u8>, AllocError>
    ensures { IfOk result (λ text.
        text.items ≡ cut_text document.now.names.channels audit.now) }
{
    let mut text = head_text(alloc, audit.exact)?;
    for c in 0..audit.journals.as_slice().len() {
        let name = document.channel_name(c);
        let cap = cap_of(audit, c);
        let shown = first_items(alloc, audit, c)?;
        push_line(alloc, &mut text, name, cap, &shown, count_of(audit, c))?;
    }
    Ok(text)
}

// `legal`, and whether the journals are the least solution.
fn head_text(alloc: Global, exact: bool) -> Result<Vec<u8>, AllocError>
    ensures { IfOk result (λ text. text.items ≡ codes "legal\n" ++ exact_line exact) }
{
    let mut text = String::from_str(alloc, "legal\n")?;
    text.push_str(exact_line(exact))?;
    Ok(text.into_bytes())
}

fn exact_line(exact: bool) -> &'static str
    ensures { result.now ≡ exact_line exact }
{
    if exact { "exact yes\n" } else { "exact no\n" }
}

// The last capacity of a channel that has one.
fn cap_of(audit: &Audit, c: usize) -> Option<u32>
    ensures { result ≡ slice_index_or audit.now.caps c None }
{
    audit.caps.as_slice().get(c).copied().unwrap_or(None)
}

// The first items that went over a channel.
fn first_items(alloc: Global, audit: &Audit, c: usize) -> Result<Vec<i64>, AllocError>
    ensures { IfOk result (λ items. items.items ≡ take 20 (slice_index_or audit.now.journals c [])) }
{
    match audit.journals.as_slice().get(c) {
        Some(journal) => journal.copy_first(alloc, journal.len().min(MOST_ITEMS_SHOWN)),
        None => Ok(Vec::new(alloc)),
    }
}

// How many items went over a channel.
fn count_of(audit: &Audit, c: usize) -> usize
    ensures { result ≡ length (slice_index_or audit.now.journals c []) }
{
    match audit.journals.as_slice().get(c) {
        Some(journal) => journal.len(),
        None => 0,
    }
}

// The line of a channel, of whose items these are shown.
fn push_line(
    alloc: Global,
    text: &mut Vec<u8>,
    name: &str,
    cap: Option<u32>,
    shown: &[i64],
    count: usize,
) -> Result<(), AllocError>
    ensures { OnOk result (text.new.items
        ≡ text.old.items ++ (((name.now ++ cap_text cap) ++ codes ":" ++ spaced_items shown.now)
        ++ more_text count)) }
{
    let front = front_text(alloc, name, cap, shown)?;
    let more = more_text(alloc, count)?;
    text.extend_from_slice(front.as_bytes())?;
    text.extend_from_slice(&more)
}

fn front_text(
    alloc: Global,
    name: &str,
    cap: Option<u32>,
    shown: &[i64],
) -> Result<String, AllocError>
    ensures { IfOk result (λ text. string_bytes text
        ≡ (name.now ++ cap_text cap) ++ codes ":" ++ spaced_items shown.now) }
{
    let mut text = named(alloc, name, cap)?;
    text.push_str(":")?;
    push_items(&mut text, shown)?;
    Ok(text)
}

// The name and, if it has one, the capacity.
fn named(alloc: Global, name: &str, cap: Option<u32>) -> Result<String, AllocError>
    ensures { IfOk result (λ text. string_bytes text ≡ name.now ++ cap_text cap) }
{
    let mut text = String::from_str(alloc, name)?;
    if let Some(cap) = cap {
        write!(text, " cap {cap}")?;
    }
    Ok(text)
}

fn push_items(text: &mut String, items: &[i64]) -> Pushed
    ensures { Adds result text.old text.new (spaced_items items.now) }
{
    for item in items {
        write!(text, " {item}")?;
    }
    Ok(())
}

// What stands after the first of `count` items.
fn more_text(alloc: Global, count: usize) -> Result<Vec<u8>, AllocError>
    ensures { IfOk result (λ text. text.items ≡ more_text count) }
{
    if count <= MOST_ITEMS_SHOWN {
        text_of(alloc, "\n")
    } else {
        left_text(alloc, count - MOST_ITEMS_SHOWN)
    }
}

// This many items are not shown.
fn left_text(alloc: Global, left: usize) -> Result<Vec<u8>, AllocError>
    ensures { IfOk result (λ text. text.items
        ≡ codes " .. " ++ with_commas (decimal left) ++ codes " more\n") }
{
    let mut buffer = Buffer::new();
    let number = with_commas(alloc, buffer.format(left).as_bytes())?;
    let mut text = text_of(alloc, " .. ")?;
    text.extend_from_slice(&number)?;
    text.extend_from_slice(b" more\n")?;
    Ok(text)
}

fn text_of(alloc: Global, text: &str) -> Result<Vec<u8>, AllocError>
    ensures { IfOk result (λ bytes. bytes.items ≡ text.now) }
{
    let text = String::from_str(alloc, text)?;
    Ok(text.into_bytes())
}

// Digits in groups of three.
fn with_commas(alloc: Global, digits: &[u8]) -> Result<Vec<u8>, AllocError>
    ensures { IfOk result (λ text. text.items ≡ with_commas digits.now) }
{
    let mut text = Vec::new(alloc);
    for k in 0..digits.len() {
        push_digit(&mut text, digits[k], digits.len() - 1 - k)?;
    }
    Ok(text)
}

// A digit, after which `left` more follow.
fn push_digit(text: &mut Vec<u8>, digit: u8, left: usize) -> Result<(), AllocError>
    ensures { OnOk result (text.new.items ≡ text.old.items ++ digit_text digit left) }
{
    text.push(digit)?;
    if 0 < left && left % 3 == 0 {
        text.push(b',')?;
    }
    Ok(())
}
