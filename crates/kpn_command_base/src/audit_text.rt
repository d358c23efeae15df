//! The texts that `kpn audit` writes.
ghost use Rattle.std.specs.Prelude.{◌≡◌, IfOk};
ghost use Rattle.kpn_command_base.specs.Added.{Adds};
ghost use Rattle.kpn_command_base.specs.ListText.{items_text};
ghost use Rattle.kpn_command_base.specs.AuditText.{audit_text, exact_line, cap_text, journal_line};

use crate::list_text::push_spaced_items;
use crate::pieces::Pushed;
use kpn_audit::Audit;
use kpn_chan::Journal;
use kpn_text::Document;
use std::alloc::{AllocError, Global};

/// `legal`, whether the journals are exact, and a line for each channel in order of number: `NAME cap N:`, or `NAME:`
/// for a source, and its journal.
pub fn text_of_audit(
    alloc: Global,
    document: &Document,
    audit: &Audit,
) -> Result<Vec<u8>, AllocError>
    ensures { IfOk result (λ text.
        text.items ≡ audit_text document.now.names.channels audit.now) }
{
    let mut text = String::new(alloc);
    text.push_str("legal\n")?;
    text.push_str(exact_line(audit.exact))?;
    for (channel, journal) in audit.journals.as_slice().iter().enumerate() {
        let cap = audit.caps.as_slice().get(channel).copied().unwrap_or(None);
        push_channel(&mut text, document.channel_name(channel), cap, journal)?;
    }
    Ok(text.into_bytes())
}

// Whether the journals are the least solution.
fn exact_line(exact: bool) -> &'static str
    ensures { result.now ≡ exact_line exact }
{
    if exact { "exact yes\n" } else { "exact no\n" }
}

fn push_channel(text: &mut String, name: &str, cap: Option<u32>, journal: &Journal) -> Pushed
    ensures { Adds result text.old text.new (journal_line name.now cap journal.now) }
{
    text.push_str(name)?;
    push_cap(text, cap)?;
    push_journal(text, journal)
}

// The capacity of a channel that has one.
fn push_cap(text: &mut String, cap: Option<u32>) -> Pushed
    ensures { Adds result text.old text.new (cap_text cap) }
{
    match cap {
        Some(cap) => write!(text, " cap {cap}"),
        None => Ok(()),
    }
}

// `:`, the items of a journal, piece by piece, and a line feed.
fn push_journal(text: &mut String, journal: &Journal) -> Pushed
    ensures { Adds result text.old text.new (items_text journal.now) }
{
    text.push_str(":")?;
    let mut place = 0;
    'pieces: while place < journal.len() {
        let piece = journal.piece_at(place);
        push_spaced_items(text, piece)?;
        place += piece.len();
    }
    text.push_str("\n")
}
