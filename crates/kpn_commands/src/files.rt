//! The files that a run stores: its trace in version 2, and what its sinks received.
ghost use Rattle.std.specs.Prelude.{◌≡◌, ◌++◌, ◌∷◌, [], map, option_map, IfOk, IfErr, OnOk};
ghost use Rattle.kpn_text_items.specs.ItemFile.{item_text};
ghost use Rattle.kpn_command_base.specs.Conclusion.{stored_as};
ghost use Rattle.kpn_commands.specs.Files.{trace_files, sink_file, sink_files, files_of, IsRefusalOfFiles};
ghost use Rattle.kpn_book.specs.Reports.{events_of};

use crate::reporting::Reported;
use kpn_command_base::{NamedEnd, OutputFile, Refusal, file_for, trace_of, wanted_of};
use kpn_history::History;
use kpn_lang::Sequence;
use kpn_limits::MAX_INPUT_BYTES;
use kpn_net::Network;
use kpn_text_items::{WriteFault, write_items};
use std::alloc::Global;

/// The files that a run stores, in the order in which it stores them. Of each sink it stores as many items as are
/// wanted at most.
pub(crate) fn files_of(
    alloc: Global,
    trace: Option<&str>,
    wanted: Option<u64>,
    reported: &Reported<'_>,
) -> Result<Vec<OutputFile>, Refusal>
    ensures ok { IfOk result (λ files. map stored_as files.items
        ≡ files_of (option_map (λ name. name.now) trace.entry) wanted reported.now) }
    ensures refused { let r = reported.now in IfErr result
        (IsRefusalOfFiles (option_map (λ name. name.now) trace.entry)
        r.inputs.document.tables (events_of r.report)) }
{
    let network = reported.inputs.document.network();
    let history = &reported.report.history;
    let taken = reported.report.taken.as_slice();
    let mut files = Vec::new(alloc);
    push_trace(alloc, &mut files, trace, network, history)?;
    push_sinks(alloc, &mut files, &reported.sinks, wanted, taken)?;
    Ok(files)
}

// The file of the trace, if one was asked for. One that nobody could read again is refused.
fn push_trace(
    alloc: Global,
    files: &mut Vec<OutputFile>,
    trace: Option<&str>,
    network: &Network,
    history: &History,
) -> Result<(), Refusal>
    ensures ok { OnOk result (map stored_as files.new.items ≡ map stored_as files.old.items
        ++ trace_files (option_map (λ name. name.now) trace.entry) network.now
        history.now.events) }
    ensures refused { IfErr result (IsRefusalOfFiles (option_map (λ name. name.now) trace.entry)
        network.now history.now.events) }
{
    let Some(name) = trace else {
        return Ok(());
    };
    let bytes = trace_of(alloc, network, history)?;
    if bytes.len() > MAX_INPUT_BYTES {
        return Err(Refusal::Output(WriteFault::Write));
    }
    push_file(alloc, files, name, bytes)
}

// One more file.
fn push_file(
    alloc: Global,
    files: &mut Vec<OutputFile>,
    name: &str,
    bytes: Vec<u8>,
) -> Result<(), Refusal>
    ensures ok { OnOk result (map stored_as files.new.items ≡ map stored_as files.old.items
        ++ record { name = name.now; bytes = bytes.items } ∷ []) }
    ensures refused { IfErr result (λ refusal. refusal ≡ Refusal.NoMemory) }
{
    let owned = String::from_str(alloc, name)?;
    files.push(OutputFile { name: owned, bytes })?;
    Ok(())
}

// The file of each sink that an option names, in order of the sinks. What the sinks received is given in this order.
fn push_sinks(
    alloc: Global,
    files: &mut Vec<OutputFile>,
    sinks: &[NamedEnd<'_>],
    wanted: Option<u64>,
    taken: &[Sequence<i64>],
) -> Result<(), Refusal>
    ensures ok { OnOk result (map stored_as files.new.items ≡ map stored_as files.old.items
        ++ sink_files sinks.now wanted 0 taken.now) }
    ensures refused { IfErr result (λ refusal. refusal ≡ Refusal.NoMemory) }
{
    for sink in 0..taken.len() {
        let items = wanted_of(taken[sink].as_slice(), wanted);
        push_sink(alloc, files, file_for(sinks, sink), items)?;
    }
    Ok(())
}

// The file of a sink with these items, if an option names it.
fn push_sink(
    alloc: Global,
    files: &mut Vec<OutputFile>,
    file: Option<&str>,
    items: &[i64],
) -> Result<(), Refusal>
    ensures ok { OnOk result (map stored_as files.new.items ≡ map stored_as files.old.items
        ++ sink_file (option_map (λ name. name.now) file.entry) items.now) }
    ensures refused { IfErr result (λ refusal. refusal ≡ Refusal.NoMemory) }
{
    let Some(name) = file else {
        return Ok(());
    };
    let bytes = items_text(alloc, items)?;
    push_file(alloc, files, name, bytes)
}

// The text of an item file.
fn items_text(alloc: Global, items: &[i64]) -> Result<Vec<u8>, Refusal>
    ensures ok { IfOk result (λ text. text.items ≡ item_text items.now) }
    ensures refused { IfErr result (λ refusal. refusal ≡ Refusal.NoMemory) }
{
    let mut text = Vec::new(alloc);
    match write_items(&mut text, items) {
        Ok(()) => Ok(text),
        Err(_) => Err(Refusal::NoMemory),
    }
}
