//! Networks: the settings, the channels and the instances, and with the processes before them the whole text.

ghost use Rattle.std.specs.Prelude.{◌≡◌, ◌++◌, ◌<◌, length, map, codes, Some, OnOk, IfOk};
ghost use Rattle.std.specs.Fmt.{decimal};
ghost use Rattle.kpn_net.specs.Tables.{channel_at, instance_at};
ghost use Rattle.kpn_text_names.specs.Names.{name_at};
ghost use Rattle.kpn_text_names.specs.NetworkNames.{AreNamed, paired};
ghost use Rattle.kpn_text.specs.Named.{call_named, channel_named, description_named, growth_named, instance_named, limit_named, literal_named, network_named, policy_named, process_named};
ghost use Rattle.kpn_text.specs.Text.{all_text, call_text, description_text, growth_text, network_item_text, language_text, limit_text, name_text, names_text, network_text, outs_text, policy_text, process_text, values_text};
ghost use Rattle.kpn_text.specs.Writing.{Writes};

use crate::pieces::{bytes, name};
use crate::processes::process;
use crate::rows::shared_tables;
use itoa::Buffer;
use kpn_lang::Sequence;
use kpn_limits::MAX_CAPACITY;
use kpn_net::{ChannelSpec, End, Growth, Network, Policy};
use kpn_text_grammar::{growth_word, policy_word};
use kpn_text_names::{NetworkNames, ProcessNames};
use kpn_text_tokens::Language;
use std::alloc::{AllocError, Global};

/// The canonical text of a network with these names in a language.
///
/// It takes memory only for the text, and the work grows with the length of the text.
pub fn canonical_text(
    alloc: Global,
    language: Language,
    network: &Network,
    names: &NetworkNames,
) -> Result<Vec<u8>, AllocError>
    requires { AreNamed names.now network.now }
    ensures { IfOk result
        (λ text. text.items ≡ description_text language (description_named names.now network.now)) }
{
    let mut out = Vec::new(alloc);
    opening(&mut out, language)?;
    shared_tables(&mut out, names.tables.as_slice())?;
    processes(&mut out, language, network, names.processes.as_slice())?;
    items(&mut out, network, names)?;
    Ok(out)
}

/// The line that a text of language 2 begins with.
fn opening(out: &mut Vec<u8>, language: Language) -> Result<(), AllocError>
    ensures { OnOk result (Writes out.old.items out.new.items (language_text language)) }
{
    match language {
        Language::One => Ok(()),
        Language::Two => bytes(out, b"language 2;\n"),
    }
}

/// The network after the processes.
fn items(out: &mut Vec<u8>, network: &Network, names: &NetworkNames) -> Result<(), AllocError>
    requires { AreNamed names.now network.now }
    ensures { OnOk result
        (Writes out.old.items out.new.items
        (network_text (network_named names.now network.now))) }
{
    bytes(out, b"network {\n")?;
    settings(out, network)?;
    channels(out, network, names.channels.as_slice())?;
    instances(out, network, names)?;
    bytes(out, b"}\n")
}

fn processes(
    out: &mut Vec<u8>,
    language: Language,
    network: &Network,
    names: &[ProcessNames],
) -> Result<(), AllocError>
    requires { length names.now ≡ length network.now.programs }
    ensures { OnOk result (Writes out.old.items out.new.items
        (all_text (process_text language) (paired process_named names.now network.now.programs))) }
{
    for (i, own) in names.iter().enumerate() {
        process(out, language, own, network.program_at(i))?;
    }
    Ok(())
}

/// The lines of the settings that differ from what holds without a line.
fn settings(out: &mut Vec<u8>, network: &Network) -> Result<(), AllocError>
    ensures { OnOk result (Writes out.old.items out.new.items (λ more.
        limit_text (limit_named network.now.limit)
        (policy_text (policy_named network.now.policy)
        (growth_text (growth_named network.now.growth) more)))) }
{
    limit(out, network.limit())?;
    policy(out, network.policy())?;
    growth(out, network.growth())
}

/// The line of the limit, if it is below the one that holds without a line.
fn limit(out: &mut Vec<u8>, limit: u32) -> Result<(), AllocError>
    ensures { OnOk result (Writes out.old.items out.new.items (limit_text (limit_named limit))) }
{
    if limit >= MAX_CAPACITY {
        return Ok(());
    }
    bytes(out, b"  limit ")?;
    natural(out, limit)?;
    bytes(out, b";\n")
}

/// The line of the policy, if it is another than the one that holds without a line.
fn policy(out: &mut Vec<u8>, policy: Policy) -> Result<(), AllocError>
    ensures { OnOk result (Writes out.old.items out.new.items (policy_text (policy_named policy))) }
{
    match policy {
        Policy::Cycles => Ok(()),
        Policy::All => policy_line(out, policy),
    }
}

fn policy_line(out: &mut Vec<u8>, policy: Policy) -> Result<(), AllocError>
    ensures { OnOk result (Writes out.old.items out.new.items (policy_text (Some policy))) }
{
    bytes(out, b"  policy ")?;
    bytes(out, policy_word(policy))?;
    bytes(out, b";\n")
}

/// The line of the growth, if it is another than the one that holds without a line.
fn growth(out: &mut Vec<u8>, growth: Growth) -> Result<(), AllocError>
    ensures { OnOk result (Writes out.old.items out.new.items (growth_text (growth_named growth))) }
{
    match growth {
        Growth::One => Ok(()),
        Growth::Double => growth_line(out, growth),
    }
}

fn growth_line(out: &mut Vec<u8>, growth: Growth) -> Result<(), AllocError>
    ensures { OnOk result (Writes out.old.items out.new.items (growth_text (Some growth))) }
{
    bytes(out, b"  grow ")?;
    bytes(out, growth_word(growth))?;
    bytes(out, b";\n")
}

fn channels(out: &mut Vec<u8>, network: &Network, names: &[Sequence<u8>]) -> Result<(), AllocError>
    requires { length names.now ≡ length network.now.channels }
    ensures { OnOk result (Writes out.old.items out.new.items
        (all_text network_item_text (paired channel_named names.now network.now.channels))) }
{
    for (c, own) in names.iter().enumerate() {
        channel(out, own.as_slice(), channel_spec(network, c))?;
    }
    Ok(())
}

fn channel(out: &mut Vec<u8>, name: &[u8], channel: ChannelSpec) -> Result<(), AllocError>
    ensures { OnOk result
        (Writes out.old.items out.new.items (network_item_text (channel_named name.now channel))) }
{
    match channel {
        ChannelSpec::Inner(cap) => {
            bytes(out, b"  channel ")?;
            bytes(out, name)?;
            capacity(out, cap)
        }
        ChannelSpec::Source => {
            bytes(out, b"  source ")?;
            bytes(out, name)?;
            bytes(out, b";\n")
        }
        ChannelSpec::Sink(cap) => {
            bytes(out, b"  sink ")?;
            bytes(out, name)?;
            capacity(out, cap)
        }
    }
}

/// A capacity, up to the end of its line.
fn capacity(out: &mut Vec<u8>, cap: u32) -> Result<(), AllocError>
    ensures { OnOk result
        (Writes out.old.items out.new.items
        (λ more. codes " cap " ++ (decimal cap ++ (codes ";\n" ++ more)))) }
{
    bytes(out, b" cap ")?;
    natural(out, cap)?;
    bytes(out, b";\n")
}

/// What kind of channel it is, by its capacity and its reader.
fn channel_spec(network: &Network, c: usize) -> ChannelSpec
    requires { c < length network.now.channels }
    ensures { result ≡ channel_at network.now c }
{
    match (network.cap_of(c), network.reader_of(c)) {
        (None, _) => ChannelSpec::Source,
        (Some(cap), End::Sink) => ChannelSpec::Sink(cap),
        (Some(cap), _) => ChannelSpec::Inner(cap),
    }
}

fn instances(out: &mut Vec<u8>, network: &Network, names: &NetworkNames) -> Result<(), AllocError>
    requires { length names.now.instances ≡ length network.now.instances }
    ensures { OnOk result (Writes out.old.items out.new.items
        (all_text network_item_text
        (paired (instance_named names.now) names.now.instances network.now.instances))) }
{
    for (p, own) in names.instances.as_slice().iter().enumerate() {
        bytes(out, b"  ")?;
        bytes(out, own.as_slice())?;
        bytes(out, b" = ")?;
        call(out, network, names, p)?;
        bytes(out, b";\n")?;
    }
    Ok(())
}

/// The process of an instance, its channels and its values.
fn call(
    out: &mut Vec<u8>,
    network: &Network,
    names: &NetworkNames,
    p: usize,
) -> Result<(), AllocError>
    requires { p < length network.now.instances }
    ensures { let x = name_at names.now.instances p in
        let i = instance_at network.now p in
        OnOk result (Writes out.old.items out.new.items (call_text (call_named names.now x i))) }
{
    process_name(out, names.processes.as_slice(), network.program_number(p))?;
    bytes(out, b"(")?;
    numbered(out, names.channels.as_slice(), network.ins(p))?;
    bytes(out, b";")?;
    outs_and_values(
        out,
        names.channels.as_slice(),
        network.outs(p),
        network.pars(p),
    )
}

/// The out channels and the values of an instance, and the parenthesis that closes it.
fn outs_and_values(
    out: &mut Vec<u8>,
    names: &[Sequence<u8>],
    numbers: &[usize],
    list: &[i64],
) -> Result<(), AllocError>
    ensures { OnOk result (Writes out.old.items out.new.items (λ more.
        outs_text (map (name_at names.now) numbers.now)
        (values_text (map literal_named list.now) (codes ")" ++ more)))) }
{
    outs(out, names, numbers)?;
    values(out, list)?;
    bytes(out, b")")
}

/// The name of a process with a number, and nothing if there is none.
fn process_name(
    out: &mut Vec<u8>,
    processes: &[ProcessNames],
    number: usize,
) -> Result<(), AllocError>
    ensures { OnOk result
        (Writes out.old.items out.new.items
        (name_text (name_at (map (λ p. p.name) processes.now) number))) }
{
    match processes.get(number) {
        Some(names) => bytes(out, names.name.as_slice()),
        None => Ok(()),
    }
}

/// The names with these numbers, joined by commas.
fn numbered(out: &mut Vec<u8>, names: &[Sequence<u8>], numbers: &[usize]) -> Result<(), AllocError>
    ensures { OnOk result
        (Writes out.old.items out.new.items
        (names_text (map (name_at names.now) numbers.now))) }
{
    let Some((first, others)) = numbers.split_first() else {
        return Ok(());
    };
    name(out, names, *first)?;
    for number in others {
        bytes(out, b", ")?;
        name(out, names, *number)?;
    }
    Ok(())
}

/// The out channels of an instance, after a space; nothing if there are none.
fn outs(out: &mut Vec<u8>, names: &[Sequence<u8>], numbers: &[usize]) -> Result<(), AllocError>
    ensures { OnOk result
        (Writes out.old.items out.new.items
        (outs_text (map (name_at names.now) numbers.now))) }
{
    if numbers.is_empty() {
        return Ok(());
    }
    bytes(out, b" ")?;
    numbered(out, names, numbers)
}

/// The values of an instance, after its second semicolon; nothing if there are none.
fn values(out: &mut Vec<u8>, values: &[i64]) -> Result<(), AllocError>
    ensures { OnOk result
        (Writes out.old.items out.new.items (values_text (map literal_named values.now))) }
{
    if values.is_empty() {
        return Ok(());
    }
    bytes(out, b"; ")?;
    crate::pieces::values(out, values)
}

/// A capacity or a limit without leading zeros.
fn natural(out: &mut Vec<u8>, n: u32) -> Result<(), AllocError>
    ensures { OnOk result (Writes out.old.items out.new.items (λ more. decimal n ++ more)) }
{
    let mut buffer = Buffer::new();
    bytes(out, buffer.format(n).as_bytes())
}
