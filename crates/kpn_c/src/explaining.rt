//! Why a text is no description, in words: the number and the name of the fault, and where it is.
ghost use Rattle.std.specs.Prelude.{◌≡◌, IfOk, string_bytes};
ghost use Rattle.kpn_c.specs.Explaining.{AppendsWords, ExplainsText, ExplainsTextFault, fault_words, place_words, place_words_if, name_of_text, name_of_program, name_of_net, kind_of_text, kind_of_net};

use crate::codes::{NO_MEMORY, TEXT_NO_MEMORY};
use crate::fault::fault_of;
use crate::positions::position_at;
use crate::slices::put_text;
use crate::texts::check;
use kpn_lang::ProgramFault;
use kpn_net::NetFault;
use kpn_text::TextFault;
use std::alloc::{AllocError, Global};

/// What the place of a fault counts.
#[derive(Clone, Copy)]
pub enum PlaceKind {
    Byte,
    Process,
    Instance,
    Channel,
}

/// Tells in words why a text is no description. A text that is one has no words, nor has one for which memory ran out.
#[unsafe(no_mangle)]
pub extern "C" fn kpn_c_explain(
    alloc: Global,
    text: &[u8],
    room: &mut [u8],
    length: &mut usize,
) -> u32
    ensures { ExplainsText text.now result length.new room.old room.new }
{
    match check(alloc, text) {
        Ok(()) => put_text(room, length, b""),
        Err(TextFault::NoMemory) => TEXT_NO_MEMORY,
        Err(fault) => put_words(alloc, text, fault, room, length),
    }
}

/// Puts the words of a fault of a text to the front of a slice if they fit there.
fn put_words(
    alloc: Global,
    text: &[u8],
    fault: TextFault,
    room: &mut [u8],
    length: &mut usize,
) -> u32
    ensures { ExplainsTextFault text.now fault result length.new room.old room.new }
{
    match fault_words(alloc, text, fault) {
        Ok(words) => put_text(room, length, words.as_str().as_bytes()),
        Err(_) => NO_MEMORY,
    }
}

/// The words of a fault of a text.
fn fault_words(alloc: Global, text: &[u8], fault: TextFault) -> Result<String, AllocError>
    ensures { IfOk result (λ words. string_bytes words ≡ fault_words text.now fault) }
{
    let mut words = String::new(alloc);
    push_words(&mut words, text, fault)?;
    Ok(words)
}

/// The number and the name of a fault, and its place if it has one.
fn push_words(words: &mut String, text: &[u8], fault: TextFault) -> Result<(), AllocError>
    ensures { AppendsWords result words.old words.new (fault_words text.now fault) }
{
    let told = fault_of(fault);
    let (number, name) = (told.number, name_of_text(fault));
    write!(words, "{number} {name}")?;
    match told.place {
        Some(place) => push_place(words, text, kind_of_text(fault), place),
        None => Ok(()),
    }
}

/// The place of a fault.
fn push_place(
    words: &mut String,
    text: &[u8],
    kind: PlaceKind,
    place: usize,
) -> Result<(), AllocError>
    ensures { AppendsWords result words.old words.new (place_words text.now kind place) }
{
    match kind {
        PlaceKind::Byte => push_byte(words, text, place),
        PlaceKind::Process => write!(words, " at process {place}"),
        PlaceKind::Instance => write!(words, " at instance {place}"),
        PlaceKind::Channel => write!(words, " at channel {place}"),
    }
}

fn push_byte(words: &mut String, text: &[u8], place: usize) -> Result<(), AllocError>
    ensures { AppendsWords result words.old words.new (place_words text.now PlaceKind.Byte place) }
{
    let position = position_at(text, place);
    let (line, column) = (position.line, position.column);
    write!(words, " at byte {place}, line {line}, column {column}")
}

/// What the place of a fault of a description counts.
fn kind_of_text(fault: TextFault) -> PlaceKind
    ensures { result ≡ kind_of_text fault }
{
    match fault {
        TextFault::Program(_, _) => PlaceKind::Process,
        TextFault::Net(fault) => kind_of_net(fault),
        _ => PlaceKind::Byte,
    }
}

fn kind_of_net(fault: NetFault) -> PlaceKind
    ensures { result ≡ kind_of_net fault }
{
    match fault {
        NetFault::NoSuchProgram(_) | NetFault::PortCount(_) => PlaceKind::Instance,
        NetFault::NoSuchChannel(_) => PlaceKind::Instance,
        _ => PlaceKind::Channel,
    }
}

/// The name of a fault of a description.
fn name_of_text(fault: TextFault) -> &'static str
    ensures { result.now ≡ name_of_text fault }
{
    match fault {
        TextFault::Token(_) => "Token",
        TextFault::Grammar(_) => "Grammar",
        TextFault::UnknownName(_) => "UnknownName",
        TextFault::DoubleName(_) => "DoubleName",
        TextFault::TooLong(_) => "TooLong",
        TextFault::Program(_, fault) => name_of_program(fault),
        TextFault::Net(fault) => name_of_net(fault),
        TextFault::NoMemory => "NoMemory",
    }
}

fn name_of_program(fault: ProgramFault) -> &'static str
    ensures { result.now ≡ name_of_program fault }
{
    match fault {
        ProgramFault::TooMany => "TooMany",
        ProgramFault::NoSuchBlock => "NoSuchBlock",
        ProgramFault::BlockOrder => "BlockOrder",
        ProgramFault::NoSuchVar => "NoSuchVar",
        ProgramFault::NoSuchPort => "NoSuchPort",
        ProgramFault::TooDeep => "TooDeep",
        ProgramFault::NoMemory => "NoMemory",
    }
}

fn name_of_net(fault: NetFault) -> &'static str
    ensures { result.now ≡ name_of_net fault }
{
    match fault {
        NetFault::TooMany => "TooMany",
        NetFault::NoSuchProgram(_) => "NoSuchProgram",
        NetFault::PortCount(_) => "PortCount",
        NetFault::NoWriter(_) => "NoWriter",
        NetFault::TwoWriters(_) => "TwoWriters",
        NetFault::NoReader(_) => "NoReader",
        NetFault::TwoReaders(_) => "TwoReaders",
        NetFault::Capacity(_) => "Capacity",
        NetFault::NoMemory => "NoMemory",
        NetFault::NoSuchChannel(_) => "NoSuchChannel",
    }
}
