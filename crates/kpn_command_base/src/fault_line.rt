//! Fault lines: how the program reports a fault on standard error.
ghost use Rattle.std.specs.Prelude.{◌≡◌, ◌++◌, [], ◌∷◌, Some, None};
ghost use Rattle.kpn_command_base.specs.Told.{AreWritten};
ghost use Rattle.kpn_command_base.specs.FaultLine.{told_line, input_fault_line, output_fault_line, program_fault_line, net_fault_line, text_fault_line, name_fault_line, trace_fault_line};

use crate::option_fault::OptionFault;
use crate::telling::{put, put_more, put_number, put_place};
use kpn_lang::ProgramFault;
use kpn_net::NetFault;
use kpn_text::TextFault;
use kpn_text_items::{ItemFault, WriteFault};
use kpn_trace::TraceFault;
use std::fmt;
use std::io::Write;

/// A fault as the program reports it: `kpn: NUMBER NAME`, and ` at PLACE` if it has a place.
#[derive(Clone, Copy)]
pub(crate) struct FaultLine {
    /// The number of the fault.
    pub number: u8,
    /// The name of the fault.
    pub name: &'static str,
    /// The place, if it has one: a line, counted from 1, or else a byte, a process, an
    /// instance, a channel or an option, counted from 0.
    pub place: Option<usize>,
}

impl fmt::Display for FaultLine {
    ghost use Rattle.std.specs.Prelude.{Some};
    ghost use Rattle.kpn_command_base.specs.FaultLine.{told_line};

    ghost output = { λ fault. Some (told_line fault) };

    fn fmt<W: fmt::Write>(&self, f: &mut fmt::Formatter<W>) -> fmt::Result {
        write!(f, "kpn: {} {}", self.number, self.name)?;
        if let Some(place) = self.place {
            write!(f, " at {place}")?;
        }
        Ok(())
    }
}

impl FaultLine {
    /// Writes the line and a line feed, as far as they are taken. It returns whether all is.
    pub(crate) fn tell<E: Write>(&self, err: &mut E) -> bool
        ensures { AreWritten (E.contents err.old) (E.contents err.new)
            (told_line self.now ++ 10 ∷ []) result }
    {
        let whole = put(err, b"kpn: ");
        let whole = put_number(whole, err, self.number as usize);
        let whole = put_more(whole, err, b" ");
        let whole = put_more(whole, err, self.name.as_bytes());
        let whole = put_place(whole, err, self.place);
        put_more(whole, err, b"\n")
    }

    /// A fault that has no place.
    pub(crate) fn new(number: u8, name: &'static str) -> FaultLine
        ensures { result ≡ record { number = number; name = name.entry; place = None } }
    {
        FaultLine {
            number,
            name,
            place: None,
        }
    }

    /// A fault at a place.
    pub(crate) fn at(number: u8, name: &'static str, place: usize) -> FaultLine
        ensures { result ≡ record { number = number; name = name.entry; place = Some place } }
    {
        FaultLine {
            number,
            name,
            place: Some(place),
        }
    }

    /// How the program reports a fault of an input.
    pub(crate) fn of_input(fault: &ItemFault) -> FaultLine
        ensures { told_line result ≡ input_fault_line fault.now }
    {
        match fault {
            ItemFault::BadItem(line) => FaultLine::at(25, "BadItem", *line),
            ItemFault::Read => FaultLine::new(26, "Read"),
            ItemFault::NoMemory => FaultLine::new(28, "NoMemory"),
        }
    }

    /// How the program reports a fault of an output.
    pub(crate) fn of_output(fault: &WriteFault) -> FaultLine
        ensures { told_line result ≡ output_fault_line fault.now }
    {
        match fault {
            WriteFault::Write => FaultLine::new(27, "Write"),
            WriteFault::NoMemory => FaultLine::new(42, "NoMemory"),
        }
    }

    /// How the program reports that the program of a process breaks a rule.
    pub(crate) fn of_program(process: usize, fault: ProgramFault) -> FaultLine
        ensures { told_line result ≡ program_fault_line process fault }
    {
        match fault {
            ProgramFault::TooMany => FaultLine::at(1, "TooMany", process),
            ProgramFault::NoSuchBlock => FaultLine::at(2, "NoSuchBlock", process),
            ProgramFault::BlockOrder => FaultLine::at(3, "BlockOrder", process),
            ProgramFault::NoSuchVar => FaultLine::at(4, "NoSuchVar", process),
            ProgramFault::NoSuchPort => FaultLine::at(5, "NoSuchPort", process),
            ProgramFault::TooDeep => FaultLine::at(6, "TooDeep", process),
            ProgramFault::NoMemory => FaultLine::new(28, "NoMemory"),
        }
    }

    /// How the program reports that tables break a rule of networks.
    pub(crate) fn of_net(fault: NetFault) -> FaultLine
        ensures { told_line result ≡ net_fault_line fault }
    {
        match fault {
            NetFault::TooMany => FaultLine::new(10, "TooMany"),
            NetFault::NoSuchProgram(instance) => FaultLine::at(11, "NoSuchProgram", instance),
            NetFault::PortCount(instance) => FaultLine::at(12, "PortCount", instance),
            NetFault::NoSuchChannel(instance) => FaultLine::at(19, "NoSuchChannel", instance),
            NetFault::NoWriter(channel) => FaultLine::at(13, "NoWriter", channel),
            NetFault::TwoWriters(channel) => FaultLine::at(14, "TwoWriters", channel),
            NetFault::NoReader(channel) => FaultLine::at(15, "NoReader", channel),
            NetFault::TwoReaders(channel) => FaultLine::at(16, "TwoReaders", channel),
            NetFault::Capacity(channel) => FaultLine::at(17, "Capacity", channel),
            NetFault::NoMemory => FaultLine::new(28, "NoMemory"),
        }
    }

    /// How the program reports that a text is no description of a network.
    pub(crate) fn of_text(fault: TextFault) -> FaultLine
        ensures { told_line result ≡ text_fault_line fault }
    {
        match fault {
            TextFault::TooLong(byte) => FaultLine::at(24, "TooLong", byte),
            TextFault::Token(byte) => FaultLine::at(20, "Token", byte),
            TextFault::Grammar(byte) => FaultLine::at(21, "Grammar", byte),
            TextFault::UnknownName(byte) => FaultLine::at(22, "UnknownName", byte),
            TextFault::DoubleName(byte) => FaultLine::at(23, "DoubleName", byte),
            TextFault::Program(process, fault) => FaultLine::of_program(process, fault),
            TextFault::Net(fault) => FaultLine::of_net(fault),
            TextFault::NoMemory => FaultLine::new(28, "NoMemory"),
        }
    }

    /// How the program reports that bytes are no trace.
    pub(crate) fn of_trace(fault: &TraceFault) -> FaultLine
        ensures { told_line result ≡ trace_fault_line fault.now }
    {
        match fault {
            TraceFault::BadEvent(line) => FaultLine::at(30, "BadEvent", *line),
            TraceFault::BadHead => FaultLine::new(31, "BadHead"),
            TraceFault::NoMemory => FaultLine::new(32, "NoMemory"),
        }
    }

    /// How the program reports that an option names no end of a network, or one that an earlier option names.
    pub(crate) fn of_name(fault: OptionFault) -> FaultLine
        ensures { told_line result ≡ name_fault_line fault }
    {
        match fault {
            OptionFault::Unknown(option) => FaultLine::at(22, "UnknownName", option),
            OptionFault::Double(option) => FaultLine::at(23, "DoubleName", option),
        }
    }
}
