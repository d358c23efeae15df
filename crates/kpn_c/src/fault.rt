//! Faults as numbers.
ghost use Rattle.std.specs.Prelude.{◌≡◌};
ghost use Rattle.kpn_c.specs.Faults.{fault_at, fault_alone, number_of_program, fault_of_net, fault_of_text, number_of_refusal};

use kpn_book::Refused;
use kpn_lang::ProgramFault;
use kpn_net::NetFault;
use kpn_text::TextFault;

/// The number of a fault, and its place: a byte, counted from 0, or the number of a process, an instance or a channel.
#[derive(Clone, Copy)]
pub struct NumberedFault {
    pub number: u32,
    pub place: Option<usize>,
}

/// The fault of a description.
pub fn fault_of(fault: TextFault) -> NumberedFault
    ensures { result ≡ fault_of_text fault }
{
    match fault {
        TextFault::Token(at) => at_place(20, at),
        TextFault::Grammar(at) => at_place(21, at),
        TextFault::UnknownName(at) => at_place(22, at),
        TextFault::DoubleName(at) => at_place(23, at),
        TextFault::TooLong(at) => at_place(24, at),
        TextFault::Program(process, fault) => at_place(number_of_program(fault), process),
        TextFault::Net(fault) => fault_of_net(fault),
        TextFault::NoMemory => alone(28),
    }
}

/// The number of the reason why a call of a session is refused.
pub fn number_of(cause: Refused) -> u32
    ensures { result ≡ number_of_refusal cause }
{
    match cause {
        Refused::NotHeld => 40,
        Refused::Stranger => 41,
        Refused::NoMemory => 42,
        Refused::NoSuchEnd => 43,
        Refused::SourceClosed => 44,
        Refused::Full(_) => 45,
        Refused::SinkLeft => 46,
    }
}

fn number_of_program(fault: ProgramFault) -> u32
    ensures { result ≡ number_of_program fault }
{
    match fault {
        ProgramFault::TooMany => 1,
        ProgramFault::NoSuchBlock => 2,
        ProgramFault::BlockOrder => 3,
        ProgramFault::NoSuchVar => 4,
        ProgramFault::NoSuchPort => 5,
        ProgramFault::TooDeep => 6,
        ProgramFault::NoMemory => 7,
    }
}

fn fault_of_net(fault: NetFault) -> NumberedFault
    ensures { result ≡ fault_of_net fault }
{
    match fault {
        NetFault::TooMany => alone(10),
        NetFault::NoSuchProgram(instance) => at_place(11, instance),
        NetFault::PortCount(instance) => at_place(12, instance),
        NetFault::NoWriter(channel) => at_place(13, channel),
        NetFault::TwoWriters(channel) => at_place(14, channel),
        NetFault::NoReader(channel) => at_place(15, channel),
        NetFault::TwoReaders(channel) => at_place(16, channel),
        NetFault::Capacity(channel) => at_place(17, channel),
        NetFault::NoMemory => alone(18),
        NetFault::NoSuchChannel(instance) => at_place(19, instance),
    }
}

fn at_place(number: u32, place: usize) -> NumberedFault
    ensures { result ≡ fault_at number place }
{
    NumberedFault {
        number,
        place: Some(place),
    }
}

fn alone(number: u32) -> NumberedFault
    ensures { result ≡ fault_alone number }
{
    NumberedFault {
        number,
        place: None,
    }
}
