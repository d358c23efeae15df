//! The rules that the tables of a network may break.
ghost use Rattle.std.specs.Prelude.{◌≡◌};
ghost use Rattle.kpn_net.specs.declared.fault.NetFault.TheVariants.{NoMemory};

use std::alloc::AllocError;
use thiserror::Error;

/// The first rule that the tables of a network break, with its number.
#[derive(Clone, Copy, Debug, PartialEq, Eq, Error)]
pub enum NetFault {
    /// 10: more than `MAX_PROCESSES` programs, or more instances or channels than a network of this size may have.
    #[error("there are more programs, instances or channels than the limits")]
    TooMany,
    /// 11: this instance names a program that is not there.
    #[error("instance {0} names a program that is not there")]
    NoSuchProgram(usize),
    /// 12: the numbers of in ports, out ports and parameters of this instance are not those of its program.
    #[error("instance {0} has other ports or parameters than its program")]
    PortCount(usize),
    /// 19: this instance names a channel that is not there.
    #[error("instance {0} names a channel that is not there")]
    NoSuchChannel(usize),
    /// 13: nothing writes this channel.
    #[error("nothing writes channel {0}")]
    NoWriter(usize),
    /// 14: more than one end writes this channel.
    #[error("more than one end writes channel {0}")]
    TwoWriters(usize),
    /// 15: nothing reads this channel.
    #[error("nothing reads channel {0}")]
    NoReader(usize),
    /// 16: more than one end reads this channel.
    #[error("more than one end reads channel {0}")]
    TwoReaders(usize),
    /// 17: the capacity of this channel is 0 or above the limit. If the limit itself is 0 or above `MAX_CAPACITY`, the
    /// fault has the number of channels instead.
    #[error("the capacity of channel {0} is 0 or above the limit")]
    Capacity(usize),
    /// 18: memory ran out.
    #[error("memory ran out")]
    NoMemory,
}

impl From<AllocError> for NetFault {
    ghost from_gives = { λ _ fault. fault ≡ NoMemory };

    fn from(_error: AllocError) -> NetFault {
        NetFault::NoMemory
    }
}
