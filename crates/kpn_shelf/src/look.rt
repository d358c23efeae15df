//! Inputs that tell what has come, without waiting for more.
ghost use Rattle.kpn_shelf.specs.NonblockingRead.{LookConsumes, LooksAtMost};

use std::io;
use std::io::{Cursor, Read};

/// An input that can be looked at.
pub trait NonblockingRead: Read {
    /// Hands over what has come, as a read does, and waits for nothing. None says that nothing has come yet, or that
    /// this can't be told without waiting.
    fn look(&mut self, buf: &mut [u8]) -> io::Result<Option<usize>>
        ensures bound { LooksAtMost result buf.new }
        ensures bytes { LookConsumes (Self.remaining self.old) (Self.remaining self.new) result
            buf.new };

    /// Whether a look can tell what has come. If not, each look gives none, and only a read shows what there is.
    fn can_look(&self) -> bool;

    /// Waits a little while, if this input has a clock.
    fn linger(&self) {}
}

/// All has come.
impl NonblockingRead for &[u8] {
    fn look(&mut self, buf: &mut [u8]) -> io::Result<Option<usize>> {
        Ok(Some(self.read(buf)?))
    }

    fn can_look(&self) -> bool {
        true
    }
}

/// All has come.
impl NonblockingRead for Cursor<Vec<u8>> {
    fn look(&mut self, buf: &mut [u8]) -> io::Result<Option<usize>> {
        Ok(Some(self.read(buf)?))
    }

    fn can_look(&self) -> bool {
        true
    }
}
