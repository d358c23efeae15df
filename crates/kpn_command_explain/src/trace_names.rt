//! Processes and channels of a document in a text.

use kpn_text::Document;
use std::fmt;
use std::fmt::{Display, Formatter};

/// A process: by its name, or by its number if the network has no such process.
#[derive(Clone, Copy)]
pub(crate) struct ProcessName<'d> {
    document: &'d Document,
    number: usize,
}

/// The process of this number.
pub(crate) fn process(document: &Document, number: usize) -> ProcessName<'_> {
    ProcessName { document, number }
}

impl Display for ProcessName<'_> {
    fn fmt<W: fmt::Write>(&self, f: &mut Formatter<W>) -> fmt::Result {
        let number = self.number;
        if number < self.document.network().instances() {
            let name = self.document.instance_name(number);
            write!(f, "`{name}`")
        } else {
            write!(f, "process {number}")
        }
    }
}

/// A channel: by its name, or by its number if the network has no such channel.
#[derive(Clone, Copy)]
pub(crate) struct ChannelName<'d> {
    document: &'d Document,
    number: usize,
}

/// The channel of this number.
pub(crate) fn channel(document: &Document, number: usize) -> ChannelName<'_> {
    ChannelName { document, number }
}

impl Display for ChannelName<'_> {
    fn fmt<W: fmt::Write>(&self, f: &mut Formatter<W>) -> fmt::Result {
        let number = self.number;
        if number < self.document.network().channels() {
            let name = self.document.channel_name(number);
            write!(f, "`{name}`")
        } else {
            write!(f, "channel {number}")
        }
    }
}
