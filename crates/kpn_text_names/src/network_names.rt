//! The names of a network by number, each in memory of its own.

use kpn_lang::Sequence;

/// Cells in a row with a name: an array or a table.
#[derive(Drop)]
pub struct NamedRow {
    pub name: Sequence<u8>,
    /// The number of the first cell.
    pub base: usize,
    /// How many cells they are.
    pub size: usize,
}

/// A table before the processes.
#[derive(Drop)]
pub struct NamedTable {
    pub name: Sequence<u8>,
    pub values: Sequence<i64>,
}

/// The names of a process, each table by number.
#[derive(Drop)]
pub struct ProcessNames {
    pub name: Sequence<u8>,
    /// The in ports.
    pub ins: Sequence<Sequence<u8>>,
    /// The out ports.
    pub outs: Sequence<Sequence<u8>>,
    /// The variables: the parameters first, then the locals.
    pub vars: Sequence<Sequence<u8>>,
    /// The arrays.
    pub arrays: Sequence<NamedRow>,
    /// The tables: those of the process first, then the shared ones that it names.
    pub tables: Sequence<NamedRow>,
    /// How many of the tables are those of the process.
    pub own: usize,
}

/// The names of a network, each table by number.
pub struct NetworkNames {
    /// The tables before the processes.
    pub tables: Sequence<NamedTable>,
    /// The processes, each with the names in it.
    pub processes: Sequence<ProcessNames>,
    pub instances: Sequence<Sequence<u8>>,
    /// The channels, with sources and sinks among them.
    pub channels: Sequence<Sequence<u8>>,
}

/// It is written out, so that a crate that drops the names proves nothing about what is inside.
impl Drop for NetworkNames {
    fn drop(self) {
        let NetworkNames {
            tables,
            processes,
            instances,
            channels,
        } = self;
        drop(tables);
        drop(processes);
        drop(instances);
        drop(channels);
    }
}
