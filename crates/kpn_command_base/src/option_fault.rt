//! Why the names that options give are refused.

/// Why the name in an option is refused. Options are counted from 0.
#[derive(Clone, Copy)]
pub enum OptionFault {
    /// 22: this option names no such end of the network.
    Unknown(usize),
    /// 23: this option names an end that an earlier one names.
    Double(usize),
}
