//! The direction of a drawing.

/// Which way the channels lead in a drawing of `kpn draw`.
#[derive(Clone, Copy, PartialEq, Eq)]
pub enum Direction {
    /// From left to right. What stands side by side in the network is drawn one below the other.
    LeftToRight,
    /// From top to bottom, for a wide network. What stands side by side in it is drawn so.
    TopToBottom,
}
