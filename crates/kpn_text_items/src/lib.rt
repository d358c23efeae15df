//! Item files: lists of whole numbers from -2^63 to 2^63-1, one to a line, read from any reader and
//! written to any writer. `specs/ItemLine.antt` and `specs/ItemFile.antt` say what a file spells.
#![tactic(auto)]

mod fault;
mod input;
mod item_file;
mod item_line;
pub mod laws;

pub use fault::{ItemFault, WriteFault};
pub use input::{read_all, read_some, read_up_to};
pub use item_file::{items_of, line_feed, read_items, without_carriage_return, write_items};
pub use item_line::item_of_line;
