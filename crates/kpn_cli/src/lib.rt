//! The program `kpn`: it answers what the words of a command line ask for, over a shelf of files, a reader and two
//! writers.
#![tactic(auto)]

mod advice;
mod causes;
mod concluding;
mod ends;
mod faults;
mod here;
mod keeping;
mod named;
mod options;
mod pieces;
mod program;
mod room;
mod sounds;
mod speaking;
mod stopped;
mod usage;
mod waits;
mod words;

pub use here::{Progress, answer_here};
pub use keeping::{BeginningKeeper, EndKeeper};
pub use kpn_shelf::{FileShelf, MemoryShelf, NonblockingRead, Ports, Shelf, System};
pub use program::command;
pub use speaking::Speaker;
pub use words::{SeenBytes, WordsWanted, words_for};
