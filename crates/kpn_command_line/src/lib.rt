//! The words of a command line, read by `clap`: which command they ask for, and what help says.
#![tactic(auto)]

mod command_line;
mod request;
mod words;

pub use request::{Request, WordsFault};
pub use words::read_words;
