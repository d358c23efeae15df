//! Descriptions of networks, read and printed.
//!
//! A description is a text. `read_network` returns the one document that it spells, a network with the names of its
//! parts, or the fault of the first phase that finds one. The phases are the tokens, the grammar, the names, the
//! programs in order, and the network. `print_network` returns the canonical text of a document: two spaces for each
//! level, one statement or item on each line, and no more words than it needs. This crate also passes on the calls of
//! `kpn_text_items` that read and write item files, and `Language`.
#![tactic(auto)]

mod blocks;
mod canonical_laws;
mod document;
mod expressions;
mod fault;
mod laws;
mod names;
mod network;
mod networks;
mod pieces;
mod printing;
mod processes;
mod reading;
mod rows;
mod tokens;

pub use document::Document;
pub use fault::TextFault;
pub use kpn_text_items::{ItemFault, WriteFault, read_all, read_items, write_items};
pub use kpn_text_tokens::Language;
pub use laws::{names_stand_once, phases_give_what_is_spelled, read_again, spelled_once};
pub use network::network_size;
pub use printing::print_network;
pub use reading::read_network;
pub use tokens::meant_tokens;
