//! Tests of the crates that read and print texts, traces too: an output that fails, texts that end early, and what no
//! command shows. They need only public calls, so they are in a crate above, and each of those
//! crates is proved once. Rows that only need a comparison are in `check_examples`.
#![tactic(auto)]

#[cfg(test)]
mod documents;
#[cfg(test)]
mod items;
#[cfg(test)]
mod lines;
#[cfg(test)]
mod memory;
#[cfg(test)]
mod tokens;
