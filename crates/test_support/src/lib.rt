//! What tests of several crates use: worked descriptions and heaps that are full.
#![tactic(auto)]

pub mod heaps;
pub mod texts;
