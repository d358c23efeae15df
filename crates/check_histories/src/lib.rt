//! Worked networks, a history of each, and lists of events that no run brings; networks in parts, joined runs of them,
//! and orders of events that no run of the whole brings: what the definitions say of them. Here a definition is compared
//! with what is known from elsewhere, so a wrong definition shows.
#![tactic(auto)]

pub mod completed;
pub mod ends;
pub mod parts;
pub mod seen;
pub mod worked;
pub mod wrong;
