//! Tests of the pool, by public calls only: what workers, gates, seats and runs by workers do that no clause can say.
//! Each ends on any schedule, since whoever waits for somebody else waits for a bounded number of turns.
#![tactic(auto)]

#[cfg(test)]
mod abandoning;
#[cfg(test)]
mod always;
#[cfg(test)]
mod batching;
#[cfg(test)]
mod commits;
#[cfg(test)]
mod endings;
#[cfg(test)]
mod flag;
#[cfg(test)]
mod gates;
#[cfg(test)]
mod holding;
#[cfg(test)]
mod locking;
#[cfg(test)]
mod looking;
#[cfg(test)]
mod meeting;
#[cfg(test)]
mod moving;
#[cfg(test)]
mod networks;
#[cfg(test)]
mod outside;
#[cfg(test)]
mod refusals;
#[cfg(test)]
mod regions;
#[cfg(test)]
mod resting;
#[cfg(test)]
mod runs;
#[cfg(test)]
mod serving;
#[cfg(test)]
mod turns;
#[cfg(test)]
mod waking;
#[cfg(test)]
mod working;
