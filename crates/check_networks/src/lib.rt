//! Tests of networks, channels, cycles of waiting processes, histories, regions and machines, and
//! audits, only by public calls: what no clause says, memory that runs out, and worked rows whose values come from
//! outside.
#![tactic(auto)]

#[cfg(test)]
mod audits;
#[cfg(test)]
mod channels;
#[cfg(test)]
mod cycles;
#[cfg(test)]
mod feeding;
#[cfg(test)]
mod histories;
#[cfg(test)]
mod networks;
#[cfg(test)]
mod regions;
#[cfg(test)]
mod scenes;
#[cfg(test)]
mod worked;
