//! The tests of the crates below that a run of the program doesn't reach: calls that take memory, examples from outside that
//! show that a definition says what is meant, and the objects of the system.
#![tactic(auto)]

#[cfg(test)]
mod codes;
#[cfg(test)]
mod datagrams;
#[cfg(test)]
mod entities;
#[cfg(test)]
mod fields;
pub mod fixtures;
#[cfg(test)]
mod host;
#[cfg(test)]
mod memory;
#[cfg(test)]
mod messages;
#[cfg(test)]
mod nodes;
#[cfg(test)]
mod profiles;
#[cfg(test)]
mod sinks;
#[cfg(test)]
mod snapshots;
#[cfg(test)]
mod texts;
#[cfg(test)]
mod turns;
#[cfg(test)]
mod wires;
