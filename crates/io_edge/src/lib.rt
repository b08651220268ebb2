// What a program reads from and writes to: as traits, in memory, and real.
//
// A contract that speaks of a source, a sink or a folder speaks of its ghost members: the bytes,
// where the object tells them, and the count of its faults, which every object tells.
#![tactic(auto)]

pub mod edge;
pub mod folder;
pub mod memory;
pub mod real;
pub mod real_folder;
mod stream;
#[cfg(test)]
mod tests;
pub mod whole;
