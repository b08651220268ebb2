// Source maps of revision 3: segments, and their text both ways.
#![tactic(auto)]

mod last;
pub mod laws;
pub mod reading;
pub mod segment;
#[cfg(test)]
mod tests;
mod vlq;
pub mod writing;
