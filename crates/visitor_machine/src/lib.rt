// The walk of plugins over a tree as a machine, and what its runs leave.
#![tactic(auto)]

pub mod laws;
