// The nodes of a style sheet, and the definitions of its plain tree, of printing, of reading and of faults.
#![tactic(auto)]

pub mod clean;
pub mod fault;
pub mod laws;
pub mod node;
