// The nodes of a forest by number: texts, links and marks, in rows.
#![tactic(auto)]

pub mod changes;
mod ends;
pub mod finger;
pub mod growth;
pub mod laws;
pub mod links;
pub mod marks;
pub mod node_list;
pub mod order;
pub mod packed;
pub mod rows;
mod tally;
#[cfg(test)]
mod tests;
pub mod texts;
