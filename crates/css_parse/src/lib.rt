// Reading: from a text to the nodes of its style sheet, or to its first fault.
#![tactic(auto)]

mod fields;
mod found;
mod gap;
mod mark;
mod nodes;
#[cfg(test)]
mod odd_marks;
#[cfg(test)]
mod odd_texts;
pub mod parse;
mod parser;
mod piece;
mod plain;
mod plain_nodes;
mod plain_steps;
mod read;
mod run;
mod spaces;
#[cfg(test)]
mod tests;
mod texts;
mod turn;
