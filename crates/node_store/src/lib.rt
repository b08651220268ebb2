// A style sheet's nodes by number: one tree, the loose trees, the text that they were read from, and the log.
#![tactic(auto)]

pub mod boxed_text;
pub mod copies;
#[cfg(test)]
mod copy_tests;
pub mod copying;
pub mod cursors;
pub mod edits;
pub mod fault;
pub mod fields;
pub mod frame;
pub mod id;
pub mod item;
pub mod laws;
pub mod log;
pub mod parts;
pub mod seat;
#[cfg(test)]
mod tests;
#[cfg(test)]
mod trees;
pub mod work;

pub use node_rows::node_list::NodeAt;
