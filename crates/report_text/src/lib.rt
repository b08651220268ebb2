// Reports on warnings, in three formats.
#![tactic(auto)]

mod counts;
pub mod format;
mod json_text;
mod laws;
mod lines;
pub mod report;
mod shared;
#[cfg(test)]
mod tests;
mod unix;
