// Selectors: their parts, how specific they are, and their normal form.
#![tactic(auto)]

mod bare;
mod ends;
pub mod laws;
mod names;
pub mod normal;
pub mod parse;
pub mod part;
mod phase;
mod placed;
pub mod print;
mod reading;
mod scan;
pub mod specificity;
mod tally;
#[cfg(test)]
mod tests;
mod wide;
