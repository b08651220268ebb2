// Prints a style sheet's tree.
#![tactic(auto)]

mod before;
mod body;
mod ending;
#[cfg(test)]
mod entries;
mod output;
pub mod printed;
mod reads;
mod steps;
#[cfg(test)]
mod tests;
