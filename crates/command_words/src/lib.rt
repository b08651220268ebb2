// The command's words: which command they ask for, and with which options.
#![tactic(auto)]

pub mod commands;
pub mod examples;
mod numbers;
mod options;
mod picked;
#[cfg(test)]
mod tests;
