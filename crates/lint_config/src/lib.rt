// The linter's configuration: the names of the rules with what each takes, the settings of a file, and
// what rules find. The names, the options and the meaning of the rules are near to those of stylelint.
#![tactic(auto)]

mod characters;
pub mod config;
#[cfg(test)]
mod config_tests;
pub mod found;
mod keys;
pub mod laws;
mod options;
mod owned;
pub mod paths;
mod patterns;
pub mod reading;
pub mod resolve;
pub mod rule;
pub mod setting;
pub mod table;
#[cfg(test)]
mod tests;
