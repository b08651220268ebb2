// The program's top call: its words and its input are read, and then its answer is written.
#![tactic(auto)]

mod asked;
mod carry_out;
mod command;
#[cfg(test)]
mod failing_tests;
pub mod fault;
mod input;
pub mod laws;
pub mod lint;
#[cfg(test)]
mod lint_tests;
mod plan;
#[cfg(test)]
mod plugin_tests;
mod prepare;
mod prepared;
pub mod run;
mod target;
#[cfg(test)]
mod test_runs;
pub mod transform;
#[cfg(test)]
mod transform_tests;
