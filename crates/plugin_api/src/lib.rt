// Plugins: visitors, their hooks, and what each call of a visitor may do.
#![tactic(auto)]

pub mod fn_visitor;
pub mod hook;
pub mod laws;
pub mod plugin;
pub mod recorder;
#[cfg(test)]
mod tests;
pub mod visitor;
