// The edit calls of a style sheet's tree, as a plugin makes them.
#![tactic(auto)]

pub mod laws;
pub mod making;
pub mod moving;
mod placing;
#[cfg(test)]
mod samples;
pub mod setting;
mod spot;
#[cfg(test)]
mod tests;
