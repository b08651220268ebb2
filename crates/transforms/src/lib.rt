// The transforms that are shipped.
#![tactic(auto)]

pub mod acts;
pub mod dropping;
mod edits;
mod hex;
pub mod shelf;
pub mod short_hex;
#[cfg(test)]
mod tests;
mod texts;
pub mod unnest;
