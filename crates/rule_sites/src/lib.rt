// What lint rules look at, and how what they find is listed: the nodes of a sheet with their siblings and
// ancestors, and the sites of rules in order.
#![tactic(auto)]

pub mod blocks;
pub mod keyframes;
pub mod laws;
pub mod order;
pub mod reads;
pub mod sites;
#[cfg(test)]
mod tests;
