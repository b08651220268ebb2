// The walk of plugins over a style sheet's tree.
#![tactic(auto)]

mod call;
mod fits;
mod hooks;
mod known;
pub mod laws;
mod leaves;
mod pass;
mod reads;
mod spent;
mod turn;
pub mod walk;
pub mod walk_end;
