// Tests across crates, on sheets that are read from their text: edit calls, and walks with plugins that edit. What those
// plugins do is public, for the tests of the crates above.
#![tactic(auto)]

pub mod deeds;
#[cfg(test)]
mod edit_model;
#[cfg(test)]
mod edits;
#[cfg(test)]
mod ends;
#[cfg(test)]
mod printed;
#[cfg(test)]
mod rows;
pub mod script;
pub mod shelves;
#[cfg(test)]
mod shown;
#[cfg(test)]
mod walks;
