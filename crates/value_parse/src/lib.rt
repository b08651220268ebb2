// Values: their parts, and numbers with their units.
//
// The grammar of values stands in css_text's specs, ValueParts, where other definitions cite it; specs/Tree says which parts of the
// grammar the parts of a list are, and specs/Number what a number with its unit is. Lemmas for callers:
//   proofs/Trees               the parts and the text of a list by its first part; one part more
//   css_text's ValueParts      a text has at most one list of parts; what a parenthesis is
//   css_text's ValueRows       parts before others: their text, their conditions, their bytes
#![tactic(auto)]

pub mod laws;
pub mod number;
pub mod parse;
pub mod part;
pub mod print;
mod scan;
#[cfg(test)]
mod tests;
