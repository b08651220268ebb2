// The rules of the linter that look at the tree of a sheet, each in a file of its name.
#![tactic(auto)]

mod ancestors;
mod block_no_empty;
pub mod check;
mod comment_no_empty;
mod comment_whitespace_inside;
mod declaration_block_no_duplicate_custom_properties;
mod declaration_block_no_duplicate_properties;
mod declaration_block_no_shorthand_property_overrides;
mod declaration_no_important;
mod duplicates;
mod first_uses;
mod important;
mod keyframe_declaration_no_important;
pub mod laws;
mod max_nesting_depth;
mod names;
mod no_empty_source;
mod no_invalid_position_at_import_rule;
mod property;
mod shorthands;
mod stars;
#[cfg(test)]
mod tests;
