// Sheets that are empty but for white space.
ghost use Rattle.std.specs.Prelude.{◌≡◌, ◌<◌, ◌++◌, ◌&&◌, OnOk, length, map};
ghost use Rattle.std.specs.List.{list_all};
ghost use Rattle.std.specs.Str.{chars};
ghost use Rattle.css_text.specs.Characters.{is_space as is_space_of};
ghost use Rattle.node_rows.specs.NumberTrees.{tree_at};
ghost use Rattle.node_store.specs.Fresh.{IsFresh};
ghost use Rattle.rule_sites.specs.ContextAt.{context_at};
ghost use Rattle.rule_sites.specs.Finding.{site_of};
ghost use Rattle.rules_tree.specs.BlockNoEmpty.{is_empty as is_empty_of};
ghost use Rattle.rules_tree.specs.NoEmptySource.{is_white, is_white_root, findings};

use crate::block_no_empty::is_empty;
use css_text::txt::Txt;
use css_tree::node::NodeText;
use lint_config::found::Site;
use lint_config::rule::Rule;
use node_store::id::NodeId;
use node_store::work::Work;
use rule_sites::reads;
use rule_sites::sites::push_message;
use std::alloc::{AllocError, Global};

/// Whether the character is space, tab, LF, CR or FF.
#[tactic(auto, unfolding(css_text::specs::Characters::is_space))]
fn is_space(c: char) -> bool
    ensures { result ≡ is_space_of c }
{
    c == ' ' || c == '\t' || c == '\n' || c == '\r' || c == '\u{c}'
}

/// Whether the text is white space alone.
pub fn is_white_text(text: &str) -> bool
    ensures { result ≡ list_all is_space_of (chars text.now) }
{
    text.chars().all(|c| is_space(c))
}

fn is_white(after: &Option<Txt>) -> bool
    ensures { result ≡ is_white after.now }
{
    match after {
        Some(text) => is_white_text(text.as_str()),
        None => true,
    }
}

fn is_white_root(text: &NodeText) -> bool
    ensures { result ≡ is_white_root text.now }
{
    match text {
        NodeText::Root { block, .. } => is_white(&block.after),
        _ => false,
    }
}

fn is_empty_sheet(work: &Work, n: NodeId) -> bool
    requires { n < length work.now.nodes }
    ensures { result ≡ (is_white_root (tree_at work.now.nodes n).text && is_empty_of (tree_at work.now.nodes n).children) }
{
    is_white_root(reads::text_of(work, n)) && is_empty(work, n)
}

/// Adds the site of the node, at the sheet's start, where it is the root of a sheet that is empty but for white space.
///
/// # Errors
///
/// Only when out of memory.
#[tactic(auto, unfolding(crate::specs::NoEmptySource::findings, rule_sites::specs::ContextAt::context_at))]
pub fn visit(alloc: Global, sites: &mut Vec<Site>, work: &Work, n: NodeId) -> Result<(), AllocError>
    requires fresh { IsFresh work.now }
    requires given { n < length work.now.nodes }
    ensures { OnOk result (sites.new.items ≡ sites.old.items ++ map (site_of work.now.text Rule.NoEmptySource) (findings (context_at work.now.nodes n))) }
{
    if is_empty_sheet(work, n) {
        push_message(
            alloc,
            sites,
            work,
            Rule::NoEmptySource,
            0,
            "Unexpected empty source",
        )?;
    }
    Ok(())
}
