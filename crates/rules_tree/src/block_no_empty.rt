// Blocks without nodes in them.
ghost use Rattle.std.specs.Prelude.{◌≡◌, ◌<◌, ◌++◌, ◌&&◌, OnOk, length, map};
ghost use Rattle.node_rows.specs.NumberTrees.{tree_at};
ghost use Rattle.node_store.specs.Fresh.{IsFresh};
ghost use Rattle.rule_sites.specs.Blocks.{is_block};
ghost use Rattle.rule_sites.specs.ContextAt.{context_at};
ghost use Rattle.rule_sites.specs.Finding.{site_of};
ghost use Rattle.rules_tree.specs.BlockNoEmpty.{is_empty, findings};

use lint_config::found::Site;
use lint_config::rule::Rule;
use node_store::id::NodeId;
use node_store::work::Work;
use rule_sites::sites::push_message;
use rule_sites::{blocks, reads};
use std::alloc::{AllocError, Global};

/// Whether no node stands in the node.
pub fn is_empty(work: &Work, n: NodeId) -> bool
    requires { n < length work.now.nodes }
    ensures { result ≡ is_empty (tree_at work.now.nodes n).children }
{
    work.facts();
    match reads::first_child(work, n) {
        Some(_) => false,
        None => true,
    }
}

fn is_empty_block(work: &Work, n: NodeId) -> bool
    requires { n < length work.now.nodes }
    ensures { result ≡ (is_block (tree_at work.now.nodes n).text && is_empty (tree_at work.now.nodes n).children) }
{
    blocks::is_block(reads::text_of(work, n)) && is_empty(work, n)
}

/// Adds the site of the node where it is a block without nodes in it.
///
/// # Errors
///
/// Only when out of memory.
#[tactic(auto, unfolding(crate::specs::BlockNoEmpty::findings, rule_sites::specs::ContextAt::context_at))]
pub fn visit(alloc: Global, sites: &mut Vec<Site>, work: &Work, n: NodeId) -> Result<(), AllocError>
    requires fresh { IsFresh work.now }
    requires given { n < length work.now.nodes }
    ensures { OnOk result (sites.new.items ≡ sites.old.items ++ map (site_of work.now.text Rule.BlockNoEmpty) (findings (context_at work.now.nodes n))) }
{
    if is_empty_block(work, n) {
        let at = blocks::brace_of(work, n);
        push_message(
            alloc,
            sites,
            work,
            Rule::BlockNoEmpty,
            at,
            "Unexpected empty block",
        )?;
    }
    Ok(())
}
