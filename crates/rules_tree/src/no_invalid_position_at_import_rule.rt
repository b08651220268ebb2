// `@import` rules at the root after what none may follow.
ghost use Rattle.std.specs.Prelude.{◌≡◌, ◌<◌, ◌++◌, ◌&&◌, ◌||◌, not, OnOk, length, map, codes, bytes_eq};
ghost use Rattle.std.specs.List.{list_any};
ghost use Rattle.std.specs.Str.{chars, IsAscii};
ghost use Rattle.css_tree.specs.Mark.{is_text};
ghost use Rattle.css_tree.specs.Print.{is_comment};
ghost use Rattle.node_rows.specs.Nodes.{text_of};
ghost use Rattle.node_rows.specs.NumberTrees.{tree_at};
ghost use Rattle.node_store.specs.Fresh.{IsFresh};
ghost use Rattle.rule_sites.specs.ContextAt.{context_at, ancestors_of, earlier_of};
ghost use Rattle.rule_sites.specs.Finding.{site_of};
ghost use Rattle.rule_sites.specs.Keyframes.{lower};
ghost use Rattle.rules_tree.specs.AtRoot.{is_at, is_root_alone};
ghost use Rattle.rules_tree.specs.Late.{is_barrier, IsFirstBarrier};
ghost use Rattle.rules_tree.specs.NoInvalidPositionAtImportRule.{may_precede, findings};

use crate::ancestors::is_at_root;
use crate::names::is_at;
use css_tree::node::NodeText;
use lint_config::found::Site;
use lint_config::rule::Rule;
use node_store::id::NodeId;
use node_store::work::Work;
use rule_sites::sites::push_message;
use rule_sites::{blocks, reads};
use std::alloc::{AllocError, Global};

fn is_comment(text: &NodeText) -> bool
    ensures { result ≡ is_comment text.now }
{
    match text {
        NodeText::Comment { .. } => true,
        _ => false,
    }
}

fn may_precede(text: &NodeText) -> bool
    ensures { result ≡ may_precede text.now }
{
    is_comment(text)
        || is_at(text, "charset")
        || is_at(text, "import")
        || (is_at(text, "layer") && !blocks::is_block(text))
}

/// Whether the node stands directly in the root, and no `@import` may follow it.
fn is_barrier(work: &Work, n: NodeId) -> bool
    requires { n < length work.now.nodes }
    ensures { result ≡ is_barrier work.now.nodes n }
{
    match reads::parent_of(work, n) {
        Some(p) => p == NodeId::new(0) && !may_precede(reads::text_of(work, n)),
        None => false,
    }
}

/// The number of the first node directly in the root that no `@import` may follow, or how many nodes there are.
pub fn first_barrier(work: &Work) -> u32
    ensures { IsFirstBarrier work.now.nodes result }
{
    for n in 0..work.node_total() {
        if is_barrier(work, NodeId::new(n)) {
            return n;
        }
    }
    work.node_total()
}

/// Whether the node stands directly in the root after what no `@import` may follow; the first such node is given.
fn is_after(work: &Work, n: NodeId, barrier: u32) -> bool
    requires fresh { IsFresh work.now }
    requires given { n < length work.now.nodes }
    requires barrier { IsFirstBarrier work.now.nodes barrier }
    ensures { result ≡ (is_root_alone (map (tree_at work.now.nodes) (ancestors_of work.now.nodes n)) && list_any (λ t. not (may_precede t.text)) (map (tree_at work.now.nodes) (earlier_of work.now.nodes n))) }
{
    work.facts();
    is_at_root(work, n) && barrier < n.number()
}

/// Whether the node is an `@import` at the root after what none may follow; the first such node is given.
fn is_late(work: &Work, n: NodeId, barrier: u32) -> bool
    requires fresh { IsFresh work.now }
    requires given { n < length work.now.nodes }
    requires barrier { IsFirstBarrier work.now.nodes barrier }
    ensures { result ≡ (is_at (codes "import") (text_of work.now.nodes n) && (is_root_alone (map (tree_at work.now.nodes) (ancestors_of work.now.nodes n)) && list_any (λ t. not (may_precede t.text)) (map (tree_at work.now.nodes) (earlier_of work.now.nodes n)))) }
{
    is_at(reads::text_of(work, n), "import") && is_after(work, n, barrier)
}

/// Adds the site of the node where it is an `@import` at the root after what none may follow; the first such node is given.
///
/// # Errors
///
/// Only when out of memory.
#[tactic(auto, unfolding(crate::specs::NoInvalidPositionAtImportRule::findings, rule_sites::specs::ContextAt::context_at))]
pub fn visit(
    alloc: Global,
    sites: &mut Vec<Site>,
    work: &Work,
    n: NodeId,
    barrier: u32,
) -> Result<(), AllocError>
    requires fresh { IsFresh work.now }
    requires given { n < length work.now.nodes }
    requires barrier { IsFirstBarrier work.now.nodes barrier }
    ensures { OnOk result (sites.new.items ≡ sites.old.items ++ map (site_of work.now.text Rule.NoInvalidPositionAtImportRule) (findings (context_at work.now.nodes n))) }
{
    if is_late(work, n, barrier) {
        let at = reads::start_of(work, n);
        push_message(
            alloc,
            sites,
            work,
            Rule::NoInvalidPositionAtImportRule,
            at,
            "Unexpected invalid position @import rule",
        )?;
    }
    Ok(())
}
