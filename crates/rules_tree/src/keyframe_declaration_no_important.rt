// Declarations inside keyframes at-rules that are marked important.
ghost use Rattle.std.specs.Prelude.{◌≡◌, ◌<◌, ◌++◌, ◌&&◌, OnOk, length, map};
ghost use Rattle.std.specs.List.{list_any};
ghost use Rattle.node_rows.specs.Nodes.{text_of};
ghost use Rattle.node_rows.specs.NumberTrees.{tree_at};
ghost use Rattle.node_store.specs.Fresh.{IsFresh};
ghost use Rattle.rule_sites.specs.ContextAt.{context_at, ancestors_of};
ghost use Rattle.rule_sites.specs.Finding.{site_of};
ghost use Rattle.rule_sites.specs.Keyframes.{is_keyframes};
ghost use Rattle.rules_tree.specs.Important.{is_marked as is_marked_of};
ghost use Rattle.rules_tree.specs.KeyframeDeclarationNoImportant.{findings};

use crate::ancestors::in_keyframes;
use crate::important::{is_marked, mark_of};
use lint_config::found::Site;
use lint_config::rule::Rule;
use node_store::id::NodeId;
use node_store::work::Work;
use rule_sites::reads;
use rule_sites::sites::push_message;
use std::alloc::{AllocError, Global};

fn is_marked_inside(work: &Work, n: NodeId) -> bool
    requires fresh { IsFresh work.now }
    requires given { n < length work.now.nodes }
    ensures { result ≡ (is_marked_of (text_of work.now.nodes n) && list_any (λ t. is_keyframes t.text) (map (tree_at work.now.nodes) (ancestors_of work.now.nodes n))) }
{
    is_marked(reads::text_of(work, n)) && in_keyframes(work, n)
}

/// Adds the site of the node where it is a declaration that is marked important, anywhere inside a keyframes at-rule.
///
/// # Errors
///
/// Only when out of memory.
#[tactic(auto, unfolding(crate::specs::KeyframeDeclarationNoImportant::findings, rule_sites::specs::ContextAt::context_at))]
pub fn visit(alloc: Global, sites: &mut Vec<Site>, work: &Work, n: NodeId) -> Result<(), AllocError>
    requires fresh { IsFresh work.now }
    requires given { n < length work.now.nodes }
    ensures { OnOk result (sites.new.items ≡ sites.old.items ++ map (site_of work.now.text Rule.KeyframeDeclarationNoImportant) (findings (context_at work.now.nodes n))) }
{
    if is_marked_inside(work, n) {
        let at = mark_of(work, n);
        push_message(
            alloc,
            sites,
            work,
            Rule::KeyframeDeclarationNoImportant,
            at,
            "Unexpected !important",
        )?;
    }
    Ok(())
}
