// Blocks inside one another.
ghost use Rattle.std.specs.Prelude.{◌≡◌, ◌<◌, ◌++◌, ◌&&◌, OnOk, IfOk, length, map, nat_lt, codes, decimal};
ghost use Rattle.node_store.specs.Fresh.{IsFresh};
ghost use Rattle.node_rows.specs.Nodes.{text_of};
ghost use Rattle.node_rows.specs.NumberTrees.{tree_at};
ghost use Rattle.rule_sites.specs.Blocks.{is_block};
ghost use Rattle.rule_sites.specs.ContextAt.{context_at, ancestors_of};
ghost use Rattle.rule_sites.specs.Finding.{site_of};
ghost use Rattle.rules_tree.specs.MaxNestingDepth.{enclosing, findings};

use crate::ancestors;
use css_text::txt::Txt;
use lint_config::found::Site;
use lint_config::rule::Rule;
use node_store::id::NodeId;
use node_store::work::Work;
use rule_sites::sites::push_site;
use rule_sites::{blocks, reads};
use std::alloc::{AllocError, Global};

fn message(alloc: Global, most: u32) -> Result<Txt, AllocError>
    ensures { IfOk result (λ t. t ≡ codes "Expected nesting depth to be no more than " ++ decimal most) }
{
    let text = format!(in alloc; "Expected nesting depth to be no more than {most}")?;
    Txt::from_string(alloc, text)
}

/// Whether the node is a block inside more blocks than this.
fn is_too_deep(work: &Work, n: NodeId, most: u32) -> bool
    requires fresh { IsFresh work.now }
    requires given { n < length work.now.nodes }
    ensures { result ≡ (is_block (text_of work.now.nodes n) && nat_lt most (enclosing (map (tree_at work.now.nodes) (ancestors_of work.now.nodes n)))) }
{
    blocks::is_block(reads::text_of(work, n)) && most < ancestors::enclosing(work, n)
}

/// Adds the site of the node where it is a block inside more blocks than this, at-rules directly at the root not counted.
///
/// # Errors
///
/// Only when out of memory.
#[tactic(auto, unfolding(crate::specs::MaxNestingDepth::findings, rule_sites::specs::ContextAt::context_at))]
pub fn visit(
    alloc: Global,
    sites: &mut Vec<Site>,
    work: &Work,
    n: NodeId,
    most: u32,
) -> Result<(), AllocError>
    requires fresh { IsFresh work.now }
    requires given { n < length work.now.nodes }
    ensures { OnOk result (sites.new.items ≡ sites.old.items ++ map (site_of work.now.text Rule.MaxNestingDepth) (findings most (context_at work.now.nodes n))) }
{
    if is_too_deep(work, n, most) {
        let text = message(alloc, most)?;
        let at = reads::start_of(work, n);
        push_site(sites, work, Rule::MaxNestingDepth, at, text, None)?;
    }
    Ok(())
}
