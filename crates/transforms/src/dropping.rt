// Comments and empty blocks that go.
ghost use Rattle.std.specs.Prelude.{◌≡◌, ℕ, [], ◌∷◌, true, Some, IsSome};
ghost use Rattle.std.specs.Str.{chars};
ghost use Rattle.node_rows.specs.Nodes.{text_of, parent_of, children_of};
ghost use Rattle.plugin_api.specs.declared.visitor.Duty.TheVariants as D;
ghost use Rattle.plugin_api.specs.Calls.{Met};
ghost use Rattle.plugin_api.specs.Effect.{is_kept, dropped_comment, dropped_empty, IsEffect};
ghost use Rattle.transforms.specs.Reads.{removal_if};
ghost use Rattle.transforms.specs.Fronts.{MakesFront};

use crate::edits::{has_parent, take_out};
use crate::texts::{begins_with, first_char};
use css_tree::node::NodeText;
use node_store::id::NodeId;
use node_store::item::{Event, Moment};
use node_store::work::Work;
use plugin_api::visitor::VisitFault;
use std::alloc::AllocError;

fn is_kept(left: &str, text: &str) -> bool
    ensures { result ≡ is_kept (chars left.now) (chars text.now) }
{
    match first_char(left) {
        None => begins_with(text, '!'),
        Some(_) => false,
    }
}

fn is_dropped_comment(event: Event, text: &NodeText) -> bool
    ensures { (n : ℕ) → dropped_comment n event text.now ≡ removal_if result n }
{
    match (event, text) {
        (Event::Comment, NodeText::Comment { left, text, .. }) => {
            !is_kept(left.as_str(), text.as_str())
        }
        _ => false,
    }
}

// A rule, or an at-rule with a block, that is left.
fn is_block_left(event: Event, text: &NodeText) -> bool
    ensures empty { (n : ℕ) → dropped_empty n event text.now [] ≡ removal_if result n }
    ensures others { (n c : ℕ) (cs : _) → dropped_empty n event text.now (c ∷ cs) ≡ [] }
{
    matches!(
        (event, text),
        (Event::RuleExit, NodeText::Rule { .. })
            | (Event::AtRuleExit, NodeText::AtRule { block: Some(_), .. })
    )
}

fn drops_comment(work: &Work, event: Event, node: NodeId) -> bool
    ensures effect { IsEffect D.DropComment work.now.nodes (record { event = event; node = node }) (removal_if result node) }
    ensures parent { result ≡ true → IsSome (parent_of work.now.nodes node) }
{
    match work.node_text(node) {
        Ok(text) => is_dropped_comment(event, text) && has_parent(work, node),
        Err(_) => false,
    }
}

fn drops_empty(work: &Work, event: Event, node: NodeId) -> bool
    ensures effect { IsEffect D.DropEmpty work.now.nodes (record { event = event; node = node }) (removal_if result node) }
    ensures parent { result ≡ true → IsSome (parent_of work.now.nodes node) }
{
    match (work.node_text(node), work.first_child(node)) {
        (Ok(text), Ok(None)) => { is_block_left(event, text) && has_parent(work, node) }
        _ => false,
    }
}

fn remove_if(work: &mut Work, wanted: bool, n: NodeId) -> Result<(), AllocError>
    requires { wanted ≡ true → IsSome (parent_of work.old.nodes n) }
    ensures { MakesFront work.old work.new (removal_if wanted n) result }
{
    if wanted { take_out(work, n) } else { Ok(()) }
}

/// Takes a comment out when it is entered, unless its text begins with `!` and nothing stands before that. Other nodes,
/// and nodes without a parent, stay. The only error is want of memory, and then the tree is as it was.
pub fn drop_comment(work: &mut Work, moment: Moment) -> Result<(), VisitFault>
    ensures { Met (Some D.DropComment) 0 0 work.old work.new moment result }
{
    let Moment { event, node } = moment;
    let dropped = drops_comment(work, event, node);
    remove_if(work, dropped, node).map_err(VisitFault::Memory)
}

/// Takes a rule, or an at-rule with a block, out when it is left without children; comments count as children. Nodes
/// without a parent stay. The only error is want of memory, and then the tree is as it was.
pub fn drop_empty(work: &mut Work, moment: Moment) -> Result<(), VisitFault>
    ensures { Met (Some D.DropEmpty) 0 0 work.old work.new moment result }
{
    let Moment { event, node } = moment;
    let dropped = drops_empty(work, event, node);
    remove_if(work, dropped, node).map_err(VisitFault::Memory)
}
