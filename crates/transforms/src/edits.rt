// Edit calls that can't be refused.
ghost use Rattle.std.specs.Prelude.{◌≡◌, [], ◌∷◌, true, suc, is_some, Some, IsSome, Ok, Err, MatchResult};
ghost use Rattle.std.specs.Str.{chars};
ghost use Rattle.css_text.specs.declared.stop.Stop.TheVariants as S;
ghost use Rattle.css_tree.specs.declared.node.Field.TheVariants as F;
ghost use Rattle.css_tree.specs.Changes.{takes_field};
ghost use Rattle.node_rows.specs.Nodes.{text_of, parent_of, place_of};
ghost use Rattle.node_store.specs.declared.item.Edit.TheVariants as E;
ghost use Rattle.plugin_api.specs.Effect.{changing};
ghost use Rattle.transforms.specs.Fronts.{MakesFront, IsUnrefused};

use css_text::stop::Stop;
use edit_calls::moving::{insert_after, remove};
use edit_calls::setting;
use node_store::fault::TreeFault;
use node_store::id::NodeId;
use node_store::work::Work;
use std::alloc::AllocError;

fn unrefused(answer: Result<(), Stop<TreeFault>>) -> Result<(), AllocError>
    requires { IsUnrefused answer }
    ensures { MatchResult result (λ x. answer ≡ Ok x) (λ e. answer ≡ Err (S.Memory e)) }
{
    match answer {
        Ok(()) => Ok(()),
        Err(Stop::Memory(error)) => Err(error),
        Err(Stop::Fault(_)) => unreachable!(),
    }
}

pub(crate) fn has_parent(work: &Work, n: NodeId) -> bool
    ensures { result ≡ is_some (parent_of work.now.nodes n) }
{
    matches!(work.parent(n), Ok(Some(_)))
}

// Takes the node out of its parent.
pub(crate) fn take_out(work: &mut Work, n: NodeId) -> Result<(), AllocError>
    requires { IsSome (parent_of work.old.nodes n) }
    ensures { MakesFront work.old work.new (E.Remove n ∷ []) result }
{
    work.facts();
    unrefused(remove(work, n))
}

// Gives the declaration below a node another value.
pub(crate) fn set_value(work: &mut Work, n: NodeId, text: &str) -> Result<(), AllocError>
    requires parent { IsSome (parent_of work.old.nodes n) }
    requires kind { takes_field F.Value (text_of work.old.nodes n) ≡ true }
    ensures { MakesFront work.old work.new (changing work.old.nodes (E.Set F.Value n (chars text.now) ∷ [])) result }
{
    unrefused(setting::set_value(work, n, text))
}

// Gives the rule below a node another selector.
pub(crate) fn set_selector(work: &mut Work, n: NodeId, text: &str) -> Result<(), AllocError>
    requires parent { IsSome (parent_of work.old.nodes n) }
    requires kind { takes_field F.Selector (text_of work.old.nodes n) ≡ true }
    ensures { MakesFront work.old work.new (changing work.old.nodes (E.Set F.Selector n (chars text.now) ∷ [])) result }
{
    unrefused(setting::set_selector(work, n, text))
}

// Moves the child of a rule out, directly behind the rule.
pub(crate) fn move_behind(work: &mut Work, rule: NodeId, child: NodeId) -> Result<(), AllocError>
    requires rule { IsSome (parent_of work.old.nodes rule) }
    requires child { parent_of work.old.nodes child ≡ Some rule }
    ensures { (p : _) → parent_of work.old.nodes rule ≡ Some p → MakesFront work.old work.new (E.Remove child ∷ E.Insert child p (suc (place_of work.old.nodes p rule)) ∷ []) result }
{
    work.facts();
    unrefused(insert_after(work, rule, child))
}
