// Rules that go out of the rule above them.
ghost use Rattle.std.specs.Prelude.{◌≡◌, ◌<◌, ◌++◌, ℕ, [], ◌∷◌, true, filter, drop, length, reverse, slice_get, IsSome, IfOk, OnOk, Some, false};
ghost use Rattle.std.specs.List.{flat_map};
ghost use Rattle.std.specs.Str.{chars};
ghost use Rattle.css_tree.specs.declared.node.Field.TheVariants as F;
ghost use Rattle.css_tree.specs.Changes.{takes_field};
ghost use Rattle.node_rows.specs.Nodes.{text_of, parent_of, children_of, next_sibling_of};
ghost use Rattle.plugin_api.specs.declared.visitor.Duty.TheVariants as D;
ghost use Rattle.plugin_api.specs.Calls.{Met};
ghost use Rattle.plugin_api.specs.Effect.{IsEffect, may_follow, is_movable_selector, is_movable, is_single_selector, own_selector, moved_out};
ghost use Rattle.transforms.specs.Fronts.{MakesFront};
ghost use Rattle.transforms.specs.Reads.{selector_of, unnests};

use crate::edits::{has_parent, move_behind, set_selector};
use crate::texts::{first_char, has};
use css_text::txt::Txt;
use css_tree::node::NodeText;
use node_store::id::NodeId;
use node_store::item::{Event, Moment};
use node_store::work::Work;
use plugin_api::visitor::VisitFault;
use std::alloc::{AllocError, Global};

fn may_follow(rest: &str) -> bool
    ensures { result ≡ may_follow (chars rest.now) }
{
    match first_char(rest) {
        None => true,
        Some((c, _)) => matches!(c, ' ' | ':' | '.' | '#' | '[' | '>' | '+' | '~'),
    }
}

fn is_movable_selector(selector: &str) -> bool
    ensures { result ≡ is_movable_selector (chars selector.now) }
{
    match first_char(selector) {
        Some(('&', rest)) => !has(rest, '&') && !has(rest, ',') && may_follow(rest),
        _ => false,
    }
}

fn is_movable(text: &NodeText) -> bool
    ensures { result ≡ is_movable text.now }
{
    match text {
        NodeText::Rule { selector, .. } => is_movable_selector(selector.clean.as_str()),
        _ => false,
    }
}

fn is_single_selector(selector: &str) -> bool
    ensures { result ≡ is_single_selector (chars selector.now) }
{
    match first_char(selector) {
        None => false,
        Some(_) => !has(selector, ','),
    }
}

// A rule that is left, whose selector can stand before those of its children.
fn is_rule_left(event: Event, text: &NodeText) -> bool
    ensures { result ≡ unnests event text.now }
{
    match (event, text) {
        (Event::RuleExit, NodeText::Rule { selector, .. }) => {
            is_single_selector(selector.clean.as_str())
        }
        _ => false,
    }
}

fn is_node_movable(work: &Work, n: NodeId) -> bool
    ensures { result ≡ is_movable (text_of work.now.nodes n) }
{
    match work.node_text(n) {
        Ok(text) => is_movable(text),
        Err(_) => false,
    }
}

fn push_movable(children: &mut Vec<NodeId>, work: &Work, child: NodeId) -> Result<(), AllocError>
    ensures { OnOk result (children.new.items ≡ children.old.items ++ filter (λ m. is_movable (text_of work.now.nodes m)) (child ∷ [])) }
{
    if is_node_movable(work, child) {
        children.push(child)?;
    }
    Ok(())
}

fn first_child(work: &Work, n: NodeId) -> Option<NodeId>
    requires { n < length work.now.nodes }
    ensures { result ≡ slice_get (children_of work.now.nodes n) 0 }
{
    match work.first_child(n) {
        Ok(child) => child,
        Err(_) => unreachable!(),
    }
}

fn next_sibling(work: &Work, n: NodeId) -> Option<NodeId>
    requires { n < length work.now.nodes }
    ensures { result ≡ next_sibling_of work.now.nodes n }
{
    match work.next_sibling(n) {
        Ok(sibling) => sibling,
        Err(_) => unreachable!(),
    }
}

// The children of the rule that can be moved, in order.
fn movable_children(alloc: Global, work: &Work, rule: NodeId) -> Result<Vec<NodeId>, AllocError>
    requires { rule < length work.now.nodes }
    ensures { IfOk result (λ v. v.items ≡ filter (λ m. is_movable (text_of work.now.nodes m)) (children_of work.now.nodes rule)) }
{
    work.facts();
    let mut children = Vec::new(alloc);
    let mut at = first_child(work, rule);
    while let Some(child) = at {
        push_movable(&mut children, work, child)?;
        at = next_sibling(work, child);
    }
    Ok(children)
}

fn selector_in(text: &NodeText) -> &str
    ensures { chars result.now ≡ selector_of text.now }
{
    match text {
        NodeText::Rule { selector, .. } => selector.clean.as_str(),
        _ => "",
    }
}

fn selector(work: &Work, n: NodeId) -> &str
    ensures { chars result.now ≡ selector_of (text_of work.now.nodes n) }
{
    match work.node_text(n) {
        Ok(text) => selector_in(text),
        Err(_) => "",
    }
}

fn behind_first(text: &str) -> &str
    ensures { chars result.now ≡ drop 1 (chars text.now) }
{
    match first_char(text) {
        None => text,
        Some((_, rest)) => rest,
    }
}

// The selector of the child with that of the rule in place of its `&`.
fn joined(alloc: Global, work: &Work, rule: NodeId, child: NodeId) -> Result<Txt, AllocError>
    ensures { IfOk result (λ t. t ≡ selector_of (text_of work.now.nodes rule) ++ own_selector (text_of work.now.nodes child)) }
{
    let mut text = String::new(alloc);
    text.push_str(selector(work, rule))?;
    text.push_str(behind_first(selector(work, child)))?;
    Txt::from_string(alloc, text)
}

// One child goes out of the rule.
fn move_out(alloc: Global, work: &mut Work, rule: NodeId, child: NodeId) -> Result<(), AllocError>
    requires rule { IsSome (parent_of work.old.nodes rule) }
    requires child { parent_of work.old.nodes child ≡ Some rule }
    requires movable { is_movable (text_of work.old.nodes child) ≡ true }
    ensures { (p : ℕ) → parent_of work.old.nodes rule ≡ Some p → MakesFront work.old work.new (moved_out work.old.nodes rule p (selector_of (text_of work.old.nodes rule)) child) result }
{
    let selector = joined(alloc, work, rule, child)?;
    set_selector(work, child, selector.as_str())?;
    move_behind(work, rule, child)
}

// The children that can be moved go out of the rule, from the last to the first.
fn move_all(alloc: Global, work: &mut Work, rule: NodeId) -> Result<(), AllocError>
    requires { IsSome (parent_of work.old.nodes rule) }
    ensures { (p : ℕ) → parent_of work.old.nodes rule ≡ Some p → MakesFront work.old work.new
        (flat_map (moved_out work.old.nodes rule p (selector_of (text_of work.old.nodes rule))) (reverse (filter (λ m. is_movable (text_of work.old.nodes m)) (children_of work.old.nodes rule)))) result }
{
    let mut children = movable_children(alloc, work, rule)?;
    work.facts();
    while let Some(child) = children.pop() {
        move_out(alloc, work, rule, child)?;
        work.facts();
    }
    Ok(())
}

fn unnests(work: &Work, event: Event, node: NodeId) -> bool
    ensures no { result ≡ false → IsEffect D.Unnest work.now.nodes (record { event = event; node = node }) [] }
    ensures parent { result ≡ true → IsSome (parent_of work.now.nodes node) }
    ensures rule { result ≡ true → unnests event (text_of work.now.nodes node) ≡ true }
{
    match work.node_text(node) {
        Ok(text) => has_parent(work, node) && is_rule_left(event, text),
        Err(_) => false,
    }
}

/// Moves child rules whose clean selector begins with `&` out of a rule that is left, directly behind it and in their order,
/// with the rule's clean selector in place of the `&`. Moved is a rule whose selector has no other `&` and no `,`, and has
/// nothing behind the `&`, or one of space, `:`, `.`, `#`, `[`, `>`, `+` and `~`. A rule with an empty selector, with a `,` in it or
/// without a parent keeps its children. Nothing is claimed of the cascade.
///
/// The only error is want of memory; then some of the children, the last ones, may be moved already.
pub fn unnest(alloc: Global, work: &mut Work, moment: Moment) -> Result<(), VisitFault>
    ensures { Met (Some D.Unnest) 0 0 work.old work.new moment result }
{
    let Moment { event, node } = moment;
    if !unnests(work, event, node) {
        return Ok(());
    }
    move_all(alloc, work, node).map_err(VisitFault::Memory)
}
