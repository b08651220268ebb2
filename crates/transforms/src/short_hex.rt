// Hexadecimal colours with one digit of each equal pair.
ghost use Rattle.std.specs.Prelude.{◌≡◌, ◌++◌, ◌&&◌, [], ◌∷◌, true, not, Some, None, IsSome, IfOk, OnOk, MatchOption};
ghost use Rattle.std.specs.Str.{chars};
ghost use Rattle.std.specs.String.{string_bytes};
ghost use Rattle.css_text.specs.ValueParts.{written, none};
ghost use Rattle.css_tree.specs.declared.node.Field.TheVariants as F;
ghost use Rattle.css_tree.specs.Changes.{takes_field, same_text};
ghost use Rattle.value_parse.specs.Tree.{form_of, is_function, before, parts_of};
ghost use Rattle.node_rows.specs.Nodes.{text_of, parent_of};
ghost use Rattle.node_store.specs.declared.item.Edit.TheVariants as E;
ghost use Rattle.plugin_api.specs.declared.visitor.Duty.TheVariants as D;
ghost use Rattle.plugin_api.specs.Calls.{Met};
ghost use Rattle.plugin_api.specs.Effect.{has, shortened, IsShort, IsEffect, changing};
ghost use Rattle.transforms.specs.Hex.{short_own, is_word};
ghost use Rattle.transforms.specs.Reads.{value_at};

use crate::edits::{has_parent, set_value};
use crate::hex::push_word;
use css_text::txt::Txt;
use css_tree::node::{NodeText, Source};
use node_store::id::NodeId;
use node_store::item::{Event, Moment};
use node_store::work::Work;
use plugin_api::visitor::VisitFault;
use std::alloc::{AllocError, Global};
use value_parse::parse::parse_value;
use value_parse::part::{ValueKind, ValuePart};

fn is_function(kind: ValueKind) -> bool
    ensures { result ≡ is_function (form_of kind) }
{
    matches!(kind, ValueKind::Function)
}

fn is_word(kind: ValueKind) -> bool
    ensures { result ≡ is_word (form_of kind) }
{
    matches!(kind, ValueKind::Word)
}

fn write_own(text: &mut String, kind: ValueKind, own: &str) -> Result<(), AllocError>
    ensures { OnOk result (chars (string_bytes text.new) ≡ chars (string_bytes text.old) ++ short_own (form_of kind) (chars own.now)) }
{
    if !is_word(kind) {
        return text.push_str(own);
    }
    push_word(text, own)
}

#[cycle(write)]
fn write_part(text: &mut String, part: &ValuePart) -> Result<(), AllocError>
    ensures { OnOk result (chars (string_bytes text.new) ≡ chars (string_bytes text.old) ++ written (shortened (before part.now none))) }
{
    write_own(text, part.kind, part.text.as_str())?;
    if !is_function(part.kind) {
        return Ok(());
    }
    text.push('(')?;
    write_parts(text, &part.inner)?;
    if !part.closed {
        return Ok(());
    }
    text.push(')')?;
    Ok(())
}

#[cycle(write)]
fn write_parts(text: &mut String, parts: &[ValuePart]) -> Result<(), AllocError>
    ensures { OnOk result (chars (string_bytes text.new) ≡ chars (string_bytes text.old) ++ written (shortened (parts_of parts.now))) }
{
    for part in parts {
        write_part(text, part)?;
    }
    Ok(())
}

fn short_text(alloc: Global, source: &str) -> Result<Txt, AllocError>
    ensures { IfOk result (λ short. IsShort (chars source.now) short) }
{
    let parts = parse_value(alloc, source)?;
    let mut text = String::new(alloc);
    write_parts(&mut text, &parts)?;
    Txt::from_string(alloc, text)
}

fn has_hash(text: &str) -> bool
    ensures { result ≡ has 35 (chars text.now) }
{
    text.as_bytes().contains(&b'#')
}

fn is_without_comments(value: &Source) -> bool
    ensures { result ≡ same_text value.now.source value.now.clean }
{
    value.clean.as_str() == value.source.as_str()
}

// A value without a `#` has no colour, and without comments it is kept as it was written: it stays, and isn't parsed.
fn stays(value: &Source) -> bool
    ensures { result ≡ (not (has 35 value.now.source) && same_text value.now.source value.now.clean) }
{
    !has_hash(value.source.as_str()) && is_without_comments(value)
}

// The value of a declaration that is entered.
fn value_at(event: Event, text: &NodeText) -> Option<&Source>
    ensures { MatchOption result (value_at event text.now ≡ None) (λ v. value_at event text.now ≡ Some v.now) }
{
    match (event, text) {
        (Event::Declaration, NodeText::Declaration { value, .. }) => Some(value),
        _ => None,
    }
}

// The same of a node below another one.
fn value_below(work: &Work, event: Event, node: NodeId) -> Option<&Source>
    ensures value { MatchOption result
        (IsEffect D.ShortHex work.now.nodes (record { event = event; node = node }) [])
        (λ v. value_at event (text_of work.now.nodes node) ≡ Some v.now) }
    ensures parent { IsSome result → IsSome (parent_of work.now.nodes node) }
{
    match work.node_text(node) {
        Ok(text) if has_parent(work, node) => value_at(event, text),
        _ => None,
    }
}

fn short_value(
    alloc: Global,
    work: &Work,
    event: Event,
    node: NodeId,
) -> Result<Option<Txt>, AllocError>
    ensures effect { IfOk result (λ o. MatchOption o
        (IsEffect D.ShortHex work.now.nodes (record { event = event; node = node }) [])
        (λ t. IsEffect D.ShortHex work.now.nodes (record { event = event; node = node }) (changing work.now.nodes (E.Set F.Value node t ∷ [])))) }
    ensures kind { IfOk result (λ o. IsSome o → takes_field F.Value (text_of work.now.nodes node) ≡ true) }
    ensures parent { IfOk result (λ o. IsSome o → IsSome (parent_of work.now.nodes node)) }
{
    match value_below(work, event, node) {
        None => Ok(None),
        Some(value) if stays(value) => Ok(None),
        Some(value) => {
            let short = short_text(alloc, value.source.as_str())?;
            Ok(Some(short))
        }
    }
}

/// Writes each word of a declaration's value that is `#` and six or eight hexadecimal digits in pairs, equal in lower ASCII
/// case, with the first digit of each pair, at any depth of functions. It does so when the declaration is entered; other
/// nodes, and nodes without a parent, stay. The only error is want of memory, and then the tree is as it was.
pub fn short_hex(alloc: Global, work: &mut Work, moment: Moment) -> Result<(), VisitFault>
    ensures { Met (Some D.ShortHex) 0 0 work.old work.new moment result }
{
    let Moment { event, node } = moment;
    match short_value(alloc, work, event, node) {
        Ok(Some(short)) => set_value(work, node, short.as_str()).map_err(VisitFault::Memory),
        Ok(None) => Ok(()),
        Err(error) => Err(VisitFault::Memory(error)),
    }
}
