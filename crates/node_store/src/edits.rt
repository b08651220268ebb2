// The primitive edits: each changes the tree, moves the cursors, and logs itself.
ghost use Rattle.std.specs.Prelude.{◌≡◌, ◌<◌, ◌≤◌, suc, true, length, map, Some, None, IsOk, IfSome, MatchResult};
ghost use Rattle.std.specs.Str.{chars};
ghost use Rattle.node_rows.specs.Nodes.{Node};
ghost use Rattle.node_store.specs.declared.item.Edit.TheVariants as E;
ghost use Rattle.node_store.specs.Forest.{Forest, IsSpanOf, unreserved};
ghost use Rattle.node_store.specs.Edits.{is_allowed, apply, edited, edited_where};
ghost use Rattle.node_store.specs.Passing.{seat_without};

use crate::boxed_text::BoxedText;
use crate::copies::copy_node;
use crate::id::NodeId;
use crate::item::{Edit, Item};
use crate::seat::Seat;
use crate::work::Work;
use css_text::lexer::Span;
use css_text::txt::Txt;
use css_tree::node::{Field, NodeText, Raw};
use node_rows::packed::PackedSpan;
use node_rows::rows::Rows;
use node_rows::texts::{Written, has_field, has_raw};
use std::alloc::AllocError;

// Puts the node into the parent, with the marks that this sets.
fn insert(rows: &mut Rows, parent: NodeId, at: u32, node: NodeId)
    requires { is_allowed rows.old (E.Insert node parent at) ≡ true }
    ensures { rows.new ≡ apply rows.old (E.Insert node parent at) }
{
    rows.link(parent.number(), at as usize, node.number());
    rows.dirty_tree(node.number());
    rows.mark(parent.number());
}

fn without(seat: Option<Seat>, n: u32, before: Option<u32>) -> Option<Seat>
    ensures { result ≡ seat_without n before seat }
{
    match seat {
        None => None,
        Some(seat) => {
            let last = match seat.last {
                Some(last) if last == n => before,
                other => other,
            };
            Some(Seat {
                container: seat.container,
                last,
            })
        }
    }
}

// The cursors that have passed the node last have passed the one before it.
fn pass_back(seats: &mut Vec<Option<Seat>>, n: u32, before: Option<u32>)
    ensures { seats.new.items ≡ map (seat_without n before) seats.old.items }
{
    for i in 0..seats.len() {
        seats[i] = without(seats[i], n, before);
    }
}

impl Work {
    /// Makes a loose node, which is dirty, and answers its number.
    ///
    /// Fails for want of memory alone, and changes nothing then; so do all edits.
    pub fn make(&mut self, text: NodeText, span: Option<Span>) -> Result<NodeId, AllocError>
        requires allowed { is_allowed self.old.nodes (E.New (length self.old.nodes) text span) ≡ true }
        requires within { IfSome span (IsSpanOf self.old.text) }
        ensures { MatchResult result
            (λ n. (n ≡ length self.old.nodes) × (unreserved self.new ≡ edited (unreserved self.old) (E.New (length self.old.nodes) text span)))
            (λ _. unreserved self.new ≡ unreserved self.old) }
    {
        let packed = PackedSpan::new(span)?;
        let copy = BoxedText::new(self.alloc, copy_node(self.alloc, &text)?)?;
        self.log.reserve(1)?;
        let node = NodeId::new(self.rows.add(text, span)?);
        self.log.push_reserved(Item::Edit(Edit::New {
            node,
            text: copy,
            span: packed,
        }));
        Ok(node)
    }

    /// Puts a loose node into a container, as its child at the place. The node and all below it become dirty, and the
    /// container is marked. Where a place is kept in the container and the log can take an item, it takes no memory and
    /// succeeds. No place is kept then.
    pub fn put_in(&mut self, parent: NodeId, at: u32, node: NodeId) -> Result<(), AllocError>
        requires { is_allowed self.old.nodes (E.Insert node parent at) ≡ true }
        ensures edit { MatchResult result
            (λ _. unreserved self.new ≡ edited (unreserved self.old) (E.Insert node parent at))
            (λ _. unreserved self.new ≡ unreserved self.old) }
        ensures ready { self.old.room ≡ Some parent → 0 < self.old.spare → IsOk result }
        ensures spare { self.old.spare ≤ suc self.new.spare }
        ensures room { IsOk result → self.new.room ≡ None }
    {
        self.log.reserve(1)?;
        insert(&mut self.rows, parent, at, node);
        self.room = None;
        self.log
            .push_reserved(Item::Edit(Edit::Insert { node, parent, at }));
        Ok(())
    }

    /// Takes the node out of its parent, which is marked. It is loose then. Where the log can take an item, it takes no
    /// memory and succeeds. The room stays.
    pub fn take_out(&mut self, node: NodeId) -> Result<(), AllocError>
        requires { is_allowed self.old.nodes (E.Remove node) ≡ true }
        ensures edit { MatchResult result
            (λ _. unreserved self.new ≡ edited (unreserved self.old) (E.Remove node))
            (λ _. unreserved self.new ≡ unreserved self.old) }
        ensures ready { 0 < self.old.spare → IsOk result }
        ensures spare { self.old.spare ≤ suc self.new.spare }
        ensures room { self.new.room ≡ self.old.room }
    {
        self.log.reserve(1)?;
        let n = node.number();
        match self.rows.parent(n) {
            None => unreachable!(),
            Some(parent) => {
                let before = self.rows.previous_sibling(n);
                pass_back(&mut self.seats, n, before);
                self.rows.unlink(parent, n);
                self.rows.mark(parent);
            }
        }
        self.log.push_reserved(Item::Edit(Edit::Remove { node }));
        Ok(())
    }

    /// Gives the node another field, and marks it. Value, selector and params are taken as they are written, and kept
    /// without their comments too. Where the field has that text already, as it is written or without comments, nothing
    /// is done and nothing is logged.
    pub fn set_field(&mut self, node: NodeId, field: Field, text: &str) -> Result<(), AllocError>
        requires { is_allowed self.old.nodes (E.Set field node (chars text.now)) ≡ true }
        ensures { MatchResult result
            (λ _. unreserved self.new ≡ edited_where (unreserved self.old) (E.Set field node (chars text.now)))
            (λ _. unreserved self.new ≡ unreserved self.old) }
    {
        let n = node.number();
        if has_field(self.alloc, self.rows.text(n), field, text)? {
            return Ok(());
        }
        let logged = Txt::new(self.alloc, text)?;
        let written = Written::new(self.alloc, field, text)?;
        self.log.reserve(1)?;
        self.rows.set_field(n, field, written);
        self.rows.mark(n);
        self.log.push_reserved(Item::Edit(Edit::Set {
            field,
            node,
            text: logged,
        }));
        Ok(())
    }

    /// Gives the node another raw, which marks nothing. Where the raw is there with that text already, nothing is done
    /// and nothing is logged.
    pub fn set_shape(&mut self, node: NodeId, raw: Raw, text: &str) -> Result<(), AllocError>
        requires { is_allowed self.old.nodes (E.SetRaw raw node (chars text.now)) ≡ true }
        ensures { MatchResult result
            (λ _. unreserved self.new ≡ edited_where (unreserved self.old) (E.SetRaw raw node (chars text.now)))
            (λ _. unreserved self.new ≡ unreserved self.old) }
    {
        let n = node.number();
        if has_raw(self.rows.text(n), raw, text) {
            return Ok(());
        }
        let logged = Txt::new(self.alloc, text)?;
        let written = Txt::new(self.alloc, text)?;
        self.log.reserve(1)?;
        self.rows.set_raw(n, raw, written);
        self.log.push_reserved(Item::Edit(Edit::SetRaw {
            raw,
            node,
            text: logged,
        }));
        Ok(())
    }
}
