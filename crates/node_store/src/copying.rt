// The copy of a tree, whose memory is taken before anything is changed.
ghost use Rattle.std.specs.Prelude.{◌≡◌, ◌≢◌, ◌+◌, ◌<◌, ◌≤◌, ◌∷◌, ◌++◌, [], suc, nat_le, length, map, All, IfOk, OnOk, MatchResult};
ghost use Rattle.css_tree.specs.Parts.{block_of};
ghost use Rattle.node_rows.specs.Nodes.{Node, new_node, text_of, span_of};
ghost use Rattle.node_rows.specs.Growth.{made};
ghost use Rattle.node_store.specs.declared.item.Edit.TheVariants as E;
ghost use Rattle.node_store.specs.declared.item.Item.TheVariants as I;
ghost use Rattle.node_store.specs.Forest.{unreserved};
ghost use Rattle.node_store.specs.Edits.{edited_all};
ghost use Rattle.node_store.specs.Copies.{copied, tree_size};
ghost use Rattle.node_store.specs.Growth.{grow_all, news, IsPlan, owed, frame_list, IsFrame, IsGraft, grafted};
ghost use Rattle.node_store.specs.Answers.{IsCopyAnswer, size_with_copy};
ghost use Rattle.std.specs.Vec.{vec_capacity, vec_len};

use crate::boxed_text::BoxedText;
use crate::copies::copy_node;
use crate::fault::TreeFault;
use crate::frame::Frame;
use crate::id::NodeId;
use crate::item::{Edit, Item};
use crate::work::Work;
use css_text::stop::Stop;
use node_rows::growth::NewNode;
use node_rows::packed::PackedSpan;
use node_rows::rows::Rows;
use std::alloc::{AllocError, Global};

// The edits that copy a tree, and the nodes that they make.
#[derive(Drop)]
struct Plan {
    edits: Vec<Edit>,
    nodes: Vec<NewNode>,
}

// Whether a copy of the tree leaves at most 5,000,000 nodes. It goes over the tree, and takes no memory.
fn has_room(rows: &Rows, top: u32) -> bool
    requires { top < length rows.now }
    ensures { result ≡ nat_le (length rows.now + tree_size rows.now top) 5000000 }
{
    rows.facts();
    let mut total = rows.len();
    let mut at = Some(top);
    while let Some(m) = at {
        if total >= 5_000_000 {
            return false;
        }
        total += 1;
        at = rows.follower(top, m);
    }
    true
}

// Plans the copy of one node.
fn plan_node(
    alloc: Global,
    rows: &Rows,
    node: u32,
    number: u32,
    plan: &mut Plan,
) -> Result<(), AllocError>
    requires { node < length rows.now }
    ensures edits { OnOk result (plan.new.edits.items ≡ plan.old.edits.items ++ E.New number (text_of rows.now node) (span_of rows.now node) ∷ []) }
    ensures nodes { OnOk result (map made plan.new.nodes.items ≡ map made plan.old.nodes.items ++ new_node (text_of rows.now node) (span_of rows.now node) ∷ []) }
{
    let span = rows.span(node);
    let packed = PackedSpan::new(span)?;
    let text = copy_node(alloc, rows.text(node))?;
    plan.nodes.push(NewNode { text, span })?;
    let text = BoxedText::new(alloc, copy_node(alloc, rows.text(node))?)?;
    plan.edits.push(Edit::New {
        node: NodeId::new(number),
        text,
        span: packed,
    })?;
    Ok(())
}

fn push_frame(
    stack: &mut Vec<Frame>,
    node: Option<u32>,
    parent: u32,
    at: u32,
) -> Result<(), AllocError>
    ensures { OnOk result (stack.new.items ≡ stack.old.items ++ frame_list node parent at) }
{
    if let Some(node) = node {
        stack.push(Frame { node, parent, at })?;
    }
    Ok(())
}

// Copies the node of a frame, which is the last one, and leaves frames for those behind it and below it.
fn plan_frame(
    alloc: Global,
    rows: &Rows,
    frame: Frame,
    number: u32,
    plan: &mut Plan,
    stack: &mut Vec<Frame>,
) -> Result<(), AllocError>
    requires { IsFrame rows.now frame }
    ensures owed { OnOk result (plan.new.edits.items ++ owed rows.now stack.new.items (suc number) ≡ plan.old.edits.items ++ owed rows.now (stack.old.items ++ frame ∷ []) number) }
    ensures longer { OnOk result (length plan.new.edits.items ≡ length plan.old.edits.items + 2) }
    ensures count { OnOk result (length plan.new.nodes.items ≡ length plan.old.nodes.items + 1) }
    ensures nodes { OnOk result (map made plan.old.nodes.items ≡ news plan.old.edits.items → map made plan.new.nodes.items ≡ news plan.new.edits.items) }
    ensures frames { OnOk result (All (IsFrame rows.now) stack.old.items → All (IsFrame rows.now) stack.new.items) }
{
    rows.facts();
    plan_node(alloc, rows, frame.node, number, plan)?;
    plan.edits.push(Edit::Insert {
        node: NodeId::new(number),
        parent: NodeId::new(frame.parent),
        at: frame.at,
    })?;
    push_frame(
        stack,
        rows.next_sibling(frame.node),
        frame.parent,
        frame.at + 1,
    )?;
    push_frame(stack, rows.first_child(frame.node), number, 0)?;
    Ok(())
}

// Plans the copy of a tree, whose first node gets the next number.
fn plan_tree(alloc: Global, rows: &Rows, top: u32) -> Result<Plan, AllocError>
    requires given { top < length rows.now }
    requires few { length rows.now + tree_size rows.now top ≤ 5000000 }
    ensures edits { IfOk result (λ plan. plan.edits.items ≡ copied rows.now top) }
    ensures nodes { IfOk result (λ plan. map made plan.nodes.items ≡ news (copied rows.now top)) }
{
    rows.facts();
    let first = rows.len() as u32;
    let mut plan = Plan {
        edits: Vec::new(alloc),
        nodes: Vec::new(alloc),
    };
    let mut stack = Vec::new(alloc);
    plan_node(alloc, rows, top, first, &mut plan)?;
    push_frame(&mut stack, rows.first_child(top), first, 0)?;
    while let Some(frame) = stack.pop() {
        let number = first + plan.nodes.len() as u32;
        plan_frame(alloc, rows, frame, number, &mut plan, &mut stack)?;
    }
    Ok(plan)
}

// Puts a node into another, where the edit says so.
fn graft(rows: &mut Rows, edit: &Edit)
    requires { IsGraft rows.old edit.now }
    ensures { rows.new ≡ grafted rows.old edit.now }
{
    rows.facts();
    if let Edit::Insert { node, parent, at } = edit {
        rows.link(parent.number(), *at as usize, node.number());
    }
}

// Makes the nodes of a plan, all or none, and puts them together.
fn add_copies(
    alloc: Global,
    rows: &mut Rows,
    nodes: Vec<NewNode>,
    edits: &Vec<Edit>,
) -> Result<(), AllocError>
    requires plan { IsPlan rows.old edits.now.items }
    requires nodes { map made nodes.items ≡ news edits.now.items }
    ensures { MatchResult result (λ _. rows.new ≡ grow_all rows.old edits.now.items) (λ _. rows.new ≡ rows.old) }
{
    rows.facts();
    rows.add_all(alloc, nodes)?;
    for edit in edits {
        graft(rows, edit);
    }
    Ok(())
}

// Takes the edits into the log, which has the capacity for them.
fn log_all(log: &mut Vec<Item>, edits: Vec<Edit>)
    requires { vec_len log.old + length edits.items ≤ vec_capacity log.old }
    ensures { log.new.items ≡ log.old.items ++ map I.Edit edits.items }
{
    for edit in edits {
        log.push_reserved(Item::Edit(edit));
    }
}

impl Work {
    /// Makes a loose copy of the node with all below it, and answers the copy's number. The copies are numbered in
    /// document order; each keeps its node's text and span, and is dirty. An edit is logged for each copy, and one for
    /// each that is put into another.
    ///
    /// Refused as Full exactly where more than 5,000,000 numbers would be given out. Then nothing is changed, nor for
    /// want of memory.
    pub fn copy_tree(&mut self, node: NodeId) -> Result<NodeId, Stop<TreeFault>>
        requires given { node < length self.old.nodes }
        requires not_root { node ≢ 0 }
        ensures { IsCopyAnswer self.old self.new node result }
    {
        if !has_room(&self.rows, node.number()) {
            return Err(Stop::Fault(TreeFault::Full));
        }
        match self.copy(node.number()) {
            Ok(copy) => Ok(copy),
            Err(error) => Err(Stop::Memory(error)),
        }
    }

    fn copy(&mut self, top: u32) -> Result<NodeId, AllocError>
        requires given { top < length self.old.nodes }
        requires not_root { top ≢ 0 }
        requires few { size_with_copy self.old top ≤ 5000000 }
        ensures { MatchResult result
            (λ m. (m ≡ length self.old.nodes) × (unreserved self.new ≡ edited_all (unreserved self.old) (copied self.old.nodes top)))
            (λ _. unreserved self.new ≡ unreserved self.old) }
    {
        let first = self.rows.len() as u32;
        let Plan { edits, nodes } = plan_tree(self.alloc, &self.rows, top)?;
        self.log.reserve(edits.len())?;
        add_copies(self.alloc, &mut self.rows, nodes, &edits)?;
        log_all(&mut self.log, edits);
        Ok(NodeId::new(first))
    }
}
