// Sheets for tests, and calls as values.
ghost use Rattle.std.specs.Prelude.{◌≡◌, [], IfOk};

use crate::making::{clone_tree, new_decl, new_rule};
use crate::moving::{append, insert_after, insert_before, prepend, remove, replace_with};
use crate::setting::{
    set_comment_text, set_important, set_name, set_params, set_prop, set_raw, set_selector,
    set_value,
};
use css_text::lexer::Span;
use css_text::stop::Stop;
use css_text::text::Text;
use css_tree::node::{Block, NodeText, Raw};
use node_rows::node_list::NodeAt;
use node_store::fault::TreeFault;
use node_store::id::NodeId;
use node_store::work::Work;
use std::alloc::{AllocError, Global};

fn empty_text(alloc: Global) -> Result<Text, AllocError>
    ensures { IfOk result (λ text. text ≡ []) }
{
    match Text::new(alloc, Vec::new(alloc)) {
        Ok(text) => Ok(text),
        Err(Stop::Memory(error)) => Err(error),
        Err(Stop::Fault(_)) => unreachable!(),
    }
}

/// A root alone.
pub fn empty_sheet(alloc: Global) -> Result<Work, AllocError> {
    let text = empty_text(alloc)?;
    let block = Block {
        semicolon: false,
        after: None,
    };
    let mut nodes = Vec::new(alloc);
    nodes.push(NodeAt {
        parent: 0,
        text: NodeText::Root { bom: false, block },
        span: Span { start: 0, end: 0 },
    })?;
    Work::from_nodes(alloc, text, nodes)
}

/// A call of two nodes or of one.
#[derive(Clone, Copy)]
pub enum Call {
    Append(u32, u32),
    Prepend(u32, u32),
    InsertBefore(u32, u32),
    InsertAfter(u32, u32),
    ReplaceWith(u32, u32),
    Remove(u32),
    SetProp(u32),
    SetValue(u32),
    SetImportant(u32),
    SetSelector(u32),
    SetName(u32),
    SetParams(u32),
    SetCommentText(u32),
    SetRaw(u32, Raw),
    CloneTree(u32),
}

fn id(number: u32) -> NodeId {
    NodeId::new(number)
}

fn cloned(work: &mut Work, n: u32) -> Result<(), Stop<TreeFault>> {
    clone_tree(work, id(n))?;
    Ok(())
}

fn make_call(work: &mut Work, call: Call) -> Result<(), Stop<TreeFault>> {
    match call {
        Call::Append(container, node) => append(work, id(container), id(node)),
        Call::Prepend(container, node) => prepend(work, id(container), id(node)),
        Call::InsertBefore(anchor, node) => insert_before(work, id(anchor), id(node)),
        Call::InsertAfter(anchor, node) => insert_after(work, id(anchor), id(node)),
        Call::ReplaceWith(n, node) => replace_with(work, id(n), id(node)),
        Call::Remove(n) => remove(work, id(n)),
        Call::SetProp(n) => set_prop(work, id(n), "x"),
        Call::SetValue(n) => set_value(work, id(n), "x"),
        Call::SetImportant(n) => set_important(work, id(n), true),
        Call::SetSelector(n) => set_selector(work, id(n), "x"),
        Call::SetName(n) => set_name(work, id(n), "x"),
        Call::SetParams(n) => set_params(work, id(n), "x"),
        Call::SetCommentText(n) => set_comment_text(work, id(n), "x"),
        Call::SetRaw(n, raw) => set_raw(work, id(n), raw, " "),
        Call::CloneTree(n) => cloned(work, n),
    }
}

/// The refusal of the call; none where it is made.
pub fn refusal(work: &mut Work, call: Call) -> Result<Option<TreeFault>, AllocError> {
    match make_call(work, call) {
        Ok(()) => Ok(None),
        Err(Stop::Fault(fault)) => Ok(Some(fault)),
        Err(Stop::Memory(error)) => Err(error),
    }
}

/// The number of a new node, which is none where it was refused.
pub fn number_of(made: Result<NodeId, Stop<TreeFault>>) -> Result<Option<u32>, AllocError> {
    match made {
        Ok(node) => Ok(Some(node.number())),
        Err(Stop::Fault(_)) => Ok(None),
        Err(Stop::Memory(error)) => Err(error),
    }
}

/// The tree of `a {b: c}`: 1 is the rule, and 2 the declaration.
pub fn sheet(alloc: Global) -> Result<Work, AllocError> {
    let mut work = empty_sheet(alloc)?;
    number_of(new_rule(&mut work, "a"))?;
    number_of(new_decl(&mut work, "b", "c"))?;
    refusal(&mut work, Call::Append(0, 1))?;
    refusal(&mut work, Call::Append(1, 2))?;
    Ok(work)
}
