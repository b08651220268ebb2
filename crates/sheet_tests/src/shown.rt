// Logs and ends as texts.
use css_tree::node::Field;
use node_store::item::{Edit, Item, Moment};
use plugin_api::plugin::Plugin;
use plugin_api::visitor::Told;
use std::alloc::{AllocError, Global};
use visitor_walk::walk_end::WalkEnd;

fn moment_text(alloc: Global, moment: Moment) -> Result<String, AllocError> {
    format!(in alloc; "{:?} {}", moment.event, moment.node.number())
}

fn edit_text(alloc: Global, edit: &Edit) -> Result<String, AllocError> {
    match edit {
        Edit::New { node, .. } => format!(in alloc; "edit new {}", node.number()),
        Edit::Insert { node, parent, at } => {
            format!(in alloc;
                "edit insert {} under {} at {}",
                node.number(),
                parent.number(),
                at
            )
        }
        Edit::Remove { node } => format!(in alloc; "edit remove {}", node.number()),
        Edit::Set {
            node,
            field: Field::Prop,
            ..
        } => format!(in alloc; "edit set {} prop", node.number()),
        Edit::Set { node, .. } => format!(in alloc; "edit set {}", node.number()),
        Edit::SetRaw { node, .. } => format!(in alloc; "edit raw {}", node.number()),
    }
}

fn item_text(alloc: Global, item: &Item) -> Result<String, AllocError> {
    match item {
        Item::Pass => format!(in alloc; "pass"),
        Item::Enter(node) => format!(in alloc; "enter {}", node.number()),
        Item::Call {
            plugin: _,
            hook,
            moment,
        } => {
            let at = moment_text(alloc, *moment)?;
            format!(in alloc; "call p/{hook} {}", at.as_str())
        }
        Item::Edit(edit) => edit_text(alloc, edit),
        Item::Back { fault: None } => format!(in alloc; "back"),
        Item::Back { fault: Some(text) } => format!(in alloc; "back {}", text.as_str()),
        Item::Leave(node) => format!(in alloc; "leave {}", node.number()),
        Item::End => format!(in alloc; "end"),
    }
}

/// The items, apart by commas.
pub fn trace(alloc: Global, items: &[Item]) -> Result<String, AllocError> {
    let mut out = String::new(alloc);
    for item in items {
        if !out.is_empty() {
            out.push_str(", ")?;
        }
        out.push_str(item_text(alloc, item)?.as_str())?;
    }
    Ok(out)
}

/// How a walk ended.
pub fn end_text(alloc: Global, end: WalkEnd) -> Result<String, AllocError> {
    match end {
        WalkEnd::Done => format!(in alloc; "done"),
        WalkEnd::Failed { text, moment } => {
            let at = moment_text(alloc, moment)?;
            format!(in alloc; "{} at {}", text.as_str(), at.as_str())
        }
        WalkEnd::BudgetSpent { calls, next } => {
            let at = moment_text(alloc, next)?;
            format!(in alloc; "{calls} calls before {}", at.as_str())
        }
        WalkEnd::EditBudgetSpent { edits, at } => {
            let at = moment_text(alloc, at)?;
            format!(in alloc; "{edits} edits at {}", at.as_str())
        }
    }
}

/// Each call that was told: its moment, the items before its edits, and how many edits it made.
pub fn told_text(alloc: Global, calls: &[Told]) -> Result<String, AllocError> {
    let mut out = String::new(alloc);
    for call in calls {
        let at = moment_text(alloc, call.moment)?;
        let text = format!(in alloc; "{}, {}, {}; ", at.as_str(), call.at, call.edits)?;
        out.push_str(text.as_str())?;
    }
    Ok(out)
}

/// What the first hook of the shelf told.
pub fn told_first(alloc: Global, shelf: &[Plugin]) -> Result<String, AllocError> {
    if let Some(plugin) = shelf.first() {
        if let Some(hook) = plugin.hooks.first() {
            return told_text(alloc, hook.visitor.calls().unwrap_or(&[]));
        }
    }
    Ok(String::new(alloc))
}
