// The trace of a walk.
ghost use Rattle.std.specs.Prelude.{◌≡◌, ◌++◌, [], IfOk, OnOk, slice_index_or, string_bytes};
ghost use Rattle.std.specs.Str.{chars};
ghost use Rattle.css_job.specs.Trace.{line, name_at, call_text, edit_text, item_text, trace, caller};
ghost use Rattle.css_job.specs.ShelfSeen.{shelf_names};

use crate::transform::item_names::{event_name, field_name, raw_name};
use css_text::txt::Txt;
use node_store::item::{Edit, Item, Moment};
use plugin_api::plugin::Plugin;
use std::alloc::{AllocError, Global};

// The name of the plugin at a place of the shelf; empty where it has no such place.
fn plugin_name(shelf: &Vec<Plugin>, place: u32) -> &str
    ensures bytes { result.now ≡ name_at (shelf_names shelf.now.items) place }
    ensures characters { chars result.now ≡ slice_index_or (shelf_names shelf.now.items) place [] }
{
    match shelf.get(place as usize) {
        Some(plugin) => plugin.name.as_str(),
        None => "",
    }
}

fn push_call(to: &mut String, plugin: &str, hook: u32, moment: Moment) -> Result<(), AllocError>
    ensures { OnOk result (string_bytes to.new ≡ string_bytes to.old ++ call_text plugin.now hook moment) }
{
    let event = event_name(moment.event);
    let node = moment.node.number();
    write!(to, "call {plugin}/{hook} {event} {node}")?;
    Ok(())
}

fn push_edit(to: &mut String, edit: &Edit) -> Result<(), AllocError>
    ensures { OnOk result (string_bytes to.new ≡ string_bytes to.old ++ edit_text edit.now) }
{
    match edit {
        Edit::Set { node, field, .. } => {
            write!(to, "edit set {} {}", node.number(), field_name(*field))?
        }
        Edit::SetRaw { node, raw, .. } => {
            write!(to, "edit raw {} {}", node.number(), raw_name(*raw))?
        }
        Edit::New { node, .. } => write!(to, "edit new {}", node.number())?,
        Edit::Insert { node, parent, at } => {
            let (node, parent) = (node.number(), parent.number());
            write!(to, "edit insert {node} under {parent} at {at}")?
        }
        Edit::Remove { node } => write!(to, "edit remove {}", node.number())?,
    }
    Ok(())
}

fn push_item(to: &mut String, shelf: &Vec<Plugin>, item: &Item) -> Result<(), AllocError>
    ensures { OnOk result (string_bytes to.new ≡ string_bytes to.old ++ item_text (shelf_names shelf.now.items) item.now) }
{
    match item {
        Item::Pass => to.push_str("pass")?,
        Item::Enter(node) => write!(to, "enter {}", node.number())?,
        Item::Call {
            plugin,
            hook,
            moment,
        } => push_call(to, plugin_name(shelf, *plugin), *hook, *moment)?,
        Item::Edit(edit) => push_edit(to, edit)?,
        Item::Back { fault: None } => to.push_str("back")?,
        Item::Back { fault: Some(_) } => to.push_str("back fault")?,
        Item::Leave(node) => write!(to, "leave {}", node.number())?,
        Item::End => to.push_str("end")?,
    }
    Ok(())
}

fn push_line(to: &mut String, shelf: &Vec<Plugin>, item: &Item) -> Result<(), AllocError>
    ensures { OnOk result (string_bytes to.new ≡ string_bytes to.old ++ line (item_text (shelf_names shelf.now.items) item.now)) }
{
    push_item(to, shelf, item)?;
    to.push_str("\n")?;
    Ok(())
}

/// The lines of a walk's log, one for each item.
///
/// # Errors
///
/// Only when out of memory.
#[tactic(auto, unfolding(crate::specs::Trace::trace))]
pub fn trace(alloc: Global, shelf: &Vec<Plugin>, log: &[Item]) -> Result<String, AllocError>
    ensures { IfOk result (λ text. string_bytes text ≡ trace (shelf_names shelf.now.items) log.now) }
{
    let mut text = String::new(alloc);
    for item in log {
        push_line(&mut text, shelf, item)?;
    }
    Ok(text)
}

/// The name of the plugin whose hook was called last; empty where none was.
///
/// # Errors
///
/// Only when out of memory.
pub fn caller(alloc: Global, shelf: &Vec<Plugin>, log: &[Item]) -> Result<Txt, AllocError>
    ensures { IfOk result (λ name. name ≡ caller (shelf_names shelf.now.items) log.now) }
{
    let mut before = log;
    while let Some((item, rest)) = before.split_last() {
        if let Item::Call { plugin, .. } = item {
            return Txt::new(alloc, plugin_name(shelf, *plugin));
        }
        before = rest;
    }
    Txt::new(alloc, "")
}
