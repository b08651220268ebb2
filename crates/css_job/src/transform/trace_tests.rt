// The text of a log with an item and an edit of each kind, who called last, and each name.
use crate::transform::item_names::{event_name, field_name, raw_name};
use crate::transform::trace::{caller, trace};
use crate::transform::trace_laws::trace_examples;
use css_text::txt::Txt;
use css_tree::node::{Field, NodeText, Raw};
use node_rows::packed::PackedSpan;
use node_store::boxed_text::BoxedText;
use node_store::id::NodeId;
use node_store::item::{Edit, Event, Item, Moment};
use plugin_api::plugin::Plugin;
use std::alloc::{AllocError, Global};
use std::test::Fail;

fn shelf(alloc: Global) -> Result<Vec<Plugin>, AllocError> {
    let mut shelf = Vec::new(alloc);
    for name in ["p", "drop-empty"] {
        shelf.push(Plugin {
            name: Txt::new(alloc, name)?,
            hooks: Vec::new(alloc),
        })?;
    }
    Ok(shelf)
}

fn id(number: u32) -> NodeId {
    NodeId::new(number)
}

fn call(plugin: u32, hook: u32, event: Event, node: u32) -> Item {
    let moment = Moment {
        event,
        node: id(node),
    };
    Item::Call {
        plugin,
        hook,
        moment,
    }
}

fn push_sets(alloc: Global, log: &mut Vec<Item>) -> Result<(), AllocError> {
    log.push(Item::Edit(Edit::Set {
        field: Field::Params,
        node: id(2),
        text: Txt::new(alloc, "print")?,
    }))?;
    log.push(Item::Edit(Edit::SetRaw {
        raw: Raw::AfterName,
        node: id(2),
        text: Txt::new(alloc, " ")?,
    }))?;
    Ok(())
}

fn push_moves(log: &mut Vec<Item>, text: BoxedText) -> Result<(), AllocError> {
    log.push(Item::Edit(Edit::New {
        node: id(13),
        text,
        span: PackedSpan::new(None)?,
    }))?;
    log.push(Item::Edit(Edit::Insert {
        node: id(13),
        parent: id(2),
        at: 10,
    }))?;
    log.push(Item::Edit(Edit::Remove { node: id(7) }))?;
    Ok(())
}

fn comment(alloc: Global) -> Result<BoxedText, AllocError> {
    let text = NodeText::Comment {
        before: None,
        left: Txt::new(alloc, "")?,
        text: Txt::new(alloc, "k")?,
        right: Txt::new(alloc, "")?,
    };
    BoxedText::new(alloc, text)
}

// Each kind of item, though a walk ends without more where a call has failed.
fn each_item(alloc: Global) -> Result<Vec<Item>, AllocError> {
    let mut log = Vec::new(alloc);
    log.push(Item::Pass)?;
    log.push(Item::Enter(id(0)))?;
    log.push(call(0, 0, Event::RootExit, 0))?;
    push_sets(alloc, &mut log)?;
    log.push(Item::Back { fault: None })?;
    log.push(call(1, 12, Event::AtRule, 4294967295))?;
    push_moves(&mut log, comment(alloc)?)?;
    log.push(Item::Back {
        fault: Some(Txt::new(alloc, "no")?),
    })?;
    log.push(Item::Leave(id(0)))?;
    log.push(Item::End)?;
    Ok(log)
}

#[test]
fn each_item_is_a_line(rt: HostRuntime) -> Result<(), Fail> {
    let alloc = rt.alloc();
    let text = trace(alloc, &shelf(alloc)?, &each_item(alloc)?)?;
    assert_eq!(rt;
        text.as_str(),
        "pass\nenter 0\ncall p/0 RootExit 0\nedit set 2 params\nedit raw 2 afterName\nback\ncall drop-empty/12 AtRule 4294967295\nedit new 13\nedit insert 13 under 2 at 10\nedit remove 7\nback fault\nleave 0\nend\n"
    );
    trace_examples();
    Ok(())
}

#[test]
fn the_last_call_has_the_name(rt: HostRuntime) -> Result<(), Fail> {
    let alloc = rt.alloc();
    let shelf = shelf(alloc)?;
    let log = each_item(alloc)?;
    for (len, want) in [
        (2, ""),
        (3, "p"),
        (6, "p"),
        (7, "drop-empty"),
        (13, "drop-empty"),
    ] {
        assert_eq!(rt;
            caller(alloc, &shelf, log.get(..len).unwrap_or(&[]))?.as_str(),
            want
        );
    }
    Ok(())
}

#[test]
fn names_are_spelt_as_in_postcss(rt: HostRuntime) {
    assert_eq!(rt; event_name(Event::DeclarationExit), "DeclarationExit");
    assert_eq!(rt; field_name(Field::Important), "important");
    assert_eq!(rt; raw_name(Raw::Tail), "tail");
}
