// Edit calls on sheets that were parsed, and what is printed after them.
use crate::edit_model::{Entry, Move, entries_of, is_made, make_move, moved, next_in};
use crate::walks::{SITE, sheet};
use css_text::stop::Stop;
use css_tree::node::Raw;
use edit_calls::making::{clone_tree, new_at_rule, new_comment, new_decl, new_rule};
use edit_calls::moving::{append, prepend, replace_with};
use edit_calls::setting::{
    set_comment_text, set_important, set_name, set_params, set_prop, set_raw, set_selector,
    set_value,
};
use node_store::fault::TreeFault;
use node_store::id::NodeId;
use node_store::item::{Edit, Item};
use node_store::work::Work;
use std::alloc::{AllocError, Global};
use std::process::Abort;
use std::test::Fail;
use stringify::printed::print;

fn id(number: u32) -> NodeId {
    NodeId::new(number)
}

fn expect_new(
    rt: &impl Abort,
    made: Result<NodeId, Stop<TreeFault>>,
    want: u32,
) -> Result<(), AllocError> {
    match made {
        Ok(node) => assert_eq!(rt; node.number(), want),
        Err(Stop::Fault(_)) => assert!(rt; false),
        Err(Stop::Memory(error)) => return Err(error),
    }
    Ok(())
}

fn expect_done(rt: &impl Abort, done: Result<(), Stop<TreeFault>>) -> Result<(), AllocError> {
    match done {
        Ok(()) => {}
        Err(Stop::Fault(_)) => assert!(rt; false),
        Err(Stop::Memory(error)) => return Err(error),
    }
    Ok(())
}

fn expect_printed(
    rt: &impl Abort,
    alloc: Global,
    work: &Work,
    want: &str,
) -> Result<(), AllocError> {
    let printed = print(alloc, work)?;
    assert_eq!(rt; printed.text.as_str(), want);
    Ok(())
}

fn print_new_nodes(rt: &impl Abort, alloc: Global, work: &mut Work) -> Result<(), AllocError> {
    expect_new(rt, new_decl(work, "b", "c"), 1)?;
    expect_new(rt, new_rule(work, "a"), 2)?;
    expect_done(rt, append(work, id(2), id(1)))?;
    expect_done(rt, append(work, id(0), id(2)))?;
    expect_printed(rt, alloc, work, "a {\n    b: c;\n}")
}

fn print_behind_import(rt: &impl Abort, alloc: Global, work: &mut Work) -> Result<(), AllocError> {
    expect_new(rt, new_rule(work, "b"), 2)?;
    expect_done(rt, append(work, id(0), id(2)))?;
    expect_printed(rt, alloc, work, "@import \"a\";b {}")
}

fn make_nodes(rt: &impl Abort, work: &mut Work) -> Result<(), AllocError> {
    expect_new(rt, new_at_rule(work, "m", "x", true), 3)?;
    expect_new(rt, new_comment(work, "k"), 4)?;
    expect_new(rt, new_decl(work, "p", "q"), 5)
}

fn move_nodes(rt: &impl Abort, work: &mut Work) -> Result<(), AllocError> {
    expect_done(rt, prepend(work, id(0), id(3)))?;
    expect_done(rt, append(work, id(3), id(4)))?;
    expect_done(rt, replace_with(work, id(2), id(5)))
}

fn set_declaration(rt: &impl Abort, work: &mut Work) -> Result<(), AllocError> {
    expect_done(rt, set_prop(work, id(5), "r"))?;
    expect_done(rt, set_value(work, id(5), "s"))?;
    expect_done(rt, set_important(work, id(5), true))
}

fn set_at_rule(rt: &impl Abort, work: &mut Work) -> Result<(), AllocError> {
    expect_done(rt, set_name(work, id(3), "media"))?;
    expect_done(rt, set_params(work, id(3), "print"))?;
    expect_done(rt, set_comment_text(work, id(4), "z"))
}

fn set_rule(rt: &impl Abort, work: &mut Work) -> Result<(), AllocError> {
    expect_done(rt, set_selector(work, id(1), "d"))?;
    expect_done(rt, set_raw(work, id(1), Raw::Before, "\n"))
}

fn print_every_call(rt: &impl Abort, alloc: Global, work: &mut Work) -> Result<(), AllocError> {
    make_nodes(rt, work)?;
    move_nodes(rt, work)?;
    set_declaration(rt, work)?;
    set_at_rule(rt, work)?;
    set_rule(rt, work)?;
    expect_printed(
        rt,
        alloc,
        work,
        "@media print {\n    /* z */\n}\nd{\n    r: s !important}",
    )
}

#[test]
fn prints_new_nodes(rt: HostRuntime) -> Result<(), Fail> {
    match sheet(rt.alloc(), "") {
        Some(mut work) => print_new_nodes(&rt, rt.alloc(), &mut work)?,
        None => assert!(rt; false),
    }
    Ok(())
}

#[test]
fn prints_behind_import(rt: HostRuntime) -> Result<(), Fail> {
    match sheet(rt.alloc(), "@import \"a\"") {
        Some(mut work) => print_behind_import(&rt, rt.alloc(), &mut work)?,
        None => assert!(rt; false),
    }
    Ok(())
}

#[test]
fn prints_after_every_call(rt: HostRuntime) -> Result<(), Fail> {
    match sheet(rt.alloc(), "a{b:c}") {
        Some(mut work) => print_every_call(&rt, rt.alloc(), &mut work)?,
        None => assert!(rt; false),
    }
    Ok(())
}

fn expect_copy_logged(rt: &impl Abort, log: &[Item]) {
    match log {
        [
            Item::Edit(Edit::New { node: top, .. }),
            Item::Edit(Edit::New { node: child, .. }),
            Item::Edit(Edit::Insert { node, parent, at }),
        ] => {
            assert_eq!(rt; (*top, *child), (id(3), id(4)));
            assert_eq!(rt; (*node, *parent, *at), (id(4), id(3), 0));
        }
        _ => assert!(rt; false),
    }
}

fn copy_rule(rt: &impl Abort, work: &mut Work) -> Result<(), AllocError> {
    expect_new(rt, clone_tree(work, id(1)), 3)?;
    assert_eq!(rt; work.first_child(id(3)), Ok(Some(id(4))));
    expect_copy_logged(rt, work.log());
    Ok(())
}

#[test]
fn logs_a_copy(rt: HostRuntime) -> Result<(), Fail> {
    match sheet(rt.alloc(), "a{b:c}") {
        Some(mut work) => copy_rule(&rt, &mut work)?,
        None => assert!(rt; false),
    }
    Ok(())
}

fn number_of(node: Option<NodeId>) -> Option<u32> {
    match node {
        Some(node) => Some(node.number()),
        None => None,
    }
}

fn expect_same(rt: &impl Abort, work: &Work, entries: &[Entry]) {
    for entry in entries {
        match (
            work.parent(id(entry.node)),
            work.next_sibling(id(entry.node)),
        ) {
            (Ok(parent), Ok(next)) => {
                assert_eq!(rt; number_of(parent), entry.parent);
                assert_eq!(rt; number_of(next), next_in(entries, *entry));
            }
            _ => assert!(rt; false),
        }
    }
}

fn move_of(step: u32, other: u32) -> Move {
    match step % 6 {
        0 => Move::Append { container: other },
        1 => Move::Prepend { container: other },
        2 => Move::Before { anchor: other },
        3 => Move::Behind { anchor: other },
        4 => Move::Replace { anchor: other },
        _ => Move::Remove,
    }
}

// The entries after a step, where its move is made.
fn make_step(
    rt: &impl Abort,
    alloc: Global,
    work: &mut Work,
    entries: &[Entry],
    node: u32,
    to: Move,
) -> Result<Option<Vec<Entry>>, AllocError> {
    let wanted = is_made(entries, node, to);
    assert_eq!(rt; make_move(work, node, to)?, wanted);
    if !wanted {
        expect_same(rt, work, entries);
        return Ok(None);
    }
    let after = moved(alloc, entries, node, to)?;
    expect_same(rt, work, &after);
    Ok(Some(after))
}

// How many of the moves are made.
fn make_moves(rt: &impl Abort, alloc: Global, work: &mut Work) -> Result<u32, AllocError> {
    let mut entries = entries_of(alloc, work)?;
    let total = work.node_total();
    let mut made: u32 = 0;
    for step in 0..600u32 {
        if total == 0 {
            return Ok(made);
        }
        let node = (step * step + 3) % total;
        let to = move_of(step, (7 * step + 1) % total);
        if let Some(after) = make_step(rt, alloc, work, &entries, node, to)? {
            entries = after;
            made = made.saturating_add(1);
        }
    }
    Ok(made)
}

#[test]
fn moves_as_a_list(rt: HostRuntime) -> Result<(), Fail> {
    match sheet(rt.alloc(), SITE) {
        Some(mut work) => assert_eq!(rt; make_moves(&rt, rt.alloc(), &mut work)? > 200, true),
        None => assert!(rt; false),
    }
    Ok(())
}
