// Edits, cursors and the log, each call once where it is allowed.
use crate::cursors::Cursor;
use crate::fault::TreeFault;
use crate::id::NodeId;
use crate::item::{Edit, Item};
use crate::laws::{copies_can, cursors_are_same, examples, fresh_tree, stays_fresh};
use crate::parts;
use crate::trees::{
    comment, declaration, empty_sheet, id, make, put, reserve, rule, set, shape, take,
};
use crate::work::Work;
use css_text::stop::Stop;
use css_tree::node::{Field, Raw};
use std::alloc::{AllocError, Global};
use std::process::Abort;
use std::test::Fail;

// The tree of `a{b:c}`: 1 is the rule, and 2 the declaration.
fn sheet(alloc: Global) -> Result<Work, AllocError> {
    let mut work = empty_sheet(alloc)?;
    make(&mut work, rule(alloc, "a")?)?;
    make(&mut work, declaration(alloc, "b", "c")?)?;
    put(&mut work, id(0), 0, id(1))?;
    put(&mut work, id(1), 0, id(2))?;
    Ok(work)
}

// The same, with a loose comment, 3.
fn sheet_and_comment(alloc: Global) -> Result<Work, AllocError> {
    let mut work = sheet(alloc)?;
    make(&mut work, comment(alloc, "k")?)?;
    Ok(work)
}

fn expect_put(
    rt: &impl Abort,
    work: &mut Work,
    parent: u32,
    at: u32,
    node: u32,
) -> Result<(), AllocError> {
    assert_eq!(rt; put(work, id(parent), at, id(node))?, true);
    Ok(())
}

fn expect_take(rt: &impl Abort, work: &mut Work, node: u32, want: bool) -> Result<(), AllocError> {
    assert_eq!(rt; take(work, id(node))?, want);
    Ok(())
}

#[test]
fn faults(rt: HostRuntime) -> Result<(), Fail> {
    for (fault, want) in [
        (TreeFault::NoSuchNode, "NoSuchNode"),
        (TreeFault::WrongKind, "WrongKind"),
        (TreeFault::NoSuchCursor, "NoSuchCursor"),
        (TreeFault::IsRoot, "IsRoot"),
        (TreeFault::SameNode, "SameNode"),
        (TreeFault::Loose, "Loose"),
        (TreeFault::Cycle, "Cycle"),
        (TreeFault::Full, "Full"),
    ] {
        assert_eq!(rt; format!(in rt.alloc(); "{fault}")?.as_str(), want);
    }
    Ok(())
}

#[test]
fn laws(_rt: HostRuntime) -> Result<(), Fail> {
    fresh_tree();
    stays_fresh();
    cursors_are_same();
    copies_can();
    examples();
    Ok(())
}

fn expect_place(rt: &impl Abort, work: &Work, node: u32, want: Option<u32>) {
    assert_eq!(rt; work.place(id(node)), Ok(want));
}

#[test]
fn places(rt: HostRuntime) -> Result<(), Fail> {
    let mut work = sheet_and_comment(rt.alloc())?;
    expect_place(&rt, &work, 3, None);
    expect_put(&rt, &mut work, 1, 1, 3)?;
    expect_place(&rt, &work, 3, Some(1));
    expect_take(&rt, &mut work, 2, true)?;
    expect_take(&rt, &mut work, 2, false)?;
    expect_place(&rt, &work, 3, Some(0));
    Ok(())
}

fn expect_previous(
    rt: &impl Abort,
    work: &Work,
    node: u32,
    want: Result<Option<NodeId>, TreeFault>,
) {
    assert_eq!(rt; work.previous_sibling(id(node)), want);
}

fn expect_holds(rt: &impl Abort, work: &Work, top: u32, node: u32, want: bool) {
    assert!(rt; top < work.node_total() && node < work.node_total());
    assert_eq!(rt; work.holds(id(top), id(node)), want);
}

#[test]
fn relatives(rt: HostRuntime) -> Result<(), Fail> {
    let mut work = sheet_and_comment(rt.alloc())?;
    expect_put(&rt, &mut work, 1, 1, 3)?;
    expect_previous(&rt, &work, 3, Ok(Some(id(2))));
    expect_previous(&rt, &work, 9, Err(TreeFault::NoSuchNode));
    assert_eq!(rt; work.node_total(), 4);
    expect_holds(&rt, &work, 1, 3, true);
    expect_holds(&rt, &work, 3, 1, false);
    Ok(())
}

fn expect_logged(rt: &impl Abort, work: &Work, items: usize) {
    assert_eq!(rt; work.log().len(), items);
}

fn expect_set(
    rt: &impl Abort,
    work: &mut Work,
    node: u32,
    text: &str,
    want: bool,
) -> Result<(), AllocError> {
    assert_eq!(rt; set(work, id(node), Field::Value, text)?, want);
    Ok(())
}

fn expect_tail_set(rt: &impl Abort, work: &mut Work, tail: &str) -> Result<(), AllocError> {
    assert_eq!(rt; shape(work, id(2), Raw::Tail, tail)?, true);
    Ok(())
}

// A text that is set again is no edit.
#[test]
fn texts_that_stay(rt: HostRuntime) -> Result<(), Fail> {
    let mut work = sheet(rt.alloc())?;
    expect_logged(&rt, &work, 4);
    expect_set(&rt, &mut work, 2, "c", true)?;
    expect_tail_set(&rt, &mut work, "7")?;
    expect_logged(&rt, &work, 4);
    Ok(())
}

fn expect_texts(rt: &impl Abort, work: &Work, value: &str, tail: &str) {
    assert_eq!(rt; work.value(id(2)), Ok(value));
    assert_eq!(rt; work.raw(id(2), Raw::Tail), Ok(Some(tail)));
}

#[test]
fn texts_that_change(rt: HostRuntime) -> Result<(), Fail> {
    let mut work = sheet(rt.alloc())?;
    expect_set(&rt, &mut work, 2, "d/**/", true)?;
    expect_texts(&rt, &work, "d", "7");
    expect_tail_set(&rt, &mut work, " ")?;
    expect_texts(&rt, &work, "d", " ");
    expect_logged(&rt, &work, 6);
    expect_set(&rt, &mut work, 1, "c", false)?;
    Ok(())
}

fn cursor_in(work: &mut Work, node: u32) -> Result<Cursor, Fail> {
    Ok(work.open_each(id(node)).ok().ok_or("a cursor")?)
}

fn expect_next(rt: &impl Abort, work: &mut Work, cursor: &Cursor, want: Option<NodeId>) {
    assert_eq!(rt; work.next(cursor), Ok(want));
}

fn expect_closed(rt: &impl Abort, work: &mut Work, cursor: Cursor) {
    assert_eq!(rt; work.close(cursor), Ok(()));
}

#[test]
fn a_declaration_has_no_cursor(rt: HostRuntime) -> Result<(), Fail> {
    match sheet(rt.alloc())?.open_each(id(2)) {
        Err(Stop::Fault(fault)) => assert_eq!(rt; fault, TreeFault::WrongKind),
        _ => assert!(rt; false),
    }
    Ok(())
}

#[test]
fn a_cursor_in_an_empty_rule(rt: HostRuntime) -> Result<(), Fail> {
    let mut work = sheet(rt.alloc())?;
    expect_take(&rt, &mut work, 2, true)?;
    let cursor = cursor_in(&mut work, 1)?;
    expect_next(&rt, &mut work, &cursor, None);
    expect_closed(&rt, &mut work, cursor);
    Ok(())
}

fn pass_all(rt: &impl Abort, work: &mut Work, cursor: &Cursor) {
    expect_next(rt, work, cursor, Some(id(2)));
    expect_next(rt, work, cursor, None);
    expect_next(rt, work, cursor, None);
}

// The comment goes before what the cursor has passed, and the declaration behind it.
fn move_both(rt: &impl Abort, work: &mut Work, cursor: &Cursor) -> Result<(), AllocError> {
    expect_put(rt, work, 1, 0, 3)?;
    expect_next(rt, work, cursor, None);
    expect_take(rt, work, 2, true)?;
    expect_put(rt, work, 1, 1, 2)
}

#[test]
fn cursors(rt: HostRuntime) -> Result<(), Fail> {
    let mut work = sheet_and_comment(rt.alloc())?;
    let cursor = cursor_in(&mut work, 1)?;
    pass_all(&rt, &mut work, &cursor);
    move_both(&rt, &mut work, &cursor)?;
    assert_eq!(rt; work.next_dirty(&cursor), Ok(Some(id(2))));
    expect_closed(&rt, &mut work, cursor);
    Ok(())
}

fn expect_dirty(rt: &impl Abort, work: &Work, node: u32, want: bool) {
    assert_eq!(rt; work.is_dirty(id(node)), Ok(want));
}

// Notes that a pass began, and that the node was entered.
fn note_entered(rt: &impl Abort, work: &mut Work, node: u32) -> Result<(), AllocError> {
    work.note(Item::Pass)?;
    assert!(rt; node < work.node_total());
    work.note(Item::Enter(id(node)))
}

#[test]
fn logs(rt: HostRuntime) -> Result<(), Fail> {
    let mut work = sheet(rt.alloc())?;
    assert_eq!(rt; work.take_log().len(), 4);
    note_entered(&rt, &mut work, 1)?;
    expect_dirty(&rt, &work, 1, false);
    expect_logged(&rt, &work, 2);
    Ok(())
}

#[test]
fn room_for_an_edit(rt: HostRuntime) -> Result<(), Fail> {
    let mut work = sheet(rt.alloc())?;
    note_entered(&rt, &mut work, 1)?;
    work.reserve_log(2)?;
    assert_eq!(rt; reserve(&mut work, id(0))?, true);
    expect_take(&rt, &mut work, 1, true)?;
    expect_put(&rt, &mut work, 0, 0, 1)?;
    expect_dirty(&rt, &work, 1, true);
    Ok(())
}

fn expect_texts_set(rt: &impl Abort, log: &[Item]) {
    match log {
        [
            _,
            Item::Edit(Edit::Set { field, node, text }),
            Item::Edit(
                Edit::SetRaw {
                    raw,
                    node: shaped,
                    ..
                },
            ),
        ] => {
            assert_eq!(rt; (*field, *node), (Field::Selector, id(1)));
            assert_eq!(rt; text.as_str(), "b");
            assert_eq!(rt; (*raw, *shaped), (Raw::Between, id(1)));
        }
        _ => assert!(rt; false),
    }
}

#[test]
fn logs_set_texts(rt: HostRuntime) -> Result<(), Fail> {
    let mut work = empty_sheet(rt.alloc())?;
    make(&mut work, rule(rt.alloc(), "a")?)?;
    set(&mut work, id(1), Field::Selector, "b")?;
    shape(&mut work, id(1), Raw::Between, " ")?;
    expect_texts_set(&rt, work.log());
    Ok(())
}

fn expect_comment_made(rt: &impl Abort, log: &[Item]) {
    match log {
        [Item::Edit(Edit::New { node, text, span })] => {
            assert_eq!(rt; *node, id(1));
            assert_eq!(rt; parts::field(text.as_text(), Field::Text), Some("k"));
            assert_eq!(rt; span.get(), None);
        }
        _ => assert!(rt; false),
    }
}

#[test]
fn logs_a_new_node(rt: HostRuntime) -> Result<(), Fail> {
    let mut work = empty_sheet(rt.alloc())?;
    assert_eq!(rt; make(&mut work, comment(rt.alloc(), "k")?)?, Some(id(1)));
    expect_comment_made(&rt, work.log());
    Ok(())
}
