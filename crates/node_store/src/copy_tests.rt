// A copy of a tree with a node of each kind.
use crate::id::NodeId;
use crate::item::{Edit, Item};
use crate::trees::{at_rule, comment, declaration, empty_sheet, id, make, put, rule};
use crate::work::Work;
use css_tree::node::Raw;
use std::alloc::{AllocError, Global};
use std::process::Abort;
use std::test::Fail;

fn make_each(alloc: Global, work: &mut Work) -> Result<(), AllocError> {
    make(work, at_rule(alloc, "m", "p")?)?;
    make(work, rule(alloc, "a")?)?;
    make(work, declaration(alloc, "b", "c")?)?;
    make(work, comment(alloc, "k")?)?;
    Ok(())
}

// 1 is an at-rule with a rule, 2, which holds a declaration, 3, and a comment, 4.
fn every_kind(alloc: Global) -> Result<Work, AllocError> {
    let mut work = empty_sheet(alloc)?;
    make_each(alloc, &mut work)?;
    put(&mut work, id(2), 0, id(3))?;
    put(&mut work, id(2), 1, id(4))?;
    put(&mut work, id(1), 0, id(2))?;
    Ok(work)
}

// The same, with a copy of 1, which is 5.
fn copied(rt: &impl Abort, alloc: Global) -> Result<Work, AllocError> {
    let mut work = every_kind(alloc)?;
    assert_eq!(rt; work.node_total(), 5);
    match work.copy_tree(id(1)) {
        Ok(copy) => assert_eq!(rt; copy, id(5)),
        Err(_) => assert!(rt; false),
    }
    Ok(work)
}

fn expect_parent(rt: &impl Abort, work: &Work, node: u32, want: Option<NodeId>) {
    assert_eq!(rt; work.parent(id(node)), Ok(want), "{node}");
}

#[test]
fn parents_of_a_copy(rt: HostRuntime) -> Result<(), Fail> {
    let work = copied(&rt, rt.alloc())?;
    for (node, parent) in [
        (5, None),
        (6, Some(id(5))),
        (7, Some(id(6))),
        (8, Some(id(6))),
    ] {
        expect_parent(&rt, &work, node, parent);
    }
    Ok(())
}

fn expect_same_raw(rt: &impl Abort, work: &Work, node: u32, copy: u32, raw: Raw) {
    let found = work.raw(id(node), raw);
    assert!(rt; found.is_ok());
    assert_eq!(rt; work.raw(id(copy), raw), found);
}

#[test]
fn raws_of_a_copy(rt: HostRuntime) -> Result<(), Fail> {
    let work = copied(&rt, rt.alloc())?;
    for (node, copy, raw) in [
        (1, 5, Raw::Before),
        (1, 5, Raw::AfterName),
        (1, 5, Raw::Between),
        (1, 5, Raw::After),
        (2, 6, Raw::Semicolon),
        (2, 6, Raw::After),
        (3, 7, Raw::Important),
        (3, 7, Raw::Tail),
        (4, 8, Raw::Before),
        (4, 8, Raw::Left),
        (4, 8, Raw::Right),
    ] {
        expect_same_raw(&rt, &work, node, copy, raw);
    }
    Ok(())
}

fn expect_inserted(rt: &impl Abort, item: &Item) {
    match item {
        Item::Edit(Edit::Insert { node, parent, at }) => {
            assert_eq!(rt; (*node, *parent, *at), (id(8), id(6), 1));
        }
        _ => assert!(rt; false),
    }
}

#[test]
fn logs_of_a_copy(rt: HostRuntime) -> Result<(), Fail> {
    let work = copied(&rt, rt.alloc())?;
    assert_eq!(rt; work.log().len(), 7 + 7);
    expect_inserted(&rt, &work.log()[13]);
    Ok(())
}
