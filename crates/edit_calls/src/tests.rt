// Each call where it is made, and each refusal of each call.
use crate::laws::examples;
use crate::making::{new_at_rule, new_comment, new_decl, new_rule};
use crate::samples::{Call, empty_sheet, number_of, refusal, sheet};
use crate::setting::set_value;
use css_tree::node::Raw;
use node_store::fault::TreeFault;
use node_store::id::NodeId;
use node_store::item::{Edit, Item};
use node_store::work::Work;
use std::alloc::{AllocError, Global};
use std::process::Abort;
use std::test::Fail;

fn id(number: u32) -> NodeId {
    NodeId::new(number)
}

fn expect_refusals(
    rt: &impl Abort,
    work: &mut Work,
    rows: &[(Call, TreeFault)],
) -> Result<(), AllocError> {
    let before = work.log().len();
    for (call, fault) in rows {
        assert_eq!(rt; refusal(work, *call)?, Some(*fault));
    }
    assert_eq!(rt; work.log().len(), before);
    Ok(())
}

fn expect_calls(rt: &impl Abort, work: &mut Work, calls: &[Call]) -> Result<(), AllocError> {
    for call in calls {
        assert_eq!(rt; refusal(work, *call)?, None);
    }
    Ok(())
}

fn expect_children(rt: &impl Abort, work: &Work, parent: u32, want: &[u32]) {
    let mut at = work.first_child(id(parent));
    for child in want {
        assert_eq!(rt; at, Ok(Some(id(*child))));
        at = work.next_sibling(id(*child));
    }
    assert_eq!(rt; at, Ok(None));
}

#[test]
fn laws_run(rt: HostRuntime) {
    examples();
}

#[test]
fn refuses_moves_in(rt: HostRuntime) -> Result<(), Fail> {
    let mut work = sheet(rt.alloc())?;
    number_of(new_rule(&mut work, "d"))?;
    expect_calls(&rt, &mut work, &[Call::Append(1, 3)])?;
    expect_refusals(
        &rt,
        &mut work,
        &[
            (Call::Append(9, 9), TreeFault::NoSuchNode),
            (Call::Append(9, 1), TreeFault::NoSuchNode),
            (Call::Append(2, 9), TreeFault::NoSuchNode),
            (Call::Append(2, 1), TreeFault::WrongKind),
            (Call::Append(2, 0), TreeFault::WrongKind),
            (Call::Append(1, 0), TreeFault::IsRoot),
            (Call::Append(0, 0), TreeFault::IsRoot),
            (Call::Append(1, 1), TreeFault::SameNode),
            (Call::Append(3, 1), TreeFault::Cycle),
            (Call::Prepend(9, 1), TreeFault::NoSuchNode),
            (Call::Prepend(2, 1), TreeFault::WrongKind),
            (Call::Prepend(3, 0), TreeFault::IsRoot),
            (Call::Prepend(3, 3), TreeFault::SameNode),
            (Call::Prepend(3, 1), TreeFault::Cycle),
        ],
    )?;
    Ok(())
}

#[test]
fn refuses_moves_beside(rt: HostRuntime) -> Result<(), Fail> {
    let mut work = sheet(rt.alloc())?;
    number_of(new_comment(&mut work, "k"))?;
    expect_refusals(
        &rt,
        &mut work,
        &[
            (Call::InsertBefore(9, 0), TreeFault::NoSuchNode),
            (Call::InsertBefore(0, 9), TreeFault::NoSuchNode),
            (Call::InsertBefore(0, 3), TreeFault::IsRoot),
            (Call::InsertBefore(3, 0), TreeFault::IsRoot),
            (Call::InsertBefore(3, 3), TreeFault::SameNode),
            (Call::InsertBefore(3, 1), TreeFault::Loose),
            (Call::InsertBefore(2, 1), TreeFault::Cycle),
            (Call::InsertAfter(9, 0), TreeFault::NoSuchNode),
            (Call::InsertAfter(0, 0), TreeFault::IsRoot),
            (Call::InsertAfter(3, 3), TreeFault::SameNode),
            (Call::InsertAfter(3, 2), TreeFault::Loose),
            (Call::InsertAfter(2, 1), TreeFault::Cycle),
            (Call::ReplaceWith(2, 9), TreeFault::NoSuchNode),
            (Call::ReplaceWith(0, 3), TreeFault::IsRoot),
            (Call::ReplaceWith(2, 2), TreeFault::SameNode),
            (Call::ReplaceWith(3, 2), TreeFault::Loose),
            (Call::ReplaceWith(2, 1), TreeFault::Cycle),
        ],
    )?;
    Ok(())
}

#[test]
fn refuses_other_calls(rt: HostRuntime) -> Result<(), Fail> {
    let mut work = sheet(rt.alloc())?;
    number_of(new_comment(&mut work, "k"))?;
    number_of(new_at_rule(&mut work, "m", "", false))?;
    expect_refusals(
        &rt,
        &mut work,
        &[
            (Call::Remove(9), TreeFault::NoSuchNode),
            (Call::Remove(0), TreeFault::IsRoot),
            (Call::Remove(3), TreeFault::Loose),
            (Call::CloneTree(9), TreeFault::NoSuchNode),
            (Call::CloneTree(0), TreeFault::IsRoot),
            (Call::SetProp(9), TreeFault::NoSuchNode),
            (Call::SetProp(1), TreeFault::WrongKind),
            (Call::SetValue(1), TreeFault::WrongKind),
            (Call::SetImportant(3), TreeFault::WrongKind),
            (Call::SetSelector(2), TreeFault::WrongKind),
            (Call::SetName(1), TreeFault::WrongKind),
            (Call::SetParams(3), TreeFault::WrongKind),
            (Call::SetCommentText(4), TreeFault::WrongKind),
            (Call::SetRaw(9, Raw::Before), TreeFault::NoSuchNode),
            (Call::SetRaw(0, Raw::Before), TreeFault::WrongKind),
            (Call::SetRaw(4, Raw::After), TreeFault::WrongKind),
        ],
    )?;
    Ok(())
}

#[test]
fn moves(rt: HostRuntime) -> Result<(), Fail> {
    let mut work = sheet(rt.alloc())?;
    number_of(new_comment(&mut work, "k"))?;
    number_of(new_decl(&mut work, "e", "f"))?;
    expect_calls(&rt, &mut work, &[Call::Prepend(1, 3), Call::Append(1, 4)])?;
    expect_children(&rt, &work, 1, &[3, 2, 4]);
    expect_calls(&rt, &mut work, &[Call::Append(1, 3)])?;
    expect_children(&rt, &work, 1, &[2, 4, 3]);
    expect_calls(&rt, &mut work, &[Call::InsertBefore(2, 3)])?;
    expect_children(&rt, &work, 1, &[3, 2, 4]);
    expect_calls(&rt, &mut work, &[Call::InsertAfter(2, 3)])?;
    expect_children(&rt, &work, 1, &[2, 3, 4]);
    let before = work.log().len();
    expect_calls(&rt, &mut work, &[Call::ReplaceWith(4, 2)])?;
    expect_children(&rt, &work, 1, &[3, 2]);
    assert_eq!(rt; work.log().len(), before + 3);
    assert_eq!(rt; work.parent(id(4)), Ok(None));
    work.reserve_log(1)?;
    expect_calls(&rt, &mut work, &[Call::Remove(2)])?;
    expect_refusals(
        &rt,
        &mut work,
        &[
            (Call::Remove(2), TreeFault::Loose),
            (Call::InsertBefore(2, 1), TreeFault::Loose),
        ],
    )?;
    Ok(())
}

// On `a{b{}}` the rule 1 can't go into its own child 2.
#[test]
fn refuses_a_cycle_of_two(rt: HostRuntime) -> Result<(), Fail> {
    let mut work = empty_sheet(rt.alloc())?;
    number_of(new_rule(&mut work, "a"))?;
    number_of(new_rule(&mut work, "b"))?;
    expect_calls(&rt, &mut work, &[Call::Append(0, 1), Call::Append(1, 2)])?;
    expect_refusals(&rt, &mut work, &[(Call::Append(2, 1), TreeFault::Cycle)])?;
    Ok(())
}

#[test]
fn sets(rt: HostRuntime) -> Result<(), Fail> {
    let mut work = sheet(rt.alloc())?;
    let unchanged = work.log().len();
    assert!(rt; set_value(&mut work, id(2), "c").is_ok());
    assert_eq!(rt; work.log().len(), unchanged);
    number_of(new_at_rule(&mut work, "m", "p", true))?;
    number_of(new_comment(&mut work, "k"))?;
    let before = work.log().len();
    expect_calls(
        &rt,
        &mut work,
        &[
            Call::SetProp(2),
            Call::SetValue(2),
            Call::SetValue(2),
            Call::SetImportant(2),
            Call::SetSelector(1),
            Call::SetName(3),
            Call::SetParams(3),
            Call::SetCommentText(4),
            Call::SetRaw(4, Raw::Left),
            Call::SetRaw(4, Raw::Before),
        ],
    )?;
    assert_eq!(rt; work.log().len(), before + 8);
    assert_eq!(rt; work.prop(id(2)), Ok("x"));
    assert_eq!(rt; work.value(id(2)), Ok("x"));
    assert_eq!(rt; work.raw(id(2), Raw::Important), Ok(Some(" !important")));
    assert_eq!(rt; work.selector(id(1)), Ok("x"));
    assert_eq!(rt; work.name(id(3)), Ok("x"));
    assert_eq!(rt; work.params(id(3)), Ok("x"));
    assert_eq!(rt; work.comment_text(id(4)), Ok("x"));
    assert_eq!(rt; work.raw(id(4), Raw::Before), Ok(Some(" ")));
    Ok(())
}

#[test]
fn clones(rt: HostRuntime) -> Result<(), Fail> {
    let mut work = sheet(rt.alloc())?;
    let before = work.log().len();
    expect_calls(&rt, &mut work, &[Call::CloneTree(1)])?;
    expect_children(&rt, &work, 3, &[4]);
    assert_eq!(rt; work.parent(id(3)), Ok(None));
    assert_eq!(rt; work.log().len(), before + 3);
    match work.log().last() {
        Some(Item::Edit(Edit::Insert { node, parent, at })) => assert_eq!(rt;
            (*node, *parent, *at),
            (id(4), id(3), 0)
        ),
        _ => assert!(rt; false),
    }
    Ok(())
}
