// How walks with plugins that edit end, and the cursors that they leave.
use crate::deeds::Deed;
use crate::script::Step;
use crate::walks::{AMPLE, Budgets, SITE, always, at, sheet, walked_silent, walked_telling};
use node_store::cursors::Cursor;
use node_store::fault::TreeFault;
use node_store::id::NodeId;
use node_store::item::Event;
use node_store::work::Work;
use std::alloc::Global;
use std::process::Abort;
use std::test::Fail;

// How a walk of `a{}` with that step ends, and how many items it logs.
fn expect_end(
    rt: &impl Abort,
    alloc: Global,
    event: Event,
    step: Step,
    budgets: Budgets,
    end: &str,
    items: usize,
) -> Result<(), Fail> {
    let mut work = sheet(alloc, "a{}").ok_or("a sheet")?;
    let outcome = walked_telling(alloc, &mut work, event, &[step], budgets)?;
    assert_eq!(rt; outcome.end.as_str(), end);
    assert_eq!(rt; outcome.items, items);
    Ok(())
}

#[test]
fn ends(rt: HostRuntime) -> Result<(), Fail> {
    let clones = always(Deed::InsertClone);
    let removal = at(0, Deed::Remove(1));
    for (event, step, calls, edits, end, items) in [
        (Event::Rule, clones, 10, 100, "10 calls before Rule 11", 63),
        (Event::Rule, clones, 10, 5, "6 edits at Rule 3", 19),
        (Event::RuleExit, removal, 10, 1, "done", 12),
        (Event::RuleExit, removal, 10, 0, "1 edits at RuleExit 1", 6),
        (Event::Rule, always(Deed::Fail), 10, 10, "no at Rule 1", 5),
    ] {
        expect_end(
            &rt,
            rt.alloc(),
            event,
            step,
            Budgets { calls, edits },
            end,
            items,
        )?;
    }
    Ok(())
}

#[test]
fn a_failed_call_has_its_text_in_the_log(rt: HostRuntime) -> Result<(), Fail> {
    let alloc = rt.alloc();
    let mut work = sheet(alloc, "a{}").ok_or("a sheet")?;
    let steps = [always(Deed::Fail)];
    let outcome = walked_silent(alloc, &mut work, Event::Rule, &steps, AMPLE)?;
    assert_eq!(rt;
        outcome.trace.as_str(),
        "pass, enter 0, enter 1, call p/0 Rule 1, back no"
    );
    Ok(())
}

fn root_cursor(work: &mut Work) -> Result<Cursor, Fail> {
    Ok(work.open_each(NodeId::new(0)).ok().ok_or("a cursor")?)
}

fn expect_next(rt: &impl Abort, work: &mut Work, cursor: &Cursor, want: u32) {
    assert_eq!(rt; work.next(cursor), Ok(Some(NodeId::new(want))));
}

// A cursor of another sheet has the same serial as one of this sheet that was opened as early.
fn expect_serials(rt: &impl Abort, alloc: Global, work: &mut Work) -> Result<(), Fail> {
    let mut other = sheet(alloc, "").ok_or("a sheet")?;
    let first = root_cursor(&mut other)?;
    let second = root_cursor(&mut other)?;
    expect_next(rt, work, &first, 2);
    assert_eq!(rt; work.next(&second), Err(TreeFault::NoSuchCursor));
    Ok(())
}

// A cursor that stood before the walk stands behind the rule that it had passed, and the walk's own cursors are closed.
fn expect_cursors(rt: &impl Abort, alloc: Global, budgets: Budgets) -> Result<(), Fail> {
    let steps = [
        at(1, Deed::MakeRule),
        at(1, Deed::InsertBefore { anchor: 2, node: 3 }),
    ];
    let mut work = sheet(alloc, "a{}b{}").ok_or("a sheet")?;
    let cursor = root_cursor(&mut work)?;
    expect_next(rt, &mut work, &cursor, 1);
    walked_silent(alloc, &mut work, Event::Rule, &steps, budgets)?;
    expect_next(rt, &mut work, &cursor, 3);
    expect_serials(rt, alloc, &mut work)
}

#[test]
fn cursors(rt: HostRuntime) -> Result<(), Fail> {
    for (calls, edits) in [(100, 100), (2, 9), (9, 1)] {
        expect_cursors(&rt, rt.alloc(), Budgets { calls, edits })?;
    }
    Ok(())
}

fn expect_spent(
    rt: &impl Abort,
    alloc: Global,
    event: Event,
    budgets: Budgets,
    end: &str,
) -> Result<(), Fail> {
    let mut work = sheet(alloc, SITE).ok_or("a sheet")?;
    let outcome = walked_telling(alloc, &mut work, event, &[always(Deed::Reinsert)], budgets)?;
    assert!(rt; outcome.end.as_str().contains(end));
    Ok(())
}

// A plugin that never lets a node stay where it is, until the calls or the edits are spent.
#[test]
fn a_stubborn_plugin(rt: HostRuntime) -> Result<(), Fail> {
    for (event, calls, edits, end) in [
        (Event::Declaration, 50, 1000, "50 calls before"),
        (Event::RuleExit, 1000, 100, "edits at RuleExit"),
    ] {
        expect_spent(&rt, rt.alloc(), event, Budgets { calls, edits }, end)?;
    }
    Ok(())
}
