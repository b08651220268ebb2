// Walks with plugins that edit what they visit: the logs, and the sheets that they leave.
ghost use Rattle.std.specs.Prelude.{◌≡◌, IfOk, length};

use crate::deeds::Deed;
use crate::script::{Script, Step};
use crate::shown::told_text;
use crate::walks::{AMPLE, Outcome, always, at, sheet, walked, walked_silent, walked_telling};
use css_text::txt::Txt;
use node_store::id::NodeId;
use node_store::item::{Event, Moment};
use node_store::work::Work;
use plugin_api::fn_visitor::FnVisitor;
use plugin_api::hook::Hook;
use plugin_api::recorder::Recorder;
use plugin_api::visitor::Visitor;
use std::alloc::{AllocError, Global};
use std::process::Abort;
use std::test::Fail;
use visitor_walk::laws::{calls_picked, failed_said, one_end, said_once};

fn expect_outcome(rt: &impl Abort, outcome: &Outcome, log: &str, output: &str) {
    assert_eq!(rt; outcome.end.as_str(), "done");
    assert_eq!(rt; outcome.trace.as_str(), log);
    assert_eq!(rt; outcome.output.as_str(), output);
}

fn expect_telling(
    rt: &impl Abort,
    alloc: Global,
    input: &str,
    event: Event,
    steps: &[Step],
    log: &str,
    output: &str,
) -> Result<(), Fail> {
    let mut work = sheet(alloc, input).ok_or("a sheet")?;
    let outcome = walked_telling(alloc, &mut work, event, steps, AMPLE)?;
    expect_outcome(rt, &outcome, log, output);
    Ok(())
}

fn expect_silent(
    rt: &impl Abort,
    alloc: Global,
    input: &str,
    event: Event,
    steps: &[Step],
    log: &str,
    output: &str,
) -> Result<(), Fail> {
    let mut work = sheet(alloc, input).ok_or("a sheet")?;
    let outcome = walked_silent(alloc, &mut work, event, steps, AMPLE)?;
    expect_outcome(rt, &outcome, log, output);
    Ok(())
}

// With a recorder and without one, the steps lead to that log and to that sheet.
fn expect(
    rt: &impl Abort,
    alloc: Global,
    input: &str,
    event: Event,
    steps: &[Step],
    log: &str,
    output: &str,
) -> Result<(), Fail> {
    expect_telling(rt, alloc, input, event, steps, log, output)?;
    expect_silent(rt, alloc, input, event, steps, log, output)
}

#[test]
fn a_rule_that_is_inserted_before_is_visited(rt: HostRuntime) -> Result<(), Fail> {
    expect(
        &rt,
        rt.alloc(),
        "a{}b{}",
        Event::Rule,
        &[
            at(1, Deed::MakeRule),
            at(1, Deed::InsertBefore { anchor: 2, node: 3 }),
        ],
        "pass, enter 0, enter 1, call p/0 Rule 1, back, leave 1, enter 2, call p/0 Rule 2, edit new 3, edit insert 3 under 0 at 1, back, leave 2, leave 0, pass, enter 0, enter 3, call p/0 Rule 3, back, leave 3, leave 0, end",
        "a{}n {}b{}",
    )
}

#[test]
fn a_rule_that_is_inserted_behind_is_visited(rt: HostRuntime) -> Result<(), Fail> {
    expect(
        &rt,
        rt.alloc(),
        "a{}b{}",
        Event::Rule,
        &[
            at(1, Deed::MakeRule),
            at(1, Deed::InsertAfter { anchor: 2, node: 3 }),
        ],
        "pass, enter 0, enter 1, call p/0 Rule 1, back, leave 1, enter 2, call p/0 Rule 2, edit new 3, edit insert 3 under 0 at 2, back, leave 2, enter 3, call p/0 Rule 3, back, leave 3, leave 0, pass, enter 0, leave 0, end",
        "a{}b{}n {}",
    )
}

#[test]
fn a_rule_behind_one_that_is_removed_is_visited(rt: HostRuntime) -> Result<(), Fail> {
    expect(
        &rt,
        rt.alloc(),
        "a{}b{}",
        Event::Rule,
        &[at(0, Deed::Remove(1))],
        "pass, enter 0, enter 1, call p/0 Rule 1, edit remove 1, back, leave 1, enter 2, call p/0 Rule 2, back, leave 2, leave 0, pass, enter 0, leave 0, end",
        "b{}",
    )
}

#[test]
fn open_rules_are_exchanged(rt: HostRuntime) -> Result<(), Fail> {
    let steps = [
        at(1, Deed::InsertBefore { anchor: 1, node: 2 }),
        at(
            1,
            Deed::Append {
                container: 2,
                node: 1,
            },
        ),
    ];
    expect(
        &rt,
        rt.alloc(),
        "a{b{}}",
        Event::Rule,
        &steps,
        "pass, enter 0, enter 1, call p/0 Rule 1, back, enter 2, call p/0 Rule 2, edit remove 2, edit insert 2 under 0 at 0, edit remove 1, edit insert 1 under 2 at 0, back, enter 1, call p/0 Rule 1, back, leave 1, leave 2, leave 1, leave 0, pass, enter 0, enter 2, call p/0 Rule 2, back, leave 2, leave 0, end",
        "b{a{}}",
    )
}

#[test]
fn an_open_rule_is_removed_from_inside(rt: HostRuntime) -> Result<(), Fail> {
    expect(
        &rt,
        rt.alloc(),
        "a{b{}}",
        Event::Rule,
        &[at(1, Deed::Remove(1))],
        "pass, enter 0, enter 1, call p/0 Rule 1, back, enter 2, call p/0 Rule 2, edit remove 1, back, leave 2, leave 1, leave 0, pass, enter 0, leave 0, end",
        "",
    )
}

#[test]
fn a_rule_that_goes_behind_its_sibling_is_visited_again(rt: HostRuntime) -> Result<(), Fail> {
    expect(
        &rt,
        rt.alloc(),
        "a{}b{}",
        Event::RuleExit,
        &[
            at(0, Deed::Remove(1)),
            at(
                0,
                Deed::Append {
                    container: 0,
                    node: 1,
                },
            ),
        ],
        "pass, enter 0, enter 1, call p/0 RuleExit 1, edit remove 1, edit insert 1 under 0 at 1, back, leave 1, enter 2, call p/0 RuleExit 2, back, leave 2, enter 1, call p/0 RuleExit 1, back, leave 1, leave 0, pass, enter 0, leave 0, end",
        "b{}a{}",
    )
}

#[test]
fn laws(_rt: HostRuntime) -> Result<(), Fail> {
    one_end();
    said_once();
    failed_said();
    calls_picked();
    Ok(())
}

// Two hooks at declarations, the second for the property `x` alone.
fn declaration_hooks(
    alloc: Global,
    first: Box<dyn Visitor>,
    second: Box<dyn Visitor>,
) -> Result<Vec<Hook>, AllocError>
    ensures { IfOk result (λ hooks. length hooks.items ≡ 2) }
{
    let mut hooks = Vec::new(alloc);
    hooks.push(Hook {
        event: Event::Declaration,
        filter: None,
        visitor: first,
    })?;
    hooks.push(Hook {
        event: Event::Declaration,
        filter: Some(Txt::new(alloc, "x")?),
        visitor: second,
    })?;
    Ok(hooks)
}

fn expect_filtered(
    rt: &impl Abort,
    alloc: Global,
    first: Box<dyn Visitor>,
    second: Box<dyn Visitor>,
) -> Result<(), Fail> {
    let hooks = declaration_hooks(alloc, first, second)?;
    let mut work = sheet(alloc, "a{b:c}").ok_or("a sheet")?;
    let outcome = walked(alloc, &mut work, hooks, AMPLE)?;
    expect_outcome(
        rt,
        &outcome,
        "pass, enter 0, enter 1, enter 2, call p/0 Declaration 2, edit set 2 prop, back, call p/1 Declaration 2, back, leave 2, leave 1, leave 0, pass, enter 0, enter 1, enter 2, call p/0 Declaration 2, back, call p/1 Declaration 2, back, leave 2, leave 1, leave 0, end",
        "a{x:c}",
    );
    Ok(())
}

// A filter is compared with the property that the declaration has when the hook comes up.
#[test]
fn a_filter_is_read_late(rt: HostRuntime) -> Result<(), Fail> {
    let alloc = rt.alloc();
    let setting = Script::new(alloc, &[always(Deed::SetProp(2))])?;
    let idle = Script::new(alloc, &[])?;
    let first: Box<dyn Visitor> = Box::new(alloc, FnVisitor::new(alloc, setting))?;
    let second: Box<dyn Visitor> = Box::new(alloc, FnVisitor::new(alloc, idle))?;
    expect_filtered(&rt, alloc, first, second)
}

#[test]
fn calls_are_told(rt: HostRuntime) -> Result<(), Fail> {
    let alloc = rt.alloc();
    let steps = [
        at(1, Deed::MakeRule),
        at(1, Deed::InsertBefore { anchor: 2, node: 3 }),
    ];
    let mut work = sheet(alloc, "a{}b{}").ok_or("a sheet")?;
    let outcome = walked_telling(alloc, &mut work, Event::Rule, &steps, AMPLE)?;
    assert_eq!(rt;
        outcome.told.as_str(),
        "Rule 1, 4, 0; Rule 2, 8, 2; Rule 3, 17, 0; "
    );
    Ok(())
}

fn expect_visits(rt: &impl Abort, work: &mut Work, visitor: &mut Recorder<FnVisitor<Script>>) {
    for number in 1..4 {
        let moment = Moment {
            event: Event::Rule,
            node: NodeId::new(number),
        };
        assert!(rt; visitor.visit(work, moment).is_ok());
    }
}

// A recorder that is called without a walk.
#[test]
fn calls_are_told_without_a_box(rt: HostRuntime) -> Result<(), Fail> {
    let alloc = rt.alloc();
    let steps = [
        at(1, Deed::MakeRule),
        at(1, Deed::InsertBefore { anchor: 2, node: 3 }),
    ];
    let mut work = sheet(alloc, "a{}b{}").ok_or("a sheet")?;
    let mut visitor = Recorder::new(alloc, FnVisitor::new(alloc, Script::new(alloc, &steps)?));
    expect_visits(&rt, &mut work, &mut visitor);
    let told = told_text(alloc, visitor.calls())?;
    assert_eq!(rt; told.as_str(), "Rule 1, 0, 0; Rule 2, 0, 2; Rule 3, 2, 0; ");
    Ok(())
}
