// Runs of `transform` with the shipped plugins.
use crate::test_runs::{NONE, Outcome, USAGE, expect, run_on};
use plugin_api::fn_visitor::FnVisitor;
use plugin_api::recorder::Recorder;
use plugin_api::visitor::Visitor;
use std::alloc::{AllocError, Global};
use std::process::Abort;
use std::test::Fail;
use transforms::acts::{DropComment, DropEmpty, ShortHex, Unnest};
use transforms::shelf::{Visitors, shipped};

const EMPTIED: &str =
    "pass\nenter 0\nenter 1\nenter 2\nenter 3\ncall drop-empty/0 RuleExit 3\nedit remove 3\nback\nleave 3\ncall drop-empty/0 RuleExit 2\nedit remove 2\nback\nleave 2\ncall drop-empty/1 AtRuleExit 1\nedit remove 1\nback\nleave 1\nleave 0\npass\nenter 0\nleave 0\nend\n";

const UNNESTED: &str =
    "pass\nenter 0\nenter 1\nenter 2\nleave 2\nenter 3\nenter 4\nleave 4\ncall unnest/0 RuleExit 3\nback\nleave 3\ncall unnest/0 RuleExit 1\nedit set 3 selector\nedit remove 3\nedit insert 3 under 0 at 1\nback\nleave 1\nenter 3\nenter 4\nleave 4\ncall unnest/0 RuleExit 3\nback\nleave 3\nleave 0\npass\nenter 0\nenter 1\ncall unnest/0 RuleExit 1\nback\nleave 1\nleave 0\nend\n";

// A run, what it takes, and what comes of it.
#[derive(Clone, Copy)]
struct Row {
    words: &'static [&'static str],
    input: &'static str,
    status: u8,
    out: &'static str,
    err: &'static str,
}

fn run_shipped(alloc: Global, row: Row, visitors: Visitors) -> Result<Outcome, AllocError> {
    let mut shelf = shipped(alloc, visitors)?;
    run_on(alloc, row.words, row.input.as_bytes(), NONE, &mut shelf)
}

fn expect_shipped(rt: &impl Abort, alloc: Global, row: Row) -> Result<(), Fail> {
    let comment: Box<dyn Visitor> = Box::new(
        alloc,
        Recorder::new(alloc, FnVisitor::new(alloc, DropComment {})),
    )?;
    let empty_rule: Box<dyn Visitor> = Box::new(
        alloc,
        Recorder::new(alloc, FnVisitor::new(alloc, DropEmpty {})),
    )?;
    let empty_at_rule: Box<dyn Visitor> = Box::new(
        alloc,
        Recorder::new(alloc, FnVisitor::new(alloc, DropEmpty {})),
    )?;
    let short_hex: Box<dyn Visitor> = Box::new(
        alloc,
        Recorder::new(alloc, FnVisitor::new(alloc, ShortHex { alloc })),
    )?;
    let unnest: Box<dyn Visitor> = Box::new(
        alloc,
        Recorder::new(alloc, FnVisitor::new(alloc, Unnest { alloc })),
    )?;
    let visitors = Visitors {
        comment,
        empty_rule,
        empty_at_rule,
        short_hex,
        unnest,
    };
    let outcome = run_shipped(alloc, row, visitors)?;
    expect(rt, &outcome, row.status, row.out.as_bytes(), row.err);
    Ok(())
}

fn expect_all(rt: &impl Abort, alloc: Global, rows: &[Row]) -> Result<(), Fail> {
    for row in rows {
        expect_shipped(rt, alloc, *row)?;
    }
    Ok(())
}

#[test]
fn traced(rt: HostRuntime) -> Result<(), Fail> {
    let rows = [
        Row {
            words: &["transform", "--use", "drop-empty", "--trace"],
            input: "@media print{a{b{}}}",
            status: 0,
            out: "",
            err: EMPTIED,
        },
        Row {
            words: &["transform", "--trace", "--use=unnest"],
            input: "a{b:c;&:hover{d:e}}",
            status: 0,
            out: "a{b:c}a:hover{d:e}",
            err: UNNESTED,
        },
    ];
    expect_all(&rt, rt.alloc(), &rows)
}

#[test]
fn named(rt: HostRuntime) -> Result<(), Fail> {
    let rows = [
        Row {
            words: &["transform", "--use", "short-hex,drop-comment"],
            input: "a{b:#AAbbcc url(#aabbcc)}/*x*//*!k*/",
            status: 0,
            out: "a{b:#Abc url(#aabbcc)}/*!k*/",
            err: "",
        },
        Row {
            words: &["transform", "--use", "nobody"],
            input: "a{}",
            status: 64,
            out: "",
            err: USAGE,
        },
    ];
    expect_all(&rt, rt.alloc(), &rows)
}

#[test]
fn budgets(rt: HostRuntime) -> Result<(), Fail> {
    let rows = [
        Row {
            words: &["transform", "--use", "drop-empty", "--edit-budget", "1"],
            input: "a{}",
            status: 0,
            out: "",
            err: "",
        },
        Row {
            words: &["transform", "--use", "drop-empty", "--edit-budget", "0"],
            input: "a{}",
            status: 1,
            out: "",
            err: "csswork: edit budget of 0 passed with 1 edits at RuleExit 1\n",
        },
    ];
    expect_all(&rt, rt.alloc(), &rows)
}

fn expect_unnested(
    rt: &impl Abort,
    alloc: Global,
    input: &'static str,
    out: &'static str,
) -> Result<(), Fail> {
    let row = Row {
        words: &["transform", "--use", "unnest"],
        input,
        status: 0,
        out,
        err: "",
    };
    expect_shipped(rt, alloc, row)
}

// Where a rule's children are moved out of it, and where they stay.
#[test]
fn unnested(rt: HostRuntime) -> Result<(), Fail> {
    for (input, out) in [
        ("a{&{}}", "a{}a{}"),
        ("a{& b{c:d}e{}}", "a{e{}}a b{c:d}"),
        ("a{&>b{}&~c{}}", "a{}a>b{}a~c{}"),
        ("a{&.b{&.c{}}}", "a{}a.b{}a.b.c{}"),
        ("a,b{&:c{}}", "a,b{&:c{}}"),
        ("a{&b{}&,c{}& &{}}", "a{&b{}&,c{}& &{}}"),
        ("a/*x*/b{&:c{}}", "a/*x*/b{}ab:c{}"),
        ("{&:b{}}", "{&:b{}}"),
    ] {
        expect_unnested(&rt, rt.alloc(), input, out)?;
    }
    Ok(())
}
