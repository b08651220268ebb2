// Runs of `transform` with plugins that edit what they visit, or fail.
ghost use Rattle.std.specs.Prelude.{◌<◌, vec_len};
ghost use Rattle.visitor_walk.specs.Groups.{AreFew};

use css_job::run::{Ended, run};
use io_edge::folder::MemFolder;
use io_edge::memory::{MemSink, MemSource};
use node_store::item::Event;
use plugin_api::fn_visitor::FnVisitor;
use plugin_api::hook::Hook;
use plugin_api::plugin::Plugin;
use plugin_api::recorder::Recorder;
use plugin_api::visitor::Visitor;
use sheet_tests::deeds::Deed;
use sheet_tests::script::{Script, Step};
use sheet_tests::shelves::shelf_of;
use std::alloc::{AllocError, Global};
use std::process::Abort;
use std::test::Fail;

// A run, what it takes, and what comes of it.
#[derive(Clone, Copy)]
struct Row {
    words: &'static [&'static str],
    input: &'static str,
    status: u8,
    out: &'static str,
    err: &'static str,
}

#[derive(Drop)]
struct Outcome {
    ended: Ended,
    out: MemSink,
    err: MemSink,
}

fn expect(rt: &impl Abort, outcome: &Outcome, status: u8, out: &str, err: &str) {
    assert_eq!(rt; outcome.ended.status, status, "{err}");
    assert_eq!(rt; outcome.out.bytes(), out.as_bytes(), "{err}");
    assert_eq!(rt; outcome.err.bytes(), err.as_bytes(), "{err}");
}

fn run_on(alloc: Global, row: Row, shelf: &mut Vec<Plugin>) -> Result<Outcome, AllocError>
    requires plugins { vec_len shelf.old < 4294967296 }
    requires hooks { AreFew shelf.old.items }
{
    let mut given = Vec::new(alloc);
    for word in row.words {
        given.push(String::from_str(alloc, word)?)?;
    }
    let bytes = row.input.as_bytes().to_vec(alloc)?;
    let mut source = MemSource::new(alloc, bytes, Vec::new(alloc));
    let mut files = MemFolder::new(alloc, Vec::new(alloc));
    let mut out = MemSink::new(alloc, 4096, Vec::new(alloc));
    let mut err = MemSink::new(alloc, 4096, Vec::new(alloc));
    let ended = run(
        alloc,
        &given,
        &mut source,
        &mut files,
        &mut out,
        &mut err,
        shelf,
    )?;
    Ok(Outcome { ended, out, err })
}

// A run with the plugin `p`, whose one hook does this at each call.
fn run_scripted(alloc: Global, row: Row, event: Event, deed: Deed) -> Result<Outcome, AllocError> {
    let script = Script::new(alloc, &[Step { call: None, deed }])?;
    let visitor: Box<dyn Visitor> = Box::new(
        alloc,
        Recorder::new(alloc, FnVisitor::new(alloc, script)),
    )?;
    let mut hooks = Vec::new(alloc);
    hooks.push(Hook {
        event,
        filter: None,
        visitor,
    })?;
    let mut shelf = shelf_of(alloc, hooks)?;
    run_on(alloc, row, &mut shelf)
}

#[test]
fn scripted_plugins(rt: HostRuntime) -> Result<(), Fail> {
    let table = [
        (
            Event::Once,
            Deed::AppendRule,
            12,
            Row {
                words: &["transform", "--use", "p"],
                input: "@import \"a\"",
                status: 0,
                out: "@import \"a\";b {}",
                err: "",
            },
        ),
        (
            Event::Rule,
            Deed::InsertClone,
            63,
            Row {
                words: &["transform", "--use", "p", "--budget", "10"],
                input: "a{}",
                status: 1,
                out: "",
                err: "csswork: budget of 10 calls spent before Rule 11\n",
            },
        ),
        (
            Event::Rule,
            Deed::InsertClone,
            19,
            Row {
                words: &["transform", "--use", "p", "--edit-budget", "5"],
                input: "a{}",
                status: 1,
                out: "",
                err: "csswork: edit budget of 5 passed with 6 edits at Rule 3\n",
            },
        ),
        (
            Event::Rule,
            Deed::Fail,
            5,
            Row {
                words: &["transform", "--use", "p", "--trace"],
                input: "a{}",
                status: 1,
                out: "",
                err: "pass\nenter 0\nenter 1\ncall p/0 Rule 1\nback fault\ncsswork: plugin p failed at Rule 1: no\n",
            },
        ),
    ];
    for (event, deed, items, row) in table {
        let outcome = run_scripted(rt.alloc(), row, event, deed)?;
        expect(&rt, &outcome, row.status, row.out, row.err);
        assert_eq!(rt; outcome.ended.log.len(), items, "{}", row.input);
    }
    Ok(())
}
