// Whole runs in memory, for tests: what is given, and what is expected of the outcome.
ghost use Rattle.std.specs.Prelude.{◌<◌, ◌≤◌, length, vec_len};
ghost use Rattle.visitor_walk.specs.Groups.{AreFew};

use crate::fault::Fault;
use crate::run::{Ended, run};
use io_edge::folder::MemFolder;
use io_edge::memory::{MemSink, MemSource};
use plugin_api::plugin::Plugin;
use std::alloc::{AllocError, Global};
use std::process::Abort;

pub(crate) const EMPTY_BLOCK: &str =
    "<stdin>\n  1:2  error  Unexpected empty block  block-no-empty\n\n1 problem (1 error, 0 warnings)\n";

pub(crate) const USAGE: &str = "usage: csswork transform|lint|sample\n";

pub(crate) const WRONG: &str = "csswork: <stdin> is not UTF-8 at byte 1\n";

pub(crate) const MARKED: &[u8] = b"\xef\xbb\xbfa{}\r\n/*\xf0\x9f\x98\x80*/b{}";

// No call has this number.
pub(crate) const NEVER: u64 = 1_000_000;

// The one call of each object that fails, and the most bytes that a write takes.
#[derive(Clone, Copy)]
pub(crate) struct Failing {
    pub read: u64,
    pub out: u64,
    pub err: u64,
    pub most: usize,
}

pub(crate) const NONE: Failing = Failing {
    read: NEVER,
    out: NEVER,
    err: NEVER,
    most: 7,
};

pub(crate) const WIDE: Failing = Failing {
    read: NEVER,
    out: NEVER,
    err: NEVER,
    most: 65536,
};

#[derive(Drop)]
pub(crate) struct Outcome {
    pub ended: Ended,
    pub out: MemSink,
    pub err: MemSink,
}

pub(crate) fn run_on(
    alloc: Global,
    words: &[&str],
    input: &[u8],
    failing: Failing,
    shelf: &mut Vec<Plugin>,
) -> Result<Outcome, AllocError>
    requires most { 0 < failing.most }
    requires plugins { vec_len shelf.old < 4294967296 }
    requires hooks { AreFew shelf.old.items }
{
    let mut given = Vec::new(alloc);
    for word in words {
        given.push(String::from_str(alloc, word)?)?;
    }
    let bytes = input.to_vec(alloc)?;
    let mut source = MemSource::new(alloc, bytes, vec![in alloc; failing.read]?);
    let mut files = MemFolder::new(alloc, Vec::new(alloc));
    let mut out = MemSink::new(alloc, failing.most, vec![in alloc; failing.out]?);
    let mut err = MemSink::new(alloc, failing.most, vec![in alloc; failing.err]?);
    let ended = run(
        alloc,
        &given,
        &mut source,
        &mut files,
        &mut out,
        &mut err,
        shelf,
    )?;
    Ok(Outcome { ended, out, err })
}

// A run without plugins.
pub(crate) fn run_with(
    alloc: Global,
    words: &[&str],
    input: &[u8],
    failing: Failing,
) -> Result<Outcome, AllocError>
    requires { 0 < failing.most }
{
    let mut shelf = Vec::new(alloc);
    run_on(alloc, words, input, failing, &mut shelf)
}

pub(crate) fn fault_of(ended: &Ended) -> (&'static str, &str) {
    match &ended.fault {
        None => ("none", ""),
        Some(Fault::Usage) => ("usage", ""),
        Some(Fault::ReadFault { name }) => ("read", name.as_str()),
        Some(Fault::WriteFault { name }) => ("write", name.as_str()),
        Some(Fault::TooLarge { name }) => ("too large", name.as_str()),
        Some(Fault::NotUtf8 { name, .. }) => ("not UTF-8", name.as_str()),
        Some(Fault::Syntax { name, .. }) => ("syntax", name.as_str()),
        Some(Fault::PluginFailed { text, .. }) => ("plugin", text.as_str()),
        Some(Fault::BudgetSpent { .. }) => ("calls", ""),
        Some(Fault::EditBudgetSpent { .. }) => ("edits", ""),
    }
}

pub(crate) fn expect(rt: &impl Abort, outcome: &Outcome, status: u8, out: &[u8], err: &str) {
    assert_eq!(rt; outcome.ended.status, status, "{err}");
    assert_eq!(rt; outcome.out.bytes(), out, "{err}");
    assert_eq!(rt; outcome.err.bytes(), err.as_bytes(), "{err}");
}

pub(crate) fn expect_fault(rt: &impl Abort, outcome: &Outcome, kind: &str, name: &str) {
    let fault = fault_of(&outcome.ended);
    assert_eq!(rt; fault.0, kind, "{name}");
    assert_eq!(rt; fault.1, name, "{kind}");
}
