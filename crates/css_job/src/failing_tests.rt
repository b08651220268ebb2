// Runs with calls that fail, and with words that ask for nothing.
use crate::test_runs::{EMPTY_BLOCK, Failing, NEVER, USAGE, expect, expect_fault, run_with};
use std::alloc::{AllocError, Global};
use std::process::Abort;
use std::test::Fail;

const UNREAD: &str = "csswork: cannot read <stdin>\n";

// What a run over `a{}` with failing calls comes to.
#[derive(Clone, Copy)]
struct Stopped {
    status: u8,
    fault: &'static str,
    file: &'static str,
    out: &'static str,
    err: &'static str,
}

// The one call of the source, of the output and of the sink for reports that fails.
fn expect_stopped(
    rt: &impl Abort,
    alloc: Global,
    words: &[&str],
    fails: (u64, u64, u64),
    want: Stopped,
) -> Result<(), AllocError> {
    let failing = Failing {
        read: fails.0,
        out: fails.1,
        err: fails.2,
        most: 7,
    };
    let outcome = run_with(alloc, words, b"a{}", failing)?;
    expect_fault(rt, &outcome, want.fault, want.file);
    expect(rt, &outcome, want.status, want.out.as_bytes(), want.err);
    Ok(())
}

// Without a fault.
fn done(status: u8, out: &'static str, err: &'static str) -> Stopped {
    Stopped {
        status,
        fault: "none",
        file: "",
        out,
        err,
    }
}

fn unread(err: &'static str) -> Stopped {
    Stopped {
        status: 1,
        fault: "read",
        file: "<stdin>",
        out: "",
        err,
    }
}

fn unwritten(file: &'static str, err: &'static str) -> Stopped {
    Stopped {
        status: 1,
        fault: "write",
        file,
        out: "",
        err,
    }
}

#[test]
fn lint_fails(rt: HostRuntime) -> Result<(), Fail> {
    // The report has 94 bytes, so that it takes the writes 0 to 13 of the sink for reports.
    for (fails, want) in [
        ((0, NEVER, NEVER), unread(UNREAD)),
        ((1, NEVER, NEVER), unread(UNREAD)),
        ((0, NEVER, 0), unread("")),
        ((2, 0, NEVER), done(2, "", EMPTY_BLOCK)),
        ((NEVER, NEVER, 0), unwritten("<stderr>", "")),
        ((NEVER, NEVER, 1), unwritten("<stderr>", "<stdin>")),
        ((NEVER, NEVER, 14), done(2, "", EMPTY_BLOCK)),
    ] {
        expect_stopped(&rt, rt.alloc(), &["lint"], fails, want)?;
    }
    Ok(())
}

#[test]
fn transform_fails(rt: HostRuntime) -> Result<(), Fail> {
    let line = "csswork: cannot write <stdout>\n";
    for (fails, want) in [
        ((0, NEVER, NEVER), unread(UNREAD)),
        ((2, NEVER, 0), done(0, "a{}", "")),
        ((NEVER, 0, NEVER), unwritten("<stdout>", line)),
        ((NEVER, 0, 1), unwritten("<stdout>", "csswork")),
        ((NEVER, 1, NEVER), done(0, "a{}", "")),
    ] {
        expect_stopped(&rt, rt.alloc(), &["transform"], fails, want)?;
    }
    Ok(())
}

fn misused() -> Stopped {
    Stopped {
        status: 64,
        fault: "usage",
        file: "",
        out: "",
        err: USAGE,
    }
}

#[test]
fn wrong_words(rt: HostRuntime) -> Result<(), Fail> {
    let fails = (0, 0, NEVER);
    expect_stopped(&rt, rt.alloc(), &[], fails, misused())?;
    expect_stopped(&rt, rt.alloc(), &["Lint"], fails, misused())?;
    expect_stopped(&rt, rt.alloc(), &["lint", "lint"], fails, misused())?;
    Ok(())
}
