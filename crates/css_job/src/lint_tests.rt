// Runs of `lint`.
use crate::test_runs::{EMPTY_BLOCK, MARKED, NONE, WRONG, expect, run_with};
use std::alloc::{AllocError, Global};
use std::process::Abort;
use std::test::Fail;

const TWO_BLOCKS: &str =
    "<stdin>\n  1:6  error  Unexpected empty block  block-no-empty\n  2:2  error  Unexpected empty block  block-no-empty\n\n2 problems (2 errors, 0 warnings)\n";

const AT_RULE: &str =
    "<stdin>\n  1:12  error  Unexpected empty block  block-no-empty\n\n1 problem (1 error, 0 warnings)\n";

const BEHIND_MARK: &str =
    "<stdin>\n  1:2  error  Unexpected empty block  block-no-empty\n  2:8  error  Unexpected empty block  block-no-empty\n\n2 problems (2 errors, 0 warnings)\n";

const UNCLOSED: &str =
    "<stdin>\n  1:5  error  UnclosedString  CssSyntaxError\n\n1 problem (1 error, 0 warnings)\n";

const CLOSED: &str =
    "<stdin>\n  1:3  error  UnexpectedClose  CssSyntaxError\n\n1 problem (1 error, 0 warnings)\n";

fn expect_lint(
    rt: &impl Abort,
    alloc: Global,
    input: &[u8],
    status: u8,
    report: &str,
) -> Result<(), AllocError> {
    let outcome = run_with(alloc, &["lint"], input, NONE)?;
    expect(rt, &outcome, status, b"", report);
    Ok(())
}

#[test]
fn lints_empty_blocks(rt: HostRuntime) -> Result<(), Fail> {
    let rows: [(&[u8], &str); 4] = [
        (b"a{}", EMPTY_BLOCK),
        (b"a{b{c{}}}\nd{}", TWO_BLOCKS),
        (b"@b c{d /**/{}e{/**/}}", AT_RULE),
        (MARKED, BEHIND_MARK),
    ];
    for (input, report) in rows {
        expect_lint(&rt, rt.alloc(), input, 2, report)?;
    }
    Ok(())
}

#[test]
fn lints_nothing(rt: HostRuntime) -> Result<(), Fail> {
    let rows: [&[u8]; 5] = [
        b"a{b:c}",
        b"@a;@b c",
        b"",
        b"\n\t/**/\r\n",
        b":root{--x:{}}",
    ];
    for input in rows {
        expect_lint(&rt, rt.alloc(), input, 0, "")?;
    }
    Ok(())
}

#[test]
fn lints_with_a_fault(rt: HostRuntime) -> Result<(), Fail> {
    let rows: [(&[u8], u8, &str); 3] = [
        (b"a{b:\"x", 2, UNCLOSED),
        (b"{}}", 2, CLOSED),
        (b"a\xff", 1, WRONG),
    ];
    for (input, status, report) in rows {
        expect_lint(&rt, rt.alloc(), input, status, report)?;
    }
    Ok(())
}
