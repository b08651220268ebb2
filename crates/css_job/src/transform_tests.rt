// Runs of `transform` without plugins: what is written, what is refused, and the limits of both commands.
use crate::test_runs::{MARKED, NONE, WIDE, WRONG, expect, expect_fault, fault_of, run_with};
use std::alloc::{AllocError, Global};
use std::process::Abort;
use std::test::Fail;

const ORDINARY: &str =
    "@charset \"utf-8\";\n@import url(\"base.css\") screen;\n\n/* Fonts */\n@font-face {\n  font-family: \"Open Sans\";\n  src: url(open-sans.woff2) format(\"woff2\"), url(data:font/woff;base64,d09GRg==) format(\"woff\");\n}\n\n:root {\n  --brand: #aabbcc;\n}\n\n.nav > li:not(.active)::before {\n  content: \"\\201C\";\n  color: var(--brand, #336699);\n  -webkit-transition: opacity .2s ease-in-out;\n  transition: opacity .2s ease-in-out;\n}\n\n@media screen and (min-width: 600px) {\n  .nav { margin: 0 auto; }\n}\n\n@keyframes fade {\n  from { opacity: 0; }\n  to { opacity: 1 !important; }\n}\n";

fn expect_same(rt: &impl Abort, alloc: Global, input: &[u8]) -> Result<(), AllocError> {
    let outcome = run_with(alloc, &["transform"], input, NONE)?;
    expect(rt, &outcome, 0, input, "");
    Ok(())
}

#[test]
fn transforms(rt: HostRuntime) -> Result<(), Fail> {
    let rows: [&[u8]; 9] = [
        b"",
        ORDINARY.as_bytes(),
        b"a{color:red;;/*x*/}",
        b"a { *zoom : 1 ! Important }",
        b"a{b: !important;}",
        b":root{--x:{a:b};}",
        b"a{b:url(x;y{)}",
        MARKED,
        b" @a b/**/ ;;\n@c{d:e\t;f{g:h}}\r\n",
    ];
    for input in rows {
        expect_same(&rt, rt.alloc(), input)?;
    }
    Ok(())
}

fn expect_refused(
    rt: &impl Abort,
    alloc: Global,
    input: &[u8],
    kind: &str,
    line: &str,
) -> Result<(), AllocError> {
    let outcome = run_with(alloc, &["transform"], input, NONE)?;
    expect_fault(rt, &outcome, kind, "<stdin>");
    expect(rt, &outcome, 1, b"", line);
    Ok(())
}

#[test]
fn refuses_blocks_and_words(rt: HostRuntime) -> Result<(), Fail> {
    let rows: [(&[u8], &str); 5] = [
        (b"}", "csswork: <stdin>:1:1: UnexpectedClose\n"),
        (b"a{", "csswork: <stdin>:1:2: UnclosedBlock\n"),
        (b"a{b", "csswork: <stdin>:1:3: UnknownWord\n"),
        (b"@{}", "csswork: <stdin>:1:1: AtRuleWithoutName\n"),
        (b"a{b:(c}", "csswork: <stdin>:1:5: UnclosedBracket\n"),
    ];
    for (input, line) in rows {
        expect_refused(&rt, rt.alloc(), input, "syntax", line)?;
    }
    Ok(())
}

#[test]
fn refuses_pieces(rt: HostRuntime) -> Result<(), Fail> {
    let rows: [(&[u8], &str); 4] = [
        (b"a{b:\"x", "csswork: <stdin>:1:5: UnclosedString\n"),
        (b"/*", "csswork: <stdin>:1:1: UnclosedComment\n"),
        (b"a{b:url(x", "csswork: <stdin>:1:5: UnclosedUrl\n"),
        (b"\na{b:url(x", "csswork: <stdin>:2:5: UnclosedUrl\n"),
    ];
    for (input, line) in rows {
        expect_refused(&rt, rt.alloc(), input, "syntax", line)?;
    }
    Ok(())
}

#[test]
fn refuses_bytes(rt: HostRuntime) -> Result<(), Fail> {
    expect_refused(&rt, rt.alloc(), b"a\xff", "not UTF-8", WRONG)?;
    Ok(())
}

// Whether the front of a sheet is written as it was; else it has a fault, and nothing is written.
fn is_read(rt: &impl Abort, alloc: Global, front: &[u8]) -> Result<bool, AllocError> {
    let outcome = run_with(alloc, &["transform"], front, NONE)?;
    let (kind, _) = fault_of(&outcome.ended);
    if kind == "none" {
        assert_eq!(rt; outcome.out.bytes(), front);
        Ok(true)
    } else {
        assert_eq!(rt; kind, "syntax");
        assert_eq!(rt; outcome.out.bytes(), b"".as_slice());
        Ok(false)
    }
}

#[test]
fn fronts(rt: HostRuntime) -> Result<(), Fail> {
    let sheet = ORDINARY.as_bytes();
    let mut read: u32 = 0;
    for end in 0..sheet.len() {
        if is_read(&rt, rt.alloc(), &sheet[..end])? {
            read = read.saturating_add(1);
        }
    }
    assert_eq!(rt; read, 92);
    Ok(())
}

// So many times.
fn repeated(alloc: Global, text: &[u8], times: usize) -> Result<Vec<u8>, AllocError> {
    let mut bytes = Vec::new(alloc);
    for _i in 0..times {
        bytes.extend_from_slice(text)?;
    }
    Ok(bytes)
}

// Blocks so deep.
fn nested(alloc: Global, depth: usize) -> Result<Vec<u8>, AllocError> {
    let mut sheet = repeated(alloc, b"a{", depth)?;
    sheet.extend_from_slice(&repeated(alloc, b"}", depth)?)?;
    Ok(sheet)
}

#[test]
fn depths(rt: HostRuntime) -> Result<(), Fail> {
    let deep = nested(rt.alloc(), 200)?;
    let outcome = run_with(rt.alloc(), &["transform"], &deep, WIDE)?;
    expect(&rt, &outcome, 0, &deep, "");
    let deeper = nested(rt.alloc(), 201)?;
    let outcome = run_with(rt.alloc(), &["transform"], &deeper, WIDE)?;
    expect(&rt, &outcome, 1, b"", "csswork: <stdin>:1:402: TooDeep\n");
    Ok(())
}

// So many spaces.
fn expect_spaces(
    rt: &impl Abort,
    alloc: Global,
    word: &str,
    size: usize,
    status: u8,
    line: &str,
) -> Result<(), AllocError> {
    let sheet = vec![in alloc; b' '; size]?;
    let outcome = run_with(alloc, &[word], &sheet, WIDE)?;
    assert_eq!(rt; outcome.ended.status, status, "{word} {size}");
    assert_eq!(rt; outcome.err.bytes(), line.as_bytes(), "{word} {size}");
    Ok(())
}

fn expect_limit(rt: &impl Abort, alloc: Global, word: &str) -> Result<(), AllocError> {
    let line = "csswork: <stdin> has more than 8388608 bytes\n";
    expect_spaces(rt, alloc, word, 8_388_608, 0, "")?;
    expect_spaces(rt, alloc, word, 8_388_609, 1, line)
}

#[test]
fn size_for_transform(rt: HostRuntime) -> Result<(), Fail> {
    expect_limit(&rt, rt.alloc(), "transform")?;
    Ok(())
}

#[test]
fn size_for_lint(rt: HostRuntime) -> Result<(), Fail> {
    expect_limit(&rt, rt.alloc(), "lint")?;
    Ok(())
}
