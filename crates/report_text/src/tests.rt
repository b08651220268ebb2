// Reports on small lists of files.
use crate::format::Format;
use crate::laws::examples;
use crate::report::report;
use css_text::text::Place;
use css_text::txt::Txt;
use lint_config::found::{FileWarnings, Warning};
use lint_config::setting::Severity;
use std::alloc::{AllocError, Global};
use std::process::Abort;
use std::test::Fail;

fn warning(
    alloc: Global,
    at: (u32, u32),
    severity: Severity,
    text: &str,
) -> Result<Warning, AllocError> {
    Ok(Warning {
        place: Place {
            line: at.0,
            column: at.1,
        },
        rule: Txt::new(alloc, "rule")?,
        severity,
        text: Txt::new(alloc, text)?,
    })
}

fn file(alloc: Global, name: &str, warnings: Vec<Warning>) -> Result<FileWarnings, AllocError> {
    Ok(FileWarnings {
        name: Txt::new(alloc, name)?,
        warnings,
    })
}

// `a.css` with an error and a warning, and `b.css` without any.
fn two_files(alloc: Global) -> Result<Vec<FileWarnings>, AllocError> {
    let mut warnings = Vec::new(alloc);
    warnings.push(warning(alloc, (1, 2), Severity::Error, "an \"x\"")?)?;
    warnings.push(warning(alloc, (12, 34), Severity::Warning, "b\\ü")?)?;
    let mut files = Vec::new(alloc);
    files.push(file(alloc, "a.css", warnings)?)?;
    files.push(file(alloc, "b.css", Vec::new(alloc))?)?;
    Ok(files)
}

fn expect(
    rt: &impl Abort,
    alloc: Global,
    format: Format,
    files: &[FileWarnings],
    want: &str,
) -> Result<(), AllocError> {
    let text = report(alloc, format, files)?;
    assert_eq!(rt; text.as_str(), want);
    Ok(())
}

#[test]
fn without_warnings(rt: HostRuntime) -> Result<(), Fail> {
    let alloc = rt.alloc();
    let mut files = Vec::new(alloc);
    files.push(file(alloc, "a.css", Vec::new(alloc))?)?;
    let files = files.as_slice();
    expect(&rt, alloc, Format::Lines, files, "")?;
    expect(&rt, alloc, Format::Unix, files, "")?;
    let json = "[{\"source\":\"a.css\",\"warnings\":[]}]\n";
    expect(&rt, alloc, Format::Json, files, json)?;
    examples();
    Ok(())
}

#[test]
fn as_lines(rt: HostRuntime) -> Result<(), Fail> {
    let files = two_files(rt.alloc())?;
    let want =
        "a.css\n  1:2  error  an \"x\"  rule\n  12:34  warning  b\\ü  rule\n\n2 problems (1 error, 1 warning)\n";
    expect(&rt, rt.alloc(), Format::Lines, files.as_slice(), want)?;
    Ok(())
}

#[test]
fn as_unix(rt: HostRuntime) -> Result<(), Fail> {
    let files = two_files(rt.alloc())?;
    let want =
        "a.css:1:2: an \"x\" (rule) [error]\na.css:12:34: b\\ü (rule) [warning]\n\n2 problems\n";
    expect(&rt, rt.alloc(), Format::Unix, files.as_slice(), want)?;
    Ok(())
}

#[test]
fn as_json(rt: HostRuntime) -> Result<(), Fail> {
    let files = two_files(rt.alloc())?;
    let want =
        "[{\"source\":\"a.css\",\"warnings\":[{\"column\":2,\"line\":1,\"rule\":\"rule\",\"severity\":\"error\",\"text\":\"an \\\"x\\\"\"},{\"column\":34,\"line\":12,\"rule\":\"rule\",\"severity\":\"warning\",\"text\":\"b\\\\ü\"}]},{\"source\":\"b.css\",\"warnings\":[]}]\n";
    expect(&rt, rt.alloc(), Format::Json, files.as_slice(), want)?;
    Ok(())
}
