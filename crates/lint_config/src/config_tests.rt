// Configurations, what is refused in them, and the settings that they give.
use crate::config::{Config, ConfigFault};
use crate::reading::read_config;
use crate::resolve::settings;
use crate::setting::Settings;
use css_text::stop::Stop;
use std::alloc::{AllocError, Global};
use std::process::Abort;
use std::test::Fail;

fn fault_text(alloc: Global, fault: ConfigFault) -> Result<String, AllocError> {
    match fault {
        ConfigFault::BadJson => String::from_str(alloc, "not JSON"),
        ConfigFault::Refused { kind, key } => format!(in alloc; "{kind:?} at {}", key.as_str()),
    }
}

/// What the reading says of the bytes.
fn said(alloc: Global, bytes: &[u8]) -> Result<String, AllocError> {
    match read_config(alloc, bytes) {
        Ok(_) => String::from_str(alloc, "read"),
        Err(Stop::Fault(fault)) => fault_text(alloc, fault),
        Err(Stop::Memory(error)) => Err(error),
    }
}

fn expect_said(
    rt: &impl Abort,
    alloc: Global,
    bytes: &[u8],
    wanted: &str,
) -> Result<(), AllocError> {
    let answer = said(alloc, bytes)?;
    assert_eq!(rt; answer.as_str(), wanted);
    Ok(())
}

fn compare(rt: &impl Abort, alloc: Global, cases: &[(&str, &str)]) -> Result<(), Fail> {
    for (text, wanted) in cases {
        expect_said(rt, alloc, text.as_bytes(), wanted)?;
    }
    Ok(())
}

#[test]
fn no_json(rt: HostRuntime) -> Result<(), Fail> {
    let cases: [&[u8]; 6] = [b"", b"{", b"{} x", b"{\"a\":01}", b"\xff", b"{\"\xc3\":1}"];
    for bytes in cases {
        expect_said(&rt, rt.alloc(), bytes, "not JSON")?;
    }
    Ok(())
}

#[test]
fn keys_at_the_top(rt: HostRuntime) -> Result<(), Fail> {
    let cases = [
        ("{}", "read"),
        (r#"{"$schema":[1],"rules":{"nobody":1}}"#, "read"),
        ("[]", "WrongShape at "),
        (r#"{"extends":"x"}"#, "Extends at extends"),
        (
            r#"{"$schema":"","a":1,"extends":null}"#,
            "Extends at extends",
        ),
        (r#"{"plugins":[]}"#, "WrongShape at plugins"),
        (r#"{"z":1,"Z":1,"rules":1}"#, "WrongShape at Z"),
    ];
    compare(&rt, rt.alloc(), &cases)
}

#[test]
fn values_at_the_top(rt: HostRuntime) -> Result<(), Fail> {
    let cases = [
        (
            r#"{"defaultSeverity":"fatal"}"#,
            "WrongShape at defaultSeverity",
        ),
        (
            r#"{"defaultSeverity":null}"#,
            "WrongShape at defaultSeverity",
        ),
        (r#"{"ignoreDisables":1}"#, "WrongShape at ignoreDisables"),
        (
            r#"{"reportNeedlessDisables":"a"}"#,
            "WrongShape at reportNeedlessDisables",
        ),
        (r#"{"rules":[]}"#, "WrongShape at rules"),
        (r#"{"overrides":{}}"#, "WrongShape at overrides"),
    ];
    compare(&rt, rt.alloc(), &cases)
}

fn expect_bad_option(
    rt: &impl Abort,
    alloc: Global,
    rule: &str,
    option: &str,
) -> Result<(), AllocError> {
    let text = format!(in alloc; "{{\"rules\":{{\"{rule}\":{option}}}}}")?;
    let wanted = format!(in alloc; "BadOption at rules.{rule}")?;
    expect_said(rt, alloc, text.as_bytes(), wanted.as_str())
}

#[test]
fn options_of_limits(rt: HostRuntime) -> Result<(), Fail> {
    for (rule, option) in [
        ("max-nesting-depth", "-1"),
        ("max-nesting-depth", "1001"),
        ("selector-max-id", "1.0"),
        ("selector-max-id", "\"1\""),
    ] {
        expect_bad_option(&rt, rt.alloc(), rule, option)?;
    }
    Ok(())
}

#[test]
fn options_of_specificities(rt: HostRuntime) -> Result<(), Fail> {
    for option in [
        "\"0,65536,0\"",
        "\"0,+1,0\"",
        "\"0,1\"",
        "\"0,1,2,3\"",
        "\"0,,2\"",
        "\"0,00,0\"",
        "\"0,1,007\"",
    ] {
        expect_bad_option(&rt, rt.alloc(), "selector-max-specificity", option)?;
    }
    Ok(())
}

#[test]
fn options_of_words(rt: HostRuntime) -> Result<(), Fail> {
    for (rule, option) in [
        ("color-hex-length", "\"single\""),
        ("selector-pseudo-element-colon-notation", "\"\""),
        ("comment-whitespace-inside", "\"never\""),
        ("block-no-empty", "false"),
        ("block-no-empty", "{}"),
        ("block-no-empty", "1,\"a\":1,\"unit-no-unknown\":1"),
    ] {
        expect_bad_option(&rt, rt.alloc(), rule, option)?;
    }
    Ok(())
}

#[test]
fn options_that_are_taken(rt: HostRuntime) -> Result<(), Fail> {
    let cases = [
        (r#"{"rules":{"max-nesting-depth":1000}}"#, "read"),
        (
            r#"{"rules":{"selector-max-specificity":"0,70,65535"}}"#,
            "read",
        ),
        (r#"{"rules":{"block-no-empty":null,"a":{"a":[]}}}"#, "read"),
        (r#"{"rules":{"color-hex-length":[null,{}]}}"#, "read"),
        (r#"{"rules":{"color-hex-length":["long"]}}"#, "read"),
    ];
    compare(&rt, rt.alloc(), &cases)
}

#[test]
fn secondary_options(rt: HostRuntime) -> Result<(), Fail> {
    let bad = "BadOption at rules.block-no-empty";
    let cases = [
        (r#"{"rules":{"block-no-empty":[true]}}"#, "read"),
        (
            r#"{"rules":{"block-no-empty":[true,{"severity":"warning"}]}}"#,
            "read",
        ),
        (r#"{"rules":{"block-no-empty":[]}}"#, bad),
        (r#"{"rules":{"block-no-empty":[true,{},{}]}}"#, bad),
        (r#"{"rules":{"block-no-empty":[true,true]}}"#, bad),
        (
            r#"{"rules":{"block-no-empty":[true,{"message":"x"}]}}"#,
            bad,
        ),
        (
            r#"{"rules":{"block-no-empty":[null,{"severity":"fatal"}]}}"#,
            bad,
        ),
        (
            r#"{"rules":{"block-no-empty":[true,{"severity":"error","x":1}]}}"#,
            bad,
        ),
        (r#"{"rules":{"block-no-empty":[[true]]}}"#, bad),
    ];
    compare(&rt, rt.alloc(), &cases)
}

fn expect_override(
    rt: &impl Abort,
    alloc: Global,
    overrides: &str,
    wanted: &str,
) -> Result<(), AllocError> {
    let text = format!(in alloc; "{{\"overrides\":[{overrides}]}}")?;
    expect_said(rt, alloc, text.as_bytes(), wanted)
}

fn compare_overrides(rt: &impl Abort, alloc: Global, cases: &[(&str, &str)]) -> Result<(), Fail> {
    for (overrides, wanted) in cases {
        expect_override(rt, alloc, overrides, wanted)?;
    }
    Ok(())
}

#[test]
fn shapes_of_overrides(rt: HostRuntime) -> Result<(), Fail> {
    let alone = "WrongShape at overrides.0";
    let cases = [
        ("", "read"),
        (r#"{"files":"a","rules":{"a":1}}"#, "read"),
        ("[]", alone),
        ("{}", alone),
        (r#"{"files":"a"}"#, alone),
        (r#"{"files":"a","names":{}}"#, alone),
        (r#"{"files":"","rules":1,"x":1}"#, alone),
        (
            r#"{"files":1,"rules":1}"#,
            "WrongShape at overrides.0.files",
        ),
        (r#"{"files":[],"rules":{}},1"#, "WrongShape at overrides.1"),
    ];
    compare_overrides(&rt, rt.alloc(), &cases)
}

#[test]
fn parts_of_overrides(rt: HostRuntime) -> Result<(), Fail> {
    let files = "BadOption at overrides.0.files";
    let rule = "BadOption at overrides.0.rules.unit-no-unknown";
    let cases = [
        (
            r#"{"files":["",1],"rules":{}}"#,
            "WrongShape at overrides.0.files",
        ),
        (r#"{"files":"","rules":1}"#, files),
        (r#"{"files":["a","!b"],"rules":{}}"#, files),
        (r#"{"files":"*.{css,scss}","rules":{}}"#, files),
        (r#"{"files":"[ab].css","rules":{}}"#, files),
        (r#"{"files":"a}","rules":{}}"#, files),
        (
            r#"{"files":"a","rules":[]}"#,
            "WrongShape at overrides.0.rules",
        ),
        (r#"{"files":"a","rules":{"unit-no-unknown":1}}"#, rule),
    ];
    compare_overrides(&rt, rt.alloc(), &cases)
}

/// What a file is linted with, a rule a line, and then the unknown names.
fn listed(alloc: Global, settings: &Settings) -> Result<String, Fail> {
    let mut lines = String::new(alloc);
    for setting in settings.rules.iter() {
        let (name, choice, severity) = (setting.rule.name(), setting.choice, setting.severity);
        writeln!(lines, "{name} {choice:?} {severity:?}")?;
    }
    for name in settings.unknown.iter() {
        lines.push_str(name.as_str())?;
        lines.push_str("\n")?;
    }
    Ok(lines)
}

fn configured(alloc: Global, text: &str) -> Result<Config, Fail> {
    Ok(
        read_config(alloc, text.as_bytes())
            .ok()
            .ok_or("a configuration")?,
    )
}

fn expect_listed(
    rt: &impl Abort,
    alloc: Global,
    settings: &Settings,
    wanted: &str,
) -> Result<(), Fail> {
    assert_eq!(rt; listed(alloc, settings)?.as_str(), wanted);
    Ok(())
}

fn expect_flags(rt: &impl Abort, settings: &Settings, wanted: bool) {
    assert_eq!(rt; settings.needless, wanted);
    assert_eq!(rt; settings.ignore, wanted);
}

#[test]
fn built_in(rt: HostRuntime) -> Result<(), Fail> {
    let config = Config::built_in(rt.alloc())?;
    let found = settings(rt.alloc(), &config, "a.css")?;
    expect_listed(&rt, rt.alloc(), &found, "block-no-empty On Error\n")?;
    expect_flags(&rt, &found, false);
    Ok(())
}

#[test]
fn unknown_names(rt: HostRuntime) -> Result<(), Fail> {
    let text =
        r#"{"ignoreDisables":true,"reportNeedlessDisables":true,"rules":{"b":[1],"a":0,"c":null,"d":[null,1],"\u00e9":[]}}"#;
    let config = configured(rt.alloc(), text)?;
    let found = settings(rt.alloc(), &config, "")?;
    expect_listed(&rt, rt.alloc(), &found, "a\nb\n\u{e9}\n")?;
    expect_flags(&rt, &found, true);
    Ok(())
}

/// As projects write it.
const PROJECT: &str = r#"{
  "$schema": "https://json.schemastore.org/stylelintrc",
  "defaultSeverity": "warning",
  "rules": {
    "block-no-empty": true,
    "color-hex-length": "short",
    "comment-whitespace-inside": ["always", { "severity": "error" }],
    "max-nesting-depth": [3],
    "selector-max-id": 0,
    "selector-max-specificity": "0,4,2",
    "selector-class-pattern": "^[a-z]+$",
    "alpha-value-notation": "number"
  },
  "overrides": [
    {
      "files": ["*.min.css", "vendor/**"],
      "rules": { "color-hex-length": null, "block-no-empty": [null], "selector-class-pattern": null }
    },
    {
      "files": "src/**/*.css",
      "rules": {
        "color-hex-length": ["long", { "severity": "error" }],
        "length-zero-no-unit": true,
        "selector-max-id": [1, {}]
      }
    }
  ]
}"#;

fn expect_project(rt: &impl Abort, alloc: Global, path: &str, wanted: &str) -> Result<(), Fail> {
    let config = configured(alloc, PROJECT)?;
    let found = settings(alloc, &config, path)?;
    expect_listed(rt, alloc, &found, wanted)
}

#[test]
fn a_project(rt: HostRuntime) -> Result<(), Fail> {
    let base = "block-no-empty On Warning\n\
         comment-whitespace-inside Always Error\n\
         max-nesting-depth Count(3) Warning\n\
         color-hex-length Short Warning\n\
         selector-max-id Count(0) Warning\n\
         selector-max-specificity Limit(0, 4, 2) Warning\n\
         alpha-value-notation\n\
         selector-class-pattern\n";
    expect_project(&rt, rt.alloc(), "a.css", base)
}

#[test]
fn an_override(rt: HostRuntime) -> Result<(), Fail> {
    let vendor = "comment-whitespace-inside Always Error\n\
         max-nesting-depth Count(3) Warning\n\
         selector-max-id Count(0) Warning\n\
         selector-max-specificity Limit(0, 4, 2) Warning\n\
         alpha-value-notation\n";
    expect_project(&rt, rt.alloc(), "vendor/b/a.css", vendor)?;
    expect_project(&rt, rt.alloc(), "a.min.css", vendor)
}

#[test]
fn two_overrides(rt: HostRuntime) -> Result<(), Fail> {
    let both = "comment-whitespace-inside Always Error\n\
         max-nesting-depth Count(3) Warning\n\
         color-hex-length Long Error\n\
         length-zero-no-unit On Warning\n\
         selector-max-id Count(1) Warning\n\
         selector-max-specificity Limit(0, 4, 2) Warning\n\
         alpha-value-notation\n";
    expect_project(&rt, rt.alloc(), "./src/b/a.min.css", both)
}
