// Names of rules, and patterns.
use crate::paths::glob;
use crate::rule::{Primary, Rule};
use crate::table::{find_rule, rules};
use std::process::Abort;

fn expect_rule(rt: &impl Abort, name: &str, rule: Rule, primary: Primary) {
    assert_eq!(rt; rule.name(), name);
    assert_eq!(rt; rule.primary(), primary);
    assert_eq!(rt; find_rule(name), Some(rule));
}

#[test]
fn rules_have_names(rt: HostRuntime) {
    for (name, rule, primary) in [
        ("block-no-empty", Rule::BlockNoEmpty, Primary::Flag),
        (
            "comment-whitespace-inside",
            Rule::CommentWhitespaceInside,
            Primary::AlwaysWord,
        ),
        (
            "max-nesting-depth",
            Rule::MaxNestingDepth,
            Primary::Thousand,
        ),
        (
            "color-hex-length",
            Rule::ColorHexLength,
            Primary::ShortOrLong,
        ),
        (
            "selector-max-specificity",
            Rule::SelectorMaxSpecificity,
            Primary::Specificity,
        ),
        (
            "selector-pseudo-element-colon-notation",
            Rule::SelectorPseudoElementColonNotation,
            Primary::SingleOrDouble,
        ),
    ] {
        expect_rule(&rt, name, rule, primary);
    }
}

#[test]
fn other_names(rt: HostRuntime) {
    assert_eq!(rt; find_rule("block-no-Empty"), None);
    assert_eq!(rt; rules().len(), 20);
}

fn expect_glob(rt: &impl Abort, pattern: &str, path: &str, wanted: bool) {
    assert_eq!(rt; glob(pattern, path), wanted, "{pattern} {path}");
}

#[test]
fn patterns_over_segments(rt: HostRuntime) {
    for (pattern, path, wanted) in [
        ("*.css", "a/b.css", true),
        ("src/*.css", "src/a/b.css", false),
        ("src/**/*.css", "src/b.css", true),
        ("src/**/*.css", "./src/a/b/c.css", true),
        ("src/**", "src", true),
        ("**/b/**/d", "a/b/c/b/d", true),
        ("**/b/**/d", "a/c/d", false),
    ] {
        expect_glob(&rt, pattern, path, wanted);
    }
}

#[test]
fn patterns_in_segments(rt: HostRuntime) {
    for (pattern, path, wanted) in [
        ("a?c", "x/a\u{20ac}c", true),
        ("a??c", "a\u{20ac}c", false),
        ("*a*b*c", "xxaxxbxxcxxc", true),
        ("A.css", "a.css", false),
        ("/a.css", "a.css", false),
        ("a.css/", "a.css", false),
        ("*", "", true),
        ("?", "", false),
    ] {
        expect_glob(&rt, pattern, path, wanted);
    }
}

#[test]
fn a_pattern_that_could_be_slow(rt: HostRuntime) {
    let path = "a/a/a/aaaaaaaaaaaaaaaaaaaaaaaaaaaaaaaa";
    expect_glob(&rt, "**/**/**/*a*a*a*b", path, false);
}
