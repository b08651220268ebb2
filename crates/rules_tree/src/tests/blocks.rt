// Blocks, empty sheets, imports and nesting.
use super::check_rows;
use lint_config::rule::Rule;
use lint_config::setting::Choice;
use std::test::Fail;

#[test]
#[tactic(auto, unfolding(lint_config::specs::Rules::entry_of))]
fn block_no_empty(rt: HostRuntime) -> Result<(), Fail> {
    let rows = [
        ("a{}", "1:2 Unexpected empty block\n"),
        ("a{ }", "1:2 Unexpected empty block\n"),
        ("@media x{}", "1:9 Unexpected empty block\n"),
        ("@media x{a{}}b{c:d}", "1:11 Unexpected empty block\n"),
        ("a{/**/}", ""),
        ("@x;", ""),
        ("a{--x:{}}", ""),
    ];
    check_rows(&rt, rt.alloc(), Rule::BlockNoEmpty, Choice::On, &rows)
}

#[test]
#[tactic(auto, unfolding(lint_config::specs::Rules::entry_of))]
fn no_empty_source(rt: HostRuntime) -> Result<(), Fail> {
    let rows = [
        ("", "1:1 Unexpected empty source\n"),
        (" \n", "1:1 Unexpected empty source\n"),
        ("\u{feff} ", "1:1 Unexpected empty source\n"),
        ("/**/", ""),
        (";", ""),
        ("a{}", ""),
    ];
    check_rows(&rt, rt.alloc(), Rule::NoEmptySource, Choice::On, &rows)
}

#[test]
#[tactic(auto, unfolding(lint_config::specs::Rules::entry_of))]
fn no_invalid_position_at_import_rule(rt: HostRuntime) -> Result<(), Fail> {
    let rows = [
        (
            "a{}@import \"b\";",
            "1:4 Unexpected invalid position @import rule\n",
        ),
        (
            "@layer a{}@IMPORT \"b\";",
            "1:11 Unexpected invalid position @import rule\n",
        ),
        (
            "@media x{}/**/@import \"b\"",
            "1:15 Unexpected invalid position @import rule\n",
        ),
        (
            "/**/@Charset \"x\";@import \"a\";@layer b;@IMPORT \"c\";",
            "",
        ),
        ("@media x{a{}@import \"b\";}", ""),
        ("a{}@imports \"b\";", ""),
    ];
    check_rows(
        &rt,
        rt.alloc(),
        Rule::NoInvalidPositionAtImportRule,
        Choice::On,
        &rows,
    )
}

#[test]
#[tactic(auto, unfolding(lint_config::specs::Rules::entry_of))]
fn max_nesting_depth(rt: HostRuntime) -> Result<(), Fail> {
    let rows = [
        (
            "a{b{c{}}}",
            "1:5 Expected nesting depth to be no more than 1\n",
        ),
        (
            "a{b{@x{}}}",
            "1:5 Expected nesting depth to be no more than 1\n",
        ),
        (
            "@media x{a{b{c{}}}}",
            "1:14 Expected nesting depth to be no more than 1\n",
        ),
        (
            "a{@media x{b{}}}",
            "1:12 Expected nesting depth to be no more than 1\n",
        ),
        ("@media x{a{b{}}}", ""),
        ("a{b{@x;}}", ""),
        ("a{b{--x:{c:{d:e}}}}", ""),
    ];
    check_rows(
        &rt,
        rt.alloc(),
        Rule::MaxNestingDepth,
        Choice::Count(1),
        &rows,
    )
}
