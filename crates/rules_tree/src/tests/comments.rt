// Comments.
use super::check_rows;
use lint_config::rule::Rule;
use lint_config::setting::Choice;
use std::test::Fail;

#[test]
#[tactic(auto, unfolding(lint_config::specs::Rules::entry_of))]
fn comment_no_empty(rt: HostRuntime) -> Result<(), Fail> {
    let rows = [
        ("/* */", "1:1 Unexpected empty comment\n"),
        ("/**/", "1:1 Unexpected empty comment\n"),
        ("a{/**/b:c}", "1:3 Unexpected empty comment\n"),
        ("/*x*/", ""),
        ("/***/", ""),
    ];
    check_rows(&rt, rt.alloc(), Rule::CommentNoEmpty, Choice::On, &rows)
}

#[test]
#[tactic(auto, unfolding(lint_config::specs::Rules::entry_of))]
fn comment_whitespace_inside(rt: HostRuntime) -> Result<(), Fail> {
    let rows = [
        (
            "/** x*/",
            "1:6 Expected whitespace before \"*/\" [5..5  ]\n",
        ),
        ("/**x */", "1:1 Expected whitespace after \"/*\" [3..3  ]\n"),
        (
            "/*\u{e9}*/",
            "1:1 Expected whitespace after \"/*\" [2..2  ]\n1:4 Expected whitespace before \"*/\" [4..4  ]\n",
        ),
        (
            "/* x**/",
            "1:6 Expected whitespace before \"*/\" [4..4  ]\n",
        ),
        ("/* x */", ""),
        ("/***/", ""),
    ];
    check_rows(
        &rt,
        rt.alloc(),
        Rule::CommentWhitespaceInside,
        Choice::Always,
        &rows,
    )
}

#[test]
#[tactic(auto, unfolding(lint_config::specs::Rules::entry_of))]
fn exempt_comments(rt: HostRuntime) -> Result<(), Fail> {
    let rows = [
        ("/*!x*/", ""),
        ("/*#x*/", ""),
        ("/* */", ""),
        ("/**/", ""),
        ("/*\tx\n*/", ""),
    ];
    check_rows(
        &rt,
        rt.alloc(),
        Rule::CommentWhitespaceInside,
        Choice::Always,
        &rows,
    )
}
