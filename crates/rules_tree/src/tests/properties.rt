// Properties that are declared again.
use super::check_rows;
use lint_config::rule::Rule;
use lint_config::setting::Choice;
use std::test::Fail;

#[test]
#[tactic(auto, unfolding(lint_config::specs::Rules::entry_of))]
fn declaration_block_no_duplicate_custom_properties(rt: HostRuntime) -> Result<(), Fail> {
    let rows = [
        ("a{--x:1;--x:2}", "1:9 Unexpected duplicate \"--x\"\n"),
        ("a{--x:{b:c};--x:{}}", "1:13 Unexpected duplicate \"--x\"\n"),
        (
            "a{--x:1;b:c;--x:2;--x:3}",
            "1:13 Unexpected duplicate \"--x\"\n1:19 Unexpected duplicate \"--x\"\n",
        ),
        ("a{--x:1;--X:2}", ""),
        ("a{x:1;x:2}", ""),
        ("a{--x:1}b{--x:2}", ""),
        ("a{--x:1;b{--x:2}}", ""),
    ];
    let rule = Rule::DeclarationBlockNoDuplicateCustomProperties;
    check_rows(&rt, rt.alloc(), rule, Choice::On, &rows)
}

#[test]
#[tactic(auto, unfolding(lint_config::specs::Rules::entry_of))]
fn declaration_block_no_duplicate_properties(rt: HostRuntime) -> Result<(), Fail> {
    let rows = [
        ("a{top:0;TOP:1}", "1:9 Unexpected duplicate \"TOP\"\n"),
        (
            "a{top:0;left:1;top:2;Top:3}",
            "1:16 Unexpected duplicate \"top\"\n1:22 Unexpected duplicate \"Top\"\n",
        ),
        (
            "@media x{a{b:c;d:e;b:f}}",
            "1:20 Unexpected duplicate \"b\"\n",
        ),
        ("a{top:0;tops:1}", ""),
        ("a{top:0;b{top:1}}", ""),
        ("@media x{a{top:0}a{top:1}}", ""),
    ];
    let rule = Rule::DeclarationBlockNoDuplicateProperties;
    check_rows(&rt, rt.alloc(), rule, Choice::On, &rows)
}

#[test]
#[tactic(auto, unfolding(lint_config::specs::Rules::entry_of))]
fn ignored_properties(rt: HostRuntime) -> Result<(), Fail> {
    let rows = [
        ("a{$x:1;$x:2}", ""),
        ("a{--x:{b:c;b:d};--x:2}", ""),
        ("@font-face{SRC:a;src:b}", ""),
    ];
    let rule = Rule::DeclarationBlockNoDuplicateProperties;
    check_rows(&rt, rt.alloc(), rule, Choice::On, &rows)
}

#[test]
#[tactic(auto, unfolding(lint_config::specs::Rules::entry_of))]
fn declaration_block_no_shorthand_property_overrides(rt: HostRuntime) -> Result<(), Fail> {
    let rows = [
        (
            "a{margin-top:0;margin:1px}",
            "1:16 Unexpected shorthand \"margin\" after \"margin-top\"\n",
        ),
        (
            "a{margin-left:0;margin-top:0;MARGIN:1px}",
            "1:30 Unexpected shorthand \"MARGIN\" after \"margin-left\"\n",
        ),
        (
            "@media x{a{line-height:1;font:x}}",
            "1:26 Unexpected shorthand \"font\" after \"line-height\"\n",
        ),
        (
            "a{Border-Color:x;border:y}",
            "1:18 Unexpected shorthand \"border\" after \"Border-Color\"\n",
        ),
        ("a{margin:1px;margin-top:0}", ""),
        ("a{border-top-color:x;border:y}", ""),
        ("a{margin-top:0}b{margin:1px}", ""),
        ("a{--margin-top:{};margin:1px}", ""),
    ];
    let rule = Rule::DeclarationBlockNoShorthandPropertyOverrides;
    check_rows(&rt, rt.alloc(), rule, Choice::On, &rows)
}
