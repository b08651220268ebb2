// Important marks.
use super::check_rows;
use lint_config::rule::Rule;
use lint_config::setting::Choice;
use std::test::Fail;

#[test]
#[tactic(auto, unfolding(lint_config::specs::Rules::entry_of))]
fn declaration_no_important(rt: HostRuntime) -> Result<(), Fail> {
    let rows = [
        ("a{b:c !important}", "1:7 Unexpected !important\n"),
        ("a{b:c!IMPORTANT}", "1:6 Unexpected !important\n"),
        ("a{b:c/**/! important;d:e}", "1:10 Unexpected !important\n"),
        (
            "@keyframes f{to{b:c !important}}",
            "1:21 Unexpected !important\n",
        ),
        ("a{b:c important}", ""),
        ("a{--x:{b:c !important}}", ""),
    ];
    check_rows(
        &rt,
        rt.alloc(),
        Rule::DeclarationNoImportant,
        Choice::On,
        &rows,
    )
}

#[test]
#[tactic(auto, unfolding(lint_config::specs::Rules::entry_of))]
fn keyframe_declaration_no_important(rt: HostRuntime) -> Result<(), Fail> {
    let rows = [
        (
            "@-webkit-keyframes f{to{b:c!important}}",
            "1:28 Unexpected !important\n",
        ),
        (
            "@KEYFRAMES f{to{x{b:c!important}}}",
            "1:22 Unexpected !important\n",
        ),
        ("@keyframes f{to{b:c}}", ""),
        ("@-o2-keyframes f{to{b:c!important}}", ""),
        ("@keyframe f{to{b:c!important}}", ""),
        ("a{b:c!important}", ""),
    ];
    check_rows(
        &rt,
        rt.alloc(),
        Rule::KeyframeDeclarationNoImportant,
        Choice::On,
        &rows,
    )
}
