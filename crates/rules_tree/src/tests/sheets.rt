// Several rules at once, and rules that look at something else than the tree.
ghost use Rattle.std.specs.Prelude.{◌≡◌, true, IfOk};
ghost use Rattle.lint_config.specs.Choices.{are_settings};

use super::{Row, check_rows, check_sheets};
use lint_config::rule::Rule;
use lint_config::setting::{Choice, Setting, Settings, Severity};
use std::alloc::{AllocError, Global};
use std::test::Fail;

/// Marks, and then duplicates.
#[tactic(auto, unfolding(lint_config::specs::Rules::entry_of))]
fn two(alloc: Global) -> Result<Settings, AllocError>
    ensures { IfOk result (λ settings. are_settings settings.rules.items ≡ true) }
{
    let mut rules = Vec::new(alloc);
    rules.push(Setting {
        rule: Rule::DeclarationNoImportant,
        choice: Choice::On,
        severity: Severity::Error,
    })?;
    rules.push(Setting {
        rule: Rule::DeclarationBlockNoDuplicateProperties,
        choice: Choice::On,
        severity: Severity::Warning,
    })?;
    Ok(Settings {
        rules,
        unknown: Vec::new(alloc),
        needless: false,
        ignore: false,
    })
}

#[test]
#[tactic(auto, unfolding(lint_config::specs::Rules::entry_of))]
fn sites_come_in_order(rt: HostRuntime) -> Result<(), Fail> {
    let rows = [(
        "a{b:c;b:d!important}\nc{d:e!important}",
        "1:7 Unexpected duplicate \"b\"\n1:10 Unexpected !important\n2:6 Unexpected !important\n",
    )];
    check_sheets(&rt, rt.alloc(), &two(rt.alloc())?, &rows)
}

#[test]
#[tactic(auto, unfolding(lint_config::specs::Rules::entry_of))]
fn other_rules_add_nothing(rt: HostRuntime) -> Result<(), Fail> {
    let rows: [Row; 2] = [("a{color:#ggg}", ""), ("a{}", "")];
    check_rows(&rt, rt.alloc(), Rule::ColorNoInvalidHex, Choice::On, &rows)
}
