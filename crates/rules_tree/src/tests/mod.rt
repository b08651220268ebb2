// What the rules find in sheets: the call, and tables of sheets with what is expected, rule by rule.
ghost use Rattle.std.specs.Prelude.{◌≡◌, ◌≤◌, true, length, IfOk};
ghost use Rattle.lint_config.specs.Choices.{allows, are_settings};
ghost use Rattle.lint_config.specs.Rules.{primary_of};
ghost use Rattle.node_store.specs.Fresh.{IsFresh};

mod blocks;
mod comments;
mod important;
mod properties;
mod sheets;

use crate::check::check_tree;
use css_parse::parse::parse;
use css_text::text::{Place, Text};
use lint_config::found::{Repair, Site};
use lint_config::rule::Rule;
use lint_config::setting::{Choice, Setting, Settings, Severity};
use node_store::work::Work;
use std::alloc::{AllocError, Global};
use std::process::Abort;
use std::test::Fail;

/// A sheet, and what is found in it, a line for each site.
pub type Row = (&'static str, &'static str);

fn sheet(alloc: Global, bytes: Vec<u8>) -> Result<Work, Fail>
    requires { length bytes.items ≤ 1000 }
    ensures { IfOk result (λ work. IsFresh work) }
{
    match Text::new(alloc, bytes) {
        Ok(text) => match parse(alloc, text) {
            Ok(work) => Ok(work),
            Err(_) => Err(Fail::from("a sheet")),
        },
        Err(_) => Err(Fail::from("a text")),
    }
}

/// One rule, on.
fn one(alloc: Global, rule: Rule, choice: Choice) -> Result<Settings, AllocError>
    requires { allows (primary_of rule) choice ≡ true }
    ensures { IfOk result (λ settings. are_settings settings.rules.items ≡ true) }
{
    let mut rules = Vec::new(alloc);
    rules.push(Setting {
        rule,
        choice,
        severity: Severity::Error,
    })?;
    Ok(Settings {
        rules,
        unknown: Vec::new(alloc),
        needless: false,
        ignore: false,
    })
}

/// The line of a site: its place, its message, and its repair, if it has one, as the bytes from one to another and the text.
fn line(alloc: Global, site: &Site) -> Result<String, AllocError> {
    let Place { line, column } = site.place;
    let text = site.text.as_str();
    match &site.repair {
        Some(Repair { span, text: by }) => {
            let (start, end, by) = (span.start, span.end, by.as_str());
            format!(in alloc; "{line}:{column} {text} [{start}..{end} {by}]\n")
        }
        None => format!(in alloc; "{line}:{column} {text}\n"),
    }
}

fn lines(alloc: Global, sites: &[Site]) -> Result<String, AllocError> {
    let mut all = String::new(alloc);
    for site in sites {
        all.push_str(line(alloc, site)?.as_str())?;
    }
    Ok(all)
}

/// Asks for the sites of each row under the settings.
pub fn check_sheets(
    rt: &impl Abort,
    alloc: Global,
    settings: &Settings,
    rows: &[Row],
) -> Result<(), Fail>
    requires { are_settings settings.now.rules.items ≡ true }
{
    for (css, want) in rows {
        let bytes = css.as_bytes().to_vec(alloc)?;
        assert!(rt; bytes.len() <= 1000);
        let work = sheet(alloc, bytes)?;
        let sites = check_tree(alloc, &work, settings)?;
        assert_eq!(rt; lines(alloc, sites.as_slice())?.as_str(), *want);
    }
    Ok(())
}

/// Asks for the sites of each row under one rule.
pub fn check_rows(
    rt: &impl Abort,
    alloc: Global,
    rule: Rule,
    choice: Choice,
    rows: &[Row],
) -> Result<(), Fail>
    requires { allows (primary_of rule) choice ≡ true }
{
    let settings = one(alloc, rule, choice)?;
    check_sheets(rt, alloc, &settings, rows)
}
