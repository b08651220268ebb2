// The settings of one file.
ghost use Rattle.std.specs.Prelude.{◌≡◌, true, false, Option, unwrap_or, IfOk, OnOk};
ghost use Rattle.std.specs.Str.{chars};
ghost use Rattle.std.specs.List.{list_any};
ghost use Rattle.lint_config.specs.declared.setting.Severity.TheVariants.{Error};
ghost use Rattle.lint_config.specs.Rules.{all_rules, name_of};
ghost use Rattle.lint_config.specs.Choices.{are_settings};
ghost use Rattle.lint_config.specs.Glob.{glob_of};
ghost use Rattle.lint_config.specs.ConfigView.{rules_view, texts_view, override_view, overrides_view, contents_view};
ghost use Rattle.lint_config.specs.ModesView.{modes_view};
ghost use Rattle.lint_config.specs.Resolved.{set_names as names_set, with_override, overridden, modes_for as all_modes, mode_in, setting_of as setting_from, enabled_in, unknown_in, rules_for, unknown_for};

use crate::config::{Config, Contents, Mode, Named, Override};
use crate::paths::glob;
use crate::rule::Rule;
use crate::setting::{Setting, Settings, Severity};
use crate::table::rules;
use css_text::txt::Txt;
use std::alloc::{AllocError, Global};
use std::collections::BTreeMap;

/// What each name is set to.
type Modes<'c> = BTreeMap<&'c str, Mode>;

fn set_names<'c>(modes: &mut Modes<'c>, names: &'c [Named]) -> Result<(), AllocError>
    ensures { OnOk result (modes_view modes.new.entries ≡ names_set (rules_view names.now) (modes_view modes.old.entries)) }
{
    for named in names {
        modes.insert(named.name.as_str(), named.mode)?;
    }
    Ok(())
}

fn matches(patterns: &[String], path: &str) -> bool
    ensures { result ≡ list_any (λ p. glob_of (chars p) (chars path.now)) (texts_view patterns.now) }
{
    for pattern in patterns {
        if glob(pattern.as_str(), path) {
            return true;
        }
    }
    false
}

fn set_override<'c>(modes: &mut Modes<'c>, one: &'c Override, path: &str) -> Result<(), AllocError>
    ensures { OnOk result (modes_view modes.new.entries ≡ with_override (chars path.now) (override_view one.now) (modes_view modes.old.entries)) }
{
    if matches(one.patterns.as_slice(), path) {
        set_names(modes, one.rules.as_slice())
    } else {
        Ok(())
    }
}

fn set_overrides<'c>(
    modes: &mut Modes<'c>,
    overrides: &'c [Override],
    path: &str,
) -> Result<(), AllocError>
    ensures { OnOk result (modes_view modes.new.entries ≡ overridden (chars path.now) (overrides_view overrides.now) (modes_view modes.old.entries)) }
{
    for one in overrides {
        set_override(modes, one, path)?;
    }
    Ok(())
}

#[tactic(auto, unfolding(crate::specs::Resolved::modes_for))]
fn modes_for<'c>(alloc: Global, contents: &'c Contents, path: &str) -> Result<Modes<'c>, AllocError>
    ensures { IfOk result (λ m. modes_view m.entries ≡ all_modes (contents_view contents.now) (chars path.now)) }
{
    let mut modes = BTreeMap::new(alloc);
    set_names(&mut modes, contents.rules.as_slice())?;
    set_overrides(&mut modes, contents.overrides.as_slice(), path)?;
    Ok(modes)
}

fn setting_of(default: Severity, rule: Rule, mode: Option<Mode>) -> Option<Setting>
    ensures { result ≡ setting_from default rule mode }
{
    match mode {
        Some(Mode::On { choice, severity }) => Some(Setting {
            rule,
            choice,
            severity: severity.unwrap_or(default),
        }),
        _ => None,
    }
}

fn mode_of(modes: &Modes, rule: Rule) -> Option<Mode>
    ensures { result ≡ mode_in (name_of rule) (modes_view modes.now.entries) }
{
    modes.get(rule.name()).copied()
}

/// The rules that are on, in the order of the table.
fn enabled(alloc: Global, default: Severity, modes: &Modes) -> Result<Vec<Setting>, AllocError>
    ensures { IfOk result (λ v. v.items ≡ enabled_in default (modes_view modes.now.entries) all_rules) }
{
    let mut settings = Vec::new(alloc);
    for rule in rules() {
        if let Some(setting) = setting_of(default, *rule, mode_of(modes, *rule)) {
            settings.push(setting)?;
        }
    }
    Ok(settings)
}

/// The names that are on and that no rule has, in the order of their bytes.
fn unknown(alloc: Global, modes: &Modes) -> Result<Vec<Txt>, AllocError>
    ensures { IfOk result (λ v. v.items ≡ unknown_in (modes_view modes.now.entries)) }
{
    let mut names = Vec::new(alloc);
    for (name, mode) in modes {
        if let Mode::Unknown = *mode {
            names.push(Txt::new(alloc, *name)?)?;
        }
    }
    Ok(names)
}

/// The settings of the file at the path. They begin with `rules`; then each override of which some pattern matches the
/// path, in order, replaces what it names. Its only error is want of memory.
///
/// The time is that of comparing each pattern with the path, as `glob` says, and of sorting the names that are set.
pub fn settings(alloc: Global, config: &Config, path: &str) -> Result<Settings, AllocError>
    ensures rules { IfOk result (λ s. s.rules.items ≡ rules_for config.now (chars path.now)) }
    ensures unknown { IfOk result (λ s. s.unknown.items ≡ unknown_for config.now (chars path.now)) }
    ensures needless { IfOk result (λ s. s.needless ≡ unwrap_or config.now.needless false) }
    ensures ignore { IfOk result (λ s. s.ignore ≡ unwrap_or config.now.ignore false) }
    // what the calls that take settings need
    ensures allowed { IfOk result (λ s. are_settings s.rules.items ≡ true) }
{
    let contents = &config.contents;
    let modes = modes_for(alloc, contents, path)?;
    let default = contents.severity.unwrap_or(Severity::Error);
    Ok(Settings {
        rules: enabled(alloc, default, &modes)?,
        unknown: unknown(alloc, &modes)?,
        needless: contents.needless.unwrap_or(false),
        ignore: contents.ignore.unwrap_or(false),
    })
}
