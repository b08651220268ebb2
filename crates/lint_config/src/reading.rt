// Reading a configuration.
ghost use Rattle.std.specs.Prelude.{◌≡◌, option_map};
ghost use Rattle.std.specs.String.{string_bytes};
ghost use Rattle.serde_json.specs.View.{view, items_view, members_view};
ghost use Rattle.lint_config.specs.ConfigOf.{rule_of as rule_at, rules_of as rules_at, rules_in as rules_under, override_with as override_from, override_parts as parts_of_override, override_of as override_under, overrides_of as overrides_from, overrides_in as overrides_under, override_key, flag_of as flag_under, with_severity as severity_in, with_key as key_in, with_keys as keys_in, config_of as config_under};
ghost use Rattle.lint_config.specs.ConfigView.{named_view, rules_view, override_view, overrides_view, contents_view};
ghost use Rattle.lint_config.specs.Keys.{rules_key};
ghost use Rattle.lint_config.specs.Reading.{Answers, IsReading};

use crate::config::{Config, ConfigFault, ConfigKind, Contents, Named, Override};
use crate::keys::{Answer, Key, Place, push, refused};
use crate::options::{mode_of, severity};
use crate::owned::{array, object};
use crate::patterns::patterns_in;
use crate::table::find_rule;
use css_text::stop::Stop;
use serde_json::{Map, Value};
use std::alloc::{AllocError, Global};

fn rule_of(alloc: Global, place: Place, name: String, value: Value) -> Answer<Named>
    ensures { Answers named_view (rule_at (rules_key place) (string_bytes name) (view value)) result }
{
    match mode_of(find_rule(name.as_str()), &value) {
        Some(mode) => Ok(Named { name, mode }),
        None => {
            let key = Key::OneRule(place, name.as_str());
            Err(refused(alloc, ConfigKind::BadOption, key))
        }
    }
}

/// The rules of one object.
fn rules_of(alloc: Global, place: Place, members: Map<String, Value>) -> Answer<Vec<Named>>
    ensures { Answers (λ v. rules_view v.items) (rules_at (rules_key place) (members_view members.entries)) result }
{
    let mut rules = Vec::new(alloc);
    for (name, value) in members {
        let rule = rule_of(alloc, place, name, value)?;
        push(&mut rules, rule)?;
    }
    Ok(rules)
}

fn rules_in(alloc: Global, place: Place, value: Value) -> Answer<Vec<Named>>
    ensures { Answers (λ v. rules_view v.items) (rules_under (rules_key place) (view value)) result }
{
    match object(value) {
        Some(members) => rules_of(alloc, place, members),
        None => Err(refused(alloc, ConfigKind::WrongShape, Key::Rules(place))),
    }
}

fn override_with(alloc: Global, n: usize, files: Value, rules: Value) -> Answer<Override>
    ensures { Answers override_view (override_from (override_key n) (view files) (view rules)) result }
{
    let patterns = patterns_in(alloc, n, files)?;
    let rules = rules_in(alloc, Place::InOverride(n), rules)?;
    Ok(Override { patterns, rules })
}

/// The values of `files` and `rules`, where there are just these.
fn override_parts(members: Map<String, Value>) -> Option<(Value, Value)>
    ensures { option_map (λ p. (view p.0, view p.1)) result ≡ parts_of_override (members_view members.entries) }
{
    let mut members = members.into_iter();
    let (first, files) = members.next()?;
    let (second, rules) = members.next()?;
    if members.next().is_some() {
        return None;
    }
    if first.as_str() == "files" && second.as_str() == "rules" {
        Some((files, rules))
    } else {
        None
    }
}

fn override_of(alloc: Global, n: usize, value: Value) -> Answer<Override>
    ensures { Answers override_view (override_under (override_key n) (view value)) result }
{
    match object(value).and_then(override_parts) {
        Some((files, rules)) => override_with(alloc, n, files, rules),
        None => Err(refused(alloc, ConfigKind::WrongShape, Key::OfOverride(n))),
    }
}

/// The overrides, each checked in turn.
fn overrides_of(alloc: Global, items: Vec<Value>) -> Answer<Vec<Override>>
    ensures { Answers (λ v. overrides_view v.items) (overrides_from 0 (items_view items.items)) result }
{
    let mut overrides = Vec::new(alloc);
    for item in items {
        let read = override_of(alloc, overrides.len(), item)?;
        push(&mut overrides, read)?;
    }
    Ok(overrides)
}

fn overrides_in(alloc: Global, key: &str, value: Value) -> Answer<Vec<Override>>
    ensures { Answers (λ v. overrides_view v.items) (overrides_under key.now (view value)) result }
{
    match array(value) {
        Some(items) => overrides_of(alloc, items),
        None => Err(refused(alloc, ConfigKind::WrongShape, Key::Top(key))),
    }
}

fn flag_of(alloc: Global, key: &str, value: &Value) -> Answer<bool>
    ensures { Answers (λ b. b) (flag_under key.now (view value.now)) result }
{
    match value.as_bool() {
        Some(on) => Ok(on),
        None => Err(refused(alloc, ConfigKind::WrongShape, Key::Top(key))),
    }
}

fn with_severity(alloc: Global, key: &str, value: &Value, contents: Contents) -> Answer<Contents>
    ensures { Answers contents_view (severity_in key.now (view value.now) (contents_view contents)) result }
{
    match severity(value) {
        Some(severity) => Ok(Contents {
            severity: Some(severity),
            ..contents
        }),
        None => Err(refused(alloc, ConfigKind::WrongShape, Key::Top(key))),
    }
}

/// A configuration with one key more.
fn with_key(alloc: Global, key: &str, value: Value, contents: Contents) -> Answer<Contents>
    ensures { Answers contents_view (key_in key.now (view value) (contents_view contents)) result }
{
    match key {
        "$schema" => Ok(contents),
        "defaultSeverity" => with_severity(alloc, key, &value, contents),
        "ignoreDisables" => {
            let ignore = Some(flag_of(alloc, key, &value)?);
            Ok(Contents { ignore, ..contents })
        }
        "overrides" => {
            let overrides = overrides_in(alloc, key, value)?;
            Ok(Contents {
                overrides,
                ..contents
            })
        }
        "reportNeedlessDisables" => {
            let needless = Some(flag_of(alloc, key, &value)?);
            Ok(Contents {
                needless,
                ..contents
            })
        }
        "rules" => {
            let rules = rules_in(alloc, Place::Base, value)?;
            Ok(Contents { rules, ..contents })
        }
        _ => Err(refused(alloc, ConfigKind::WrongShape, Key::Top(key))),
    }
}

/// A configuration with the keys of an object, which are in the order of their bytes.
fn with_keys(alloc: Global, members: Map<String, Value>, contents: Contents) -> Answer<Contents>
    ensures { Answers contents_view (keys_in (members_view members.entries) (contents_view contents)) result }
{
    let mut contents = contents;
    for (key, value) in members {
        contents = with_key(alloc, key.as_str(), value, contents)?;
    }
    Ok(contents)
}

fn config_of(alloc: Global, value: Value) -> Answer<Contents>
    ensures { Answers contents_view (config_under (view value)) result }
{
    let extends = value.get("extends").is_some();
    match object(value) {
        None => Err(refused(alloc, ConfigKind::WrongShape, Key::Top(""))),
        Some(_) if extends => Err(refused(alloc, ConfigKind::Extends, Key::Top("extends"))),
        Some(members) => with_keys(alloc, members, Contents::new(alloc)),
    }
}

/// Reads a configuration. The keys are near to those of stylelint. Of a key that stands twice in one object the last value
/// counts, as `serde_json` has it, and a number is whole only where it is written so, as `2` and not `2.0`.
///
/// # Errors
///
/// `BadJson` exactly where the bytes aren't UTF-8 or `serde_json` reads no value in them. `Refused` with the kind and the
/// key of the first check that fails: the value is an object, which has no key `extends`; then its keys in the order of
/// their bytes, of which each has its shape; in `rules` each rule in the order of the names; in `overrides` each override in
/// turn, its own shape before its `files` and these before its `rules`. `Memory` where there is no memory.
pub fn read_config(alloc: Global, bytes: &[u8]) -> Result<Config, Stop<ConfigFault>>
    ensures { IsReading bytes.now result }
{
    match Value::from_slice(alloc, bytes) {
        Ok(value) => {
            let contents = config_of(alloc, value)?;
            Ok(Config { contents })
        }
        Err(error) => {
            if error.is_memory() {
                Err(Stop::Memory(AllocError))
            } else {
                Err(Stop::Fault(ConfigFault::BadJson))
            }
        }
    }
}
