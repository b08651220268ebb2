// What a value in a configuration sets a rule to.
ghost use Rattle.std.specs.Prelude.{◌≡◌};
ghost use Rattle.std.specs.List.{list_all};
ghost use Rattle.std.specs.Char.{is_ascii_digit};
ghost use Rattle.serde_json.specs.View.{view, number_view, items_view};
ghost use Rattle.lint_config.specs.RuleValues.{choice_of, word_choice, number_choice, flag_choice, limit_of, has_leading_zero, is_numeral, short_number as number_of, severity_of, secondary_of, mode_with as primary_mode, mode_of_items as items_mode, known_mode as rule_mode, turns_off as is_off, mode_of as mode_by};

use crate::config::Mode;
use crate::rule::{Primary, Rule};
use crate::setting::{Choice, Severity};
use serde_json::{Number, Value};

fn flag(primary: Primary, on: bool) -> Option<Choice>
    ensures { result ≡ flag_choice primary on }
{
    match (primary, on) {
        (Primary::Flag, true) => Some(Choice::On),
        _ => None,
    }
}

fn count(primary: Primary, number: &Number) -> Option<Choice>
    ensures { result ≡ number_choice primary (number_view number.now) }
{
    let Primary::Thousand = primary else {
        return None;
    };
    match number.as_u64() {
        Some(n) if n <= 1000 => Some(Choice::Count(n as u32)),
        _ => None,
    }
}

fn all_digits(text: &str) -> bool
    ensures { result ≡ list_all is_ascii_digit text.now }
{
    text.bytes().all(|byte| byte.is_ascii_digit())
}

fn leads_with_zero(text: &str) -> bool
    ensures { result ≡ has_leading_zero text.now }
{
    matches!(text.as_bytes(), [b'0', _, ..])
}

#[tactic(auto, unfolding(crate::specs::RuleValues::is_numeral))]
fn is_numeral(text: &str) -> bool
    ensures { result ≡ is_numeral text.now }
{
    all_digits(text) && !leads_with_zero(text)
}

/// The number from 0 to 65535 that digits write, without a sign and without a leading zero.
fn short_number(text: &str) -> Option<u16>
    ensures { result ≡ number_of text.now }
{
    if is_numeral(text) {
        text.parse().ok()
    } else {
        None
    }
}

fn limit(text: &str) -> Option<Choice>
    ensures { result ≡ limit_of text.now }
{
    let (ids, rest) = text.split_once(',')?;
    let (classes, types) = rest.split_once(',')?;
    let ids = short_number(ids)?;
    let classes = short_number(classes)?;
    let types = short_number(types)?;
    Some(Choice::Limit(ids, classes, types))
}

fn word(primary: Primary, word: &str) -> Option<Choice>
    ensures { result ≡ word_choice primary word.now }
{
    match (primary, word) {
        (Primary::AlwaysWord, "always") => Some(Choice::Always),
        (Primary::ShortOrLong, "short") => Some(Choice::Short),
        (Primary::ShortOrLong, "long") => Some(Choice::Long),
        (Primary::SingleOrDouble, "single") => Some(Choice::Single),
        (Primary::SingleOrDouble, "double") => Some(Choice::Double),
        (Primary::Specificity, _) => limit(word),
        _ => None,
    }
}

fn choice(primary: Primary, value: &Value) -> Option<Choice>
    ensures { result ≡ choice_of primary (view value.now) }
{
    match value {
        Value::Bool(on) => flag(primary, *on),
        Value::Number(number) => count(primary, number),
        Value::String(text) => word(primary, text.as_str()),
        _ => None,
    }
}

/// The severity that a value names.
pub fn severity(value: &Value) -> Option<Severity>
    ensures { result ≡ severity_of (view value.now) }
{
    let word = value.as_str()?;
    if word == "error" {
        Some(Severity::Error)
    } else if word == "warning" {
        Some(Severity::Warning)
    } else {
        None
    }
}

/// The severity that secondary options set, if they set one.
fn secondary(value: &Value) -> Option<Option<Severity>>
    ensures { result ≡ secondary_of (view value.now) }
{
    let mut members = value.as_object()?.iter();
    let Some((key, word)) = members.next() else {
        return Some(None);
    };
    if key.as_str() != "severity" || members.next().is_some() {
        return None;
    }
    Some(Some(severity(word)?))
}

fn mode_with(primary: Primary, value: &Value, severity: Option<Severity>) -> Option<Mode>
    ensures { result ≡ primary_mode primary (view value.now) severity }
{
    if value.is_null() {
        return Some(Mode::Off);
    }
    let choice = choice(primary, value)?;
    Some(Mode::On { choice, severity })
}

fn mode_of_items(primary: Primary, items: &[Value]) -> Option<Mode>
    ensures { result ≡ items_mode primary (items_view items.now) }
{
    match items {
        [first] => mode_with(primary, first, None),
        [first, second] => {
            let severity = secondary(second)?;
            mode_with(primary, first, severity)
        }
        _ => None,
    }
}

fn known_mode(primary: Primary, value: &Value) -> Option<Mode>
    ensures { result ≡ rule_mode primary (view value.now) }
{
    match value.as_array() {
        Some(items) => mode_of_items(primary, items.as_slice()),
        None => mode_with(primary, value, None),
    }
}

fn turns_off(value: &Value) -> bool
    ensures { result ≡ is_off (view value.now) }
{
    match value.as_array() {
        Some(items) => match items.first() {
            Some(first) => first.is_null(),
            None => false,
        },
        None => value.is_null(),
    }
}

/// What the value sets a rule to, or none where the rule isn't set like that. A name that no rule has takes each value.
pub fn mode_of(rule: Option<Rule>, value: &Value) -> Option<Mode>
    ensures { result ≡ mode_by rule (view value.now) }
{
    match rule {
        Some(rule) => known_mode(rule.primary(), value),
        None if turns_off(value) => Some(Mode::Off),
        None => Some(Mode::Unknown),
    }
}
