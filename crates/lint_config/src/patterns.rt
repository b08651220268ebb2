// The patterns of an override.
ghost use Rattle.std.specs.Prelude.{◌≡◌, ◌∷◌, [], Some, IfOk, IfErr, option_map, not};
ghost use Rattle.std.specs.String.{string_bytes};
ghost use Rattle.std.specs.List.{list_any};
ghost use Rattle.serde_json.specs.View.{view, items_view};
ghost use Rattle.lint_config.specs.ConfigOf.{is_bracket as bracket, is_no_pattern as no_pattern, texts_of as item_texts, files_of as file_texts, patterns_in as patterns_under};
ghost use Rattle.lint_config.specs.ConfigView.{texts_view};
ghost use Rattle.lint_config.specs.Keys.{files_key, IsMemory};
ghost use Rattle.lint_config.specs.Reading.{Answers};

use crate::config::ConfigKind;
use crate::keys::{Answer, Key, push, refused};
use crate::owned::string;
use serde_json::Value;
use std::alloc::Global;

fn is_bracket(byte: u8) -> bool
    ensures { result ≡ bracket byte }
{
    matches!(byte, b'{' | b'}' | b'[' | b']')
}

fn has_bracket(text: &str) -> bool
    ensures { result ≡ list_any bracket text.now }
{
    text.bytes().any(|byte| is_bracket(byte))
}

/// Whether the text is no pattern: braces, brackets and a leading `!` mean more to others than here.
fn is_no_pattern(text: &str) -> bool
    ensures { result ≡ no_pattern text.now }
{
    match text.as_bytes() {
        [] => true,
        [first, ..] => *first == b'!' || has_bracket(text),
    }
}

/// The texts of an array of texts, or none where an item is no text.
fn texts_of(alloc: Global, items: Vec<Value>) -> Answer<Option<Vec<String>>>
    ensures ok { IfOk result (λ o. option_map (λ v. texts_view v.items) o ≡ item_texts (items_view items.items)) }
    ensures err { IfErr result IsMemory }
{
    let mut texts = Vec::new(alloc);
    for item in items {
        match string(item) {
            Some(text) => push(&mut texts, text)?,
            None => return Ok(None),
        }
    }
    Ok(Some(texts))
}

fn one_text(alloc: Global, text: String) -> Answer<Option<Vec<String>>>
    ensures ok { IfOk result (λ o. option_map (λ v. texts_view v.items) o ≡ Some (string_bytes text ∷ [])) }
    ensures err { IfErr result IsMemory }
{
    let mut texts = Vec::new(alloc);
    push(&mut texts, text)?;
    Ok(Some(texts))
}

/// A text alone, or the texts of an array.
fn files_of(alloc: Global, value: Value) -> Answer<Option<Vec<String>>>
    ensures ok { IfOk result (λ o. option_map (λ v. texts_view v.items) o ≡ file_texts (view value)) }
    ensures err { IfErr result IsMemory }
{
    match value {
        Value::String(text) => one_text(alloc, text),
        Value::Array(items) => texts_of(alloc, items),
        _ => Ok(None),
    }
}

fn are_patterns(texts: &[String]) -> bool
    ensures { result ≡ not (list_any no_pattern (texts_view texts.now)) }
{
    for text in texts {
        if is_no_pattern(text.as_str()) {
            return false;
        }
    }
    true
}

/// The patterns of the override of this number, counted from 0.
pub fn patterns_in(alloc: Global, n: usize, value: Value) -> Answer<Vec<String>>
    ensures { Answers (λ v. texts_view v.items) (patterns_under (files_key n) (view value)) result }
{
    match files_of(alloc, value)? {
        None => Err(refused(alloc, ConfigKind::WrongShape, Key::Files(n))),
        Some(texts) => {
            if are_patterns(texts.as_slice()) {
                Ok(texts)
            } else {
                Err(refused(alloc, ConfigKind::BadOption, Key::Files(n)))
            }
        }
    }
}
