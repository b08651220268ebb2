// The plugins that are picked by their names.
ghost use Rattle.std.specs.Prelude.{◌≡◌, ◌∷◌, [], ℕ, ◌<◌, length, IfOk, IfSome, MatchOption};
ghost use Rattle.std.specs.List.{All};
ghost use Rattle.std.specs.Option.{option_map};
ghost use Rattle.std.specs.Str.{chars, IsUtf8};
ghost use Rattle.command_words.specs.Words.{between_commas, place_of_name, picked_by};
ghost use Rattle.command_words.specs.NamesLeft.{names_left, fresh_place};

use crate::options::is_same;
use css_text::txt::Txt;
use std::alloc::{AllocError, Global};

/// The place of the first plugin of that name.
fn place_named(known: &[Txt], name: &str) -> Option<usize>
    ensures place { result ≡ place_of_name known.now (chars name.now) }
    ensures below { IfSome result (λ place. place < length known.now) }
{
    for (place, plugin) in known.iter().enumerate() {
        if is_same(plugin.as_str(), name) {
            return Some(place);
        }
    }
    None
}

/// The text before the first comma, and what follows that.
fn first_name(text: &str) -> (&str, Option<&str>)
    ensures names { between_commas (chars text.now) ≡ chars result.0.now ∷ names_left result.1 }
    ensures utf8 { IfSome result.1 (λ s. IsUtf8 s.now) }
{
    match text.split_once(',') {
        Some((name, rest)) => (name, Some(rest)),
        None => (text, None),
    }
}

/// The place of a plugin that isn't picked yet.
fn new_place(known: &[Txt], name: &str, places: &Vec<usize>) -> Option<usize>
    ensures place { result ≡ fresh_place known.now places.now.items (chars name.now) }
    ensures below { IfSome result (λ place. place < length known.now) }
{
    if name.is_empty() {
        return None;
    }
    let place = place_named(known, name)?;
    if places.contains(&place) {
        None
    } else {
        Some(place)
    }
}

/// The places of the plugins that names between commas pick, each of another plugin, where
/// the plugins have the known names. It fails only when out of memory.
pub(crate) fn picked(
    alloc: Global,
    known: &[Txt],
    names: &str,
) -> Result<Option<Vec<usize>>, AllocError>
    ensures is { IfOk result (λ r. option_map (λ v. v.items) r ≡ picked_by known.now (chars names.now)) }
    ensures places { IfOk result (λ r. IfSome r (λ v. All (λ place. place < length known.now) v.items)) }
{
    let mut places = Vec::new(alloc);
    let mut left = Some(names);
    while let Some(text) = left {
        let (name, rest) = first_name(text);
        let Some(place) = new_place(known, name, &places) else {
            return Ok(None);
        };
        places.push(place)?;
        left = rest;
    }
    Ok(Some(places))
}
