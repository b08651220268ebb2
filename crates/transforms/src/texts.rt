// Reading texts by characters.
ghost use Rattle.std.specs.Prelude.{◌≡◌, [], ◌∷◌, length, MatchOption, IfSome};
ghost use Rattle.std.specs.List.{list_any};
ghost use Rattle.std.specs.Str.{chars, IsUtf8};
ghost use Rattle.plugin_api.specs.Effect.{has};
ghost use Rattle.transforms.specs.Reads.{begins_with};

// The first character, and what follows it.
#[tactic(auto, using(std::proofs::lemmas::Str::chars_past_char))]
pub(crate) fn first_char(text: &str) -> Option<(char, &str)>
    ensures parts { MatchOption result (chars text.now ≡ []) (λ x. chars text.now ≡ x.0 ∷ chars x.1.now) }
    ensures utf8 { IfSome result (λ x. IsUtf8 x.1.now) }
{
    let mut characters = text.chars();
    let first = characters.next()?;
    Some((first, characters.as_str()))
}

pub(crate) fn begins_with(text: &str, c: char) -> bool
    ensures { result ≡ begins_with c (chars text.now) }
{
    match first_char(text) {
        Some((first, _)) => first == c,
        None => false,
    }
}

pub(crate) fn has(text: &str, c: char) -> bool
    ensures { result ≡ has c (chars text.now) }
{
    text.chars().any(|x| x == c)
}

// How many characters the text has.
pub(crate) fn char_count(text: &str) -> usize
    ensures { result ≡ length (chars text.now) }
{
    text.chars().count()
}
