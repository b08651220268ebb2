// A part of a pattern and a part of a path.
ghost use Rattle.std.specs.Prelude.{◌≡◌, ◌∷◌, [], ℕ, MatchOption};
ghost use Rattle.std.specs.Str.{chars};
ghost use Rattle.lint_config.specs.Glob.{part_matches, is_star, fits_char};
ghost use Rattle.lint_config.specs.Trial.{Fails};
ghost use Rattle.lint_config.specs.Turns.{char_trial, CharTurn};

/// What was left after the last `*` of the pattern, and of the text there.
#[derive(Clone, Copy)]
struct Back<'p, 't> {
    pattern: &'p str,
    text: &'t str,
}

/// What is left of a pattern and of a text.
#[derive(Clone, Copy)]
struct Attempt<'p, 't> {
    pattern: &'p str,
    text: &'t str,
    back: Option<Back<'p, 't>>,
}

enum Turn<'p, 't> {
    Next(Attempt<'p, 't>),
    Done(bool),
}

/// The first character, and what follows it.
#[tactic(auto, using(std::proofs::lemmas::Str::chars_past_char))]
pub fn first_char(text: &str) -> Option<(char, &str)>
    ensures { MatchOption result (chars text.now ≡ []) (λ x. chars text.now ≡ x.0 ∷ chars x.1.now) }
{
    let mut characters = text.chars();
    let first = characters.next()?;
    Some((first, characters.as_str()))
}

/// Whether a character of a pattern other than `*` stands for the character.
fn fits(unit: char, character: char) -> bool
    ensures { result ≡ fits_char unit character }
{
    unit == '?' || unit == character
}

/// Goes back to the last `*`, which takes one character more.
fn go_back<'p, 't>(attempt: Attempt<'p, 't>) -> Turn<'p, 't>
    requires { Fails is_star fits_char (char_trial attempt) }
    ensures { CharTurn attempt.entry result }
{
    let Some(back) = attempt.back else {
        return Turn::Done(false);
    };
    let pattern = back.pattern;
    match first_char(back.text) {
        None => Turn::Done(false),
        Some((_, text)) => Turn::Next(Attempt {
            pattern,
            text,
            back: Some(Back { pattern, text }),
        }),
    }
}

fn go_on<'p, 't>(attempt: Attempt<'p, 't>) -> Turn<'p, 't>
    ensures { CharTurn attempt.entry result }
{
    let Some((unit, pattern)) = first_char(attempt.pattern) else {
        return match first_char(attempt.text) {
            None => Turn::Done(true),
            Some(_) => go_back(attempt),
        };
    };
    let text = attempt.text;
    if unit == '*' {
        let back = Some(Back { pattern, text });
        return Turn::Next(Attempt {
            pattern,
            text,
            back,
        });
    }
    let Some((character, rest)) = first_char(text) else {
        return go_back(attempt);
    };
    if !fits(unit, character) {
        return go_back(attempt);
    }
    Turn::Next(Attempt {
        pattern,
        text: rest,
        back: attempt.back,
    })
}

/// Whether the part of a pattern matches the part of a path: `*` any run of characters, `?` one, and
/// any other character itself. It takes no memory, and at most as many turns as the product of both
/// lengths.
pub fn matches_part(pattern: &str, text: &str) -> bool
    ensures { result ≡ part_matches (chars pattern.now) (chars text.now) }
{
    let mut attempt = Attempt {
        pattern,
        text,
        back: None,
    };
    loop {
        match go_on(attempt) {
            Turn::Next(next) => attempt = next,
            Turn::Done(answer) => return answer,
        }
    }
}
