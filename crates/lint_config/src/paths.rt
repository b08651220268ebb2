// Patterns of file names.
ghost use Rattle.std.specs.Prelude.{◌≡◌, ◌∷◌, [], ℕ, MatchOption, IfSome};
ghost use Rattle.std.specs.Str.{chars, IsUtf8};
ghost use Rattle.std.specs.List.{list_any};
ghost use Rattle.lint_config.specs.Glob.{part_matches, parts_match, parts, is_any_parts, is_slash, last_of, without_here, glob_of};
ghost use Rattle.lint_config.specs.Trial.{Fails};
ghost use Rattle.lint_config.specs.Paths.{parts_left, path_trial, PathTurn};

use crate::characters::{first_char, matches_part};

/// What was left after the last `**` of the pattern, and of the path there.
#[derive(Clone, Copy)]
struct Back<'p, 't> {
    pattern: Option<&'p str>,
    path: Option<&'t str>,
}

/// What is left of a pattern and of a path.
#[derive(Clone, Copy)]
struct Attempt<'p, 't> {
    pattern: Option<&'p str>,
    path: Option<&'t str>,
    back: Option<Back<'p, 't>>,
}

enum Turn<'p, 't> {
    Next(Attempt<'p, 't>),
    Done(bool),
}

/// The first part of a text, and what follows its slash.
fn split(text: &str) -> (&str, Option<&str>)
    ensures parts { parts (chars text.now) ≡ chars result.0.now ∷ parts_left result.1 }
    ensures utf8 { IfSome result.1 (λ s. IsUtf8 s.now) }
{
    match text.split_once('/') {
        Some((part, rest)) => (part, Some(rest)),
        None => (text, None),
    }
}

fn first_part(left: Option<&str>) -> Option<(&str, Option<&str>)>
    ensures { MatchOption result (parts_left left.entry ≡ []) (λ x. parts_left left.entry ≡ chars x.0.now ∷ parts_left x.1) }
{
    match left {
        Some(text) => Some(split(text)),
        None => None,
    }
}

/// Whether a part of a pattern stands for any number of parts.
fn is_double_star(part: &str) -> bool
    ensures { result ≡ is_any_parts (chars part.now) }
{
    part == "**"
}

/// Goes back to the last `**`, which takes one part more.
fn go_back<'p, 't>(attempt: Attempt<'p, 't>) -> Turn<'p, 't>
    requires { Fails is_any_parts part_matches (path_trial attempt) }
    ensures { PathTurn attempt.entry result }
{
    let Some(back) = attempt.back else {
        return Turn::Done(false);
    };
    let pattern = back.pattern;
    match first_part(back.path) {
        None => Turn::Done(false),
        Some((_, path)) => Turn::Next(Attempt {
            pattern,
            path,
            back: Some(Back { pattern, path }),
        }),
    }
}

fn go_on<'p, 't>(attempt: Attempt<'p, 't>) -> Turn<'p, 't>
    ensures { PathTurn attempt.entry result }
{
    let path = attempt.path;
    let Some((unit, pattern)) = first_part(attempt.pattern) else {
        return match first_part(path) {
            None => Turn::Done(true),
            Some(_) => go_back(attempt),
        };
    };
    if is_double_star(unit) {
        let back = Some(Back { pattern, path });
        return Turn::Next(Attempt {
            pattern,
            path,
            back,
        });
    }
    let Some((part, rest)) = first_part(path) else {
        return go_back(attempt);
    };
    if !matches_part(unit, part) {
        return go_back(attempt);
    }
    Turn::Next(Attempt {
        pattern,
        path: rest,
        back: attempt.back,
    })
}

/// Whether the parts of a pattern match the parts of a path.
fn matches_parts(pattern: &str, path: &str) -> bool
    ensures { result ≡ parts_match (parts (chars pattern.now)) (parts (chars path.now)) }
{
    let mut attempt = Attempt {
        pattern: Some(pattern),
        path: Some(path),
        back: None,
    };
    loop {
        match go_on(attempt) {
            Turn::Next(next) => attempt = next,
            Turn::Done(answer) => return answer,
        }
    }
}

/// The text after the last slash.
fn last_part(path: &str) -> &str
    ensures { chars result.now ≡ last_of (parts (chars path.now)) }
{
    let mut left = path;
    loop {
        let (part, rest) = split(left);
        match rest {
            Some(after) => left = after,
            None => return part,
        }
    }
}

fn without_front(path: &str) -> &str
    ensures { chars result.now ≡ without_here (chars path.now) }
{
    match first_char(path) {
        Some(('.', rest)) => match first_char(rest) {
            Some(('/', after)) => after,
            _ => path,
        },
        _ => path,
    }
}

fn has_slash(text: &str) -> bool
    ensures { result ≡ list_any is_slash (chars text.now) }
{
    text.contains('/')
}

/// Whether a pattern matches a path, in csswork's own reading of the patterns that shells know.
///
/// One leading `./` of the path is dropped. A pattern without `/` is matched with what follows the last
/// `/` of the path. Otherwise both are split at each `/` and matched part by part: the part `**` matches
/// any number of parts, none included, and in any other part `*` matches any run of characters and `?`
/// one character. The whole path must match, and case counts.
///
/// It takes no memory, and no pattern makes it exponential. A part of m characters and a part of the path
/// of n characters are compared in at most about m * n turns, since only the last `*` is gone back to; in
/// the same way a pattern of p parts and a path of q parts are compared in at most about p * q such
/// comparisons, since only the last `**` is gone back to.
pub fn glob(pattern: &str, path: &str) -> bool
    ensures { result ≡ glob_of (chars pattern.now) (chars path.now) }
{
    let path = without_front(path);
    if has_slash(pattern) {
        matches_parts(pattern, path)
    } else {
        matches_part(pattern, last_part(path))
    }
}
