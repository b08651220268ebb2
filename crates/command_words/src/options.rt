// The options and the plain words that words give.
ghost use Rattle.std.specs.Prelude.{◌≡◌, ◌∷◌, [], ℕ, ◌≤◌, ◌&&◌, map, length, nat_le, IfSome, IfOk, MatchOption, Some, None, false};
ghost use Rattle.std.specs.List.{list_all};
ghost use Rattle.std.specs.Option.{option_map};
ghost use Rattle.std.specs.Str.{chars};
ghost use Rattle.css_tree.specs.Changes.{same_text};
ghost use Rattle.command_words.specs.Words.{word, written as is_written, takes_value as takes, option_in as option_named, is_value as fits_value, is_end as ends_options, valued as valued_option, flagged as flag, joined as joined_option, cut, alone as alone_item, and_item, all_plain, taken as taken_words, behind, is_of as names_option, value_of as value_given, is_once as once, fits as fits_command};
ghost use Rattle.command_words.specs.GivenSeen.{given_seen, all_seen, item_seen, taken_seen};

use std::alloc::{AllocError, Global};

/// The options of the commands.
#[derive(Clone, Copy, PartialEq, Eq, Debug)]
pub enum OptionName {
    /// `--use NAMES`: the plugins to walk with.
    Use,
    /// `--budget N`: how many calls are allowed.
    Budget,
    /// `--edit-budget N`: how many edits are allowed.
    EditBudget,
    /// `--trace`: the walk's log is written.
    Trace,
}

/// An option as the words give it. A flag has the empty value.
#[derive(Clone, Copy)]
pub(crate) struct Given<'w> {
    pub(crate) name: OptionName,
    pub(crate) value: &'w str,
}

/// An option, or a plain word.
#[derive(Clone, Copy)]
enum Item<'w> {
    Optional(Given<'w>),
    Plain(&'w str),
}

/// What words give: the options and the plain words, each in their order.
#[derive(Drop)]
pub(crate) struct Taken<'w> {
    pub(crate) options: Vec<Given<'w>>,
    pub(crate) plain: Vec<&'w str>,
}

/// Both words have the same characters.
pub(crate) fn is_same(a: &str, b: &str) -> bool
    ensures { result ≡ same_text (chars a.now) (chars b.now) }
{
    a == b
}

fn written(name: OptionName) -> &'static str
    ensures { chars result.now ≡ is_written name }
{
    match name {
        OptionName::Use => "--use",
        OptionName::Budget => "--budget",
        OptionName::EditBudget => "--edit-budget",
        OptionName::Trace => "--trace",
    }
}

/// The option of these that is written so.
fn option_in(known: &[OptionName], word: &str) -> Option<OptionName>
    ensures { result ≡ option_named known.now (chars word.now) }
{
    for name in known {
        if is_same(word, written(*name)) {
            return Some(*name);
        }
    }
    None
}

fn takes_value(name: OptionName) -> bool
    ensures { result ≡ takes name }
{
    match name {
        OptionName::Trace => false,
        _ => true,
    }
}

fn is_value(text: &str) -> bool
    ensures { result ≡ fits_value (chars text.now) }
{
    match text.chars().next() {
        Some(first) => first != '-',
        None => false,
    }
}

/// `--`, which ends the options.
fn is_end(word: &str) -> bool
    ensures { result ≡ ends_options (chars word.now) }
{
    is_same(word, "--")
}

fn valued<'w>(name: OptionName, value: &'w str) -> Option<Item<'w>>
    ensures { option_map item_seen result ≡ valued_option (Some name) (chars value.now) }
{
    if takes_value(name) && is_value(value) {
        Some(Item::Optional(Given { name, value }))
    } else {
        None
    }
}

fn flagged<'w>(name: OptionName) -> Option<Item<'w>>
    ensures { option_map item_seen result ≡ flag name }
{
    if takes_value(name) {
        None
    } else {
        Some(Item::Optional(Given { name, value: "" }))
    }
}

/// The word before its first `=`, and what follows that.
fn cut_word(word: &str) -> Option<(&str, &str)>
    ensures { option_map (λ x. (chars x.0.now, chars x.1.now)) result ≡ cut (chars word.now) }
{
    word.split_once('=')
}

fn joined<'w>(known: &[OptionName], word: &'w str) -> Option<Item<'w>>
    ensures { option_map item_seen result ≡ joined_option known.now (cut (chars word.now)) }
{
    let (name, value) = cut_word(word)?;
    valued(option_in(known, name)?, value)
}

fn alone<'w>(known: &[OptionName], word: &'w str) -> Option<Item<'w>>
    ensures { option_map item_seen result ≡ alone_item known.now (chars word.now) }
{
    if is_value(word) {
        return Some(Item::Plain(word));
    }
    match option_in(known, word) {
        Some(name) => flagged(name),
        None => joined(known, word),
    }
}

/// What the first of words gives, which isn't `--`, and the words after it.
fn first_item<'w>(
    known: &[OptionName],
    first: &'w str,
    rest: &'w [String],
) -> Option<(Item<'w>, &'w [String])>
    requires { ends_options (chars first.now) ≡ false }
    ensures item { MatchOption result (taken_words known.now (chars first.now ∷ map word rest.now) ≡ None) (λ x. taken_words known.now (chars first.now ∷ map word rest.now) ≡ and_item (Some (item_seen x.0)) (taken_words known.now (map word x.1.now))) }
    ensures shorter { IfSome result (λ x. length x.1.now ≤ length rest.now) }
{
    match (option_in(known, first), rest.split_first()) {
        (Some(name), Some((value, after))) if takes_value(name) => {
            Some((valued(name, value.as_str())?, after))
        }
        _ => Some((alone(known, first)?, rest)),
    }
}

/// Puts words behind `--`, unless one of them is no plain word.
fn take_plain<'w>(
    mut taken: Taken<'w>,
    words: &'w [String],
) -> Result<Option<Taken<'w>>, AllocError>
    ensures { IfOk result (λ r. option_map taken_seen r ≡ behind (taken_seen taken.entry) (all_plain (map word words.now))) }
{
    for word in words {
        if !is_value(word.as_str()) {
            return Ok(None);
        }
        taken.plain.push(word.as_str())?;
    }
    Ok(Some(taken))
}

/// What the words give to a command with these options. It fails only when out of memory.
pub(crate) fn taken_from<'w>(
    alloc: Global,
    known: &[OptionName],
    words: &'w [String],
) -> Result<Option<Taken<'w>>, AllocError>
    ensures { IfOk result (λ r. option_map taken_seen r ≡ taken_words known.now (map word words.now)) }
{
    let mut taken = Taken {
        options: Vec::new(alloc),
        plain: Vec::new(alloc),
    };
    let mut left = words;
    while let Some((word, rest)) = left.split_first() {
        if is_end(word.as_str()) {
            return take_plain(taken, rest);
        }
        let Some((item, after)) = first_item(known, word.as_str(), rest) else {
            return Ok(None);
        };
        match item {
            Item::Optional(given) => taken.options.push(given)?,
            Item::Plain(plain) => taken.plain.push(plain)?,
        }
        left = after;
    }
    Ok(Some(taken))
}

fn is_of(name: OptionName, given: &Given) -> bool
    ensures { result ≡ names_option name (given_seen given.now) }
{
    given.name == name
}

fn is_once(given: &[Given], name: OptionName) -> bool
    ensures { result ≡ once (all_seen given.now) name }
{
    given.iter().filter(|option| is_of(name, option)).count() <= 1
}

/// Each of these options stands at most once.
fn are_once(known: &[OptionName], given: &[Given]) -> bool
    ensures { result ≡ list_all (once (all_seen given.now)) known.now }
{
    known.iter().all(|name| is_once(given, *name))
}

/// Each of a command's options stands at most once, and it has no more plain words than it takes.
pub(crate) fn fits(known: &[OptionName], most: usize, taken: &Taken) -> bool
    ensures { result ≡ fits_command known.now most (taken_seen taken.now) }
{
    are_once(known, taken.options.as_slice()) && taken.plain.len() <= most
}

/// The value of an option, where it is given.
pub(crate) fn value_of<'w>(name: OptionName, given: &[Given<'w>]) -> Option<&'w str>
    ensures { option_map (λ s. chars s.now) result ≡ value_given name (all_seen given.now) }
{
    for option in given {
        if is_of(name, option) {
            return Some(option.value);
        }
    }
    None
}
