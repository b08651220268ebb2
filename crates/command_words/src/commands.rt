// The command that words ask for.
ghost use Rattle.std.specs.Prelude.{◌≡◌, ◌<◌, IfOk, IfSome, List, ℕ, length, map};
ghost use Rattle.std.specs.List.{All};
ghost use Rattle.std.specs.Option.{option_map};
ghost use Rattle.std.specs.Str.{chars};
ghost use Rattle.command_words.specs.Words.{word, command_of, command_with, taken as taken_words, transform_options, transform_of, lint_options, lint_of, options_of as asked_options, if_given, or_none, picked_by, number as number_of, most_budget};
ghost use Rattle.command_words.specs.CommandSeen.{command_seen, options_seen, Picks};
ghost use Rattle.command_words.specs.GivenSeen.{all_seen};

use crate::numbers::number;
use crate::options::{Given, OptionName, fits, is_same, taken_from, value_of};
use crate::picked::picked;
use css_text::txt::Txt;
use std::alloc::{AllocError, Global};

/// The most calls and edits that a budget can allow, whether it is given or not.
pub const MOST_BUDGET: u64 = 20_000_000;

/// The options of `transform`, and how many plain words it takes.
const TRANSFORM_OPTIONS: [OptionName; 4] = [
    OptionName::Use,
    OptionName::Budget,
    OptionName::EditBudget,
    OptionName::Trace,
];

const TRANSFORM_PLAIN: usize = 0;

/// Those of `lint`.
const LINT_OPTIONS: [OptionName; 0] = [];

const LINT_PLAIN: usize = 0;

/// What the options of `transform` ask for.
#[derive(Drop)]
pub struct Options {
    /// The places of the plugins to walk with, in the list of the names of all plugins.
    pub picked: Vec<usize>,
    /// How many calls are allowed, where that is given.
    pub budget: Option<u64>,
    /// How many edits are allowed, where that is given.
    pub edit_budget: Option<u64>,
    /// The walk's log is written.
    pub trace: bool,
}

/// What the program can be asked to do.
#[derive(Drop)]
pub enum Command {
    /// Read a sheet, walk the plugins over it, and print it.
    Transform(Options),
    /// Read a sheet, and report on it.
    Lint,
}

/// The places that the names of `--use` pick; none where it isn't given.
fn picks(
    alloc: Global,
    names: &[Txt],
    given: Option<&str>,
) -> Result<Option<Vec<usize>>, AllocError>
    ensures is { IfOk result (λ r. option_map (λ v. v.items) r ≡ option_map or_none (if_given (picked_by names.now) (option_map (λ s. chars s.now) given.entry))) }
    ensures places { IfOk result (λ r. IfSome r (λ v. All (λ place. place < length names.now) v.items)) }
{
    match given {
        Some(text) => picked(alloc, names, text),
        None => Ok(Some(Vec::new(alloc))),
    }
}

/// A budget, where it is given.
fn budget_in(text: Option<&str>) -> Option<Option<u64>>
    ensures { result ≡ if_given (number_of most_budget) (option_map (λ s. chars s.now) text.entry) }
{
    match text {
        Some(text) => Some(Some(number(text, MOST_BUDGET)?)),
        None => Some(None),
    }
}

fn options_of(alloc: Global, given: &[Given], names: &[Txt]) -> Result<Option<Options>, AllocError>
    ensures is { IfOk result (λ o. option_map options_seen o ≡ asked_options names.now (all_seen given.now)) }
    ensures places { IfOk result (λ o. IfSome o (λ x. All (λ place. place < length names.now) x.picked.items)) }
{
    let Some(picked) = picks(alloc, names, value_of(OptionName::Use, given))? else {
        return Ok(None);
    };
    let budget = budget_in(value_of(OptionName::Budget, given));
    let edit_budget = budget_in(value_of(OptionName::EditBudget, given));
    let (Some(budget), Some(edit_budget)) = (budget, edit_budget) else {
        return Ok(None);
    };
    let trace = value_of(OptionName::Trace, given).is_some();
    Ok(Some(Options {
        picked,
        budget,
        edit_budget,
        trace,
    }))
}

fn transform_command(
    alloc: Global,
    words: &[String],
    names: &[Txt],
) -> Result<Option<Command>, AllocError>
    ensures is { IfOk result (λ c. option_map command_seen c ≡ transform_of names.now (taken_words transform_options (map word words.now))) }
    ensures places { IfOk result (λ c. IfSome c (Picks (length names.now))) }
{
    let Some(taken) = taken_from(alloc, &TRANSFORM_OPTIONS, words)? else {
        return Ok(None);
    };
    if !fits(&TRANSFORM_OPTIONS, TRANSFORM_PLAIN, &taken) {
        return Ok(None);
    }
    match options_of(alloc, taken.options.as_slice(), names)? {
        Some(options) => Ok(Some(Command::Transform(options))),
        None => Ok(None),
    }
}

fn lint_command(alloc: Global, words: &[String]) -> Result<Option<Command>, AllocError>
    ensures is { IfOk result (λ c. option_map command_seen c ≡ lint_of (taken_words lint_options (map word words.now))) }
    ensures places { IfOk result (λ c. (total : ℕ) → IfSome c (Picks total)) }
{
    match taken_from(alloc, &LINT_OPTIONS, words)? {
        Some(taken) if fits(&LINT_OPTIONS, LINT_PLAIN, &taken) => Ok(Some(Command::Lint)),
        _ => Ok(None),
    }
}

fn command_named(
    alloc: Global,
    name: &str,
    words: &[String],
    names: &[Txt],
) -> Result<Option<Command>, AllocError>
    ensures is { IfOk result (λ c. option_map command_seen c ≡ command_with names.now (chars name.now) (map word words.now)) }
    ensures places { IfOk result (λ c. IfSome c (Picks (length names.now))) }
{
    if is_same(name, "transform") {
        transform_command(alloc, words, names)
    } else if is_same(name, "lint") {
        lint_command(alloc, words)
    } else {
        Ok(None)
    }
}

/// The command that the words ask for, where the plugins have these names; `None` for an unknown
/// command or a wrong option. The words are the program's without its own name.
///
/// The first word names the command. Of the words behind it, `--` ends the options, and each later
/// one is a plain word; before it, one that begins with `-` is an option, each at most once: `--name`
/// for a flag, `--name value` or `--name=value` for one with a value. A value, and a plain word,
/// isn't empty and doesn't begin with `-`. Neither command takes a plain word, and `lint` no option. A
/// number has one to ten digits and is at most `MOST_BUDGET`. Names stand between
/// commas, each the name of a plugin, none twice; of two plugins with one name the first is picked.
///
/// # Errors
///
/// Only when out of memory.
#[tactic(auto, unfolding(crate::specs::Words::command_of))]
pub fn command_of(
    alloc: Global,
    words: &[String],
    names: &[Txt],
) -> Result<Option<Command>, AllocError>
    ensures is { IfOk result (λ c. option_map command_seen c ≡ command_of names.now (map word words.now)) }
    ensures places { IfOk result (λ c. IfSome c (Picks (length names.now))) }
{
    let Some((name, rest)) = words.split_first() else {
        return Ok(None);
    };
    command_named(alloc, name.as_str(), rest, names)
}
