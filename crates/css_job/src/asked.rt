// What the words ask for, where the plugins are those of a shelf.
ghost use Rattle.std.specs.Prelude.{◌≡◌, IfOk, IfSome, length, map};
ghost use Rattle.std.specs.Option.{option_map};
ghost use Rattle.command_words.specs.Words.{word, command_of};
ghost use Rattle.command_words.specs.CommandSeen.{command_seen, Picks};
ghost use Rattle.css_job.specs.ShelfSeen.{shelf_names};

use command_words::commands::{Command, command_of};
use css_text::txt::Txt;
use plugin_api::plugin::Plugin;
use std::alloc::{AllocError, Global};

/// The names of the plugins on a shelf, whose strings they share.
fn names_on(alloc: Global, shelf: &Vec<Plugin>) -> Result<Vec<Txt>, AllocError>
    ensures { IfOk result (λ names. names.items ≡ shelf_names shelf.now.items) }
{
    let mut names = Vec::new(alloc);
    for plugin in shelf {
        names.push(plugin.name.share()?)?;
    }
    Ok(names)
}

/// The command that the words ask for; `None` for an unknown command or a wrong option.
///
/// # Errors
///
/// Only when out of memory.
pub(crate) fn asked_command(
    alloc: Global,
    words: &[String],
    shelf: &Vec<Plugin>,
) -> Result<Option<Command>, AllocError>
    ensures is { IfOk result (λ c. option_map command_seen c ≡ command_of (shelf_names shelf.now.items) (map word words.now)) }
    ensures places { IfOk result (λ c. IfSome c (Picks (length shelf.now.items))) }
{
    let names = names_on(alloc, shelf)?;
    command_of(alloc, words, names.as_slice())
}
