// The first stage of a run: all that it reads, and the walk.
ghost use Rattle.std.specs.Prelude.{◌≡◌, ◌<◌, ◌≤◌, IfOk, map, length, vec_len};
ghost use Rattle.visitor_walk.specs.Groups.{AreFew};
ghost use Rattle.command_words.specs.Words.{word};
ghost use Rattle.command_words.specs.CommandSeen.{command_seen, Picks};
ghost use Rattle.css_job.specs.ShelfSeen.{seen_by};
ghost use Rattle.css_job.specs.Plan.{limit};
ghost use Rattle.css_job.specs.Stated.{asked};
ghost use Rattle.css_job.specs.Stages.{PlansInput, Prepares};

use crate::asked::asked_command;
use crate::command::text_plan_of;
use crate::fault::Fault;
use crate::input::{large_input, unread_input, wrong_input};
use crate::plan::stop;
use crate::prepared::{Prepared, unwalked};
use command_words::commands::Command;
use css_text::stop::Stop;
use css_text::text::Text;
use io_edge::edge::{ReadStop, Source};
use io_edge::whole::read_all;
use plugin_api::plugin::Plugin;
use plugin_api::visitor::Visitor;
use std::alloc::{AllocError, Global};

/// The most bytes of an input.
const MOST_INPUT: usize = 8_388_608;

/// What a command does with an input of at most `MOST_INPUT` bytes.
fn input_plan_of(
    alloc: Global,
    command: Command,
    bytes: Vec<u8>,
    shelf: &mut Vec<Plugin>,
) -> Result<Prepared, AllocError>
    requires short { length bytes.items ≤ limit }
    requires places { Picks (length shelf.old.items) command }
    requires plugins { vec_len shelf.old < 4294967296 }
    requires hooks { AreFew shelf.old.items }
    ensures { PlansInput (command_seen command) (seen_by ⟦<dyn Visitor as Visitor>⟧ shelf.old.items) (seen_by ⟦<dyn Visitor as Visitor>⟧ shelf.new.items) bytes.items result }
{
    match Text::new(alloc, bytes) {
        Ok(text) => text_plan_of(alloc, command, text, shelf),
        Err(Stop::Fault(fault)) => {
            let plan = wrong_input(alloc, fault)?;
            Ok(unwalked(alloc, plan))
        }
        Err(Stop::Memory(error)) => Err(error),
    }
}

/// Reads what the words ask for, walks the plugins over it, and says what is to be done.
pub fn prepare<S: Source>(
    alloc: Global,
    words: &[String],
    input: &mut S,
    shelf: &mut Vec<Plugin>,
) -> Result<Prepared, AllocError>
    requires plugins { vec_len shelf.old < 4294967296 }
    requires hooks { AreFew shelf.old.items }
    ensures { Prepares (asked (map word words.now) (seen_by ⟦<dyn Visitor as Visitor>⟧ shelf.old.items)) (seen_by ⟦<dyn Visitor as Visitor>⟧ shelf.new.items) (S.left input.old) (S.left input.new) (S.faults input.old)
        (S.faults input.new) result }
{
    let command = match asked_command(alloc, words, shelf) {
        Ok(Some(command)) => command,
        Ok(None) => {
            let plan = stop(alloc, Fault::Usage, 64)?;
            return Ok(unwalked(alloc, plan));
        }
        Err(error) => return Err(error),
    };
    match read_all(alloc, input, MOST_INPUT) {
        Ok(bytes) => input_plan_of(alloc, command, bytes, shelf),
        Err(ReadStop::ReadFault) => {
            let plan = unread_input(alloc)?;
            Ok(unwalked(alloc, plan))
        }
        Err(ReadStop::TooLarge) => {
            let plan = large_input(alloc)?;
            Ok(unwalked(alloc, plan))
        }
        Err(ReadStop::Memory(error)) => Err(error),
    }
}
