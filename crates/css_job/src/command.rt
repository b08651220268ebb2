// The table of the commands: what each does with the text of the standard input.
ghost use Rattle.std.specs.Prelude.{◌≡◌, ◌<◌, ◌^◌, ℕ, List, [], IfOk, Err, length, vec_len};
ghost use Rattle.css_text.specs.Ahead.{byte_len};
ghost use Rattle.node_store.specs.Fresh.{IsFresh};
ghost use Rattle.visitor_walk.specs.Groups.{AreFew};
ghost use Rattle.command_words.specs.CommandSeen.{command_seen, Picks};
ghost use Rattle.css_job.specs.ShelfSeen.{seen_by};
ghost use Rattle.css_job.specs.TransformPlan.{Reached};
ghost use Rattle.css_job.specs.CommandPlan.{text_plan};
ghost use Rattle.css_job.specs.Stages.{stage_seen, Planned};

use crate::input::faulty_input;
use crate::lint::empty_blocks::empty_block_warnings;
use crate::lint::report_plan;
use crate::lint::warning::Warning;
use crate::prepared::{Prepared, unwalked};
use crate::transform::walk_sheet;
use command_words::commands::Command;
use css_parse::parse::parse;
use css_text::stop::Stop;
use css_text::text::Text;
use css_tree::fault::SyntaxFault;
use node_store::work::Work;
use plugin_api::plugin::Plugin;
use plugin_api::visitor::Visitor;
use std::alloc::{AllocError, Global};

/// What a command does with a sheet that was just read. Each command is a line here.
fn read_plan(
    alloc: Global,
    command: Command,
    work: Work,
    shelf: &mut Vec<Plugin>,
) -> Result<Prepared, AllocError>
    requires few { byte_len work.text < 2 ^ 32 }
    requires fresh { IsFresh work }
    requires places { Picks (length shelf.old.items) command }
    requires plugins { vec_len shelf.old < 4294967296 }
    requires hooks { AreFew shelf.old.items }
    ensures { Planned (command_seen command) (seen_by ⟦<dyn Visitor as Visitor>⟧ shelf.old.items) (seen_by ⟦<dyn Visitor as Visitor>⟧ shelf.new.items) work.text result }
{
    work.facts();
    match command {
        Command::Transform(options) => walk_sheet(alloc, options, work, shelf),
        Command::Lint => {
            let warnings = empty_block_warnings(alloc, &work)?;
            report_plan(alloc, &warnings)
        }
    }
}

/// What a command does with a text that can't be read as a sheet.
fn unread_plan(alloc: Global, command: Command, fault: SyntaxFault) -> Result<Prepared, AllocError>
    ensures { IfOk result (λ p. (names : List (List ℕ)) (s : List ℕ) (r : Reached) → stage_seen p ≡ record { plan = text_plan (command_seen command) names s (Err fault) r; log = []; work = None }) }
{
    match command {
        Command::Transform(_) => {
            let plan = faulty_input(alloc, fault)?;
            Ok(unwalked(alloc, plan))
        }
        Command::Lint => report_plan(alloc, [Warning::syntax(fault)].as_slice()),
    }
}

/// What a command does with the text of the standard input.
///
/// # Errors
///
/// Only when out of memory.
pub fn text_plan_of(
    alloc: Global,
    command: Command,
    text: Text,
    shelf: &mut Vec<Plugin>,
) -> Result<Prepared, AllocError>
    requires few { byte_len text < 2 ^ 32 }
    requires places { Picks (length shelf.old.items) command }
    requires plugins { vec_len shelf.old < 4294967296 }
    requires hooks { AreFew shelf.old.items }
    ensures { Planned (command_seen command) (seen_by ⟦<dyn Visitor as Visitor>⟧ shelf.old.items) (seen_by ⟦<dyn Visitor as Visitor>⟧ shelf.new.items) text result }
{
    match parse(alloc, text) {
        Ok(work) => read_plan(alloc, command, work, shelf),
        Err(Stop::Fault(fault)) => unread_plan(alloc, command, fault),
        Err(Stop::Memory(error)) => Err(error),
    }
}
