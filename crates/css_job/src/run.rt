// The top call: a run of the program over an input, a folder, two sinks and a shelf of plugins.
ghost use Rattle.std.specs.Prelude.{◌<◌, IfOk, OnErr, map, vec_len};
ghost use Rattle.visitor_walk.specs.Groups.{AreFew};
ghost use Rattle.command_words.specs.Words.{word};
ghost use Rattle.css_job.specs.ShelfSeen.{seen_by};
ghost use Rattle.css_job.specs.Outside.{snapshot};
ghost use Rattle.css_job.specs.Stated.{asked};
ghost use Rattle.css_job.specs.Promises.{Promises, OutOfMemory};

use crate::carry_out::{Settled, carry_out};
use crate::fault::Fault;
use crate::prepare::prepare;
use crate::prepared::Prepared;
use io_edge::edge::{Folder, Sink, Source};
use node_store::item::Item;
use node_store::work::Work;
use plugin_api::plugin::Plugin;
use plugin_api::visitor::Visitor;
use std::alloc::{AllocError, Global};

/// How a run ended.
#[derive(Drop)]
pub struct Ended {
    /// The exit status of the program.
    pub status: u8,
    /// Why it stopped, if it did.
    pub fault: Option<Fault>,
    /// The log of the walk; empty where there was none.
    pub log: Vec<Item>,
    /// The work after the walk.
    pub work: Option<Work>,
}

/// Runs the command that the words ask for, over an input, a folder, an output, a sink for reports,
/// traces and faults, and a shelf of plugins. The words are the program's without its own name. No
/// command names a file, so the folder stays as it was.
///
/// All is read and walked before anything is written. A failed write ends the writes, but for the
/// line of the fault, which goes to `err` last; where `err` itself has failed, that line isn't tried.
/// Where the line fails, the status and the fault stay. The statuses are those of `sysexits.h`
/// for a wrong use (64), and otherwise 0, 1 for a fault and 2 for warnings, as stylelint has them.
///
/// # Errors
///
/// Only when out of memory. Each sink has taken a front of its text then, and input already read is
/// lost.
pub fn run<S: Source, F: Folder, O: Sink, E: Sink>(
    alloc: Global,
    words: &[String],
    input: &mut S,
    files: &mut F,
    out: &mut O,
    err: &mut E,
    shelf: &mut Vec<Plugin>,
) -> Result<Ended, AllocError>
    requires plugins { vec_len shelf.old < 4294967296 }
    requires hooks { AreFew shelf.old.items }
    ensures promised { IfOk result (Promises (asked (map word words.now) (seen_by ⟦<dyn Visitor as Visitor>⟧ shelf.old.items)) (seen_by ⟦<dyn Visitor as Visitor>⟧ shelf.new.items)
        (snapshot S.Source F.Folder O.Sink E.Sink input.old files.old out.old err.old)
        (snapshot S.Source F.Folder O.Sink E.Sink input.new files.new out.new err.new)) }
    ensures memory { OnErr result (OutOfMemory (asked (map word words.now) (seen_by ⟦<dyn Visitor as Visitor>⟧ shelf.old.items)) (seen_by ⟦<dyn Visitor as Visitor>⟧ shelf.new.items)
        (snapshot S.Source F.Folder O.Sink E.Sink input.old files.old out.old err.old)
        (snapshot S.Source F.Folder O.Sink E.Sink input.new files.new out.new err.new)) }
{
    let Prepared { plan, log, work } = match prepare(alloc, words, input, shelf) {
        Ok(prepared) => prepared,
        Err(error) => return Err(error),
    };
    match carry_out(alloc, plan, out, err) {
        Ok(Settled { status, fault }) => Ok(Ended {
            status,
            fault,
            log,
            work,
        }),
        Err(error) => Err(error),
    }
}
