// `transform`: the walk of the picked plugins over a sheet, and what is written after it.
ghost use Rattle.std.specs.Prelude.{◌≡◌, ◌<◌, ◌^◌, ◌↔◌, ◌++◌, IfOk, IsTrue, length, map, vec_len};
ghost use Rattle.std.specs.List.{All};
ghost use Rattle.css_text.specs.Ahead.{byte_len};
ghost use Rattle.css_tree.specs.Tree.{Tree};
ghost use Rattle.css_tree.specs.Print.{print};
ghost use Rattle.css_tree.specs.Numbered.{numbered};
ghost use Rattle.node_store.specs.Forest.{tree_of};
ghost use Rattle.node_store.specs.Fresh.{IsFresh};
ghost use Rattle.visitor_machine.specs.Calls.{IsQuiet};
ghost use Rattle.visitor_walk.specs.Groups.{AreFew};
ghost use Rattle.command_words.specs.Words.{Transform};
ghost use Rattle.command_words.specs.CommandSeen.{options_seen};
ghost use Rattle.css_job.specs.ShelfSeen.{seen_by, shelf_names};
ghost use Rattle.css_job.specs.TransformPlan.{budget_for, fault_of, traced, printed, walk_plan};
ghost use Rattle.css_job.specs.Stages.{piece_of, plan_seen, Planned};
ghost use Rattle.css_job.specs.Walked.{KeepsText};

pub(crate) mod item_names;
mod trace;
pub mod trace_laws;
#[cfg(test)]
mod trace_tests;

use crate::fault::Fault;
use crate::plan::{Plan, Write};
use crate::prepared::Prepared;
use crate::target::Target;
use command_words::commands::{MOST_BUDGET, Options};
use css_text::txt::Txt;
use node_store::item::Item;
use node_store::work::Work;
use plugin_api::plugin::Plugin;
use plugin_api::visitor::Visitor;
use std::alloc::{AllocError, Global};
use stringify::printed::print;
use visitor_walk::walk::walk;
use visitor_walk::walk_end::WalkEnd;

/// A budget, for a sheet of so many nodes.
fn budget_for(given: Option<u64>, nodes: u32) -> u64
    ensures { (t : Tree) → nodes ≡ length (numbered t) → result ≡ budget_for given t }
{
    match given {
        Some(budget) => budget,
        None => MOST_BUDGET.min(1000 + 40 * nodes as u64),
    }
}

/// Why a walk isn't done.
fn fault_of(end: WalkEnd, budget: u64) -> Option<Fault>
    ensures { result ≡ fault_of end budget }
{
    match end {
        WalkEnd::Done => None,
        WalkEnd::Failed { text, moment } => Some(Fault::PluginFailed { text, moment }),
        WalkEnd::BudgetSpent { calls, next } => Some(Fault::BudgetSpent { calls, next }),
        WalkEnd::EditBudgetSpent { edits, at } => {
            Some(Fault::EditBudgetSpent { edits, budget, at })
        }
    }
}

/// Whether nothing was edited.
fn is_quiet(log: &[Item]) -> bool
    ensures { IsTrue result ↔ IsQuiet log.now }
{
    for item in log {
        if let Item::Edit(_) = item {
            return false;
        }
    }
    true
}

/// The tree's text. Where nothing was edited it is the text that was read, whose string it shares.
fn tree_text(alloc: Global, log: &[Item], work: &Work) -> Result<Txt, AllocError>
    requires { KeepsText log.now work.now }
    ensures { IfOk result (λ text. text ≡ print (tree_of work.now)) }
{
    if is_quiet(log) {
        return work.text().as_txt().share();
    }
    let printed = print(alloc, work)?;
    Ok(printed.text)
}

/// What is written after a walk: its trace, and the tree's text where it is done.
fn walk_writes(
    alloc: Global,
    shelf: &Vec<Plugin>,
    is_traced: bool,
    log: &[Item],
    end: &WalkEnd,
    work: &Work,
) -> Result<Vec<Write>, AllocError>
    requires { KeepsText log.now work.now }
    ensures { IfOk result (λ writes. map piece_of writes.items ≡ traced is_traced (shelf_names shelf.now.items) log.now ++ printed end.now work.now.nodes) }
{
    let mut writes = Vec::new(alloc);
    if is_traced {
        let text = Txt::from_string(alloc, trace::trace(alloc, shelf, log)?)?;
        writes.push(Write {
            to: Target::StdErr,
            text,
        })?;
    }
    if let WalkEnd::Done = end {
        let printed = tree_text(alloc, log, work)?;
        writes.push(Write {
            to: Target::StdOut,
            text: printed,
        })?;
    }
    Ok(writes)
}

/// The plan after a walk.
fn walk_plan(
    alloc: Global,
    shelf: &Vec<Plugin>,
    is_traced: bool,
    log: &[Item],
    end: WalkEnd,
    edit_budget: u64,
    work: &Work,
) -> Result<Plan, AllocError>
    requires { KeepsText log.now work.now }
    ensures { IfOk result (λ plan. plan_seen plan ≡ walk_plan is_traced (shelf_names shelf.now.items) edit_budget (record { log = log.now; end = end; nodes = work.now.nodes })) }
{
    let caller = trace::caller(alloc, shelf, log)?;
    let writes = walk_writes(alloc, shelf, is_traced, log, &end, work)?;
    let fault = fault_of(end, edit_budget);
    let status = if fault.is_some() { 1 } else { 0 };
    Ok(Plan {
        fault,
        caller,
        status,
        writes,
    })
}

/// Walks the picked plugins over a sheet that was just read, and prints it.
///
/// # Errors
///
/// Only when out of memory.
pub(crate) fn walk_sheet(
    alloc: Global,
    options: Options,
    work: Work,
    shelf: &mut Vec<Plugin>,
) -> Result<Prepared, AllocError>
    requires few { byte_len work.text < 2 ^ 32 }
    requires fresh { IsFresh work }
    requires places { All (λ place. place < vec_len shelf.old) options.picked.items }
    requires plugins { vec_len shelf.old < 4294967296 }
    requires hooks { AreFew shelf.old.items }
    ensures { Planned (Transform (options_seen options)) (seen_by ⟦<dyn Visitor as Visitor>⟧ shelf.old.items) (seen_by ⟦<dyn Visitor as Visitor>⟧ shelf.new.items) work.text result }
{
    work.facts();
    let mut work = work;
    let nodes = work.node_total();
    let budget = budget_for(options.budget, nodes);
    let edit_budget = budget_for(options.edit_budget, nodes);
    let end = walk(
        alloc,
        &mut work,
        shelf,
        &options.picked,
        budget,
        edit_budget,
    )?;
    let log = work.take_log();
    let plan = walk_plan(alloc, shelf, options.trace, &log, end, edit_budget, &work)?;
    Ok(Prepared {
        plan,
        log,
        work: Some(work),
    })
}
