// Why a run stops, and the line that says so.
ghost use Rattle.std.specs.Prelude.{◌≡◌, ℕ, List, IfOk, string_bytes};
ghost use Rattle.std.specs.Str.{chars};
ghost use Rattle.css_job.specs.Faults.{line_of, kind_name};

use crate::transform::item_names::event_name;
use css_text::text::Place;
use css_text::txt::Txt;
use css_tree::fault::{SyntaxFault, SyntaxKind};
use node_store::item::Moment;
use std::alloc::{AllocError, Global};

/// Why a run ended before its command was carried out whole. The standard input is called `<stdin>`.
#[derive(Drop)]
pub enum Fault {
    /// The words name no command that the program knows. The status is 64, after `sysexits.h`.
    Usage,
    /// A read of this file failed. The status is 1.
    ReadFault { name: Txt },
    /// A write to this file failed. The standard streams are called `<stdout>` and `<stderr>`.
    /// The status is 1.
    WriteFault { name: Txt },
    /// This file has more than 8,388,608 bytes. The status is 1.
    TooLarge { name: Txt },
    /// This file isn't UTF-8: `at` bytes stand before the first wrong sequence. The status is 1.
    NotUtf8 { name: Txt, at: usize },
    /// The text of this file can't be read as a style sheet. The status is 1.
    Syntax { name: Txt, fault: SyntaxFault },
    /// The call of a visitor at that moment failed with this text. The status is 1.
    PluginFailed { text: Txt, moment: Moment },
    /// As many calls were made as the budget allows, and one more was due at that moment. The
    /// status is 1.
    BudgetSpent { calls: u64, next: Moment },
    /// The call at that moment came back with more edits in all than the budget allows. The status
    /// is 1.
    EditBudgetSpent { edits: u64, budget: u64, at: Moment },
}

/// The name of the kind of a fault.
pub fn kind_name(kind: SyntaxKind) -> &'static str
    ensures { result.now ≡ kind_name kind }
{
    match kind {
        SyntaxKind::UnclosedString => "UnclosedString",
        SyntaxKind::UnclosedComment => "UnclosedComment",
        SyntaxKind::UnclosedUrl => "UnclosedUrl",
        SyntaxKind::UnclosedBracket => "UnclosedBracket",
        SyntaxKind::UnclosedBlock => "UnclosedBlock",
        SyntaxKind::UnexpectedClose => "UnexpectedClose",
        SyntaxKind::UnknownWord => "UnknownWord",
        SyntaxKind::AtRuleWithoutName => "AtRuleWithoutName",
        SyntaxKind::TooDeep => "TooDeep",
    }
}

fn wrong_text(alloc: Global, name: &Txt, at: usize) -> Result<String, AllocError>
    ensures { IfOk result (λ text. (plugin : List ℕ) → string_bytes text ≡ line_of plugin (Fault.NotUtf8 name.now at)) }
{
    let name = name.as_str();
    format!(in alloc; "csswork: {name} is not UTF-8 at byte {at}\n")
}

fn syntax_text(alloc: Global, name: &Txt, fault: SyntaxFault) -> Result<String, AllocError>
    ensures { IfOk result (λ text. (plugin : List ℕ) → string_bytes text ≡ line_of plugin (Fault.Syntax name.now fault)) }
{
    let name = name.as_str();
    let Place { line, column } = fault.place;
    let kind = kind_name(fault.kind);
    format!(in alloc; "csswork: {name}:{line}:{column}: {kind}\n")
}

fn failed_text(
    alloc: Global,
    plugin: &str,
    text: &Txt,
    moment: Moment,
) -> Result<String, AllocError>
    ensures { IfOk result (λ line. string_bytes line ≡ line_of (chars plugin.now) (Fault.PluginFailed text.now moment)) }
{
    let event = event_name(moment.event);
    let node = moment.node.number();
    let text = text.as_str();
    format!(in alloc; "csswork: plugin {plugin} failed at {event} {node}: {text}\n")
}

fn budget_text(alloc: Global, calls: u64, next: Moment) -> Result<String, AllocError>
    ensures { IfOk result (λ line. (plugin : List ℕ) → string_bytes line ≡ line_of plugin (Fault.BudgetSpent calls next)) }
{
    let event = event_name(next.event);
    let node = next.node.number();
    format!(in alloc; "csswork: budget of {calls} calls spent before {event} {node}\n")
}

fn edit_budget_text(
    alloc: Global,
    edits: u64,
    budget: u64,
    at: Moment,
) -> Result<String, AllocError>
    ensures { IfOk result (λ line. (plugin : List ℕ) → string_bytes line ≡ line_of plugin (Fault.EditBudgetSpent edits budget at)) }
{
    let event = event_name(at.event);
    let node = at.node.number();
    format!(in alloc;
        "csswork: edit budget of {budget} passed with {edits} edits at {event} {node}\n"
    )
}

/// The line that a run writes on a fault, with its line feed. `plugin` is the name of the plugin
/// whose hook was called last.
///
/// # Errors
///
/// Only when out of memory.
pub fn fault_text(alloc: Global, plugin: &Txt, fault: &Fault) -> Result<String, AllocError>
    ensures { IfOk result (λ text. string_bytes text ≡ line_of plugin.now fault.now) }
{
    match fault {
        Fault::Usage => String::from_str(alloc, "usage: csswork transform|lint|sample\n"),
        Fault::ReadFault { name } => {
            let name = name.as_str();
            format!(in alloc; "csswork: cannot read {name}\n")
        }
        Fault::WriteFault { name } => {
            let name = name.as_str();
            format!(in alloc; "csswork: cannot write {name}\n")
        }
        Fault::TooLarge { name } => {
            let name = name.as_str();
            format!(in alloc; "csswork: {name} has more than 8388608 bytes\n")
        }
        Fault::NotUtf8 { name, at } => wrong_text(alloc, name, *at),
        Fault::Syntax { name, fault } => syntax_text(alloc, name, *fault),
        Fault::PluginFailed { text, moment } => failed_text(alloc, plugin.as_str(), text, *moment),
        Fault::BudgetSpent { calls, next } => budget_text(alloc, *calls, *next),
        Fault::EditBudgetSpent { edits, budget, at } => {
            edit_budget_text(alloc, *edits, *budget, *at)
        }
    }
}
