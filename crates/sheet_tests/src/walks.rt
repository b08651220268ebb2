// Walks of sheets that are read from their text, with a shelf of one plugin.
ghost use Rattle.std.specs.Prelude.{◌≤◌, length};

use crate::deeds::Deed;
use crate::script::{Script, Step};
use crate::shelves::shelf_of;
use crate::shown::{end_text, told_first, trace};
use css_parse::parse::parse;
use css_text::text::Text;
use css_text::txt::Txt;
use node_store::item::Event;
use node_store::work::Work;
use plugin_api::fn_visitor::FnVisitor;
use plugin_api::hook::Hook;
use plugin_api::plugin::Plugin;
use plugin_api::recorder::Recorder;
use plugin_api::visitor::Visitor;
use std::alloc::{AllocError, Global};
use stringify::printed::print;
use visitor_walk::walk::walk;
use visitor_walk::walk_end::WalkEnd;

/// An ordinary sheet.
pub const SITE: &str = "@charset \"utf-8\";
@import url(\"base.css\") screen;

/* Fonts */
@font-face {
  font-family: \"Open Sans\";
  src: url(open-sans.woff2) format(\"woff2\"), url(data:font/woff;base64,d09GRg==) format(\"woff\");
}

:root {
  --brand: #aabbcc;
}

.nav > li:not(.active)::before {
  content: \"\\201C\";
  color: var(--brand, #336699);
  -webkit-transition: opacity .2s ease-in-out;
  transition: opacity .2s ease-in-out;
}

@media screen and (min-width: 600px) {
  .nav { margin: 0 auto; }
}

@keyframes fade {
  from { opacity: 0; }
  to { opacity: 1 !important; }
}
";

/// What a walk came to: how it ended, its log, what its hook told, and what is printed then.
#[derive(Drop)]
pub struct Outcome {
    pub end: String,
    pub trace: String,
    pub told: String,
    pub items: usize,
    pub output: Txt,
}

/// How many calls and edits a walk may make.
#[derive(Clone, Copy)]
pub struct Budgets {
    pub calls: u64,
    pub edits: u64,
}

/// Enough for each short walk.
pub const AMPLE: Budgets = Budgets {
    calls: 100,
    edits: 100,
};

/// The deed at the call of that number.
pub fn at(call: u32, deed: Deed) -> Step {
    Step {
        call: Some(call),
        deed,
    }
}

/// The deed at each call.
pub fn always(deed: Deed) -> Step {
    Step { call: None, deed }
}

/// The sheet of a text, where it has a reading.
pub fn sheet(alloc: Global, input: &str) -> Option<Work> {
    if input.len() > 10_000 {
        return None;
    }
    let text = match input.as_bytes().to_vec(alloc) {
        Ok(bytes) => Text::new(alloc, bytes),
        Err(_) => return None,
    };
    match text {
        Ok(text) => match parse(alloc, text) {
            Ok(work) => Some(work),
            Err(_) => None,
        },
        Err(_) => None,
    }
}

fn outcome_of(
    alloc: Global,
    work: &Work,
    shelf: &[Plugin],
    end: WalkEnd,
) -> Result<Outcome, AllocError> {
    Ok(Outcome {
        end: end_text(alloc, end)?,
        trace: trace(alloc, work.log())?,
        told: told_first(alloc, shelf)?,
        items: work.log().len(),
        output: print(alloc, work)?.text,
    })
}

/// A walk with these hooks of one plugin.
pub fn walked(
    alloc: Global,
    work: &mut Work,
    hooks: Vec<Hook>,
    budgets: Budgets,
) -> Result<Outcome, AllocError>
    requires { length hooks.items ≤ 2 }
{
    let mut shelf = shelf_of(alloc, hooks)?;
    let end = walk(alloc, work, &mut shelf, &[0], budgets.calls, budgets.edits)?;
    outcome_of(alloc, work, &shelf, end)
}

fn walked_with(
    alloc: Global,
    work: &mut Work,
    event: Event,
    visitor: Box<dyn Visitor>,
    budgets: Budgets,
) -> Result<Outcome, AllocError> {
    let mut hooks = Vec::new(alloc);
    hooks.push(Hook {
        event,
        filter: None,
        visitor,
    })?;
    walked(alloc, work, hooks, budgets)
}

/// A walk with a hook that does the steps, and tells its calls.
pub fn walked_telling(
    alloc: Global,
    work: &mut Work,
    event: Event,
    steps: &[Step],
    budgets: Budgets,
) -> Result<Outcome, AllocError> {
    let script = Script::new(alloc, steps)?;
    let visitor: Box<dyn Visitor> = Box::new(
        alloc,
        Recorder::new(alloc, FnVisitor::new(alloc, script)),
    )?;
    walked_with(alloc, work, event, visitor, budgets)
}

/// A walk with a hook that does the steps, and tells nothing.
pub fn walked_silent(
    alloc: Global,
    work: &mut Work,
    event: Event,
    steps: &[Step],
    budgets: Budgets,
) -> Result<Outcome, AllocError> {
    let script = Script::new(alloc, steps)?;
    let visitor: Box<dyn Visitor> = Box::new(alloc, FnVisitor::new(alloc, script))?;
    walked_with(alloc, work, event, visitor, budgets)
}
