// Plugins, and the call of a hook on a shelf of them.
ghost use Rattle.std.specs.Prelude.{◌≡◌, ℕ, ◌<◌, length, IsSome};
ghost use Rattle.plugin_api.specs.Visit.{Visited};
ghost use Rattle.plugin_api.specs.Shelf.{shelf_seen, hooks_seen, hook_seen, hook_at, VisitedHook, VisitedIn, VisitedAt};

use crate::hook::Hook;
use crate::visitor::{VisitFault, Visitor};
use css_text::txt::Txt;
use node_store::item::Moment;
use node_store::work::Work;

/// A named list of hooks.
#[derive(Drop)]
pub struct Plugin {
    pub name: Txt,
    pub hooks: Vec<Hook>,
}

fn call_box(
    work: &mut Work,
    visitor: &mut Box<dyn Visitor>,
    moment: Moment,
) -> Result<(), VisitFault>
    ensures { Visited (told visitor.old) (told visitor.new) (said visitor.old) (said visitor.new) (duty visitor.old) (duty visitor.new) (left visitor.old) (left visitor.new) work.old work.new moment result }
{
    visitor.visit(work, moment)
}

fn call_one(work: &mut Work, hook: &mut Hook, moment: Moment) -> Result<(), VisitFault>
    ensures { VisitedHook (hook_seen told said duty left hook.old) (hook_seen told said duty left hook.new) work.old work.new moment result }
{
    call_box(work, &mut hook.visitor, moment)
}

fn call_in(
    work: &mut Work,
    hooks: &mut Vec<Hook>,
    hook: usize,
    moment: Moment,
) -> Result<(), VisitFault>
    requires { hook < length hooks.old.items }
    ensures { VisitedIn (hooks_seen told said duty left hooks.old.items) (hooks_seen told said duty left hooks.new.items) hook work.old work.new moment result }
{
    call_one(work, &mut hooks[hook], moment)
}

/// Calls the visitor at a place of the plugin at a place of the shelf. No other hook changes.
pub fn call_hook(
    work: &mut Work,
    shelf: &mut Vec<Plugin>,
    plugin: usize,
    hook: usize,
    moment: Moment,
) -> Result<(), VisitFault>
    requires { IsSome (hook_at (shelf_seen told said duty left shelf.old.items) plugin hook) }
    ensures { VisitedAt (shelf_seen told said duty left shelf.old.items) (shelf_seen told said duty left shelf.new.items) plugin hook work.old work.new moment result }
{
    call_in(work, &mut shelf[plugin].hooks, hook, moment)
}
