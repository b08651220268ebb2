// The hooks of a walk, grouped by event once.
ghost use Rattle.std.specs.Prelude.{◌≡◌, ◌<◌, ◌++◌, length, filter, IfOk, Bool, nat_eq, ◌&&◌, vec_len};
ghost use Rattle.visitor_machine.specs.Hooks.{event_number, takes_filter, is_filter, hooks_at};
ghost use Rattle.visitor_walk.specs.Groups.{in_group, shown_hooks, group_of, IsGrouped, AreFew, same_flag, listed_from, listed_hooks};
ghost use Rattle.std.specs.List.{All};

use crate::reads::is_star;
use css_text::txt::Txt;
use node_store::item::Event;
use plugin_api::hook::Hook;
use plugin_api::plugin::Plugin;
use std::alloc::{AllocError, Global};

/// A hook of a picked plugin: the plugin's place on the shelf, the hook's place in it, its event and its filter.
#[derive(Drop)]
pub struct RunHook {
    pub plugin: u32,
    pub hook: u32,
    pub event: Event,
    pub filter: Option<Txt>,
}

/// The hooks of a walk by event. Of each event those without a filter come first.
#[derive(Drop)]
pub struct RunHooks {
    once: Vec<RunHook>,
    root: Vec<RunHook>,
    root_exit: Vec<RunHook>,
    at_rule: Vec<RunHook>,
    at_rule_exit: Vec<RunHook>,
    rule: Vec<RunHook>,
    rule_exit: Vec<RunHook>,
    declaration: Vec<RunHook>,
    declaration_exit: Vec<RunHook>,
    comment: Vec<RunHook>,
    comment_exit: Vec<RunHook>,
    once_exit: Vec<RunHook>,
}

fn event_number(event: Event) -> u32
    ensures { result ≡ event_number event }
{
    match event {
        Event::Once => 0,
        Event::Root => 1,
        Event::RootExit => 2,
        Event::AtRule => 3,
        Event::AtRuleExit => 4,
        Event::Rule => 5,
        Event::RuleExit => 6,
        Event::Declaration => 7,
        Event::DeclarationExit => 8,
        Event::Comment => 9,
        Event::CommentExit => 10,
        Event::OnceExit => 11,
    }
}

fn takes_filter(event: Event) -> bool
    ensures { result ≡ takes_filter event }
{
    matches!(
        event,
        Event::AtRule | Event::AtRuleExit | Event::Declaration | Event::DeclarationExit
    )
}

fn is_filter(filter: &Option<Txt>) -> bool
    ensures { result ≡ is_filter filter.now }
{
    match filter {
        None => false,
        Some(text) => !is_star(text),
    }
}

/// Whether a hook of that event and filter is called for some nodes only.
pub fn is_filtered(event: Event, filter: &Option<Txt>) -> bool
    ensures { result ≡ takes_filter event && is_filter filter.now }
{
    takes_filter(event) && is_filter(filter)
}

fn copy_filter(alloc: Global, filter: &Option<Txt>) -> Result<Option<Txt>, AllocError>
    ensures { IfOk result (λ copy. copy ≡ filter.now) }
{
    match filter {
        None => Ok(None),
        Some(text) => {
            let copy = Txt::new(alloc, text.as_str())?;
            Ok(Some(copy))
        }
    }
}

// Whether the hook is of that event, and with or without a filter.
fn is_wanted(hook: &Hook, event: Event, filtered: bool) -> bool
    ensures { result ≡ nat_eq (event_number event) (event_number hook.now.event) && same_flag filtered (takes_filter hook.now.event && is_filter hook.now.filter) }
{
    event_number(event) == event_number(hook.event)
        && filtered == is_filtered(hook.event, &hook.filter)
}

// The hooks of one plugin that are of that event, with or without a filter.
fn push_hooks(
    alloc: Global,
    group: &mut Vec<RunHook>,
    hooks: &[Hook],
    plugin: u32,
    event: Event,
    filtered: bool,
) -> Result<(), AllocError>
    requires { length hooks.now < 4294967296 }
    ensures { IfOk result (λ _. shown_hooks group.new.items ≡ shown_hooks group.old.items ++ filter (in_group event filtered) (listed_from plugin 0 hooks.now)) }
{
    for place in 0..hooks.len() {
        let hook = &hooks[place];
        if is_wanted(hook, event, filtered) {
            group.push(RunHook {
                plugin,
                hook: place as u32,
                event: hook.event,
                filter: copy_filter(alloc, &hook.filter)?,
            })?;
        }
    }
    Ok(())
}

fn push_picked(
    alloc: Global,
    group: &mut Vec<RunHook>,
    shelf: &Vec<Plugin>,
    picked: &[usize],
    event: Event,
    filtered: bool,
) -> Result<(), AllocError>
    requires places { All (λ place. place < vec_len shelf.now) picked.now }
    requires few { vec_len shelf.now < 4294967296 }
    requires hooks_few { AreFew shelf.now.items }
    ensures { IfOk result (λ _. shown_hooks group.new.items ≡ shown_hooks group.old.items ++ filter (in_group event filtered) (listed_hooks shelf.now.items picked.now)) }
{
    for at in 0..picked.len() {
        let place = picked[at];
        push_hooks(
            alloc,
            group,
            &shelf[place].hooks,
            place as u32,
            event,
            filtered,
        )?;
    }
    Ok(())
}

// The picked hooks of one event.
fn group(
    alloc: Global,
    shelf: &Vec<Plugin>,
    picked: &[usize],
    event: Event,
) -> Result<Vec<RunHook>, AllocError>
    requires places { All (λ place. place < vec_len shelf.now) picked.now }
    requires few { vec_len shelf.now < 4294967296 }
    requires hooks_few { AreFew shelf.now.items }
    ensures { IfOk result (λ group. shown_hooks group.items ≡ hooks_at event (listed_hooks shelf.now.items picked.now)) }
{
    let mut group = Vec::new(alloc);
    push_picked(alloc, &mut group, shelf, picked, event, false)?;
    push_picked(alloc, &mut group, shelf, picked, event, true)?;
    Ok(group)
}

impl RunHooks {
    /// The hooks of the picked plugins. It fails for want of memory alone.
    pub fn new(alloc: Global, shelf: &Vec<Plugin>, picked: &[usize]) -> Result<RunHooks, AllocError>
        requires places { All (λ place. place < vec_len shelf.now) picked.now }
        requires few { vec_len shelf.now < 4294967296 }
        requires hooks_few { AreFew shelf.now.items }
        ensures { IfOk result (λ hooks. IsGrouped hooks (listed_hooks shelf.now.items picked.now)) }
    {
        Ok(RunHooks {
            once: group(alloc, shelf, picked, Event::Once)?,
            root: group(alloc, shelf, picked, Event::Root)?,
            root_exit: group(alloc, shelf, picked, Event::RootExit)?,
            at_rule: group(alloc, shelf, picked, Event::AtRule)?,
            at_rule_exit: group(alloc, shelf, picked, Event::AtRuleExit)?,
            rule: group(alloc, shelf, picked, Event::Rule)?,
            rule_exit: group(alloc, shelf, picked, Event::RuleExit)?,
            declaration: group(alloc, shelf, picked, Event::Declaration)?,
            declaration_exit: group(alloc, shelf, picked, Event::DeclarationExit)?,
            comment: group(alloc, shelf, picked, Event::Comment)?,
            comment_exit: group(alloc, shelf, picked, Event::CommentExit)?,
            once_exit: group(alloc, shelf, picked, Event::OnceExit)?,
        })
    }

    /// The hooks of an event.
    pub fn at(&self, event: Event) -> &[RunHook]
        ensures { result.now ≡ group_of self.now event }
    {
        match event {
            Event::Once => &self.once,
            Event::Root => &self.root,
            Event::RootExit => &self.root_exit,
            Event::AtRule => &self.at_rule,
            Event::AtRuleExit => &self.at_rule_exit,
            Event::Rule => &self.rule,
            Event::RuleExit => &self.rule_exit,
            Event::Declaration => &self.declaration,
            Event::DeclarationExit => &self.declaration_exit,
            Event::Comment => &self.comment,
            Event::CommentExit => &self.comment_exit,
            Event::OnceExit => &self.once_exit,
        }
    }
}
