// The shelf of the plugins that are shipped.
ghost use Rattle.std.specs.Prelude.{◌≡◌, ◌<◌, ℕ, List, [], ◌∷◌, IfOk, codes, length};
ghost use Rattle.std.specs.List.{All};
ghost use Rattle.std.specs.Str.{chars};
ghost use Rattle.plugin_api.specs.Shelf.{shelf_seen, plugin_seen, hook_seen};
ghost use Rattle.plugin_api.specs.declared.visitor.Told.{Told};
ghost use Rattle.plugin_api.specs.declared.visitor.Duty.{Duty};
ghost use Rattle.transforms.specs.Shipped.{unfiltered, shipped_plugins};

use css_text::txt::Txt;
use node_store::item::Event;
use plugin_api::hook::Hook;
use plugin_api::plugin::Plugin;
use plugin_api::visitor::Visitor;
use std::alloc::{AllocError, Global};

/// The visitors of the shipped plugins' hooks, each made of the transform of its name in `acts`.
#[derive(Drop)]
pub struct Visitors {
    pub comment: Box<dyn Visitor>,
    /// `drop-empty` at rules.
    pub empty_rule: Box<dyn Visitor>,
    /// `drop-empty` at at-rules.
    pub empty_at_rule: Box<dyn Visitor>,
    pub short_hex: Box<dyn Visitor>,
    pub unnest: Box<dyn Visitor>,
}

fn hook(event: Event, visitor: Box<dyn Visitor>) -> Hook
    ensures { hook_seen (λ b. (⟦<dyn Visitor as Visitor>⟧ b.vtable).told b.value) (λ b. (⟦<dyn Visitor as Visitor>⟧ b.vtable).said b.value) (λ b. (⟦<dyn Visitor as Visitor>⟧ b.vtable).duty b.value) (λ b. (⟦<dyn Visitor as Visitor>⟧ b.vtable).left b.value) result ≡ unfiltered (λ b. (⟦<dyn Visitor as Visitor>⟧ b.vtable).told b.value) (λ b. (⟦<dyn Visitor as Visitor>⟧ b.vtable).said b.value) (λ b. (⟦<dyn Visitor as Visitor>⟧ b.vtable).duty b.value) (λ b. (⟦<dyn Visitor as Visitor>⟧ b.vtable).left b.value) event visitor }
{
    Hook {
        event,
        filter: None,
        visitor,
    }
}

// A plugin of one hook.
fn plugin(alloc: Global, name: &str, hook: Hook) -> Result<Plugin, AllocError>
    ensures { IfOk result (λ p. (p.name ≡ chars name.now) × (p.hooks.items ≡ hook ∷ [])) }
{
    let name = Txt::new(alloc, name)?;
    let mut hooks = Vec::new(alloc);
    hooks.push(hook)?;
    Ok(Plugin { name, hooks })
}

fn drop_empty(alloc: Global, rule: Hook, at_rule: Hook) -> Result<Plugin, AllocError>
    ensures { IfOk result (λ p. (p.name ≡ chars (codes "drop-empty")) × (p.hooks.items ≡ rule ∷ at_rule ∷ [])) }
{
    let mut plugin = plugin(alloc, "drop-empty", rule)?;
    plugin.hooks.push(at_rule)?;
    Ok(plugin)
}

/// The four plugins that are shipped, in their order: `drop-comment`, `drop-empty`, `short-hex` and `unnest`, with these
/// visitors.
///
/// Fails for want of memory alone.
pub fn shipped(alloc: Global, visitors: Visitors) -> Result<Vec<Plugin>, AllocError>
    ensures seen { IfOk result (λ shelf. shelf_seen (λ b. (⟦<dyn Visitor as Visitor>⟧ b.vtable).told b.value) (λ b. (⟦<dyn Visitor as Visitor>⟧ b.vtable).said b.value) (λ b. (⟦<dyn Visitor as Visitor>⟧ b.vtable).duty b.value) (λ b. (⟦<dyn Visitor as Visitor>⟧ b.vtable).left b.value) shelf.items ≡ shipped_plugins (λ b. (⟦<dyn Visitor as Visitor>⟧ b.vtable).told b.value) (λ b. (⟦<dyn Visitor as Visitor>⟧ b.vtable).said b.value) (λ b. (⟦<dyn Visitor as Visitor>⟧ b.vtable).duty b.value) (λ b. (⟦<dyn Visitor as Visitor>⟧ b.vtable).left b.value) visitors) }
    // No more plugins and hooks than a walk takes.
    ensures plugins { IfOk result (λ shelf. length shelf.items ≡ 4) }
    ensures hooks { IfOk result (λ shelf. All (λ p. length p.hooks.items < 4294967296) shelf.items) }
{
    let Visitors {
        comment,
        empty_rule,
        empty_at_rule,
        short_hex,
        unnest,
    } = visitors;
    let mut shelf = Vec::new(alloc);
    let comment = hook(Event::Comment, comment);
    shelf.push(plugin(alloc, "drop-comment", comment)?)?;
    let rule = hook(Event::RuleExit, empty_rule);
    let at_rule = hook(Event::AtRuleExit, empty_at_rule);
    shelf.push(drop_empty(alloc, rule, at_rule)?)?;
    let declaration = hook(Event::Declaration, short_hex);
    shelf.push(plugin(alloc, "short-hex", declaration)?)?;
    let nested = hook(Event::RuleExit, unnest);
    shelf.push(plugin(alloc, "unnest", nested)?)?;
    Ok(shelf)
}
