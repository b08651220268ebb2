// One call of a hook.
ghost use Rattle.std.specs.Prelude.{◌≡◌, IsSome};
ghost use Rattle.plugin_api.specs.Shelf.{shelf_seen, hook_at};
ghost use Rattle.plugin_api.specs.declared.visitor.Told.{Told};
ghost use Rattle.plugin_api.specs.declared.visitor.Duty.{Duty};
ghost use Rattle.visitor_walk.specs.Called.{Called};

use crate::turn::Due;
use css_text::txt::Txt;
use node_store::item::Item;
use node_store::work::Work;
use plugin_api::plugin::{Plugin, call_hook};
use plugin_api::visitor::{VisitFault, Visitor};
use std::alloc::{AllocError, Global};

/// Calls the hook, and logs the call and its end. Answers the text of the fault, where the call failed.
pub fn call(
    alloc: Global,
    work: &mut Work,
    shelf: &mut Vec<Plugin>,
    due: Due,
) -> Result<Option<Txt>, AllocError>
    requires { IsSome (hook_at (shelf_seen (λ b. (⟦<dyn Visitor as Visitor>⟧ b.vtable).told b.value) (λ b. (⟦<dyn Visitor as Visitor>⟧ b.vtable).said b.value) (λ b. (⟦<dyn Visitor as Visitor>⟧ b.vtable).duty b.value) (λ b. (⟦<dyn Visitor as Visitor>⟧ b.vtable).left b.value) shelf.old.items) due.plugin due.hook) }
    ensures { let seen = shelf_seen (λ b. (⟦<dyn Visitor as Visitor>⟧ b.vtable).told b.value) (λ b. (⟦<dyn Visitor as Visitor>⟧ b.vtable).said b.value) (λ b. (⟦<dyn Visitor as Visitor>⟧ b.vtable).duty b.value) (λ b. (⟦<dyn Visitor as Visitor>⟧ b.vtable).left b.value) in
        Called work.old work.new (seen shelf.old.items) (seen shelf.new.items) due result }
{
    work.note(Item::Call {
        plugin: due.plugin,
        hook: due.hook,
        moment: due.moment,
    })?;
    match call_hook(
        work,
        shelf,
        due.plugin as usize,
        due.hook as usize,
        due.moment,
    ) {
        Ok(()) => {
            work.note(Item::Back { fault: None })?;
            Ok(None)
        }
        Err(VisitFault::Plugin(text)) => {
            let copy = Txt::new(alloc, text.as_str())?;
            work.note(Item::Back { fault: Some(copy) })?;
            Ok(Some(text))
        }
        Err(VisitFault::Memory(error)) => Err(error),
    }
}
