// The shelf of the tests.
ghost use Rattle.std.specs.Prelude.{◌≡◌, ◌≤◌, IfOk, length};
ghost use Rattle.visitor_walk.specs.Groups.{AreFew};

use css_text::txt::Txt;
use plugin_api::hook::Hook;
use plugin_api::plugin::Plugin;
use std::alloc::{AllocError, Global};

/// A shelf of the plugin `p` with these hooks.
pub fn shelf_of(alloc: Global, hooks: Vec<Hook>) -> Result<Vec<Plugin>, AllocError>
    requires { length hooks.items ≤ 2 }
    ensures few { IfOk result (λ shelf. AreFew shelf.items) }
    ensures one { IfOk result (λ shelf. length shelf.items ≡ 1) }
{
    let mut shelf = Vec::new(alloc);
    shelf.push(Plugin {
        name: Txt::new(alloc, "p")?,
        hooks,
    })?;
    Ok(shelf)
}
