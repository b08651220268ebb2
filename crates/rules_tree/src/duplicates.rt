// The message of a property that is declared again.
ghost use Rattle.std.specs.Prelude.{◌≡◌, ◌++◌, IfOk, codes};
ghost use Rattle.std.specs.Str.{chars};
ghost use Rattle.rules_tree.specs.Properties.{quoted};

use css_text::txt::Txt;
use std::alloc::{AllocError, Global};

/// That the property is declared again.
pub fn message(alloc: Global, prop: &str) -> Result<Txt, AllocError>
    ensures { IfOk result (λ t. t ≡ codes "Unexpected duplicate " ++ quoted (chars prop.now)) }
{
    let text = format!(in alloc; "Unexpected duplicate \"{prop}\"")?;
    Txt::from_string(alloc, text)
}
