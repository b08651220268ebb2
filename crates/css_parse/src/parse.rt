// Reading a style sheet.
ghost use Rattle.std.specs.Prelude.{◌≡◌, IfOk, IfErr, encode_utf8_all};
ghost use Rattle.std.specs.Str.{IsCharBoundary};
ghost use Rattle.css_text.specs.Place.{place_of};
ghost use Rattle.node_store.specs.Fresh.{IsFresh};
ghost use Rattle.css_parse.specs.Answer.{IsRefusal};

use crate::found::Found;
use crate::read::read;
use css_text::stop::Stop;
use css_text::text::Text;
use css_tree::fault::SyntaxFault;
use node_store::work::Work;
use std::alloc::Global;

/// The fault with its place.
fn placed(text: &Text, found: Found) -> SyntaxFault
    requires { IsCharBoundary (encode_utf8_all text.now) found.at }
    ensures { result ≡ record { kind = found.kind; at = found.at; place = place_of text.now found.at } }
{
    SyntaxFault {
        kind: found.kind(),
        at: found.at(),
        place: text.place(found.at()),
    }
}

/// Reads a style sheet by this project's own grammar of statements, which is close to PostCSS 8's. Its nodes are numbered in
/// document order from the root, 0, all are dirty, and the log is empty.
///
/// # Errors
///
/// The first fault of the text, with its place, exactly where the text can't be read; or want of memory. The text is dropped then.
pub fn parse(alloc: Global, text: Text) -> Result<Work, Stop<SyntaxFault>>
    ensures fresh { IfOk result (λ work. IsFresh work) }
    ensures text { IfOk result (λ work. work.text ≡ text) }
    ensures refused { IfErr result (λ e. IsRefusal e text) }
{
    let nodes = match read(alloc, &text) {
        Ok(nodes) => nodes,
        Err(Stop::Fault(found)) => return Err(Stop::Fault(placed(&text, found))),
        Err(Stop::Memory(e)) => return Err(Stop::Memory(e)),
    };
    Ok(Work::from_list(alloc, text, nodes))
}
