// Where the important mark of a declaration stands.
ghost use Rattle.std.specs.Prelude.{◌≡◌, ◌<◌, ◌^◌, true, length, encode_utf8_all};
ghost use Rattle.std.specs.Str.{IsCharBoundary, chars};
ghost use Rattle.css_text.specs.Ahead.{byte_len};
ghost use Rattle.node_rows.specs.Nodes.{text_of};
ghost use Rattle.node_rows.specs.NumberTrees.{tree_at};
ghost use Rattle.node_store.specs.Fresh.{IsFresh};
ghost use Rattle.rules_tree.specs.Important.{is_marked, is_blank, blanks_of, before_mark, mark_byte};

use css_text::lexer::{PieceKind, next_at};
use css_tree::node::NodeText;
use node_store::id::NodeId;
use node_store::work::Work;
use rule_sites::reads;

/// Whether the node is a declaration that is marked important.
pub fn is_marked(text: &NodeText) -> bool
    ensures { result ≡ is_marked text.now }
{
    match text {
        NodeText::Declaration { important, .. } => *important,
        _ => false,
    }
}

fn is_blank(kind: PieceKind) -> bool
    ensures { result ≡ is_blank kind }
{
    match kind {
        PieceKind::Space | PieceKind::Comment => true,
        _ => false,
    }
}

/// How many bytes of white space and comments the text begins with.
fn blanks_len(src: &str) -> usize
    ensures { result ≡ byte_len (blanks_of (chars src.now)) }
{
    let bytes = src.as_bytes();
    let mut at = 0;
    'blanks: loop {
        match next_at(bytes, at) {
            Ok(Some(piece)) => {
                if !is_blank(piece.kind) {
                    return at;
                }
                at = piece.span.end;
            }
            Ok(None) => return at,
            Err(_) => return at,
        }
    }
}

/// How many bytes stand before the mark's `!` in the body of a declaration.
fn before_mark_len(text: &NodeText) -> usize
    requires { byte_len (before_mark text.now) < 2 ^ 32 }
    ensures { result ≡ byte_len (before_mark text.now) }
{
    match text {
        NodeText::Declaration {
            prop,
            between,
            value,
            important_raw,
            ..
        } => {
            let head = prop.as_str().len() + between.as_str().len();
            head + value.source.as_str().len() + blanks_len(important_raw.as_str())
        }
        _ => 0,
    }
}

/// The byte of the `!` of a declaration's mark.
pub fn mark_of(work: &Work, n: NodeId) -> u32
    requires fresh { IsFresh work.now }
    requires given { n < length work.now.nodes }
    requires marked { is_marked (text_of work.now.nodes n) ≡ true }
    ensures value { result ≡ mark_byte (tree_at work.now.nodes n) }
    ensures boundary { IsCharBoundary (encode_utf8_all work.now.text) result }
{
    reads::stands(work, n);
    reads::is_short(work);
    let start = reads::start_of(work, n) as usize;
    (start + before_mark_len(reads::text_of(work, n))) as u32
}
