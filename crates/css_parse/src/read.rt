// The loop over the pieces of a text.
ghost use Rattle.std.specs.Prelude.{◌≡◌, ◌<◌, ◌≤◌, length, slice_range};
ghost use Rattle.std.specs.Str.{chars, IsCharBoundary};
ghost use Rattle.css_text.specs.PieceKinds.{IsOfKind};
ghost use Rattle.css_tree.specs.Pieces.{shape_of};
ghost use Rattle.css_tree.proofs.Formed.{FormedBy};
ghost use Rattle.css_text.specs.Ahead.{begins_bom};
ghost use Rattle.css_parse.specs.Answer.{IsNodes};
ghost use Rattle.css_parse.specs.Reading.{IsRead};
ghost use Rattle.css_parse.specs.Lexical.{found_of};
ghost use Rattle.css_parse.specs.Standing.{sheet};
ghost use Rattle.css_parse.specs.Going.{Going, Reads};

use crate::found::Found;
use crate::parser::Parser;
use crate::piece::Piece;
use crate::texts::Texts;
use css_text::lexer::{self, LexFault, bom_len, next_at};
use css_text::stop::Stop;
use css_text::text::Text;
use css_tree::fault::SyntaxKind;
use node_rows::node_list::NodeList;
use std::alloc::Global;

/// A piece of the lexer with its text.
fn piece_in<'t>(src: &'t str, piece: lexer::Piece) -> Piece<'t>
    requires some { piece.span.start < piece.span.end }
    requires start { IsCharBoundary src.now piece.span.start }
    requires end { IsCharBoundary src.now piece.span.end }
    requires short { length src.now ≤ 67108864 }
    requires kind { IsOfKind piece.kind (chars (slice_range src.now piece.span.start piece.span.end)) }
    requires formed { FormedBy (shape_of piece.kind (chars (slice_range src.now piece.span.start piece.span.end))) (chars (slice_range src.now piece.span.start piece.span.end)) }
    ensures { result ≡ record { kind = piece.kind; at = piece.span.start; text = chars (slice_range src.now piece.span.start piece.span.end) } }
{
    let text = &src[piece.span.start..piece.span.end];
    Piece::new(piece.kind, piece.span.start as u32, text)
}

fn lexical(fault: LexFault) -> Found
    requires { (found_of fault).at ≤ 67108864 }
    ensures { result ≡ found_of fault }
{
    match fault {
        LexFault::UnclosedString { at } => Found::new(SyntaxKind::UnclosedString, at as u32),
        LexFault::UnclosedComment { at } => Found::new(SyntaxKind::UnclosedComment, at as u32),
        LexFault::UnclosedUrl { at } => Found::new(SyntaxKind::UnclosedUrl, at as u32),
    }
}

/// Reads the plain statement at the byte, or else one piece, and answers the byte behind it; none at the text's end. After an error
/// the parser may not be used again.
#[inline(always)]
fn read_at<'t>(
    parser: &mut Parser<'t>,
    src: &'t str,
    at: usize,
) -> Result<Option<usize>, Stop<Found>>
    requires going { Going (chars src.now) src.now at parser.old }
    requires short { length src.now ≤ 67108864 }
    ensures { Reads result src.now at parser.old parser.new }
{
    match parser.take_plain(src, at) {
        Ok(None) => {}
        Ok(Some(next)) => return Ok(Some(next)),
        Err(e) => return Err(Stop::Memory(e)),
    }
    match next_at(src.as_bytes(), at) {
        Ok(Some(piece)) => match parser.step(piece_in(src, piece)) {
            Ok(()) => Ok(Some(piece.span.end)),
            Err(stop) => Err(stop),
        },
        Ok(None) => Ok(None),
        Err(fault) => Err(Stop::Fault(lexical(fault))),
    }
}

/// The nodes of a text, which begins with a byte order mark or doesn't, or its first fault.
fn read_pieces(texts: Texts, src: &str, bom: bool) -> Result<NodeList, Stop<Found>>
    requires short { length src.now ≤ 67108864 }
    requires bom { bom ≡ begins_bom (chars src.now) }
    requires sheet { sheet texts ≡ src.now }
    ensures { IsRead result (chars src.now) }
{
    let mut parser = match Parser::new(texts, bom, src.len()) {
        Ok(parser) => parser,
        Err(e) => return Err(Stop::Memory(e)),
    };
    let mut at = bom_len(src);
    'statements: loop {
        match read_at(&mut parser, src, at) {
            Ok(Some(next)) => at = next,
            Ok(None) => return parser.finish(),
            Err(stop) => return Err(stop),
        }
    }
}

/// The nodes of a text in document order, or its first fault.
pub fn read(alloc: Global, text: &Text) -> Result<NodeList, Stop<Found>>
    ensures { IsNodes result text.now }
{
    let texts = Texts {
        alloc,
        sheet: text.as_txt(),
    };
    read_pieces(texts, text.as_str(), text.has_bom())
}
