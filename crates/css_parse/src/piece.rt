// A piece as the parser keeps it: its shape, its first byte, and its text.
ghost use Rattle.std.specs.Prelude.{◌≡◌, ◌+◌, ◌++◌, ◌≤◌, ◌<◌, length, drop, [], ◌∷◌};
ghost use Rattle.std.specs.Str.{chars};
ghost use Rattle.css_text.specs.PieceKinds.{IsOfKind};
ghost use Rattle.css_tree.specs.Pieces.{shape, shape_of, single_shape, end_of, Shape as S};
ghost use Rattle.css_tree.specs.Turn.{begins_dashes, is_word_shape};
ghost use Rattle.css_tree.proofs.TreeOf.{inner_of};
ghost use Rattle.css_tree.proofs.Split.{hack};
ghost use Rattle.css_tree.proofs.Formed.{FormedBy};
ghost use Rattle.css_parse.specs.Shapes.{named};

use css_text::lexer::PieceKind;
use std::marker::Model;

/// What the rules of reading tell apart.
#[derive(Clone, Copy)]
pub enum Shape {
    Space,
    Comment,
    Semicolon,
    Colon,
    BraceOpen,
    BraceClose,
    BareAt,
    AtName,
    Word,
    RoundOpen,
    RoundClose,
    SquareOpen,
    SquareClose,
    Other,
}

/// A piece of a text.
#[derive(Drop)]
pub struct Piece<'t> {
    text: &'t str,
    start: u32,
    kind: PieceKind,
    shape: Shape,
}

impl<'t> Model for Piece<'t> {
    ghost use Rattle.std.specs.Prelude.{◌≡◌, ◌+◌, ◌<◌, ◌≤◌, length};
    ghost use Rattle.std.specs.Str.{chars, IsUtf8};
    ghost use Rattle.css_tree.specs.Pieces.{Lexeme as Seen, shape_of};
    ghost use Rattle.css_tree.proofs.Formed.{FormedBy};
    ghost use Rattle.css_parse.specs.Shapes.{named};

    ghost Value = { Seen };

    ghost view = { λ p. record { kind = p.kind; at = p.start; text = chars p.text.now } };

    ghost invariant = { λ p. IsUtf8 p.text.now × (0 < length p.text.now) × FormedBy (shape_of p.kind (chars p.text.now)) (chars p.text.now) × (named p.shape ≡ shape_of p.kind (chars p.text.now)) × (p.start + length p.text.now ≤ 67108864) };
}

/// The shape of a single character.
fn single_shape(first: u8) -> Shape
    ensures { named result ≡ single_shape (first ∷ []) }
{
    match first {
        b';' => Shape::Semicolon,
        b':' => Shape::Colon,
        b'{' => Shape::BraceOpen,
        b'}' => Shape::BraceClose,
        b'(' => Shape::RoundOpen,
        b')' => Shape::RoundClose,
        b'[' => Shape::SquareOpen,
        b']' => Shape::SquareClose,
        _ => Shape::Other,
    }
}

/// The shape of a piece with this text.
fn shape_of(kind: PieceKind, text: &str) -> Shape
    requires some { 0 < length text.now }
    requires kind { IsOfKind kind (chars text.now) }
    ensures { named result ≡ shape_of kind (chars text.now) }
{
    match kind {
        PieceKind::Space => Shape::Space,
        PieceKind::Comment => Shape::Comment,
        PieceKind::Quoted => Shape::Other,
        PieceKind::Url => Shape::Other,
        PieceKind::AtWord => {
            if text.len() > 1 {
                Shape::AtName
            } else {
                Shape::BareAt
            }
        }
        PieceKind::Word => Shape::Word,
        PieceKind::Single => single_shape(text.as_bytes()[0]),
    }
}

/// How many bytes are a hack: 1 where they begin with `*` or `_` and go on, else 0.
fn hack_len(bytes: &[u8]) -> usize
    ensures { result ≡ length (hack bytes.now) }
{
    if bytes.len() > 1 && (bytes[0] == b'*' || bytes[0] == b'_') {
        1
    } else {
        0
    }
}

/// The bytes begin `--`.
fn begins_dashes(bytes: &[u8]) -> bool
    ensures { result ≡ begins_dashes bytes.now }
{
    bytes.len() > 1 && bytes[0] == b'-' && bytes[1] == b'-'
}

impl<'t> Piece<'t> {
    /// A piece of that kind, which begins at the byte `start`.
    pub fn new(kind: PieceKind, start: u32, text: &'t str) -> Piece<'t>
        requires some { 0 < length text.now }
        requires kind { IsOfKind kind (chars text.now) }
        requires formed { FormedBy (shape_of kind (chars text.now)) (chars text.now) }
        requires within { start + length text.now ≤ 67108864 }
        ensures { result ≡ record { kind = kind; at = start; text = chars text.now } }
    {
        Piece {
            text,
            start,
            kind,
            shape: shape_of(kind, text),
        }
    }

    /// The shape of the piece.
    #[tactic(auto, unfolding(css_tree::specs::Pieces::shape))]
    pub fn shape(&self) -> Shape
        ensures { named result ≡ shape self.now }
    {
        self.shape
    }

    /// The first byte of the piece.
    pub fn start(&self) -> u32
        ensures value { result ≡ self.now.at }
        ensures small { result ≤ 67108864 }
    {
        self.start
    }

    /// The text of the piece.
    pub fn text(&self) -> &'t str
        ensures { chars result.now ≡ self.now.text }
    {
        self.text
    }

    /// The byte behind the piece.
    pub fn end(&self) -> u32
        ensures value { result ≡ end_of self.now }
        ensures longer { self.now.at < result }
        ensures small { result ≤ 67108864 }
    {
        self.start + self.text.len() as u32
    }

    /// The byte behind the `@` of an at-word.
    pub fn name_start(&self) -> u32
        requires { shape self.now ≡ S.at_name }
        ensures value { result ≡ self.now.at + 1 }
        ensures sign { self.now.text ≡ 64 ∷ drop 1 self.now.text }
    {
        self.start + 1
    }

    /// What stands between the ends of a comment.
    pub fn inner(&self) -> &'t str
        requires { shape self.now ≡ S.comment }
        ensures value { chars result.now ≡ inner_of self.now.text }
        ensures marks { self.now.text ≡ 47 ∷ 42 ∷ (inner_of self.now.text ++ 42 ∷ 47 ∷ []) }
    {
        &self.text[2..self.text.len() - 2]
    }

    /// How many bytes of the text are a hack.
    fn hack_len(&self) -> usize
        ensures { result ≡ length (hack self.now.text) }
    {
        hack_len(self.text.as_bytes())
    }

    /// The byte behind the hack.
    pub fn hack_end(&self) -> u32
        ensures { result ≡ self.now.at + length (hack self.now.text) }
    {
        self.start + self.hack_len() as u32
    }

    /// It is a word.
    pub fn is_word(&self) -> bool
        ensures { result ≡ is_word_shape (shape self.now) }
    {
        matches!(self.shape(), Shape::Word)
    }

    /// Its text begins `--`.
    pub fn begins_dashes(&self) -> bool
        ensures { result ≡ begins_dashes self.now.text }
    {
        begins_dashes(self.text.as_bytes())
    }

    /// The same piece once more.
    pub fn again(&self) -> Piece<'t>
        ensures { result ≡ self.now }
    {
        Piece {
            text: self.text,
            start: self.start,
            kind: self.kind,
            shape: self.shape,
        }
    }
}
