// Texts, places in them, and the pieces that a style sheet is made of.
//
// The definitions of specs/ run on characters, and the code on bytes. Lemmas for callers, which read pieces and slice:
//   proofs/Slices       characters in the bytes of a text; slices, their boundaries and their characters
//   proofs/Reader       what a reader has ahead; one piece, a run of pieces, the end, the fault
//   proofs/ReaderStart  a reader at the start of a text, behind its byte order mark
//   proofs/AsciiTests   tests for ASCII characters, made on the bytes of a slice
//   proofs/PieceKinds   what the kind of a piece says of its characters
//   proofs/Cut, Join    the first piece of a text; the pieces join to it
//   proofs/Transport    `cut-bytes`: the pieces of a text's bytes are the bytes of its pieces
#![tactic(auto)]

mod blocks;
pub mod laws;
pub mod lexer;
mod lines;
pub mod scan;
pub mod stop;
pub mod text;
pub mod txt;
