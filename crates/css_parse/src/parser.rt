// The parser between two pieces.
ghost use Rattle.std.specs.Prelude.{◌≡◌, ◌+◌, ◌<◌, ◌≤◌, ◌++◌, ◌∷◌, [], length, IfOk, IfErr, if◌then◌else◌};
ghost use Rattle.css_text.specs.Shared.{IsPart};
ghost use Rattle.css_tree.specs.Pieces.{Lexeme as Seen, shape, end_of, last_end, is_blank, join, Shape as S};
ghost use Rattle.css_tree.specs.Classes.{Each};
ghost use Rattle.css_tree.specs.Turn.{Turn, within, gap, alone, ends, closes, opens};
ghost use Rattle.css_tree.proofs.Reader.{settle};
ghost use Rattle.css_parse.specs.Gaps.{gap_of};
ghost use Rattle.css_parse.specs.Steps.{IsStep, below};
ghost use Rattle.css_parse.specs.Machine.{flat, alter, seal_root, next, start, given, sealed, left, IsReady};
ghost use Rattle.css_parse.specs.Model.{model, IsUpTo, IsNext, IsSmall, Advances, IsStop, IsEnd};
ghost use Rattle.css_parse.specs.Standing.{sheet, gap_text, IsBehind};
ghost use Rattle.css_parse.specs.declared.turn.Step.TheVariants as St;

use crate::found::Found;
use crate::gap::Gap;
use crate::nodes::{comment_node, leaf_node, open_end, open_node};
use crate::piece::{Piece, Shape};
use crate::run::Run;
use crate::texts::{Texts, last_end, solid_len};
use crate::turn::{Frame, Step, fits, fits_end, turn};
use css_text::lexer::Span;
use css_text::stop::Stop;
use css_tree::node::{Block, NodeText};
use node_rows::node_list::NodeList;
use std::alloc::AllocError;

/// Where texts come from; the nodes so far; the open container's number, and whether a `;` stands behind its last declaration or blockless
/// at-rule; the containers around it; the text since the last node; the pieces of the statement in progress; and the
/// opening pieces of the brackets that are awaited.
#[derive(Drop)]
pub struct Parser<'t> {
    pub texts: Texts<'t>,
    pub nodes: NodeList,
    pub number: u32,
    pub semicolon: bool,
    pub frames: Vec<Frame<'t>>,
    pub gap: Gap,
    pub run: Run<'t>,
    pub awaited: Vec<Piece<'t>>,
}

/// Blanks that are given back to the container: its comments become nodes.
#[tactic(auto, using(std::proofs::lemmas::Grind::common_steps, crate::proofs::Giving::given_steps), unfolding(crate::proofs::Giving::given_nodes, crate::proofs::Giving::given_behind))]
fn settle(
    texts: Texts,
    nodes: &mut NodeList,
    number: u32,
    gap: &mut Gap,
    blanks: &[Piece],
) -> Result<(), AllocError>
    requires blanks { Each is_blank blanks.now }
    requires room { length nodes.old + length blanks.now ≤ 67108865 }
    requires known { number < length nodes.old }
    requires behind { IsBehind (sheet texts) gap.old blanks.now }
    ensures nodes { IfOk result (λ _. nodes.new ≡ nodes.old ++ flat number (length nodes.old) (settle (gap_of (gap_text (sheet texts.entry) gap.old)) blanks.now).nodes) }
    ensures gap { IfOk result (λ _. gap_text (sheet texts.entry) gap.new ≡ join (settle (gap_of (gap_text (sheet texts.entry) gap.old)) blanks.now).behind) }
    ensures behind { IfOk result (λ _. IsBehind (sheet texts.entry) gap.new []) }
{
    for piece in blanks {
        match piece.shape() {
            Shape::Space => gap.end = piece.end(),
            _ => {
                let node = comment_node(texts, number, *gap, piece)?;
                nodes.push(node)?;
                *gap = Gap::at(piece.end());
            }
        }
    }
    Ok(())
}

/// The byte behind a byte order mark, if there is one.
fn text_start(bom: bool) -> u32
    ensures { result ≡ (if bom then 3 else 0) }
{
    if bom { 3 } else { 0 }
}

impl<'t> Parser<'t> {
    /// Before the first piece of a text with so many bytes.
    pub fn new(texts: Texts<'t>, bom: bool, size: usize) -> Result<Parser<'t>, AllocError>
        ensures model { IfOk result (λ p. model p ≡ start bom size) }
        ensures texts { IfOk result (λ p. p.texts ≡ texts.entry) }
        ensures start { IfOk result (λ p. p.gap.start ≡ p.gap.end) }
        ensures end { IfOk result (λ p. p.gap.end ≡ (if bom then 3 else 0)) }
        ensures run { IfOk result (λ p. p.run ≡ []) }
    {
        let alloc = texts.alloc;
        let root = NodeText::Root {
            bom,
            block: open_end(),
        };
        let bytes = Span {
            start: 0,
            end: size,
        };
        let nodes = NodeList::new(alloc, root, bytes)?;
        Ok(Parser {
            texts,
            nodes,
            number: 0,
            semicolon: false,
            frames: Vec::new(alloc),
            gap: Gap::at(text_start(bom)),
            run: Run::new(alloc),
            awaited: Vec::new(alloc),
        })
    }

    fn add_gap(&mut self, piece: &Piece<'t>)
        requires idle { self.old.run ≡ [] }
        requires next { IsNext (sheet self.old.texts) self.old piece.now }
        ensures model { model self.new ≡ next (model self.old) piece.now gap }
        ensures up_to { IsUpTo (sheet self.old.texts) self.new (end_of piece.now) }
    {
        self.gap.end = piece.end();
    }

    fn add_comment(&mut self, piece: &Piece<'t>) -> Result<(), AllocError>
        requires comment { shape piece.now ≡ S.comment }
        requires room { length self.old.nodes < 67108865 }
        requires known { self.old.number < length self.old.nodes }
        requires idle { self.old.run ≡ [] }
        requires next { IsNext (sheet self.old.texts) self.old piece.now }
        ensures model { IfOk result (λ _. model self.new ≡ next (model self.old) piece.now alone) }
        ensures up_to { IfOk result (λ _. IsUpTo (sheet self.old.texts) self.new (end_of piece.now)) }
    {
        let node = comment_node(self.texts, self.number, self.gap, piece)?;
        self.nodes.push(node)?;
        self.gap = Gap::at(piece.end());
        Ok(())
    }

    fn add_leaf(&mut self, piece: &Piece<'t>) -> Result<(), AllocError>
        requires begun { 0 < length self.old.run }
        requires room { length self.old.nodes < 67108865 }
        requires known { self.old.number < length self.old.nodes }
        requires next { IsNext (sheet self.old.texts) self.old piece.now }
        ensures model { IfOk result (λ _. model self.new ≡ next (model self.old) piece.now ends) }
        ensures up_to { IfOk result (λ _. IsUpTo (sheet self.old.texts) self.new (end_of piece.now)) }
    {
        let run = self.run.as_slice();
        let node = leaf_node(self.texts, self.number, self.gap, run)?;
        self.nodes.push(node)?;
        self.semicolon = true;
        self.gap = Gap::at(piece.end());
        self.run.clear();
        Ok(())
    }

    fn open_block(&mut self, piece: Piece<'t>) -> Result<(), AllocError>
        requires room { length self.old.nodes < 67108865 }
        requires known { self.old.number < length self.old.nodes }
        requires next { IsNext (sheet self.old.texts) self.old piece }
        ensures model { IfOk result (λ _. model self.new ≡ next (model self.old) piece.entry opens) }
        ensures up_to { IfOk result (λ _. IsUpTo (sheet self.old.texts) self.new (end_of piece.entry)) }
    {
        let number = self.nodes.len() as u32;
        let run = self.run.as_slice();
        let node = open_node(self.texts, self.number, self.gap, run, &piece)?;
        self.nodes.push(node)?;
        self.gap = Gap::at(piece.end());
        self.frames.push(Frame {
            number: self.number,
            opening: piece,
        })?;
        self.number = number;
        self.semicolon = false;
        self.run.clear();
        Ok(())
    }

    fn await_closer(&mut self, piece: Piece<'t>) -> Result<(), AllocError>
        requires next { IsNext (sheet self.old.texts) self.old piece }
        ensures model { IfOk result (λ _. model self.new ≡ next (model self.old) piece.entry (within (piece.entry ∷ (model self.old).awaited))) }
        ensures up_to { IfOk result (λ _. IsUpTo (sheet self.old.texts) self.new (end_of piece.entry)) }
    {
        self.awaited.push(piece.again())?;
        self.run.push(piece)?;
        Ok(())
    }

    fn close_bracket(&mut self, piece: Piece<'t>) -> Result<(), AllocError>
        requires next { IsNext (sheet self.old.texts) self.old piece }
        ensures model { IfOk result (λ _. model self.new ≡ next (model self.old) piece.entry (within (below (model self.old).awaited))) }
        ensures up_to { IfOk result (λ _. IsUpTo (sheet self.old.texts) self.new (end_of piece.entry)) }
    {
        self.awaited.pop();
        self.run.push(piece)?;
        Ok(())
    }

    fn add_piece(&mut self, piece: Piece<'t>) -> Result<(), AllocError>
        requires next { IsNext (sheet self.old.texts) self.old piece }
        ensures model { IfOk result (λ _. model self.new ≡ next (model self.old) piece.entry (within (model self.old).awaited)) }
        ensures up_to { IfOk result (λ _. IsUpTo (sheet self.old.texts) self.new (end_of piece.entry)) }
    {
        self.run.push(piece)?;
        Ok(())
    }

    /// At a container's end: the statement in progress becomes a node, and its trailing blanks are given back.
    fn give_back(&mut self) -> Result<(), AllocError>
        requires ready { IsReady (model self.old) }
        requires small { IsSmall (model self.old) 67108864 }
        requires behind { IsBehind (sheet self.old.texts) self.old.gap self.old.run }
        ensures model { IfOk result (λ _. model self.new ≡ given (model self.old)) }
        ensures texts { IfOk result (λ _. self.new.texts ≡ self.old.texts) }
        ensures behind { IfOk result (λ _. IsBehind (sheet self.old.texts) self.new.gap []) }
    {
        if self.run.as_slice().is_empty() {
            return Ok(());
        }
        let n = solid_len(self.run.as_slice());
        let run = &self.run.as_slice()[..n];
        let node = leaf_node(self.texts, self.number, self.gap, run)?;
        self.nodes.push(node)?;
        self.semicolon = false;
        self.gap = Gap::at(last_end(self.gap.end, run));
        let blanks = &self.run.as_slice()[n..];
        settle(
            self.texts,
            &mut self.nodes,
            self.number,
            &mut self.gap,
            blanks,
        )?;
        self.run.clear();
        Ok(())
    }

    /// The open container's end.
    fn block(&self) -> Result<Block, AllocError>
        requires { IsPart (sheet self.now.texts) self.now.gap.start self.now.gap.end }
        ensures { IfOk result (λ b. b ≡ record { semicolon = self.now.semicolon; after = Some (gap_text (sheet self.now.texts) self.now.gap) }) }
    {
        let after = self.texts.part(self.gap.start, self.gap.end)?;
        Ok(Block {
            semicolon: self.semicolon,
            after: Some(after),
        })
    }

    /// Writes the open container's end, whose `}` ends at that byte.
    fn seal(&mut self, end: u32) -> Result<(), AllocError>
        requires known { self.old.number < length self.old.nodes }
        requires gap { IsPart (sheet self.old.texts) self.old.gap.start self.old.gap.end }
        ensures model { IfOk result (λ _. (p : Seen) → end_of p ≡ end → model self.new ≡ sealed (model self.old) p) }
        ensures texts { IfOk result (λ _. self.new.texts ≡ self.old.texts) }
    {
        let block = self.block()?;
        self.nodes.set_block(self.number, block);
        self.nodes.set_end(self.number, end);
        Ok(())
    }

    fn seal_root(&mut self) -> Result<(), AllocError>
        requires known { self.old.number < length self.old.nodes }
        requires gap { IsPart (sheet self.old.texts) self.old.gap.start self.old.gap.end }
        ensures { IfOk result (λ _. self.new.nodes ≡ alter self.old.number (seal_root self.old.semicolon (gap_text (sheet self.old.texts) self.old.gap)) self.old.nodes) }
    {
        let block = self.block()?;
        self.nodes.set_block(self.number, block);
        Ok(())
    }

    /// Goes on in the container around it.
    fn leave(&mut self)
        requires { gap_text (sheet self.old.texts) self.old.gap ≡ [] }
        ensures model { model self.new ≡ left (model self.old) }
        ensures texts { self.new.texts ≡ self.old.texts }
        ensures gap { self.new.gap ≡ self.old.gap }
        ensures run { self.new.run ≡ [] }
    {
        match self.frames.pop() {
            Some(frame) => self.number = frame.number,
            None => self.number = 0,
        }
        self.semicolon = false;
        self.run.clear();
    }

    /// Closes the open block behind its last node, where its `}` ends at that byte.
    pub fn close_at(&mut self, end: u32) -> Result<(), AllocError>
        requires known { self.old.number < length self.old.nodes }
        requires gap { IsPart (sheet self.old.texts) self.old.gap.start self.old.gap.end }
        ensures model { IfOk result (λ _. (p : Seen) → end_of p ≡ end → model self.new ≡ left (sealed (model self.old) p)) }
        ensures texts { IfOk result (λ _. self.new.texts ≡ self.old.texts) }
        ensures gap { IfOk result (λ _. self.new.gap ≡ record { start = end; end = end }) }
        ensures run { IfOk result (λ _. self.new.run ≡ []) }
    {
        self.seal(end)?;
        self.gap = Gap::at(end);
        self.leave();
        Ok(())
    }

    fn close_block(&mut self, piece: &Piece<'t>) -> Result<(), AllocError>
        requires ready { IsReady (model self.old) }
        requires small { IsSmall (model self.old) 67108864 }
        requires next { IsNext (sheet self.old.texts) self.old piece.now }
        ensures model { IfOk result (λ _. model self.new ≡ next (model self.old) piece.now closes) }
        ensures up_to { IfOk result (λ _. IsUpTo (sheet self.old.texts) self.new (end_of piece.now)) }
    {
        self.give_back()?;
        self.close_at(piece.end())
    }
}

impl<'t> Parser<'t> {
    fn take(&mut self, piece: Piece<'t>, step: Step) -> Result<(), AllocError>
        requires ready { IsReady (model self.old) }
        requires small { length self.old.nodes + length self.old.run ≤ 67108864 }
        requires begun { step ≡ St.End → 0 < length self.old.run }
        requires comment { step ≡ St.Comment → shape piece ≡ S.comment }
        requires alone { step ≡ St.Comment → self.old.run ≡ [] }
        requires skipped { step ≡ St.Skip → self.old.run ≡ [] }
        requires next { IsNext (sheet self.old.texts) self.old piece }
        ensures model { IfOk result (λ _. (t : Turn) → IsStep step t (model self.old).awaited piece.entry → model self.new ≡ next (model self.old) piece.entry t) }
        ensures up_to { IfOk result (λ _. IsUpTo (sheet self.old.texts) self.new (end_of piece.entry)) }
    {
        match step {
            Step::Await => self.await_closer(piece),
            Step::Answer => self.close_bracket(piece),
            Step::Keep => self.add_piece(piece),
            Step::Skip => {
                self.add_gap(&piece);
                Ok(())
            }
            Step::Comment => self.add_comment(&piece),
            Step::End => self.add_leaf(&piece),
            Step::Close => self.close_block(&piece),
            Step::Open => self.open_block(piece),
        }
    }

    /// Reads one more piece. After an error the parser may not be used again.
    pub fn step(&mut self, piece: Piece<'t>) -> Result<(), Stop<Found>>
        requires ready { IsReady (model self.old) }
        requires small { IsSmall (model self.old) piece.at }
        requires longer { piece.at < end_of piece }
        requires within { end_of piece ≤ 67108864 }
        requires next { IsNext (sheet self.old.texts) self.old piece }
        ensures ready { IfOk result (λ _. IsReady (model self.new)) }
        ensures small { IfOk result (λ _. IsSmall (model self.new) (end_of piece.entry)) }
        ensures goes_on { IfOk result (λ _. Advances (model self.old) piece.entry (model self.new)) }
        ensures stops { IfErr result (λ e. IsStop e (model self.old) piece.entry) }
        ensures up_to { IfOk result (λ _. IsUpTo (sheet self.old.texts) self.new (end_of piece.entry)) }
    {
        let step = turn(&self.run, &self.awaited, piece.shape());
        if let Some(fault) = fits(self.frames.len(), &self.run, &piece, step) {
            return Err(Stop::Fault(fault));
        }
        match self.take(piece, step) {
            Ok(()) => Ok(()),
            Err(e) => Err(Stop::Memory(e)),
        }
    }

    /// The nodes of the text whose pieces were read.
    pub fn finish(mut self) -> Result<NodeList, Stop<Found>>
        requires ready { IsReady (model self) }
        requires small { IsSmall (model self) 67108864 }
        requires behind { IsBehind (sheet self.texts) self.gap self.run }
        ensures { IsEnd result (model self.entry) }
    {
        if let Some(fault) = fits_end(&self.awaited, &self.run, &self.frames) {
            return Err(Stop::Fault(fault));
        }
        if let Err(e) = self.give_back() {
            return Err(Stop::Memory(e));
        }
        if let Err(e) = self.seal_root() {
            return Err(Stop::Memory(e));
        }
        Ok(self.nodes)
    }
}
