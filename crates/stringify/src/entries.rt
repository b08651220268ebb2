// Trees for tests, made node by node in document order.
ghost use Rattle.std.specs.Prelude.{◌≡◌, ◌≢◌, [], true, nat_eq, IfOk, IsSome};
ghost use Rattle.css_tree.specs.declared.node.Kind.TheVariants as K;
ghost use Rattle.css_tree.specs.Parts.{kind_of, block_of};
ghost use Rattle.std.specs.List.{list_any};
ghost use Rattle.node_rows.specs.NodeList.{parents_in, last_path};

use css_text::lexer::Span;
use css_text::stop::Stop;
use css_text::text::Text;
use css_text::txt::Txt;
use css_tree::node::{Block, Kind, NodeText, Source};
use node_rows::node_list::NodeAt;
use node_store::parts;
use node_store::work::Work;
use std::alloc::{AllocError, Global};
use std::marker::Model;

/// A tree under way, as the list of its nodes.
#[derive(Drop)]
pub struct Entries {
    nodes: Vec<NodeAt>,
}

impl Model for Entries {
    ghost use Rattle.std.specs.Prelude.{List, []};
    ghost use Rattle.node_rows.specs.declared.node_list.NodeAt.{NodeAt};
    ghost use Rattle.node_store.specs.NodeList.{IsNodeList};

    ghost Value = { List NodeAt };

    ghost view = { λ e. e.nodes.items };

    ghost invariant = { λ e. IsNodeList [] e.nodes.items };
}

fn empty_text(alloc: Global) -> Result<Text, AllocError>
    ensures { IfOk result (λ text. text ≡ []) }
{
    match Text::new(alloc, Vec::new(alloc)) {
        Ok(text) => Ok(text),
        Err(Stop::Memory(error)) => Err(error),
        Err(Stop::Fault(_)) => unreachable!(),
    }
}

// Whether a node of that text may have the other as its child.
fn fits(parent: &NodeText, child: &NodeText) -> bool
    ensures { result ≡ true → (kind_of child.now ≢ K.Root) × IsSome (block_of parent.now) }
{
    match parts::block(parent) {
        Some(_) => match parts::kind(child) {
            Kind::Root => false,
            _ => true,
        },
        None => false,
    }
}

impl Entries {
    /// A root alone, with that text before the end of the sheet.
    pub fn new(alloc: Global, after: &str) -> Result<Entries, AllocError> {
        let block = Block {
            semicolon: false,
            after: Some(Txt::new(alloc, after)?),
        };
        let mut nodes = Vec::new(alloc);
        nodes.push(NodeAt {
            parent: 0,
            text: NodeText::Root { bom: false, block },
            span: Span { start: 0, end: 0 },
        })?;
        Ok(Entries { nodes })
    }

    fn push(&mut self, parent: u32, text: NodeText) -> Result<bool, AllocError>
        requires { list_any (nat_eq parent) (last_path (parents_in self.old)) ≡ true }
    {
        if self.nodes.len() >= 33_554_433 || (parent as usize) >= self.nodes.len() {
            return Ok(false);
        }
        if !fits(&self.nodes[parent as usize].text, &text) {
            return Ok(false);
        }
        self.nodes.push(NodeAt {
            parent,
            text,
            span: Span { start: 0, end: 0 },
        })?;
        Ok(true)
    }

    /// A child of the root; false where it can't be one.
    pub fn push_top(&mut self, text: NodeText) -> Result<bool, AllocError> {
        let root = self.root();
        self.push(root, text)
    }

    /// A child of the last node; false where that has no block.
    pub fn push_below(&mut self, text: NodeText) -> Result<bool, AllocError> {
        let last = self.last();
        self.push(last, text)
    }

    fn root(&self) -> u32
        ensures { list_any (nat_eq result) (last_path (parents_in self.now)) ≡ true }
    {
        let _ = &self.nodes;
        0
    }

    fn last(&self) -> u32
        ensures { list_any (nat_eq result) (last_path (parents_in self.now)) ≡ true }
    {
        (self.nodes.len() - 1) as u32
    }

    /// The work of the nodes, over an empty text.
    pub fn work(self, alloc: Global) -> Result<Work, AllocError> {
        let Entries { nodes } = self;
        let text = empty_text(alloc)?;
        Work::from_nodes(alloc, text, nodes)
    }
}

fn source(alloc: Global, text: &str) -> Result<Source, AllocError> {
    Ok(Source {
        source: Txt::new(alloc, text)?,
        clean: Txt::new(alloc, text)?,
    })
}

/// An at-rule with an empty block.
pub fn at_rule(alloc: Global, name: &str, params: &str) -> Result<NodeText, AllocError> {
    Ok(NodeText::AtRule {
        before: Some(Txt::new(alloc, "")?),
        name: Txt::new(alloc, name)?,
        after_name: Txt::new(alloc, " ")?,
        params: source(alloc, params)?,
        between: Txt::new(alloc, "")?,
        block: Some(Block {
            semicolon: false,
            after: Some(Txt::new(alloc, "")?),
        }),
    })
}

/// A rule with an empty block.
pub fn rule(alloc: Global, selector: &str) -> Result<NodeText, AllocError> {
    Ok(NodeText::Rule {
        before: Some(Txt::new(alloc, "")?),
        selector: source(alloc, selector)?,
        between: Txt::new(alloc, "")?,
        block: Block {
            semicolon: false,
            after: Some(Txt::new(alloc, "")?),
        },
    })
}

/// Without `before` and `after`.
pub fn bare_rule(alloc: Global, selector: &str) -> Result<NodeText, AllocError> {
    Ok(NodeText::Rule {
        before: None,
        selector: source(alloc, selector)?,
        between: Txt::new(alloc, " ")?,
        block: Block {
            semicolon: true,
            after: None,
        },
    })
}

/// A declaration of the property `b` with the value `c`.
pub fn decl(
    alloc: Global,
    before: Option<Txt>,
    between: &str,
    important: bool,
) -> Result<NodeText, AllocError> {
    Ok(NodeText::Declaration {
        before,
        prop: Txt::new(alloc, "b")?,
        between: Txt::new(alloc, between)?,
        value: source(alloc, "c")?,
        important,
        important_raw: Txt::new(alloc, "!important")?,
        tail: Txt::new(alloc, "")?,
    })
}

/// A comment with one space before its text.
pub fn comment(alloc: Global, text: &str) -> Result<NodeText, AllocError> {
    Ok(NodeText::Comment {
        before: Some(Txt::new(alloc, "")?),
        left: Txt::new(alloc, " ")?,
        text: Txt::new(alloc, text)?,
        right: Txt::new(alloc, "")?,
    })
}
