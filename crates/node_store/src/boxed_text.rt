// A node's text in a box of its own.
ghost use Rattle.std.specs.Prelude.{◌≡◌, IfOk};

use css_tree::node::NodeText;
use std::alloc::{AllocError, Global};
use std::marker::Model;

/// A node's text that is held in a box of its own, so that what holds it stays small. A clause sees the text.
#[derive(Drop)]
pub struct BoxedText {
    held: Box<NodeText>,
}

impl Model for BoxedText {
    ghost use Rattle.css_tree.specs.declared.node.NodeText.{NodeText};

    ghost Value = { NodeText };

    ghost view = { λ b. b.held.value };
}

impl BoxedText {
    /// The text in a box. The only error is want of memory.
    pub fn new(alloc: Global, text: NodeText) -> Result<BoxedText, AllocError>
        ensures { IfOk result (λ boxed. boxed ≡ text) }
    {
        match Box::new(alloc, text) {
            Ok(held) => Ok(BoxedText { held }),
            Err(_) => Err(AllocError),
        }
    }

    /// The text.
    pub fn as_text(&self) -> &NodeText
        ensures { result.now ≡ self.now }
    {
        &self.held
    }
}
