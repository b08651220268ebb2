// The end of a container, which is known after what stands in it.
ghost use Rattle.std.specs.Prelude.{◌≡◌, ◌<◌, length};
ghost use Rattle.node_rows.specs.Nodes.{text_of, with_text};
ghost use Rattle.node_rows.specs.Ends.{with_block, with_end};

use crate::rows::Rows;
use css_tree::node::{Block, NodeText};

fn set_block(text: &mut NodeText, block: Block)
    ensures { text.new ≡ with_block text.old block }
{
    match text {
        NodeText::Root { block: b, .. } => *b = block,
        NodeText::AtRule { block: b, .. } => *b = Some(block),
        NodeText::Rule { block: b, .. } => *b = block,
        NodeText::Declaration { .. } => {}
        NodeText::Comment { .. } => {}
    }
}

impl Rows {
    // Writes the end of the container n.
    pub(crate) fn set_block(&mut self, n: u32, block: Block)
        requires { n < length self.old }
        ensures { self.new ≡ with_text self.old n (with_block (text_of self.old n) block) }
    {
        let row = &mut self.items[n as usize];
        set_block(&mut row.text, block);
    }

    // Lets the body of n end before the byte.
    pub(crate) fn set_end(&mut self, n: u32, end: u32)
        requires { n < length self.old }
        ensures { self.new ≡ with_end self.old n end }
    {
        let row = &mut self.items[n as usize];
        row.span.set_end(end);
    }
}
