// The text that is printed so far, with the starts of its nodes.
ghost use Rattle.std.specs.Prelude.{◌≡◌, ◌∷◌, [], ◌<◌, ◌*◌, ◌^◌, IfOk, OnOk, filter};
ghost use Rattle.std.specs.Str.{chars};
ghost use Rattle.css_text.specs.Characters.{is_space};
ghost use Rattle.css_tree.specs.Print.{new_line};
ghost use Rattle.stringify.specs.Sheet.{Sheet, put, begin};

use crate::printed::{Printed, Start};
use css_text::txt::Txt;
use node_store::id::NodeId;
use std::alloc::{AllocError, Global};
use std::marker::Model;

/// A text as it is printed, and at which bytes its nodes start. A clause sees its characters, and the starts.
#[derive(Drop)]
pub struct Output {
    text: String,
    starts: Vec<Start>,
}

impl Model for Output {
    ghost use Rattle.std.specs.String.{string_bytes};
    ghost use Rattle.std.specs.Str.{chars};
    ghost use Rattle.stringify.specs.Sheet.{Sheet};

    ghost Value = { Sheet };

    ghost view = { λ o. record { text = chars (string_bytes o.text); starts = o.starts.items } };
}

// The white space of CSS.
#[tactic(auto, unfolding(css_text::specs::Characters::is_space))]
fn is_space(c: char) -> bool
    ensures { result ≡ is_space c }
{
    c == ' ' || c == '\t' || c == '\n' || c == '\r' || c == '\u{c}'
}

impl Output {
    /// Nothing so far.
    pub fn new(alloc: Global) -> Output
        ensures { result ≡ record { text = []; starts = [] } }
    {
        Output {
            text: String::new(alloc),
            starts: Vec::new(alloc),
        }
    }

    /// Nothing so far, with room for so many bytes and starts.
    pub fn with_capacity(alloc: Global, bytes: usize, starts: usize) -> Result<Output, AllocError>
        ensures { IfOk result (λ out. out ≡ record { text = []; starts = [] }) }
    {
        Ok(Output {
            text: String::with_capacity(alloc, bytes)?,
            starts: Vec::with_capacity(alloc, starts)?,
        })
    }

    /// Prints a text.
    pub fn push_str(&mut self, s: &str) -> Result<(), AllocError>
        ensures { OnOk result (self.new ≡ put (chars s.now) self.old) }
    {
        self.text.push_str(s)?;
        Ok(())
    }

    /// Prints a character.
    pub fn push(&mut self, c: char) -> Result<(), AllocError>
        ensures { OnOk result (self.new ≡ put (c ∷ []) self.old) }
    {
        self.text.push(c)?;
        Ok(())
    }

    /// The body of node n starts here.
    pub fn begin(&mut self, n: NodeId) -> Result<(), AllocError>
        ensures { OnOk result (self.new ≡ begin n self.old) }
    {
        let at = self.text.len() as u64;
        self.starts.push(Start { node: n, at })?;
        Ok(())
    }

    /// Prints a line feed, and four spaces for each level.
    pub fn push_new_line(&mut self, depth: usize) -> Result<(), AllocError>
        requires { depth < 2 ^ 32 }
        ensures { OnOk result (self.new ≡ put (new_line depth) self.old) }
    {
        self.push('\n')?;
        for _i in 0..4 * depth {
            self.push(' ')?;
        }
        Ok(())
    }

    fn push_if_space(&mut self, c: char) -> Result<(), AllocError>
        ensures { OnOk result (self.new ≡ put (filter is_space (c ∷ [])) self.old) }
    {
        if is_space(c) { self.push(c) } else { Ok(()) }
    }

    /// Prints the white space of a text alone.
    pub fn push_spaces(&mut self, s: &str) -> Result<(), AllocError>
        ensures { OnOk result (self.new ≡ put (filter is_space (chars s.now)) self.old) }
    {
        for c in s.chars() {
            self.push_if_space(c)?;
        }
        Ok(())
    }

    /// The text and the starts. It fails for want of memory alone.
    pub fn finish(self, alloc: Global) -> Result<Printed, AllocError>
        ensures text { IfOk result (λ printed. printed.text ≡ self.text) }
        ensures starts { IfOk result (λ printed. printed.starts.items ≡ self.starts) }
    {
        let Output { text, starts } = self;
        let text = Txt::from_string(alloc, text)?;
        Ok(Printed { text, starts })
    }
}
