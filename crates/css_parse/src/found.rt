// A fault before its place is looked up.
ghost use Rattle.std.specs.Prelude.{◌≡◌, ◌≤◌};

use css_tree::fault::SyntaxKind;
use std::marker::Model;

/// The kind of a fault, and the byte at which it stands.
#[derive(Clone, Copy)]
pub struct Found {
    kind: SyntaxKind,
    at: u32,
}

impl Model for Found {
    ghost use Rattle.css_tree.specs.Fault.{Fault};

    ghost Value = { Fault };

    ghost view = { λ f. record { kind = f.kind; at = f.at } };

    ghost inverse = { λ f. record { kind = f.kind; at = f.at } };
}

impl Found {
    /// The fault of that kind at that byte.
    pub fn new(kind: SyntaxKind, at: u32) -> Found
        ensures { result ≡ record { kind = kind; at = at } }
    {
        Found { kind, at }
    }

    /// What is wrong there.
    pub fn kind(&self) -> SyntaxKind
        ensures { result ≡ self.now.kind }
    {
        self.kind
    }

    /// The bytes before it, a byte order mark among them.
    pub fn at(&self) -> u32
        ensures { result ≡ self.now.at }
    {
        self.at
    }
}
