// The numbers of nodes.
ghost use Rattle.std.specs.Prelude.{◌≡◌};

use std::marker::Model;

/// The number of a node. Numbers are given out from 0 on, which is the root, and none is used again.
#[derive(Clone, Copy, PartialEq, Eq, Debug)]
pub struct NodeId {
    number: u32,
}

impl Model for NodeId {
    ghost use Rattle.std.specs.Prelude.{ℕ};

    ghost Value = { ℕ };

    ghost view = { λ n. n.number };

    ghost inverse = { λ n. record { number = n } };
}

impl NodeId {
    /// The node of that number.
    pub fn new(number: u32) -> NodeId
        ensures { result ≡ number }
    {
        NodeId { number }
    }

    /// The node's number.
    pub fn number(&self) -> u32
        ensures { result ≡ self.now }
    {
        self.number
    }
}
