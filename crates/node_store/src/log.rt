// The log, and what is reserved in it.
ghost use Rattle.std.specs.Prelude.{◌≡◌, ◌≤◌, [], true, Some, IsSome, OnOk, MatchResult};
ghost use Rattle.css_tree.specs.Parts.{block_of};
ghost use Rattle.node_rows.specs.Nodes.{text_of};
ghost use Rattle.node_store.specs.Forest.{unreserved};
ghost use Rattle.node_store.specs.Edits.{noted};
ghost use Rattle.node_store.specs.Notes.{is_note};

use crate::id::NodeId;
use crate::item::Item;
use crate::work::Work;
use std::alloc::AllocError;
use std::mem;

impl Work {
    /// Logs one item of the walk. An entry also makes its node clean.
    ///
    /// Fails for want of memory alone, and changes nothing then.
    #[inline(always)]
    pub fn note(&mut self, item: Item) -> Result<(), AllocError>
        requires { is_note self.old.nodes item ≡ true }
        ensures { MatchResult result (λ _. unreserved self.new ≡ noted (unreserved self.old) item) (λ _. unreserved self.new ≡ unreserved self.old) }
    {
        let entered = match &item {
            Item::Enter(node) => Some(node.number()),
            _ => None,
        };
        self.log.push(item)?;
        if let Some(number) = entered {
            self.rows.set_dirty(number, false);
        }
        Ok(())
    }

    /// The log, which is empty then. It takes no memory.
    pub fn take_log(&mut self) -> Vec<Item>
        ensures log { result.items ≡ self.old.log }
        ensures state { self.new ≡ record self.old { log = []; spare = 0 } }
    {
        let empty = Vec::new(self.alloc);
        mem::replace(&mut self.log, empty)
    }

    /// Makes the log ready to take so many items without memory.
    ///
    /// Fails for want of memory alone. The tree, the cursors, the log and the room stay.
    pub fn reserve_log(&mut self, count: u32) -> Result<(), AllocError>
        ensures ok { OnOk result (count ≤ self.new.spare) }
        ensures spare { self.old.spare ≤ self.new.spare }
        ensures room { self.new.room ≡ self.old.room }
        ensures rest { unreserved self.new ≡ unreserved self.old }
    {
        self.log.reserve(count as usize)
    }

    /// Keeps a place in the container, so that a node can be put into it without memory where the log can take the edit
    /// without memory. A place is kept for one container at a time.
    ///
    /// Fails for want of memory alone. The tree, the cursors and the log stay.
    pub fn reserve_place(&mut self, parent: NodeId) -> Result<(), AllocError>
        requires { IsSome (block_of (text_of self.old.nodes parent)) }
        ensures ok { OnOk result (self.new.room ≡ Some parent) }
        ensures spare { self.old.spare ≤ self.new.spare }
        ensures rest { unreserved self.new ≡ unreserved self.old }
    {
        self.room = Some(parent.number());
        Ok(())
    }
}
