// The marks of the nodes that were changed.
ghost use Rattle.std.specs.Prelude.{◌≡◌, ◌<◌, length};
ghost use Rattle.node_rows.specs.Marks.{with_mark, mark, dirtied};

use crate::rows::Rows;

impl Rows {
    /// Marks the node as dirty or as clean.
    pub fn set_dirty(&mut self, n: u32, dirty: bool)
        requires { n < length self.old }
        ensures { self.new ≡ with_mark self.old n dirty }
    {
        let row = &mut self.items[n as usize];
        row.tally.set_dirty(dirty);
    }

    /// Makes a clean node and all its ancestors dirty, and leaves a dirty one. An ancestor may be dirty while one further
    /// up is clean, so this goes up to the top.
    pub fn mark(&mut self, n: u32)
        requires { n < length self.old }
        ensures { self.new ≡ mark self.old n }
    {
        if self.is_dirty(n) {
            return;
        }
        self.facts();
        let mut at = Some(n);
        while let Some(m) = at {
            self.set_dirty(m, true);
            at = self.parent(m);
        }
    }

    /// Makes the node and all nodes below it dirty, with no memory: it goes over them in document order.
    pub fn dirty_tree(&mut self, n: u32)
        requires { n < length self.old }
        ensures { self.new ≡ dirtied self.old n }
    {
        self.facts();
        let mut at = Some(n);
        while let Some(m) = at {
            self.set_dirty(m, true);
            at = self.follower(n, m);
        }
    }
}
