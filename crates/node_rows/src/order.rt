// Which nodes stand above a node, and which one follows it.
ghost use Rattle.std.specs.Prelude.{◌≡◌, ◌<◌, length, true};
ghost use Rattle.node_rows.specs.Nodes.{holds};
ghost use Rattle.node_rows.specs.Beyond.{IsNext, behind};

use crate::rows::Rows;

impl Rows {
    /// Whether n is `top` or stands below it.
    pub fn holds(&self, top: u32, n: u32) -> bool
        requires { n < length self.now }
        ensures { result ≡ holds self.now top n }
    {
        self.facts();
        let mut at = n;
        while at != top {
            match self.parent(at) {
                None => return false,
                Some(p) => at = p,
            }
        }
        true
    }

    /// Whether the node is the root or stands below it.
    pub fn is_below_root(&self, n: u32) -> bool
        requires { n < length self.now }
        ensures { result ≡ holds self.now 0 n }
    {
        self.holds(0, n)
    }

    /// The node behind m in document order, in the tree of `top`. A walk over a whole tree by it takes linear time.
    pub fn follower(&self, top: u32, m: u32) -> Option<u32>
        requires given { m < length self.now }
        requires root { top < length self.now }
        requires held { holds self.now top m ≡ true }
        ensures { IsNext self.now top (behind self.now top m) result }
    {
        self.facts();
        if let Some(first) = self.first_child(m) {
            return Some(first);
        }
        let mut at = m;
        while at != top {
            match self.parent(at) {
                None => unreachable!(),
                Some(parent) => match self.next_sibling(at) {
                    Some(next) => return Some(next),
                    None => at = parent,
                },
            }
        }
        None
    }
}
