// Cursors: each goes over the children of one container while the tree is changed.
ghost use Rattle.std.specs.Prelude.{◌≡◌, ℕ, ◌<◌, length, drop, Option, Some, None, Ok, Err, MatchOption, MatchResult};
ghost use Rattle.node_rows.specs.Nodes.{Node, children_of, is_dirty};
ghost use Rattle.node_store.specs.Forest.{Forest, Place, cursor_at};
ghost use Rattle.node_store.specs.Cursors.{through, first_of, any_child, next_of, after_next, next_dirty_of, after_next_dirty};
ghost use Rattle.node_store.specs.Answers.{open_refusal, IsOpenAnswer, IsCloseAnswer};
ghost use Rattle.node_store.specs.Seats.{passed_of, shown_seat, seat_in, IsChildOf, IsSeat};
ghost use Rattle.node_store.specs.Passing.{passed_to};

use crate::fault::TreeFault;
use crate::id::NodeId;
use crate::seat::Seat;
use crate::work::Work;
use css_text::stop::Stop;
use node_rows::rows::Rows;
use std::alloc::AllocError;
use std::marker::Model;

/// A cursor over the children of a container. What a clause sees of it is its serial.
#[derive(Drop)]
pub struct Cursor {
    serial: usize,
}

impl Model for Cursor {
    ghost use Rattle.std.specs.Prelude.{ℕ};

    ghost Value = { ℕ };

    ghost view = { λ c. c.serial };
}

// The child behind those that are passed.
fn next_ahead(rows: &Rows, seat: Seat) -> Option<u32>
    requires { IsSeat rows.now (Some seat) }
    ensures { result ≡ first_of (through any_child (drop (passed_of rows.now seat.container seat.last) (children_of rows.now seat.container))) }
{
    rows.facts();
    match seat.last {
        None => rows.first_child(seat.container),
        Some(last) => rows.next_sibling(last),
    }
}

// The first dirty child behind those that are passed.
fn dirty_ahead(rows: &Rows, seat: Seat) -> Option<u32>
    requires { IsSeat rows.now (Some seat) }
    ensures { result ≡ first_of (through (is_dirty rows.now) (drop (passed_of rows.now seat.container seat.last) (children_of rows.now seat.container))) }
{
    rows.facts();
    let mut at = next_ahead(rows, seat);
    while let Some(child) = at {
        if rows.is_dirty(child) {
            return Some(child);
        }
        at = rows.next_sibling(child);
    }
    None
}

// Drops the closed seats at the end.
fn drop_closed(seats: &mut Vec<Option<Seat>>)
    ensures { (i : ℕ) → seat_in seats.new.items i ≡ seat_in seats.old.items i }
{
    let mut kept = seats.len();
    while kept > 0 && seats[kept - 1].is_none() {
        kept -= 1;
    }
    seats.truncate(kept);
}

impl Work {
    // The number of a container, as the rows know it.
    fn container(&self, n: NodeId) -> Result<u32, TreeFault>
        ensures { MatchResult result (λ m. (m ≡ n) × (open_refusal self.now n ≡ None)) (λ e. open_refusal self.now n ≡ Some e) }
    {
        match self.has_block(n) {
            Err(fault) => Err(fault),
            Ok(false) => Err(TreeFault::WrongKind),
            Ok(true) => Ok(n.number()),
        }
    }

    // The seat of an open cursor.
    fn seat(&self, serial: usize) -> Option<Seat>
        ensures { MatchOption result (cursor_at self.now.cursors serial ≡ None) (λ s. (cursor_at self.now.cursors serial ≡ Some (shown_seat self.now.nodes s)) × IsSeat self.now.nodes (Some s)) }
    {
        if serial < self.seats.len() {
            self.seats[serial]
        } else {
            None
        }
    }

    // The cursor has passed the child that was found, and all before it.
    fn pass(&mut self, serial: usize, seat: Seat, found: Option<u32>) -> Option<NodeId>
        requires open { cursor_at self.old.cursors serial ≡ Some (shown_seat self.old.nodes seat) }
        requires fits { IsSeat self.old.nodes (Some seat) }
        requires child { IsChildOf self.old.nodes seat.container found }
        ensures value { result ≡ found }
        ensures state { self.new ≡ passed_to self.old serial seat.container found }
    {
        match found {
            None => None,
            Some(child) => {
                self.seats[serial] = Some(Seat {
                    container: seat.container,
                    last: Some(child),
                });
                Some(NodeId::new(child))
            }
        }
    }

    /// Opens a cursor over the children of a container, of which none is passed. No other open cursor of this work has
    /// its serial.
    ///
    /// Refused as NoSuchNode, and as WrongKind where the node has no block; nothing is changed then, nor for want of
    /// memory.
    pub fn open_each(&mut self, n: NodeId) -> Result<Cursor, Stop<TreeFault>>
        ensures { IsOpenAnswer self.old self.new n result }
    {
        let container = match self.container(n) {
            Ok(container) => container,
            Err(fault) => return Err(Stop::Fault(fault)),
        };
        let serial = self.seats.len();
        let seat = Seat {
            container,
            last: None,
        };
        match self.seats.push(Some(seat)) {
            Ok(()) => Ok(Cursor { serial }),
            Err(_) => Err(Stop::Memory(AllocError)),
        }
    }

    /// The next child, which is passed then; none where all are passed. It takes no memory.
    ///
    /// Refused as NoSuchCursor where this work has no open cursor of that serial.
    pub fn next(&mut self, cursor: &Cursor) -> Result<Option<NodeId>, TreeFault>
        ensures value { result ≡ next_of self.old cursor.now }
        ensures state { self.new ≡ after_next self.old cursor.now }
    {
        match self.seat(cursor.serial) {
            None => Err(TreeFault::NoSuchCursor),
            Some(seat) => {
                self.rows.facts();
                let found = next_ahead(&self.rows, seat);
                Ok(self.pass(cursor.serial, seat, found))
            }
        }
    }

    /// The first dirty child that isn't passed. It and the children before it are passed then; where there is none, no
    /// more are passed. It takes no memory.
    ///
    /// Refused as NoSuchCursor where this work has no open cursor of that serial.
    pub fn next_dirty(&mut self, cursor: &Cursor) -> Result<Option<NodeId>, TreeFault>
        ensures value { result ≡ next_dirty_of self.old cursor.now }
        ensures state { self.new ≡ after_next_dirty self.old cursor.now }
    {
        match self.seat(cursor.serial) {
            None => Err(TreeFault::NoSuchCursor),
            Some(seat) => {
                self.rows.facts();
                let found = dirty_ahead(&self.rows, seat);
                Ok(self.pass(cursor.serial, seat, found))
            }
        }
    }

    /// Closes the cursor. Its serial may be given to a later one. It takes no memory.
    ///
    /// Refused as NoSuchCursor where this work has no open cursor of that serial.
    pub fn close(&mut self, cursor: Cursor) -> Result<(), TreeFault>
        ensures { IsCloseAnswer self.old self.new cursor result }
    {
        match self.seat(cursor.serial) {
            None => Err(TreeFault::NoSuchCursor),
            Some(_) => {
                self.seats[cursor.serial] = None;
                drop_closed(&mut self.seats);
                Ok(())
            }
        }
    }
}
