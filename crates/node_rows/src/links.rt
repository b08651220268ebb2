// The links between the rows: a child is found, put in and taken out.
ghost use Rattle.std.specs.Prelude.{◌≡◌, ◌-◌, ◌<◌, ◌≤◌, ◌≢◌, take, drop, length, slice_get, false, Option, Some, None};
ghost use Rattle.node_rows.specs.Nodes.{parent_of, children_of, holds, place_of, linked, unlinked};
ghost use Rattle.node_rows.specs.Fingers.{IsFinger};
ghost use Rattle.node_rows.specs.Shown.{IsLinked, listed, row_at, shown_rows};
ghost use Rattle.node_rows.specs.Joins.{placed, with_after, with_before, joined_in, freed, cut_from, IsWithin};
ghost use Rattle.node_rows.specs.Segments.{end_of, start_of};

use crate::finger::{Finger, finger_with};
use crate::packed::Link;
use crate::rows::{Row, Rows};

// The children of p on both sides of the place `at`, found onward from those on both sides of the place `from`.
fn gap_onward(rows: &Vec<Row>, p: u32, from: usize, at: usize, gap: (Link, Link)) -> (Link, Link)
    requires sound { IsLinked rows.now.items }
    requires given { p < length rows.now.items }
    requires order { from ≤ at }
    requires before { gap.0 ≡ end_of None (take from (listed rows.now.items (row_at rows.now.items p))) }
    requires after { gap.1 ≡ start_of (drop from (listed rows.now.items (row_at rows.now.items p))) None }
    ensures before { result.0 ≡ end_of None (take at (listed rows.now.items (row_at rows.now.items p))) }
    ensures after { result.1 ≡ start_of (drop at (listed rows.now.items (row_at rows.now.items p))) None }
{
    let (mut before, mut after) = gap;
    for _i in from..at {
        if let Some(child) = after.get() {
            before = after;
            after = rows[child as usize].after;
        }
    }
    (before, after)
}

// The same, found back from a place that isn't earlier.
fn gap_back(rows: &Vec<Row>, p: u32, from: usize, at: usize, gap: (Link, Link)) -> (Link, Link)
    requires sound { IsLinked rows.now.items }
    requires given { p < length rows.now.items }
    requires order { at ≤ from }
    requires inside { from ≤ length (listed rows.now.items (row_at rows.now.items p)) }
    requires before { gap.0 ≡ end_of None (take from (listed rows.now.items (row_at rows.now.items p))) }
    requires after { gap.1 ≡ start_of (drop from (listed rows.now.items (row_at rows.now.items p))) None }
    ensures before { result.0 ≡ end_of None (take at (listed rows.now.items (row_at rows.now.items p))) }
    ensures after { result.1 ≡ start_of (drop at (listed rows.now.items (row_at rows.now.items p))) None }
{
    let (mut before, mut after) = gap;
    for _i in at..from {
        if let Some(child) = before.get() {
            after = before;
            before = rows[child as usize].before;
        }
    }
    (before, after)
}

// The same, found from the nearer end.
fn gap_from_end(rows: &Vec<Row>, p: u32, at: usize) -> (Link, Link)
    requires sound { IsLinked rows.now.items }
    requires given { p < length rows.now.items }
    requires place { at ≤ length (listed rows.now.items (row_at rows.now.items p)) }
    ensures before { result.0 ≡ end_of None (take at (listed rows.now.items (row_at rows.now.items p))) }
    ensures after { result.1 ≡ start_of (drop at (listed rows.now.items (row_at rows.now.items p))) None }
{
    let row = &rows[p as usize];
    let count = row.tally.count() as usize;
    if at <= count - at {
        gap_onward(rows, p, 0, at, (Link::none(), row.first))
    } else {
        gap_back(rows, p, count, at, (row.last, Link::none()))
    }
}

// The same, found from the child that the finger is at.
fn gap_from_finger(rows: &Vec<Row>, p: u32, at: usize, finger: Finger) -> (Link, Link)
    requires sound { IsLinked rows.now.items }
    requires given { p < length rows.now.items }
    requires finger { slice_get (listed rows.now.items (row_at rows.now.items p)) finger.place ≡ Some finger.node }
    ensures before { result.0 ≡ end_of None (take at (listed rows.now.items (row_at rows.now.items p))) }
    ensures after { result.1 ≡ start_of (drop at (listed rows.now.items (row_at rows.now.items p))) None }
{
    let gap = (rows[finger.node as usize].before, Link::some(finger.node));
    if finger.place <= at {
        gap_onward(rows, p, finger.place, at, gap)
    } else {
        gap_back(rows, p, finger.place, at, gap)
    }
}

// The same, found from the nearer end, or from the finger where it is nearer.
fn gap(rows: &Vec<Row>, p: u32, at: usize, finger: Option<Finger>) -> (Link, Link)
    requires sound { IsLinked rows.now.items }
    requires given { p < length rows.now.items }
    requires place { at ≤ length (listed rows.now.items (row_at rows.now.items p)) }
    requires finger { IsFinger (shown_rows rows.now.items) finger }
    ensures before { result.0 ≡ end_of None (take at (listed rows.now.items (row_at rows.now.items p))) }
    ensures after { result.1 ≡ start_of (drop at (listed rows.now.items (row_at rows.now.items p))) None }
{
    let left = rows[p as usize].tally.count() as usize - at;
    match finger {
        Some(finger) if finger.parent == p && finger.place.abs_diff(at) < at.min(left) => {
            gap_from_finger(rows, p, at, finger)
        }
        _ => gap_from_end(rows, p, at),
    }
}

// n stands below p, between `before` and `after`.
fn put(rows: &mut Vec<Row>, n: u32, p: u32, before: Link, after: Link)
    requires node { n < length rows.old.items }
    requires few { p < 4294967295 }
    ensures { rows.new.items ≡ placed rows.old.items n p before after }
{
    let row = &mut rows[n as usize];
    row.parent = Link::some(p);
    row.before = before;
    row.after = after;
}

// What comes behind `before`, or first in p.
fn set_after(rows: &mut Vec<Row>, before: Link, p: u32, after: Link)
    requires given { p < length rows.old.items }
    requires within { IsWithin rows.old.items before }
    ensures { rows.new.items ≡ with_after rows.old.items before p after }
{
    match before.get() {
        None => {
            let row = &mut rows[p as usize];
            row.first = after;
        }
        Some(b) => {
            let row = &mut rows[b as usize];
            row.after = after;
        }
    }
}

// What comes before `after`, or last in p.
fn set_before(rows: &mut Vec<Row>, after: Link, p: u32, before: Link)
    requires given { p < length rows.old.items }
    requires within { IsWithin rows.old.items after }
    ensures { rows.new.items ≡ with_before rows.old.items after p before }
{
    match after.get() {
        None => {
            let row = &mut rows[p as usize];
            row.last = before;
        }
        Some(a) => {
            let row = &mut rows[a as usize];
            row.before = before;
        }
    }
}

// Puts n into p, between `before` and `after`.
fn join(rows: &mut Vec<Row>, p: u32, n: u32, before: Link, after: Link)
    requires given { p < length rows.old.items }
    requires node { n < length rows.old.items }
    requires before_in { IsWithin rows.old.items before }
    requires after_in { IsWithin rows.old.items after }
    requires few { (row_at rows.old.items p).tally.count < 67108865 }
    requires total { length rows.old.items ≤ 67108865 }
    ensures { rows.new.items ≡ joined_in rows.old.items p n before after }
{
    put(rows, n, p, before, after);
    let link = Link::some(n);
    set_after(rows, before, p, link);
    set_before(rows, after, p, link);
    let row = &mut rows[p as usize];
    row.tally.add_one();
}

// Makes n loose.
fn free(rows: &mut Vec<Row>, n: u32)
    requires { n < length rows.old.items }
    ensures { rows.new.items ≡ freed rows.old.items n }
{
    let row = &mut rows[n as usize];
    row.parent = Link::none();
    row.before = Link::none();
    row.after = Link::none();
}

// Takes n out of p, where it stands between `before` and `after`.
fn cut(rows: &mut Vec<Row>, p: u32, n: u32, before: Link, after: Link)
    requires given { p < length rows.old.items }
    requires node { n < length rows.old.items }
    requires before_in { IsWithin rows.old.items before }
    requires after_in { IsWithin rows.old.items after }
    requires some { 0 < (row_at rows.old.items p).tally.count }
    ensures { rows.new.items ≡ cut_from rows.old.items p n before after }
{
    free(rows, n);
    set_after(rows, before, p, after);
    set_before(rows, after, p, before);
    let row = &mut rows[p as usize];
    row.tally.take_one();
}

impl Rows {
    /// The child at the place, counted from 0. It walks from the nearer end, or from a child whose place is known from the
    /// last change where that is nearer.
    pub fn child_at(&self, n: u32, at: usize) -> Option<u32>
        requires { n < length self.now }
        ensures { result ≡ slice_get (children_of self.now n) at }
    {
        if at >= self.items[n as usize].tally.count() as usize {
            return None;
        }
        gap(&self.items, n, at, self.finger).1.get()
    }

    /// The place of the child n of `parent`: how many children stand before it. It walks from n on both sides at once, up
    /// to the first child or to one whose place is known from the last change.
    pub fn place(&self, parent: u32, n: u32) -> usize
        requires { parent_of self.now n ≡ Some parent }
        ensures value { result ≡ place_of self.now parent n }
        ensures inside { result < length (children_of self.now parent) }
    {
        self.facts();
        match self.place_within(parent, n, self.child_count(parent) as usize) {
            Some(at) => at,
            None => unreachable!(),
        }
    }

    /// Puts the loose node into `parent`, as its child at the place. It takes constant time for the first and the last
    /// place, and else walks from the nearer end, or from a child whose place is known from the last change where that is
    /// nearer.
    pub fn link(&mut self, parent: u32, at: usize, node: u32)
        requires parent_in { parent < length self.old }
        requires node_in { node < length self.old }
        requires not_root { node ≢ 0 }
        requires loose { parent_of self.old node ≡ None }
        requires apart { holds self.old node parent ≡ false }
        requires place { at ≤ length (children_of self.old parent) }
        ensures { self.new ≡ linked self.old parent at node }
    {
        let (before, after) = gap(&self.items, parent, at, self.finger);
        join(&mut self.items, parent, node, before, after);
        let child = Finger {
            parent,
            node,
            place: at,
        };
        self.finger = finger_with(
            self.finger,
            child,
            before.get().is_none() || after.get().is_none(),
        );
    }

    /// Puts the loose node behind the last child of `parent`.
    pub fn link_last(&mut self, parent: u32, node: u32)
        requires parent_in { parent < length self.old }
        requires node_in { node < length self.old }
        requires not_root { node ≢ 0 }
        requires loose { parent_of self.old node ≡ None }
        requires apart { holds self.old node parent ≡ false }
        ensures { self.new ≡ linked self.old parent (length (children_of self.old parent)) node }
    {
        let row = &self.items[parent as usize];
        let last = row.last;
        let child = Finger {
            parent,
            node,
            place: row.tally.count() as usize,
        };
        join(&mut self.items, parent, node, last, Link::none());
        self.finger = finger_with(self.finger, child, true);
    }

    /// Takes the child out of `parent`, in constant time. It is loose then.
    pub fn unlink(&mut self, parent: u32, node: u32)
        requires { parent_of self.old node ≡ Some parent }
        ensures { self.new ≡ unlinked self.old parent (place_of self.old parent node) node }
    {
        let finger = self.finger_without(parent, node);
        let row = &self.items[node as usize];
        let (before, after) = (row.before, row.after);
        cut(&mut self.items, parent, node, before, after);
        self.finger = finger;
    }
}
