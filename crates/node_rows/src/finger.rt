// A child whose place is kept, from which places near it are found.
ghost use Rattle.std.specs.Prelude.{◌≡◌, ◌<◌, ◌≤◌, List, length, Option, Some, IfSome, IsSome};
ghost use Rattle.node_rows.specs.Fingers.{IsFinger};
ghost use Rattle.node_rows.specs.Nodes.{Node, parent_of, children_of, place_of, linked, unlinked};

use crate::rows::Rows;

/// A child of `parent`, and how many children stand before it.
#[derive(Clone, Copy)]
pub struct Finger {
    pub(crate) parent: u32,
    pub(crate) node: u32,
    pub(crate) place: usize,
}

// The finger once a child is put in: at that child, or still in another parent, where the child is the first or last one
// or can be found again in fewer steps.
pub(crate) fn finger_with(finger: Option<Finger>, child: Finger, is_end: bool) -> Option<Finger>
    ensures { (ns : List Node) → child.parent < length ns → child.node < length ns → child.place ≤ length (children_of ns child.parent) → IsFinger ns finger → IsFinger (linked ns child.parent child.place child.node) result }
{
    match finger {
        Some(finger) if finger.parent != child.parent && (is_end || child.place <= finger.place) =>
            { Some(finger) }
        _ => Some(child),
    }
}

// How many steps a child that is taken out may be from the finger for the finger to stay.
const NEAR: usize = 256;

impl Rows {
    // The place of the child, where the finger is at it.
    fn finger_at(&self, parent: u32, child: u32) -> Option<usize>
        requires { parent_of self.now child ≡ Some parent }
        ensures { IfSome result (λ at. place_of self.now parent child ≡ at) }
    {
        match self.finger {
            Some(finger) if finger.node == child => Some(finger.place),
            _ => None,
        }
    }

    // The place of the child n of `parent`, where fewer than so many steps lead from it to the first child or to the
    // finger.
    pub(crate) fn place_within(&self, parent: u32, n: u32, steps: usize) -> Option<usize>
        requires { parent_of self.now n ≡ Some parent }
        ensures value { IfSome result (λ at. at ≡ place_of self.now parent n) }
        ensures found { place_of self.now parent n < steps → IsSome result }
    {
        self.facts();
        let mut back = n;
        let mut on = Some(n);
        for at in 0..steps {
            if let Some(place) = self.finger_at(parent, back) {
                return Some(place + at);
            }
            if let Some(child) = on {
                if let Some(place) = self.finger_at(parent, child) {
                    return Some(place - at);
                }
                on = self.next_sibling(child);
            }
            match self.previous_sibling(back) {
                None => return Some(at),
                Some(before) => back = before,
            }
        }
        None
    }

    // The finger at a sibling of the child at the place, once that is taken out of `parent`.
    fn finger_beside(&self, parent: u32, node: u32, place: usize) -> Option<Finger>
        requires child { parent_of self.now node ≡ Some parent }
        requires place { place ≡ place_of self.now parent node }
        ensures { IsFinger (unlinked self.now parent place node) result }
    {
        self.facts();
        match self.previous_sibling(node) {
            Some(before) => Some(Finger {
                parent,
                node: before,
                place: place - 1,
            }),
            None => match self.next_sibling(node) {
                Some(after) => Some(Finger {
                    parent,
                    node: after,
                    place,
                }),
                None => None,
            },
        }
    }

    // The finger once the child is taken out of `parent`: where it was, if that is in another parent; beside the child, if it
    // was near it; else there is none.
    pub(crate) fn finger_without(&self, parent: u32, node: u32) -> Option<Finger>
        requires { parent_of self.now node ≡ Some parent }
        ensures { IsFinger (unlinked self.now parent (place_of self.now parent node) node) result }
    {
        self.facts();
        let finger = self.finger?;
        if finger.parent != parent {
            return Some(finger);
        }
        match self.place_within(parent, node, NEAR) {
            Some(place) => self.finger_beside(parent, node, place),
            None => None,
        }
    }
}
