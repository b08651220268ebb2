// The contract of visitors.
ghost use Rattle.std.specs.Prelude.{◌≡◌, ℕ, List, Option, option_map};
ghost use Rattle.plugin_api.specs.Visit.{Visited};
ghost use Rattle.plugin_api.specs.declared.visitor.Told.{Told};
ghost use Rattle.plugin_api.specs.declared.visitor.Duty.{Duty};

use css_text::txt::Txt;
use node_store::item::Moment;
use node_store::work::Work;
use std::alloc::AllocError;

/// Why a visitor's call failed.
#[derive(Drop)]
pub enum VisitFault {
    /// The plugin's own fault, which ends the walk with its text.
    Plugin(Txt),
    Memory(AllocError),
}

/// A call that a visitor tells: its moment, how many items the log held at entry, and how many edits the call logged.
#[derive(Clone, Copy)]
pub struct Told {
    pub moment: Moment,
    pub at: u64,
    pub edits: u64,
}

/// What a visitor promises of its edits. All but the first are those of the plugins that are shipped.
#[derive(Clone, Copy, PartialEq, Eq, Debug)]
pub enum Duty {
    /// No edit.
    Quiet,
    /// Removes each comment, unless it begins with `!`.
    DropComment,
    /// Removes each rule, and each at-rule with a block, that has no children.
    DropEmpty,
    /// Shortens hexadecimal colours in values to one digit of each equal pair.
    ShortHex,
    /// Moves rules that begin with `&` out of the rule above them.
    Unnest,
}

/// A visitor, which is called at moments of the walk and changes the tree by edit calls alone, as a plugin of PostCSS 8
/// does.
pub trait Visitor: Drop {
    /// The calls so far, where the visitor tells them.
    ghost told: { Self → Option (List Told) };

    /// The texts of the faults that it answered.
    ghost said: { Self → List (List ℕ) };

    /// What it promises of its edits, if anything.
    ghost duty: { Self → Option Duty };

    /// How many cursors its calls have left open.
    ghost left: { Self → ℕ };

    /// One call. The tree changes by the edits that it logs, and by nothing else.
    fn visit(&mut self, work: &mut Work, moment: Moment) -> Result<(), VisitFault>
        ensures visited { Visited (told self.old) (told self.new) (said self.old) (said self.new) (duty self.old) (duty self.new) (left self.old) (left self.new) work.old work.new moment result };

    /// The calls so far, where the visitor tells them.
    fn calls(&self) -> Option<&[Told]>
        ensures { told self.now ≡ option_map (λ s. s.now) result };
}
