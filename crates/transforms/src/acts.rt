// The transforms as actions, of which a visitor can be made.
ghost use Rattle.std.specs.Prelude.{◌≡◌, Some};

use crate::dropping::{drop_comment, drop_empty};
use crate::short_hex::short_hex;
use crate::unnest::unnest;
use node_store::item::Moment;
use node_store::work::Work;
use plugin_api::fn_visitor::Act;
use plugin_api::visitor::VisitFault;
use std::alloc::Global;

/// Takes comments out, as `drop_comment`.
#[derive(Drop)]
pub struct DropComment {}

/// Takes empty blocks out, as `drop_empty`.
#[derive(Drop)]
pub struct DropEmpty {}

/// Shortens hexadecimal colours, as `short_hex`.
#[derive(Drop)]
pub struct ShortHex {
    pub alloc: Global,
}

/// Moves rules out of the rules above them, as `unnest`.
#[derive(Drop)]
pub struct Unnest {
    pub alloc: Global,
}

impl Act for DropComment {
    ghost use Rattle.std.specs.Prelude.{◌≡◌, Some};
    ghost use Rattle.plugin_api.specs.declared.visitor.Duty.TheVariants as D;
    ghost use Rattle.plugin_api.specs.Calls.{Met};

    ghost duty_of = { λ _. Some D.DropComment };

    ghost left_of = { λ _. 0 };

    ghost acts = { λ f s m r t g. Met (Some D.DropComment) 0 0 s t m r };

    fn act(&mut self, work: &mut Work, moment: Moment) -> Result<(), VisitFault> {
        drop_comment(work, moment)
    }
}

impl Act for DropEmpty {
    ghost use Rattle.std.specs.Prelude.{◌≡◌, Some};
    ghost use Rattle.plugin_api.specs.declared.visitor.Duty.TheVariants as D;
    ghost use Rattle.plugin_api.specs.Calls.{Met};

    ghost duty_of = { λ _. Some D.DropEmpty };

    ghost left_of = { λ _. 0 };

    ghost acts = { λ f s m r t g. Met (Some D.DropEmpty) 0 0 s t m r };

    fn act(&mut self, work: &mut Work, moment: Moment) -> Result<(), VisitFault> {
        drop_empty(work, moment)
    }
}

impl Act for ShortHex {
    ghost use Rattle.std.specs.Prelude.{◌≡◌, Some};
    ghost use Rattle.plugin_api.specs.declared.visitor.Duty.TheVariants as D;
    ghost use Rattle.plugin_api.specs.Calls.{Met};

    ghost duty_of = { λ _. Some D.ShortHex };

    ghost left_of = { λ _. 0 };

    ghost acts = { λ f s m r t g. Met (Some D.ShortHex) 0 0 s t m r };

    fn act(&mut self, work: &mut Work, moment: Moment) -> Result<(), VisitFault> {
        short_hex(self.alloc, work, moment)
    }
}

impl Act for Unnest {
    ghost use Rattle.std.specs.Prelude.{◌≡◌, Some};
    ghost use Rattle.plugin_api.specs.declared.visitor.Duty.TheVariants as D;
    ghost use Rattle.plugin_api.specs.Calls.{Met};

    ghost duty_of = { λ _. Some D.Unnest };

    ghost left_of = { λ _. 0 };

    ghost acts = { λ f s m r t g. Met (Some D.Unnest) 0 0 s t m r };

    fn act(&mut self, work: &mut Work, moment: Moment) -> Result<(), VisitFault> {
        unnest(self.alloc, work, moment)
    }
}
