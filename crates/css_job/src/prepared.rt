// What a run has once all is read and walked.
ghost use Rattle.std.specs.Prelude.{◌≡◌, [], None};
ghost use Rattle.css_job.specs.Stages.{plan_seen, stage_seen};

use crate::plan::Plan;
use node_store::item::Item;
use node_store::work::Work;
use std::alloc::Global;

/// What is to be done once all is read, and what is kept of the walk.
#[derive(Drop)]
pub struct Prepared {
    pub plan: Plan,
    /// The walk's log; empty where there was no walk.
    pub log: Vec<Item>,
    /// The work after the walk.
    pub work: Option<Work>,
}

/// A plan without a walk.
pub fn unwalked(alloc: Global, plan: Plan) -> Prepared
    ensures { stage_seen result ≡ record { plan = plan_seen plan; log = []; work = None } }
{
    Prepared {
        plan,
        log: Vec::new(alloc),
        work: None,
    }
}
