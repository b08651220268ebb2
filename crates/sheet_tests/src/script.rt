// An action that does what is listed for its calls.
ghost use Rattle.std.specs.Prelude.{◌≡◌, None};
ghost use Rattle.plugin_api.specs.Calls.{Met};
ghost use Rattle.sheet_tests.specs.Made.{IsEdited};

use crate::deeds::{Deed, carry_out};
use node_store::id::NodeId;
use node_store::item::Moment;
use node_store::work::Work;
use plugin_api::fn_visitor::Act;
use plugin_api::visitor::VisitFault;
use std::alloc::{AllocError, Global};

/// A deed at the call of that number, the first of which is 0; without a number, at each call.
#[derive(Clone, Copy)]
pub struct Step {
    pub call: Option<u32>,
    pub deed: Deed,
}

/// Does the steps of each call in turn.
#[derive(Drop)]
pub struct Script {
    alloc: Global,
    steps: Vec<Step>,
    calls: u32,
}

impl Script {
    /// A script of these steps, before its first call.
    pub fn new(alloc: Global, steps: &[Step]) -> Result<Script, AllocError> {
        Ok(Script {
            alloc,
            steps: steps.to_vec(alloc)?,
            calls: 0,
        })
    }
}

fn do_step(
    alloc: Global,
    work: &mut Work,
    step: Step,
    call: u32,
    node: NodeId,
) -> Result<(), VisitFault>
    ensures { IsEdited work.old work.new }
{
    if step.call.unwrap_or(call) == call {
        carry_out(alloc, work, step.deed, node)
    } else {
        Ok(())
    }
}

fn do_steps(
    alloc: Global,
    work: &mut Work,
    steps: &[Step],
    call: u32,
    node: NodeId,
) -> Result<(), VisitFault>
    ensures { IsEdited work.old work.new }
{
    for at in 0..steps.len() {
        do_step(alloc, work, steps[at], call, node)?;
    }
    Ok(())
}

fn meet(
    alloc: Global,
    work: &mut Work,
    steps: &[Step],
    call: u32,
    moment: Moment,
) -> Result<(), VisitFault>
    ensures { Met None 0 0 work.old work.new moment result }
{
    do_steps(alloc, work, steps, call, moment.node)
}

impl Act for Script {
    ghost use Rattle.std.specs.Prelude.{◌≡◌, None};
    ghost use Rattle.plugin_api.specs.Calls.{Met};

    ghost duty_of = { λ _. None };

    ghost left_of = { λ _. 0 };

    ghost acts = { λ f s m r t g. Met None 0 0 s t m r };

    fn act(&mut self, work: &mut Work, moment: Moment) -> Result<(), VisitFault> {
        let call = self.calls;
        self.calls = call.wrapping_add(1);
        meet(self.alloc, work, &self.steps, call, moment)
    }
}
