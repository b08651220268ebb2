// What is to be done once all is read.
ghost use Rattle.std.specs.Prelude.{◌≡◌, IfOk};
ghost use Rattle.css_job.specs.Faults.{status_of};
ghost use Rattle.css_job.specs.Plan.{stopped};
ghost use Rattle.css_job.specs.Stages.{plan_seen, writing};

use crate::fault::Fault;
use crate::target::Target;
use css_text::txt::Txt;
use std::alloc::{AllocError, Global};

/// A text that goes to a target.
#[derive(Drop)]
pub struct Write {
    pub to: Target,
    pub text: Txt,
}

/// What is to be done once all is read: the writes in order, and the status where none fails.
#[derive(Drop)]
pub struct Plan {
    /// What stopped the run before its writes, if anything did.
    pub fault: Option<Fault>,
    /// The name of the plugin whose hook was called last; empty where none was.
    pub caller: Txt,
    /// The exit status, if no write fails.
    pub status: u8,
    pub writes: Vec<Write>,
}

/// The plan that only says why the run stopped.
///
/// # Errors
///
/// Only when out of memory.
pub fn stop(alloc: Global, fault: Fault, status: u8) -> Result<Plan, AllocError>
    requires { status ≡ status_of fault }
    ensures { IfOk result (λ plan. plan_seen plan ≡ stopped fault) }
{
    let caller = Txt::new(alloc, "")?;
    Ok(Plan {
        fault: Some(fault),
        caller,
        status,
        writes: Vec::new(alloc),
    })
}

/// The plan that writes one text, and ends with that status.
///
/// # Errors
///
/// Only when out of memory.
pub fn one_write(alloc: Global, to: Target, text: Txt, status: u8) -> Result<Plan, AllocError>
    ensures { IfOk result (λ plan. plan_seen plan ≡ writing to text status) }
{
    let mut writes = Vec::new(alloc);
    writes.push(Write { to, text })?;
    let caller = Txt::new(alloc, "")?;
    Ok(Plan {
        fault: None,
        caller,
        status,
        writes,
    })
}
