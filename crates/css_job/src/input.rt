// The standard input's name, and the plans that say what is wrong with it.
ghost use Rattle.std.specs.Prelude.{◌≡◌, IfOk};
ghost use Rattle.css_job.specs.Faults.{input_name, wrong_at};
ghost use Rattle.css_job.specs.Plan.{stopped};
ghost use Rattle.css_job.specs.Stages.{plan_seen};

use crate::fault::Fault;
use crate::plan::{Plan, stop};
use css_text::stop::TextFault;
use css_text::txt::Txt;
use css_tree::fault::SyntaxFault;
use std::alloc::{AllocError, Global};

/// The standard input, as it is named in reports and in the lines of faults.
pub const INPUT_NAME: &str = "<stdin>";

/// The name of the standard input. It fails only when out of memory.
pub fn input_name(alloc: Global) -> Result<Txt, AllocError>
    ensures { IfOk result (λ name. name ≡ input_name) }
{
    Txt::new(alloc, INPUT_NAME)
}

/// The plan that says that the input couldn't be read. It fails only when out of memory.
pub fn unread_input(alloc: Global) -> Result<Plan, AllocError>
    ensures { IfOk result (λ plan. plan_seen plan ≡ stopped (Fault.ReadFault input_name)) }
{
    let name = input_name(alloc)?;
    stop(alloc, Fault::ReadFault { name }, 1)
}

/// The plan that says that the input is too large. It fails only when out of memory.
pub fn large_input(alloc: Global) -> Result<Plan, AllocError>
    ensures { IfOk result (λ plan. plan_seen plan ≡ stopped (Fault.TooLarge input_name)) }
{
    let name = input_name(alloc)?;
    stop(alloc, Fault::TooLarge { name }, 1)
}

/// The plan that says that the input isn't UTF-8. It fails only when out of memory.
pub fn wrong_input(alloc: Global, fault: TextFault) -> Result<Plan, AllocError>
    ensures { IfOk result (λ plan. plan_seen plan ≡ stopped (Fault.NotUtf8 input_name (wrong_at fault))) }
{
    let name = input_name(alloc)?;
    let TextFault::NotUtf8 { at } = fault;
    stop(alloc, Fault::NotUtf8 { name, at }, 1)
}

/// The plan that says that the input's text can't be read. It fails only when out of memory.
pub fn faulty_input(alloc: Global, fault: SyntaxFault) -> Result<Plan, AllocError>
    ensures { IfOk result (λ plan. plan_seen plan ≡ stopped (Fault.Syntax input_name fault)) }
{
    let name = input_name(alloc)?;
    stop(alloc, Fault::Syntax { name, fault }, 1)
}
