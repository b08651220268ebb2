// The second stage of a run: all that it writes.
ghost use Rattle.std.specs.Prelude.{◌≡◌, IfOk, map};
ghost use Rattle.css_job.specs.Faults.{name_of};
ghost use Rattle.css_job.specs.Stages.{plan_seen, piece_of, sinks, WritesOne, WritesEach, last_line, SaysLast, settled, IsSound, CarriesOut};

use crate::fault::{Fault, fault_text};
use crate::plan::{Plan, Write};
use crate::target::{Target, target_name};
use css_text::txt::Txt;
use io_edge::edge::{Sink, WriteStop};
use io_edge::whole::write_all;
use std::alloc::{AllocError, Global};

fn write_one<O: Sink, E: Sink>(write: &Write, out: &mut O, err: &mut E) -> Result<(), WriteStop>
    ensures { WritesOne (piece_of write.now)
        (sinks O.Sink E.Sink out.old err.old)
        (sinks O.Sink E.Sink out.new err.new) result }
{
    match write.to {
        Target::StdOut => write_all(out, write.text.as_str().as_bytes()),
        Target::StdErr => write_all(err, write.text.as_str().as_bytes()),
    }
}

/// The status and the fault after the writes.
#[derive(Drop)]
pub struct Settled {
    pub status: u8,
    pub fault: Option<Fault>,
}

/// Makes the writes in order. It stops at the first that fails, and answers its target.
fn write_each<O: Sink, E: Sink>(
    writes: &[Write],
    out: &mut O,
    err: &mut E,
) -> Result<Option<Target>, AllocError>
    ensures { WritesEach (map piece_of writes.now)
        (sinks O.Sink E.Sink out.old err.old)
        (sinks O.Sink E.Sink out.new err.new) result }
{
    for write in writes {
        match write_one(write, out, err) {
            Ok(()) => {}
            Err(WriteStop::WriteFault) => return Ok(Some(write.to)),
            Err(WriteStop::Memory(error)) => return Err(error),
        }
    }
    Ok(None)
}

fn write_fault(alloc: Global, target: Target) -> Result<Fault, AllocError>
    ensures { IfOk result (λ fault. fault ≡ Fault.WriteFault (name_of target)) }
{
    let name = Txt::new(alloc, target_name(target))?;
    Ok(Fault::WriteFault { name })
}

/// The fault and the status after the writes. A fault from before them stays.
fn settle(
    alloc: Global,
    fault: Option<Fault>,
    status: u8,
    failed: Option<Target>,
) -> Result<Settled, AllocError>
    ensures { IfOk result (λ s. (s.fault, s.status) ≡ settled fault status failed) }
{
    match (fault, failed) {
        (None, Some(target)) => {
            let fault = write_fault(alloc, target)?;
            Ok(Settled {
                status: 1,
                fault: Some(fault),
            })
        }
        (fault, _) => Ok(Settled { status, fault }),
    }
}

/// Writes the line of a fault. Where that fails too, there is nothing left to say.
fn say_line<E: Sink>(line: &str, err: &mut E) -> Result<(), AllocError>
    ensures { SaysLast line.now (E.written err.old) (E.written err.new) (E.faults err.old)
        (E.faults err.new) result }
{
    match write_all(err, line.as_bytes()) {
        Ok(()) => Ok(()),
        Err(WriteStop::WriteFault) => Ok(()),
        Err(WriteStop::Memory(error)) => Err(error),
    }
}

/// Writes the line of the fault, unless the sink that it would go to has failed.
fn say_last<E: Sink>(
    alloc: Global,
    caller: &Txt,
    fault: &Option<Fault>,
    failed: Option<Target>,
    err: &mut E,
) -> Result<(), AllocError>
    ensures { SaysLast (last_line caller.now fault.now failed) (E.written err.old) (E.written err.new)
        (E.faults err.old) (E.faults err.new) result }
{
    match fault {
        None => Ok(()),
        Some(fault) => match failed {
            Some(Target::StdErr) => Ok(()),
            _ => {
                let line = fault_text(alloc, caller, fault)?;
                say_line(line.as_str(), err)
            }
        },
    }
}

/// Makes the writes of a plan, and ends with the line of the fault where there is one.
pub fn carry_out<O: Sink, E: Sink>(
    alloc: Global,
    plan: Plan,
    out: &mut O,
    err: &mut E,
) -> Result<Settled, AllocError>
    requires { IsSound (plan_seen plan) }
    ensures { CarriesOut (plan_seen plan)
        (sinks O.Sink E.Sink out.old err.old)
        (sinks O.Sink E.Sink out.new err.new) result }
{
    let Plan {
        fault,
        caller,
        status,
        writes,
    } = plan;
    let failed = match write_each(&writes, out, err) {
        Ok(failed) => failed,
        Err(error) => return Err(error),
    };
    let settled = match settle(alloc, fault, status, failed) {
        Ok(settled) => settled,
        Err(error) => return Err(error),
    };
    match say_last(alloc, &caller, &settled.fault, failed, err) {
        Ok(()) => Ok(settled),
        Err(error) => Err(error),
    }
}
