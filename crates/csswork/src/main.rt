// The program: `css_job`'s run over the real streams and the folder that it runs in.
#![tactic(auto)]

use css_job::run::run;
use io_edge::real::{StdErr, StdIn, StdOut};
use io_edge::real_folder::RealFolder;
use plugin_api::fn_visitor::FnVisitor;
use plugin_api::recorder::Recorder;
use plugin_api::visitor::Visitor;
use std::alloc::AllocError;
use std::io::ErrorKind;
use std::process::ExitCode;
use std::{env, mem};
use transforms::acts::{DropComment, DropEmpty, ShortHex, Unnest};
use transforms::shelf::{Visitors, shipped};

/// The status when out of memory: `EX_TEMPFAIL` of `sysexits.h`.
const OUT_OF_MEMORY: u8 = 75;

/// The program's words, without its own name. Words that aren't UTF-8, or can't be had, count as no
/// words at all, and that is a wrong use.
fn words_of(rt: &HostRuntime) -> Result<Vec<String>, AllocError> {
    let mut words = Vec::new(rt.alloc());
    match env::args(rt) {
        Ok(args) => {
            for word in args.skip(1) {
                words.push(word)?;
            }
        }
        Err(error) if error.kind() == ErrorKind::OutOfMemory => return Err(AllocError),
        Err(_) => {}
    }
    Ok(words)
}

/// Runs the command with the shipped plugins on the shelf, and answers the exit status.
fn status_of(rt: &HostRuntime) -> Result<u8, AllocError> {
    let alloc = rt.alloc();
    let words = words_of(rt)?;
    let comment: Box<dyn Visitor> = Box::new(
        alloc,
        Recorder::new(alloc, FnVisitor::new(alloc, DropComment {})),
    )?;
    let empty_rule: Box<dyn Visitor> = Box::new(
        alloc,
        Recorder::new(alloc, FnVisitor::new(alloc, DropEmpty {})),
    )?;
    let empty_at_rule: Box<dyn Visitor> = Box::new(
        alloc,
        Recorder::new(alloc, FnVisitor::new(alloc, DropEmpty {})),
    )?;
    let short_hex: Box<dyn Visitor> = Box::new(
        alloc,
        Recorder::new(alloc, FnVisitor::new(alloc, ShortHex { alloc })),
    )?;
    let unnest: Box<dyn Visitor> = Box::new(
        alloc,
        Recorder::new(alloc, FnVisitor::new(alloc, Unnest { alloc })),
    )?;
    let visitors = Visitors {
        comment,
        empty_rule,
        empty_at_rule,
        short_hex,
        unnest,
    };
    let mut input = StdIn::new(rt.stdin());
    let mut files = RealFolder::new(rt, alloc);
    let mut out = StdOut::new(rt.stdout());
    let mut err = StdErr::new(rt.stderr());
    let mut shelf = shipped(alloc, visitors)?;
    let ended = run(
        alloc, &words, &mut input, &mut files, &mut out, &mut err, &mut shelf,
    )?;
    let status = ended.status;

    // The system takes the process's memory back at once, which is faster than dropping node by node.
    mem::forget(ended);
    Ok(status)
}

fn main(rt: HostRuntime) -> ExitCode {
    match status_of(&rt) {
        Ok(status) => ExitCode::from(status),
        Err(_) => ExitCode::from(OUT_OF_MEMORY),
    }
}
