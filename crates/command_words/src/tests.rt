// What lists of words ask for.
use crate::commands::{Command, Options, command_of};
use css_text::txt::Txt;
use std::alloc::{AllocError, Global};
use std::process::Abort;
use std::test::Fail;

fn names_of(alloc: Global, names: &[&str]) -> Result<Vec<Txt>, AllocError> {
    let mut known = Vec::new(alloc);
    for name in names {
        known.push(Txt::new(alloc, name)?)?;
    }
    Ok(known)
}

fn words_of(alloc: Global, line: &str) -> Result<Vec<String>, AllocError> {
    let mut words = Vec::new(alloc);
    for word in line.split(' ') {
        words.push(String::from_str(alloc, word)?)?;
    }
    Ok(words)
}

fn shown_options(alloc: Global, options: &Options) -> Result<String, AllocError> {
    let picked = options.picked.as_slice();
    let budget = options.budget;
    let edit_budget = options.edit_budget;
    let trace = options.trace;
    format!(in alloc; "{picked:?} {budget:?} {edit_budget:?} {trace}")
}

fn shown(alloc: Global, command: Option<Command>) -> Result<String, AllocError> {
    match command {
        Some(Command::Transform(options)) => shown_options(alloc, &options),
        Some(Command::Lint) => String::from_str(alloc, "lint"),
        None => String::from_str(alloc, "nothing"),
    }
}

fn compare(rt: &impl Abort, alloc: Global, cases: &[(&str, &str)]) -> Result<(), Fail> {
    let names = names_of(alloc, &["a", "drop-empty", "a", "c=d"])?;
    for (line, wanted) in cases {
        let words = words_of(alloc, line)?;
        let command = command_of(alloc, words.as_slice(), names.as_slice())?;
        assert_eq!(rt; shown(alloc, command)?.as_str(), *wanted, "{line}");
    }
    Ok(())
}

#[test]
fn asked_for(rt: HostRuntime) -> Result<(), Fail> {
    let cases = [
        ("lint", "lint"),
        ("lint a.css", "nothing"),
        ("", "nothing"),
        ("transform", "[] None None false"),
        ("transform --trace", "[] None None true"),
        ("transform --trace --trace", "nothing"),
        ("transform --trace=1", "nothing"),
        (
            "transform --budget 5 --edit-budget=20000000",
            "[] Some(5) Some(20000000) false",
        ),
        ("transform --budget=0000000000", "[] Some(0) None false"),
        ("transform --budget=00000000000", "nothing"),
        ("transform --edit-budget 20000001", "nothing"),
        ("transform --budget +1", "nothing"),
        ("transform --budget=1 --budget=1", "nothing"),
        ("transform --budget", "nothing"),
        ("transform --budget  ", "nothing"),
        (
            "transform --use drop-empty,a --trace",
            "[1, 0] None None true",
        ),
        ("transform --use=c=d", "[3] None None false"),
        ("transform --use=a,,c=d", "nothing"),
        ("transform --use=a,a", "nothing"),
        ("transform --use=e", "nothing"),
        ("transform --use -a", "nothing"),
        ("transform -- --trace", "nothing"),
        ("transform a.css", "nothing"),
    ];
    compare(&rt, rt.alloc(), &cases)
}
