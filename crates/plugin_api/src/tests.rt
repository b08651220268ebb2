// Visitors of each kind, called alone and through a shelf.
ghost use Rattle.std.specs.Prelude.{◌≡◌, [], IfOk};

use crate::fn_visitor::{Act, FnVisitor};
use crate::hook::Hook;
use crate::laws::examples;
use crate::plugin::{Plugin, call_hook};
use crate::recorder::Recorder;
use crate::visitor::{Duty, VisitFault, Visitor};
use css_text::lexer::Span;
use css_text::stop::Stop;
use css_text::text::Text;
use css_text::txt::Txt;
use css_tree::node::{Block, NodeText};
use node_rows::node_list::NodeAt;
use node_store::id::NodeId;
use node_store::item::{Event, Moment};
use node_store::work::Work;
use std::alloc::{AllocError, Global};
use std::test::Fail;

// Does nothing.
#[derive(Drop)]
struct Nothing {
    calls: u8,
}

impl Act for Nothing {
    ghost use Rattle.std.specs.Prelude.{◌≡◌, Some};
    ghost use Rattle.plugin_api.specs.declared.visitor.Duty.TheVariants.{Quiet};

    ghost duty_of = { λ _. Some Quiet };

    ghost left_of = { λ _. 0 };

    ghost acts = { λ f s m r t g. t ≡ s };

    fn act(&mut self, _work: &mut Work, _moment: Moment) -> Result<(), VisitFault> {
        Ok(())
    }
}

// Fails at each call.
#[derive(Drop)]
struct Fails {
    alloc: Global,
}

impl Act for Fails {
    ghost use Rattle.std.specs.Prelude.{◌≡◌, None};

    ghost duty_of = { λ _. None };

    ghost left_of = { λ _. 0 };

    ghost acts = { λ f s m r t g. t ≡ s };

    fn act(&mut self, _work: &mut Work, _moment: Moment) -> Result<(), VisitFault> {
        match Txt::new(self.alloc, "no") {
            Ok(text) => Err(VisitFault::Plugin(text)),
            Err(error) => Err(VisitFault::Memory(error)),
        }
    }
}

fn empty_text(alloc: Global) -> Result<Text, AllocError>
    ensures { IfOk result (λ text. text ≡ []) }
{
    match Text::new(alloc, Vec::new(alloc)) {
        Ok(text) => Ok(text),
        Err(Stop::Memory(error)) => Err(error),
        Err(Stop::Fault(_)) => Err(AllocError),
    }
}

// The work of an empty sheet.
fn empty_sheet(alloc: Global) -> Result<Work, AllocError> {
    let text = empty_text(alloc)?;
    let block = Block {
        semicolon: false,
        after: None,
    };
    let mut nodes = Vec::new(alloc);
    nodes.push(NodeAt {
        parent: 0,
        text: NodeText::Root { bom: false, block },
        span: Span { start: 0, end: 0 },
    })?;
    Work::from_nodes(alloc, text, nodes)
}

fn root_at(event: Event) -> Moment {
    Moment {
        event,
        node: NodeId::new(0),
    }
}

fn is_no(answer: Result<(), VisitFault>) -> bool {
    match answer {
        Err(VisitFault::Plugin(text)) => text.as_str() == "no",
        _ => false,
    }
}

#[test]
fn laws_run(_rt: HostRuntime) {
    examples();
}

#[test]
fn a_fault_has_its_text(rt: HostRuntime) -> Result<(), Fail> {
    let alloc = rt.alloc();
    let mut work = empty_sheet(alloc)?;
    let mut visitor = FnVisitor::new(alloc, Fails { alloc });
    let answer = visitor.visit(&mut work, root_at(Event::Once));
    assert!(rt; is_no(answer));
    assert!(rt; visitor.calls().is_none());
    Ok(())
}

#[test]
fn calls_are_told(rt: HostRuntime) -> Result<(), Fail> {
    let alloc = rt.alloc();
    let mut work = empty_sheet(alloc)?;
    let inner = FnVisitor::with_duty(alloc, Nothing { calls: 0 }, Duty::Quiet);
    let mut visitor = Recorder::new(alloc, inner);
    let answer = visitor.visit(&mut work, root_at(Event::Root));
    assert!(rt; answer.is_ok());
    assert_eq!(rt; visitor.calls().len(), 1);
    Ok(())
}

#[test]
fn a_shelf_calls_the_hook_that_is_asked_for(rt: HostRuntime) -> Result<(), Fail> {
    let alloc = rt.alloc();
    let mut work = empty_sheet(alloc)?;
    let quiet: Box<dyn Visitor> = Box::new(
        alloc,
        Recorder::new(alloc, FnVisitor::new(alloc, Nothing { calls: 0 })),
    )?;
    let fails: Box<dyn Visitor> = Box::new(alloc, FnVisitor::new(alloc, Fails { alloc }))?;
    let mut hooks = Vec::new(alloc);
    hooks.push(Hook {
        event: Event::Once,
        filter: None,
        visitor: quiet,
    })?;
    hooks.push(Hook {
        event: Event::Once,
        filter: None,
        visitor: fails,
    })?;
    let mut shelf = Vec::new(alloc);
    shelf.push(Plugin {
        name: Txt::new(alloc, "p")?,
        hooks,
    })?;
    let first = call_hook(&mut work, &mut shelf, 0, 0, root_at(Event::Once));
    assert!(rt; first.is_ok());
    let second = call_hook(&mut work, &mut shelf, 0, 1, root_at(Event::Once));
    assert!(rt; is_no(second));
    let hook = shelf[0].hooks.first().ok_or("a hook")?;
    assert_eq!(rt; hook.visitor.calls().map_or(0, |calls| calls.len()), 1);
    Ok(())
}
