// Actions as visitors.
ghost use Rattle.std.specs.Prelude.{◌≡◌, ℕ, List, [], ◌∷◌, ◌++◌, Option, None, Some, Result, IfOk, IfErr};
ghost use Rattle.plugin_api.specs.Visit.{Visited};
ghost use Rattle.plugin_api.specs.Calls.{Met, FnSeen, Answered};
ghost use Rattle.node_store.specs.Forest.{Forest};
ghost use Rattle.node_store.specs.declared.item.Moment.{Moment};
ghost use Rattle.plugin_api.specs.declared.visitor.Duty.{Duty};
ghost use Rattle.plugin_api.specs.declared.visitor.VisitFault.{VisitFault};

use crate::visitor::{Duty, Told, VisitFault, Visitor};
use css_text::txt::Txt;
use node_store::item::Moment;
use node_store::work::Work;
use std::alloc::{AllocError, Global};
use std::marker::Model;

/// What a plugin does at a moment. It stands for a closure, which a boxed visitor can't name.
pub trait Act: Drop {
    /// What it promises of its edits, if anything.
    ghost duty_of: { Self → Option Duty };

    /// How many cursors its calls have left open.
    ghost left_of: { Self → ℕ };

    /// A call on this forest at this moment may give this answer, and leave this forest and this action.
    ghost acts: { Self → Forest → Moment → Result (Unit {0}) VisitFault → Forest → Self → Type 0 };

    /// One call, which changes the tree by edit calls alone.
    fn act(&mut self, work: &mut Work, moment: Moment) -> Result<(), VisitFault>
        ensures met { Met (duty_of self.old) (left_of self.old) (left_of self.new) work.old work.new moment result }
        ensures kept { duty_of self.new ≡ duty_of self.old }
        ensures acts { acts self.old work.old moment result work.new self.new };
}

/// An action as a visitor, which tells no calls. It keeps a copy of the text of each fault that it answers.
#[derive(Drop)]
pub struct FnVisitor<F> {
    alloc: Global,
    call: F,
    said: Vec<Txt>,
}

impl<F> Model for FnVisitor<F> {
    ghost use Rattle.plugin_api.specs.Calls.{FnSeen};

    ghost Value = { FnSeen F };

    ghost view = { λ v. record { call = v.call; said = v.said.items } };
}

impl<F: Act> FnVisitor<F> {
    /// The visitor of an action, with the action's own duty.
    pub fn new(alloc: Global, action: F) -> FnVisitor<F>
        ensures { result ≡ record { call = action; said = [] } }
    {
        FnVisitor {
            alloc,
            call: action,
            said: Vec::new(alloc),
        }
    }

    /// The visitor of an action that has this duty.
    pub fn with_duty(alloc: Global, action: F, _duty: Duty) -> FnVisitor<F>
        requires { F.duty_of action ≡ Some _duty }
        ensures { result ≡ record { call = action; said = [] } }
    {
        FnVisitor::new(alloc, action)
    }

    fn keep(&mut self, text: &Txt) -> Result<(), AllocError>
        ensures ok { IfOk result (λ _. self.new.said ≡ self.old.said ++ text.now ∷ []) }
        ensures err { IfErr result (λ _. self.new.said ≡ self.old.said) }
        ensures call { self.new.call ≡ self.old.call }
    {
        let kept = Txt::new(self.alloc, text.as_str())?;
        self.said.push(kept)?;
        Ok(())
    }
}

impl<F: Act> Visitor for FnVisitor<F> {
    ghost told = { λ _. None };

    ghost said = { λ v. v.said };

    ghost duty = { λ v. F.duty_of v.call };

    ghost left = { λ v. F.left_of v.call };

    fn visit(&mut self, work: &mut Work, moment: Moment) -> Result<(), VisitFault>
        ensures visited { Visited None None self.old.said self.new.said (F.duty_of self.old.call) (F.duty_of self.new.call) (F.left_of self.old.call) (F.left_of self.new.call) work.old work.new moment result }
        ensures called { (answer : _) × F.acts self.old.call work.old moment answer work.new self.new.call × Answered answer result }
    {
        match self.call.act(work, moment) {
            Ok(()) => Ok(()),
            Err(VisitFault::Memory(error)) => Err(VisitFault::Memory(error)),
            Err(VisitFault::Plugin(text)) => match self.keep(&text) {
                Ok(()) => Err(VisitFault::Plugin(text)),
                Err(error) => Err(VisitFault::Memory(error)),
            },
        }
    }

    fn calls(&self) -> Option<&[Told]> {
        None
    }
}
