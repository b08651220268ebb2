// A visitor that tells its calls.
ghost use Rattle.std.specs.Prelude.{◌≡◌, ℕ, List, [], Option, None, Some, Result};
ghost use Rattle.plugin_api.specs.Calls.{RecorderSeen};

use crate::visitor::{Told, VisitFault, Visitor};
use node_store::item::Moment;
use node_store::work::Work;
use std::alloc::{AllocError, Global};
use std::marker::Model;

/// Passes each call on to the visitor inside, and tells it. Want of memory for what it tells is answered without a call.
#[derive(Drop)]
pub struct Recorder<V> {
    inner: V,
    calls: Vec<Told>,
}

impl<V> Model for Recorder<V> {
    ghost use Rattle.plugin_api.specs.Calls.{RecorderSeen};

    ghost Value = { RecorderSeen V };

    ghost view = { λ r. record { inner = r.inner; calls = r.calls.items } };
}

impl<V> Recorder<V> {
    /// The visitor with no calls told yet.
    pub fn new(alloc: Global, inner: V) -> Recorder<V>
        ensures { result ≡ record { inner = inner; calls = [] } }
    {
        Recorder {
            inner,
            calls: Vec::new(alloc),
        }
    }

    /// The calls so far, the earliest first.
    pub fn calls(&self) -> &[Told]
        ensures { result.now ≡ self.now.calls }
    {
        self.calls.as_slice()
    }
}

impl<V: Visitor> Visitor for Recorder<V> {
    ghost told = { λ r. Some r.calls };

    ghost said = { λ r. V.said r.inner };

    ghost duty = { λ r. V.duty r.inner };

    ghost left = { λ r. V.left r.inner };

    fn visit(&mut self, work: &mut Work, moment: Moment) -> Result<(), VisitFault> {
        let at = work.log().len();
        let place = self.calls.len();
        let Moment { event, node } = moment;
        let told = Told {
            moment: Moment { event, node },
            at: at as u64,
            edits: 0,
        };
        if self.calls.push(told).is_err() {
            return Err(VisitFault::Memory(AllocError));
        }
        let answer = self.inner.visit(work, Moment { event, node });
        self.calls[place] = Told {
            moment: Moment { event, node },
            at: at as u64,
            edits: (work.log().len() - at) as u64,
        };
        answer
    }

    fn calls(&self) -> Option<&[Told]> {
        Some(&self.calls)
    }
}
