// The auditor of events, seen as the automaton's state.
ghost use Rattle.std.specs.Prelude.{◌≡◌, Some, None, IfOk, if◌then◌else◌};
ghost use Rattle.st_trace.specs.Events.{event_of};
ghost use Rattle.st_trace.specs.Automaton.{accepts, first_auditor, is_closed};

use crate::auditor::{Kept, Mode, accept};
use st_base::OutOfMemory;
use st_contexts::Event;
use std::alloc::Global;
use std::marker::Model;

/// What is kept of the events that stand.
#[derive(Drop)]
pub struct Auditor {
    kept: Kept,
}

impl Model for Auditor {
    ghost use Rattle.st_trace.specs.Audited.{auditor_of, IsSound};
    ghost use Rattle.st_trace.specs.Automaton.{Auditor as Automaton};

    ghost Value = { Automaton };

    ghost view = { λ a. auditor_of a.kept };

    ghost invariant = { λ a. IsSound a.kept };
}

impl Auditor {
    /// Before any event.
    pub fn new(alloc: Global) -> Auditor
        ensures { result ≡ first_auditor }
    {
        Auditor {
            kept: Kept {
                items: Vec::new(alloc),
                mode: Mode::Calm,
                next: 0,
            },
        }
    }

    /// Takes one more event, and answers whether it may come. Where it may not, the auditor is done
    /// with.
    pub fn accept(&mut self, event: Event) -> Result<bool, OutOfMemory>
        ensures { IfOk result (λ taken. accepts (event_of event) self.old ≡ (if taken then Some self.new else None)) }
    {
        accept(&mut self.kept, event)
    }

    /// Whether nothing is open, as at an end that is no limit.
    pub fn is_closed(&self) -> bool
        ensures { result ≡ is_closed self.now.open' }
    {
        self.kept.items.is_empty()
    }
}
