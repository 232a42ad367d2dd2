// A watcher that keeps what it is told.
ghost use Rattle.std.specs.Prelude.{◌≡◌, None};

use object_heap::Heap;
use st_base::{Failed, Sink};
use st_contexts::{Event, Watch};
use st_machine::{Machine, Progress};
use st_sprint::go_watched;
use std::alloc::Global;

/// How many calls a run is given.
const MOST_CALLS: u32 = 1_000_000;

/// Keeps the events that it is told. It fails where memory is wanted.
#[derive(Drop)]
pub struct Watcher {
    events: Vec<Event>,
    broken: Option<Event>,
    faults: u64,
}

impl Watcher {
    pub fn new(alloc: Global) -> Watcher
        ensures { result.broken ≡ None }
    {
        Watcher {
            events: Vec::new(alloc),
            broken: None,
            faults: 0,
        }
    }

    pub fn events(&self) -> &[Event] {
        &self.events
    }

    /// Watches a machine to the end of its run, in calls of so many turns each.
    pub fn watch<H: Heap, K: Sink>(
        &mut self,
        machine: &mut Machine<H>,
        turns: u64,
        out: &mut K,
    ) -> Progress {
        for _ in 0..MOST_CALLS {
            let progress = self.watch_on(machine, turns, out);
            if progress != Progress::Running {
                return progress;
            }
        }
        Progress::Running
    }

    // So many turns, unless a call before them broke off.
    fn watch_on<H: Heap, K: Sink>(
        &mut self,
        machine: &mut Machine<H>,
        turns: u64,
        out: &mut K,
    ) -> Progress {
        match self.broken {
            Some(_) => Progress::WriteFault,
            None => go_watched(machine, turns, out, self),
        }
    }
}

impl Watch for Watcher {
    ghost use Rattle.std.specs.Prelude.{Some};

    ghost seen = { λ w. Some w.events.items };

    ghost broken = { λ w. w.broken };

    ghost faults = { λ w. w.faults };

    fn event(&mut self, event: Event) -> Result<(), Failed> {
        match self.events.push(event) {
            Ok(()) => Ok(()),
            Err(_) => {
                self.broken = Some(event);
                self.faults = self.faults.saturating_add(1);
                Err(Failed)
            }
        }
    }
}
