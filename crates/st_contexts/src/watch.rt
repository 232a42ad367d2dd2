// What a run tells about handlers and termination blocks, and who is told.
ghost use Rattle.std.specs.Prelude.{◌≡◌, ℕ, List, Option, is_ok, if◌then◌else◌};
ghost use Rattle.st_base.specs.Streams.{HasCause};
ghost use Rattle.st_contexts.specs.Watched.{event_seen};

use st_base::Failed;

/// What happens to handlers and termination blocks (section 5.5), with the numbers of the
/// activations that it happens to.
#[derive(Clone, Copy, Debug, PartialEq, Eq)]
pub enum Event {
    /// An `on:do:` was pushed.
    Protect(u64),
    /// An `ensure:` was pushed.
    Ensure(u64),
    /// An `ifCurtailed:` was pushed.
    Curtail(u64),
    /// A signal was pushed, before its exception is made.
    Signal(u64),
    /// The point of an `outer` was pushed.
    Outer(u64),
    /// A search begins in the environment of this signal or outside the entry of this turn.
    Search(u64),
    /// The search judged this entry.
    Tried { entry: u64, fits: bool },
    /// A turn was pushed that runs the handler of this entry.
    Handle { turn: u64, entry: u64 },
    /// A turn was pushed that runs a default action.
    Default(u64),
    /// The search of `isNested` is over.
    Known,
    /// A termination block was taken off its `ensure:` or `ifCurtailed:` and is about to run.
    Action(u64),
    /// An `on:do:` is about to apply its receiver again.
    Again(u64),
    /// A wait for what an entry answers to `handles:` was pushed.
    Ask { wait: u64, entry: u64 },
    /// An `on:do:`, `ensure:`, `ifCurtailed:`, signal, outer point, turn or wait for `handles:` was
    /// dropped, with a value or, where it was cut, by an unwinding.
    End { number: u64, cut: bool },
}

/// Who is told of events.
pub trait Watch {
    ghost use Rattle.st_contexts.specs.declared.watch.Event.{Event};

    /// The events that it was told, where it tells them.
    ghost seen: { Self → Option (List Event) };

    /// The event at which it failed, or None.
    ghost broken: { Self → Option Event };

    /// How often it failed. The count never falls, and stands still at 2^64 - 1.
    ghost faults: { Self → ℕ };

    /// Tells it one more event. Where it fails, it has not seen the event.
    fn event(&mut self, event: Event) -> Result<(), Failed>
        requires { broken self.old ≡ None }
        ensures seen { seen self.new ≡ (if is_ok result then event_seen event (seen self.old) else seen self.old) }
        ensures broken { broken self.new ≡ (if is_ok result then None else Some event) }
        ensures cause { HasCause (faults self.old) (faults self.new) result };
}

/// Sees nothing, and never fails.
#[derive(Clone, Copy, Debug)]
pub struct NoWatch;

impl Watch for NoWatch {
    ghost use Rattle.std.specs.Prelude.{None};

    ghost seen = { λ _. None };

    ghost broken = { λ _. None };

    ghost faults = { λ _. 0 };

    fn event(&mut self, _: Event) -> Result<(), Failed> {
        Ok(())
    }
}
