// What an activation is for, with what it keeps.
ghost use Rattle.std.specs.Prelude.{◌≡◌};
ghost use Rattle.std.specs.Option.{option_map};
ghost use Rattle.st_contexts.specs.Marks.{mark_in, frame_in};
ghost use Rattle.st_contexts.specs.Moving.{body_in, loop_aside, loop_at, loop_in, loop_made, next_frame, next_in, with_loop};

use crate::outcome::Outcome;
use object_heap::Value;
use st_loops::LoopState;

/// Names an environment by the number of its innermost `on:do:`. Number 0 names the empty one.
#[derive(Clone, Copy, Debug, PartialEq, Eq)]
pub struct Env(pub u64);

/// An `on:do:` that stands, as a search sees it.
#[derive(Clone, Copy, Debug, PartialEq, Eq)]
pub struct Entry {
    /// The number of its activation.
    pub protect: u64,
    pub selector: Value,
    pub handler: Value,
    /// The environment around it.
    pub outside: Env,
}

/// What a body runs, and for whom.
#[derive(Clone, Copy, Debug, PartialEq, Eq)]
pub struct Frame {
    /// The number of its code.
    pub code: u32,
    /// The next instruction, counted from 0, or the one that it waits at.
    pub position: u32,
    /// What `self` is in it.
    pub receiver: Value,
    /// The class that defines the method around it, or its metaclass for a class method.
    pub class: Value,
    /// The innermost scope around it that is kept in the heap.
    pub scope: Option<u32>,
    /// The number of the activation that `^` answers from: its own one for a method.
    pub home: u64,
}

/// A run of a handler, or of a default action where there is no entry (section 5.5).
#[derive(Clone, Copy, Debug, PartialEq, Eq)]
pub struct Turn {
    /// The number of its exception's object.
    pub exception: u32,
    /// The number of the `on:do:` whose handler runs.
    pub entry: Option<u64>,
    /// The environment in which it runs.
    pub outside: Env,
    /// The number of the activation that `resume:` answers from.
    pub resume_point: u64,
    /// The number of the signal that it began at.
    pub signal: u64,
}

/// What a search for a handler is for.
#[derive(Clone, Copy, Debug, PartialEq, Eq)]
pub enum Purpose {
    Signal,
    Pass { turn: Turn },
    /// `outer`, which is resumed at this point.
    Outer { turn: Turn, point: u64 },
    IsNested,
}

/// A search that has asked an entry and waits for its answer.
#[derive(Clone, Copy, Debug, PartialEq, Eq)]
pub struct SearchState {
    /// The number of the exception's object.
    pub exception: u32,
    /// The number of the signal or turn that searches.
    pub who: u64,
    /// The environment in which the search began.
    pub whole: Env,
    pub purpose: Purpose,
}

/// What is done once `isResumable` has answered true.
#[derive(Clone, Copy, Debug, PartialEq, Eq)]
pub enum Wait {
    /// The turn resumes with this value.
    Resume { value: Value },
    /// The turn does what `outer` does.
    Outer,
}

/// What an activation is for, with what it keeps.
#[derive(Clone, Copy, Debug, PartialEq, Eq)]
pub enum Activation {
    /// A method, block or initializer.
    Body(Frame),
    /// A block at a `^` whose home is gone, which answers what its Error does.
    Leaving(Frame),
    /// An `on:do:`. The environment around it is that of the activation.
    Protect {
        receiver: Value,
        selector: Value,
        handler: Value,
    },
    /// An `ensure:` whose termination block is still to run.
    EnsureOn {
        block: Value,
    },
    /// An `ifCurtailed:` whose termination block is still to run.
    CurtailOn {
        block: Value,
    },
    /// A termination block runs, and this is done after it.
    ActionOff {
        held: Outcome,
    },
    /// A signal of the exception with this object number.
    Signal {
        exception: u32,
    },
    /// A handler or a default action runs.
    HandlerRun {
        turn: Turn,
    },
    /// The point at which `outer` is resumed.
    Outer,
    /// Waits for what `isResumable` answers to the turn with this number.
    ResumeWait {
        wait: Wait,
        number: u64,
        turn: Turn,
    },
    /// Waits for what `handles:` answers about the entry with this number. The activation's
    /// environment is the one behind the entry.
    HandlesWait {
        search: SearchState,
        entry: u64,
    },
    Loop(LoopState),
}

/// What an activation is for.
#[derive(Clone, Copy, Debug, PartialEq, Eq)]
pub enum Mark {
    /// A body.
    Plain,
    Protect,
    /// An `ensure:` whose termination block is still to run.
    Ensure,
    /// An `ifCurtailed:` whose termination block is still to run.
    Curtail,
    /// A termination block runs.
    Action,
    SignalPoint,
    HandlerRun,
    OuterPoint,
    Wait,
    Loop,
}

impl Frame {
    // It is at its next instruction.
    fn go_on(&mut self)
        ensures { self.new ≡ next_frame self.old }
    {
        self.position = self.position.saturating_add(1);
    }
}

impl Activation {
    /// What it runs, if it is a body that goes on.
    pub fn body(&self) -> Option<&Frame>
        ensures { option_map (λ f. f.now) result ≡ body_in self.now }
    {
        match self {
            Activation::Body(frame) => Some(frame),
            _ => None,
        }
    }

    /// A body is at its next instruction.
    pub(crate) fn go_on(&mut self)
        ensures { self.new ≡ next_in self.old }
    {
        match self {
            Activation::Body(frame) => frame.go_on(),
            _ => (),
        }
    }

    /// Where it is, if it is a loop.
    pub fn running_loop(&self) -> Option<&LoopState>
        ensures { option_map (λ l. l.now) result ≡ loop_in self.now }
    {
        match self {
            Activation::Loop(state) => Some(state),
            _ => None,
        }
    }

    /// A loop is at another index, where it waits for a visit.
    pub(crate) fn move_loop(&mut self, index: i128)
        ensures { self.new ≡ with_loop (loop_at index) self.old }
    {
        match self {
            Activation::Loop(state) => {
                state.index = index;
                state.visited = Value::Nil;
                state.aside = false;
            }
            _ => (),
        }
    }

    /// A loop has another value made so far.
    pub(crate) fn set_loop_made(&mut self, made: Value)
        ensures { self.new ≡ with_loop (loop_made made) self.old }
    {
        match self {
            Activation::Loop(state) => state.made = made,
            _ => (),
        }
    }

    /// A loop waits for something else than a visit, or for a visit again.
    pub(crate) fn set_loop_aside(&mut self, aside: bool)
        ensures { self.new ≡ with_loop (loop_aside aside) self.old }
    {
        match self {
            Activation::Loop(state) => state.aside = aside,
            _ => (),
        }
    }

    /// What it runs, if it is a body.
    pub fn frame(self) -> Option<Frame>
        ensures { result ≡ frame_in self }
    {
        match self {
            Activation::Body(frame) => Some(frame),
            Activation::Leaving(frame) => Some(frame),
            _ => None,
        }
    }

    /// What it is for.
    pub fn mark(self) -> Mark
        ensures { result ≡ mark_in self }
    {
        match self {
            Activation::Body(_) => Mark::Plain,
            Activation::Leaving(_) => Mark::Plain,
            Activation::Protect { .. } => Mark::Protect,
            Activation::EnsureOn { .. } => Mark::Ensure,
            Activation::CurtailOn { .. } => Mark::Curtail,
            Activation::ActionOff { .. } => Mark::Action,
            Activation::Signal { .. } => Mark::SignalPoint,
            Activation::HandlerRun { .. } => Mark::HandlerRun,
            Activation::Outer => Mark::OuterPoint,
            Activation::ResumeWait { .. } => Mark::Wait,
            Activation::HandlesWait { .. } => Mark::Wait,
            Activation::Loop(_) => Mark::Loop,
        }
    }
}

/// An activation that stands, without its operands.
#[derive(Clone, Copy, Debug, PartialEq, Eq)]
pub struct Numbered {
    pub number: u64,
    /// The environment in which its callees run; of an `on:do:` the one around it.
    pub env: Env,
    pub kept: Activation,
}
