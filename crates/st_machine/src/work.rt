// What the machine does next, and what a step tells.
ghost use Rattle.std.specs.Prelude.{◌≡◌};
ghost use Rattle.st_messages.specs.declared.reply.Written.{Written};

use object_heap::{Closure, Trouble, Value};
use st_contexts::{Env, Event, Outcome, SearchState, Turn, Wait};
use st_loops::LoopState;
use st_messages::Written;

/// How a run ended.
#[derive(Clone, Copy, Debug, PartialEq, Eq)]
pub enum Ending {
    Done,
    /// An exception that nothing handled.
    Unhandled { exception: Value },
    Steps,
    Depth,
    Cells,
    Integer,
    /// An unwinding to an activation that doesn't stand. It never comes.
    Stranded,
}

/// What is to be begun. The values that it passes on stand among the machine's arguments.
#[derive(Clone, Copy, Debug, PartialEq, Eq)]
pub enum Work {
    /// The receiver is applied to the arguments.
    Apply {
        receiver: Value,
        env: Env,
    },
    /// `value` and its kin are sent to the receiver.
    SendValue {
        receiver: Value,
        env: Env,
    },
    /// A block is activated.
    Activate {
        closure: Closure,
        env: Env,
    },
    /// The method with this code is activated.
    Enter {
        code: u32,
        receiver: Value,
        env: Env,
    },
    SendTo {
        selector: u32,
        receiver: Value,
        env: Env,
    },
    /// A send that is looked up behind this class.
    SuperTo {
        class: Value,
        selector: u32,
        receiver: Value,
        env: Env,
    },
    /// An Error with the text of this trouble is signaled.
    Fail {
        trouble: Trouble,
        env: Env,
    },
    /// An exception is signaled that is there.
    Raise {
        exception: u32,
        env: Env,
    },
    /// A new exception of this class is signaled. The arguments are its slots.
    RaiseNew {
        class: u32,
        env: Env,
    },
    /// The rest of an environment is searched for an entry that handles.
    Search {
        search: SearchState,
        rest: Env,
    },
    /// A turn runs the handler of this entry or, where there is none, the default action.
    TurnBy {
        search: SearchState,
        entry: Option<u64>,
        outside: Env,
    },
    /// The exception of this turn is asked whether it is resumable.
    Ask {
        wait: Wait,
        number: u64,
        turn: Turn,
        env: Env,
    },
    /// A loop gets this value, and visits what comes next. It still stands.
    Visit {
        number: u64,
        state: LoopState,
        value: Value,
        env: Env,
    },
}

/// What the machine does next.
#[derive(Clone, Copy, Debug, PartialEq, Eq)]
pub enum Mode {
    /// The innermost activation runs its next instruction.
    Run,
    /// An outcome reaches the innermost activation.
    Settle(Outcome),
    Begin(Work),
    /// The next initializer is opened, or the run is done.
    Next,
    Ended(Ending),
}

/// The events that a step tells, in their order.
#[derive(Clone, Copy, Debug, PartialEq, Eq)]
pub enum Told {
    Nothing,
    One(Event),
    Two(Event, Event),
}

/// What a step tells: events, and what goes to the Transcript. No step tells both.
#[derive(Clone, Copy, Debug, PartialEq, Eq)]
pub struct Telling {
    pub events: Told,
    pub written: Written,
}

/// Nothing goes to the Transcript.
pub(crate) fn events_alone(events: Told) -> Telling
    ensures { result ≡ record { events = events; written = Written.Nothing } }
{
    Telling {
        events,
        written: Written::Nothing,
    }
}
