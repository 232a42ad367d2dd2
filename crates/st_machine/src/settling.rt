// What each activation makes of an outcome that reaches it (ANSI NCITS 319, 5.5).
ghost use Rattle.std.specs.Prelude.{◌≡◌, false};
ghost use Rattle.st_collections.specs.Kinds.{is_true};
ghost use Rattle.st_contexts.specs.Stack.{popped, numbered_at};
ghost use Rattle.st_machine.specs.Instructions.{value_delivered};
ghost use Rattle.st_machine.specs.Seen.{with_mode};
ghost use Rattle.st_machine.specs.Opening.{beginning, left_with};
ghost use Rattle.st_machine.specs.Settling.{at_home, at_outer, at_protect, receiver_again, signaled_instead, end_told, finished, again, at_signal, turn_outcome, search_of, searching, pointed, point_told, asked, asked_told, judged, without_top, answered_by, answer_told, protected_by, protected_told, signaled_by, signaled_told, unwound_by, unwinding_told, ending_of, limit_ending, answered_at, answer_told_at, unwound_at, unwinding_told_at, settled, settled_told};

use crate::machine::Machine;
use crate::operands::deliver;
use crate::work::{Ending, Mode, Told, Work};
use object_heap::{Heap, Trouble, Value};
use st_contexts::{
    Activation, Contexts, Env, Event, Frame, Limit, Numbered, Outcome, Purpose, SearchState,
    Target, Turn, Wait,
};
use st_loops::LoopState;

// What a body of this number makes of an unwinding.
fn at_home(number: u64, target: Target, value: Value) -> Outcome
    ensures { result ≡ at_home number target value }
{
    match target {
        Target::Home(home) if home == number => Outcome::Answer(value),
        _ => Outcome::Go(target, value),
    }
}

// What a resume point of this number makes of an unwinding.
fn at_outer(number: u64, target: Target, value: Value) -> Outcome
    ensures { result ≡ at_outer number target value }
{
    match target {
        Target::Resume(point) if point == number => Outcome::Answer(value),
        _ => Outcome::Go(target, value),
    }
}

// What an `on:do:` of this number makes of an unwinding, unless it begins again.
fn at_protect(number: u64, target: Target, value: Value) -> Outcome
    ensures { result ≡ at_protect number target value }
{
    match target {
        Target::Protected(protect) if protect == number => Outcome::Answer(value),
        _ => Outcome::Go(target, value),
    }
}

// What an `on:do:` of this number applies once more.
fn receiver_again(number: u64, receiver: Value, target: Target, value: Value) -> Option<Value>
    ensures { result ≡ receiver_again number receiver target value }
{
    match target {
        Target::Retry(protect) if protect == number => Some(receiver),
        Target::RetryWith(protect) if protect == number => Some(value),
        _ => None,
    }
}

// The exception that is signaled in place of that of this signal.
fn signaled_instead(number: u64, target: Target) -> Option<u32>
    ensures { result ≡ signaled_instead number target }
{
    match target {
        Target::Resignal { signal, exception } if signal == number => Some(exception),
        _ => None,
    }
}

// That an activation was dropped. A limit drops nothing.
fn end_told(number: u64, outcome: Outcome) -> Told
    ensures { result ≡ end_told number outcome }
{
    match outcome {
        Outcome::Answer(_) => Told::One(Event::End { number, cut: false }),
        Outcome::Go(_, _) => Told::One(Event::End { number, cut: true }),
        Outcome::Stop(_) => Told::Nothing,
    }
}

// Whether the innermost activation is the signal of this number.
fn at_signal(contexts: &Contexts, signal: u64) -> bool
    ensures { result ≡ at_signal signal contexts.now }
{
    match contexts.numbered(0) {
        Some(top) => match top.kept {
            Activation::Signal { .. } => top.number == signal,
            _ => false,
        },
        None => false,
    }
}

// What a turn over these activations makes of a value.
fn turn_outcome(turn: Turn, contexts: &Contexts, value: Value) -> Outcome
    ensures { result ≡ turn_outcome turn contexts.now value }
{
    match turn.entry {
        Some(entry) => Outcome::Go(Target::Protected(entry), value),
        None => {
            if at_signal(contexts, turn.signal) {
                return Outcome::Answer(value);
            }
            Outcome::Go(Target::Resume(turn.resume_point), value)
        }
    }
}

/// The search of a turn with this number.
pub(crate) fn search_of(who: u64, turn: Turn, purpose: Purpose) -> SearchState
    ensures { result ≡ search_of who turn purpose }
{
    SearchState {
        exception: turn.exception,
        who,
        whole: turn.outside,
        purpose,
    }
}

// Which ending an unwinding past all activations is.
fn ending_of(target: Target, value: Value) -> Ending
    ensures { result ≡ ending_of target value }
{
    match target {
        Target::Terminate => Ending::Unhandled { exception: value },
        _ => Ending::Stranded,
    }
}

// Which ending a limit is.
fn limit_ending(limit: Limit) -> Ending
    ensures { result ≡ limit_ending limit }
{
    match limit {
        Limit::Steps => Ending::Steps,
        Limit::Depth => Ending::Depth,
        Limit::Cells => Ending::Cells,
        Limit::Integer => Ending::Integer,
    }
}

fn is_true(value: Value) -> bool
    ensures { result ≡ is_true value }
{
    match value {
        Value::True => true,
        _ => false,
    }
}

impl<H: Heap> Machine<H> {
    // The innermost activation is dropped and told of.
    fn end(&mut self, number: u64, outcome: Outcome) -> Told
        ensures left { self.new ≡ left_with outcome self.old }
        ensures told { result ≡ end_told number outcome }
    {
        self.leave(outcome);
        end_told(number, outcome)
    }

    // The innermost activation is dropped, and nothing is told.
    fn end_silently(&mut self, outcome: Outcome) -> Told
        ensures left { self.new ≡ left_with outcome self.old }
        ensures told { result ≡ Told.Nothing }
    {
        self.leave(outcome);
        Told::Nothing
    }

    // A body gets a value.
    fn answer_body(&mut self, frame: Frame, value: Value) -> Told
        ensures run { self.new ≡ with_mode (value_delivered frame value self.old) Mode.Run }
        ensures told { result ≡ Told.Nothing }
    {
        deliver(&mut self.contexts, frame, value);
        self.mode = Mode::Run;
        Told::Nothing
    }

    // A termination block runs, with an outcome held.
    fn finish(&mut self, number: u64, block: Value, held: Outcome, env: Env) -> Told
        ensures run { self.new ≡ finished block held env self.old }
        ensures told { result ≡ Told.One (Event.Action number) }
    {
        self.contexts.keep(Activation::ActionOff { held });
        self.passed.clear();
        self.mode = Mode::Begin(Work::Apply {
            receiver: block,
            env,
        });
        Told::One(Event::Action(number))
    }

    // An `on:do:` applies a receiver once more.
    fn protect_again(
        &mut self,
        number: u64,
        receiver: Value,
        selector: Value,
        handler: Value,
    ) -> Told
        ensures run { self.new ≡ again number receiver selector handler self.old }
        ensures told { result ≡ Told.One (Event.Again number) }
    {
        self.contexts.keep(Activation::Protect {
            receiver,
            selector,
            handler,
        });
        self.passed.clear();
        self.mode = Mode::Begin(Work::Apply {
            receiver,
            env: Env(number),
        });
        Told::One(Event::Again(number))
    }

    // A turn gets a value.
    fn answer_turn(&mut self, number: u64, turn: Turn, value: Value) -> Told
        ensures left { self.new ≡ left_with (turn_outcome turn (popped self.old.stack) value) self.old }
        ensures told { result ≡ end_told number (turn_outcome turn (popped self.old.stack) value) }
    {
        self.contexts.pop();
        let outcome = turn_outcome(turn, &self.contexts, value);
        self.mode = Mode::Settle(outcome);
        end_told(number, outcome)
    }

    /// A search begins in the whole of its environment.
    pub(crate) fn search(&mut self, search: SearchState)
        ensures { self.new ≡ searching search self.old }
    {
        self.mode = Mode::Begin(Work::Search {
            search,
            rest: search.whole,
        });
    }

    // The point of an `outer` stands, and the search goes on outside its turn.
    fn point(&mut self, who: u64, turn: Turn, env: Env) -> Told
        ensures pointed { self.new ≡ pointed who turn env self.old }
        ensures told { result ≡ point_told who self.old }
    {
        match self.stand(Activation::Outer, env) {
            Some(point) => {
                self.search(search_of(who, turn, Purpose::Outer { turn, point }));
                Told::Two(Event::Outer(point), Event::Search(who))
            }
            None => {
                self.settle_with(Outcome::Stop(Limit::Depth));
                Told::Nothing
            }
        }
    }

    // What `resume:` does once `isResumable` has answered.
    fn resume(&mut self, resumable: bool, value: Value, turn: Turn, env: Env) -> Told
        ensures resumed { self.new ≡ asked resumable (Wait.Resume value) 0 turn env self.old }
        ensures told { result ≡ Told.Nothing }
    {
        if resumable {
            self.mode = Mode::Settle(Outcome::Go(Target::Resume(turn.resume_point), value));
        } else {
            self.mode = Mode::Begin(Work::Fail {
                trouble: Trouble::NotResumable,
                env,
            });
        }
        Told::Nothing
    }

    // What `outer` does once `isResumable` has answered.
    fn outer(&mut self, resumable: bool, who: u64, turn: Turn, env: Env) -> Told
        ensures asked { self.new ≡ asked resumable Wait.Outer who turn env self.old }
        ensures told { result ≡ asked_told resumable Wait.Outer who self.old }
    {
        if resumable {
            return self.point(who, turn, env);
        }
        self.search(search_of(who, turn, Purpose::Pass { turn }));
        Told::One(Event::Search(who))
    }

    // `isResumable` has answered.
    fn answer_wait(&mut self, resumable: bool, wait: Wait, who: u64, turn: Turn, env: Env) -> Told
        ensures asked { self.new ≡ asked resumable wait who turn env (without_top self.old) }
        ensures told { result ≡ asked_told resumable wait who (without_top self.old) }
    {
        self.contexts.pop();
        match wait {
            Wait::Resume { value } => self.resume(resumable, value, turn, env),
            Wait::Outer => self.outer(resumable, who, turn, env),
        }
    }

    // `handles:` has answered about an entry.
    fn answer_search(
        &mut self,
        fits: bool,
        number: u64,
        search: SearchState,
        entry: u64,
        rest: Env,
    ) -> Told
        ensures judged { self.new ≡ judged fits search entry rest (without_top self.old) }
        ensures told { result ≡ Told.Two (Event.End number false) (Event.Tried entry fits) }
    {
        self.contexts.pop();
        if fits {
            self.mode = Mode::Begin(Work::TurnBy {
                search,
                entry: Some(entry),
                outside: rest,
            });
        } else {
            self.mode = Mode::Begin(Work::Search { search, rest });
        }
        Told::Two(
            Event::End { number, cut: false },
            Event::Tried { entry, fits },
        )
    }

    // A loop gets a value, and still stands.
    fn answer_loop(&mut self, number: u64, state: LoopState, value: Value, env: Env) -> Told
        ensures visiting { self.new ≡ beginning (Work.Visit number state value env) self.old }
        ensures told { result ≡ Told.Nothing }
    {
        self.mode = Mode::Begin(Work::Visit {
            number,
            state,
            value,
            env,
        });
        Told::Nothing
    }

    // A value reaches the innermost activation, which is this one.
    fn answer_to(&mut self, top: Numbered, value: Value) -> Told
        ensures answered { self.new ≡ answered_by top.kept top.number top.env value self.old }
        ensures told { result ≡ answer_told top.kept top.number value self.old }
    {
        let number = top.number;
        let env = top.env;
        match top.kept {
            Activation::Body(frame) => self.answer_body(frame, value),
            Activation::Leaving(_) => self.end_silently(Outcome::Answer(value)),
            Activation::Protect { .. } => self.end(number, Outcome::Answer(value)),
            Activation::EnsureOn { block } => {
                self.finish(number, block, Outcome::Answer(value), env)
            }
            Activation::CurtailOn { .. } => self.end(number, Outcome::Answer(value)),
            Activation::ActionOff { held } => self.end(number, held),
            Activation::Signal { .. } => self.end(number, Outcome::Answer(value)),
            Activation::HandlerRun { turn } => self.answer_turn(number, turn, value),
            Activation::Outer => self.end(number, Outcome::Answer(value)),
            Activation::ResumeWait {
                wait,
                number: who,
                turn,
            } => self.answer_wait(is_true(value), wait, who, turn, env),
            Activation::HandlesWait { search, entry } => {
                self.answer_search(is_true(value), number, search, entry, env)
            }
            Activation::Loop(state) => self.answer_loop(number, state, value, env),
        }
    }

    // An `on:do:` applies this receiver once more, or is dropped.
    fn protect_by(
        &mut self,
        receiver: Option<Value>,
        number: u64,
        selector: Value,
        handler: Value,
        outcome: Outcome,
    ) -> Told
        ensures protected { self.new ≡ protected_by receiver number selector handler outcome self.old }
        ensures told { result ≡ protected_told receiver number outcome }
    {
        match receiver {
            Some(receiver) => self.protect_again(number, receiver, selector, handler),
            None => self.end(number, outcome),
        }
    }

    // This exception is signaled at a signal, or that is dropped.
    fn signal_by(&mut self, other: Option<u32>, number: u64, outcome: Outcome, env: Env) -> Told
        ensures signaled { self.new ≡ signaled_by other outcome env self.old }
        ensures told { result ≡ signaled_told other number outcome }
    {
        match other {
            Some(exception) => {
                self.mode = Mode::Begin(Work::Raise { exception, env });
                Told::Nothing
            }
            None => self.end(number, outcome),
        }
    }

    // An unwinding reaches the innermost activation, which is this one.
    fn unwind_at(&mut self, top: Numbered, target: Target, value: Value) -> Told
        ensures unwound { self.new ≡ unwound_by top.kept top.number top.env target value self.old }
        ensures told { result ≡ unwinding_told top.kept top.number target value }
    {
        let number = top.number;
        let env = top.env;
        let unwinding = Outcome::Go(target, value);
        match top.kept {
            Activation::Body(_) => self.end_silently(at_home(number, target, value)),
            Activation::Leaving(_) => self.end_silently(at_home(number, target, value)),
            Activation::Protect {
                receiver,
                selector,
                handler,
            } => self.protect_by(
                receiver_again(number, receiver, target, value),
                number,
                selector,
                handler,
                at_protect(number, target, value),
            ),
            Activation::EnsureOn { block } => self.finish(number, block, unwinding, env),
            Activation::CurtailOn { block } => self.finish(number, block, unwinding, env),
            Activation::ActionOff { .. } => self.end(number, unwinding),
            Activation::Signal { .. } => self.signal_by(
                signaled_instead(number, target),
                number,
                at_outer(number, target, value),
                env,
            ),
            Activation::HandlerRun { .. } => self.end(number, unwinding),
            Activation::Outer => self.end(number, at_outer(number, target, value)),
            Activation::ResumeWait { .. } => self.end_silently(unwinding),
            Activation::HandlesWait { .. } => self.end(number, unwinding),
            Activation::Loop(_) => self.end_silently(unwinding),
        }
    }

    // A value in hand.
    fn answer(&mut self, value: Value) -> Told
        ensures answered { self.new ≡ answered_at (numbered_at 0 self.old.stack.acts) value self.old }
        ensures told { result ≡ answer_told_at (numbered_at 0 self.old.stack.acts) value self.old }
    {
        match self.contexts.numbered(0) {
            Some(top) => self.answer_to(top, value),
            None => {
                self.keep_value(value);
                Told::Nothing
            }
        }
    }

    // An unwinding in hand.
    fn unwind(&mut self, target: Target, value: Value) -> Told
        ensures unwound { self.new ≡ unwound_at (numbered_at 0 self.old.stack.acts) target value self.old }
        ensures told { result ≡ unwinding_told_at (numbered_at 0 self.old.stack.acts) target value }
    {
        match self.contexts.numbered(0) {
            Some(top) => self.unwind_at(top, target, value),
            None => {
                self.mode = Mode::Ended(ending_of(target, value));
                Told::Nothing
            }
        }
    }

    /// This outcome reaches the innermost activation. A value with nothing standing is that of the
    /// initializer that is on.
    pub(crate) fn settle(&mut self, outcome: Outcome) -> Told
        ensures settled { self.new ≡ settled outcome self.old }
        ensures told { result ≡ settled_told outcome self.old }
    {
        match outcome {
            Outcome::Answer(value) => self.answer(value),
            Outcome::Go(target, value) => self.unwind(target, value),
            Outcome::Stop(limit) => {
                self.mode = Mode::Ended(limit_ending(limit));
                Told::Nothing
            }
        }
    }
}
