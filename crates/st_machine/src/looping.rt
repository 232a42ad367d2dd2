// How loops stand, and what their visits ask for (ANSI NCITS 319, 5.4.3 and 5.7).
ghost use Rattle.std.specs.Prelude.{◌≡◌, ◌≤◌, IsTrue, length};
ghost use Rattle.st_loops.specs.Kinds.{message_of};
ghost use Rattle.st_loops.specs.Requests.{IsKept, IsReceiver};
ghost use Rattle.st_loops.specs.Starts.{started};
ghost use Rattle.st_loops.specs.States.{state_of, values_of};
ghost use Rattle.st_loops.specs.Steps.{seen};
ghost use Rattle.st_collections.specs.Items.{IsMeasured};
ghost use Rattle.st_collections.specs.Loops.{first_visit};
ghost use Rattle.st_machine.specs.Loops.{no_loop, standing_so, loop_stepped, visited_by, loop_goes_on, iterated, visited};
ghost use Rattle.st_machine.specs.Opening.{beginning};
ghost use Rattle.st_machine.specs.Passing.{passing_on};
ghost use Rattle.st_machine.specs.Plans.{program_in};
ghost use Rattle.st_machine.specs.Settling.{ended};

use crate::machine::Machine;
use crate::work::{Ending, Mode, Told, Work};
use object_heap::{Heap, Trouble, Value};
use st_contexts::{Activation, Env, Limit, Outcome};
use st_loops::{Arguments, LoopKind, LoopState, LoopStep, advance, begin, is_kept, is_receiver};

// What stands while a loop makes its first visit.
fn no_loop() -> LoopState
    ensures { result ≡ no_loop }
{
    LoopState {
        kind: LoopKind::WhileTrue,
        receiver: Value::Nil,
        arguments: Arguments::None,
        index: 0,
        made: Value::Nil,
        visited: Value::Nil,
        aside: false,
    }
}

// Whether a loop may go on from what it keeps.
fn may_go_on<H: Heap>(heap: &H, state: LoopState) -> bool
    ensures test { result ≡ loop_goes_on (H.meaning heap.now).store (state_of state) }
    ensures measured { IsTrue result → IsMeasured (H.meaning heap.now).store state.receiver }
    ensures changes { IsTrue result → IsReceiver (H.meaning heap.now).store (message_of state.kind) state.receiver }
    ensures kept { IsTrue result → IsKept (H.meaning heap.now).store (message_of state.kind) (state_of state) }
{
    is_receiver(heap, state.kind, state.receiver) && is_kept(heap, state)
}

impl<H: Heap> Machine<H> {
    /// What never comes ends the run.
    pub(crate) fn strand(&mut self)
        ensures { self.new ≡ ended Ending.Stranded self.old }
    {
        self.mode = Mode::Ended(Ending::Stranded);
    }

    /// A work begins with these values, where there is room for them.
    pub(crate) fn begin_with(&mut self, values: &[Value], work: Work)
        ensures { self.new ≡ passing_on values.now (beginning work) self.old }
    {
        if self.passed.set(values) {
            self.mode = Mode::Begin(work);
        } else {
            self.strand();
        }
    }

    // A work begins with the arguments of a visit.
    fn begin_visit(&mut self, arguments: Arguments, work: Work)
        ensures { self.new ≡ passing_on (values_of arguments) (beginning work) self.old }
    {
        match arguments {
            Arguments::None => self.begin_with(&[], work),
            Arguments::One(one) => self.begin_with(&[one], work),
            Arguments::Two(one, two) => self.begin_with(&[one, two], work),
            Arguments::Three(one, two, three) => self.begin_with(&[one, two, three], work),
        }
    }

    // The loop that stands innermost is in this state.
    fn keep_loop(&mut self, state: LoopState)
        ensures { self.new ≡ standing_so (state_of state) self.old }
    {
        self.contexts.keep(Activation::Loop(state));
    }

    // What the loop that stands innermost asks for next, or what it answers.
    fn step_loop(&mut self, step: LoopStep, env: Env)
        ensures { self.new ≡ loop_stepped (seen step) env self.old }
    {
        match step {
            LoopStep::Apply {
                state,
                block,
                arguments,
            } => {
                self.keep_loop(state);
                let work = Work::Apply {
                    receiver: block,
                    env,
                };
                self.begin_visit(arguments, work);
            }
            LoopStep::Equal {
                state,
                receiver,
                argument,
            } => {
                self.keep_loop(state);
                let work = Work::SendTo {
                    selector: self.loaded.selector(b"="),
                    receiver,
                    env,
                };
                self.begin_with(&[argument], work);
            }
            LoopStep::Answer(value) => self.leave(Outcome::Answer(value)),
            LoopStep::Lacking { state } => {
                self.keep_loop(state);
                self.mode = Mode::Begin(Work::Fail {
                    trouble: Trouble::NotFound,
                    env,
                });
            }
            LoopStep::Cells { used: _, charge: _ } => self.leave(Outcome::Stop(Limit::Cells)),
            LoopStep::OutOfMemory => self.strand(),
        }
    }

    // The first visit of a loop, where its receiver is one.
    fn visit_first(&mut self, kind: LoopKind, receiver: Value, env: Env)
        requires few { length self.old.passed.values ≤ 3 }
        requires measured { IsMeasured self.old.memory.store receiver }
        requires changes { IsReceiver self.old.memory.store (message_of kind) receiver }
        ensures { self.new ≡ visited_by (first_visit (program_in self.old.plan) self.old.memory.store (started (program_in self.old.plan) self.old.memory.store (message_of kind) receiver self.old.passed.values)) env self.old }
    {
        let names = self.loaded.names();
        let step = begin(&mut self.heap, names, kind, receiver, self.passed.values());
        self.step_loop(step, env);
    }

    /// A loop stands and makes its first visit.
    #[tactic(auto, using(crate::proofs::LoopStates::begins_same))]
    pub(crate) fn iterate(&mut self, kind: LoopKind, receiver: Value, env: Env) -> Told
        ensures iterated { self.new ≡ iterated (started (program_in self.old.plan) self.old.memory.store (message_of kind) receiver self.old.passed.values) env self.old }
        ensures told { result ≡ Told.Nothing }
    {
        if self.passed.count() > 3 || !is_receiver(&self.heap, kind, receiver) {
            self.strand();
            return Told::Nothing;
        }
        match self.stand(Activation::Loop(no_loop()), env) {
            Some(_) => self.visit_first(kind, receiver, env),
            None => self.settle_with(Outcome::Stop(Limit::Depth)),
        }
        Told::Nothing
    }

    /// The loop that stands innermost gets a value, and makes its next visit.
    pub fn visit(&mut self, state: LoopState, value: Value, env: Env) -> Told
        ensures visited { self.new ≡ visited state value env self.old }
        ensures told { result ≡ Told.Nothing }
    {
        if may_go_on(&self.heap, state) {
            let names = self.loaded.names();
            let step = advance(&mut self.heap, names, state, value);
            self.step_loop(step, env);
        } else {
            self.strand();
        }
        Told::Nothing
    }
}
