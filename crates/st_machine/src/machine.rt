// The machine: its parts, and how it stands, stops and is asked.
ghost use Rattle.std.specs.Prelude.{◌≡◌, IfOk, IsTrue};
ghost use Rattle.st_messages.specs.Replies.{written_text};
ghost use Rattle.st_machine.specs.Plans.{program_in};
ghost use Rattle.st_machine.specs.Seen.{Seen};
ghost use Rattle.st_machine.specs.Steps.{first_seen, advanced, advance_told, advance_written};
ghost use Rattle.st_machine.specs.Opening.{stood, stood_number, stepped, has_step, settling, left_with};

use crate::loaded::Loaded;
use crate::operands::Passed;
use crate::room::room_of;
use crate::work::{Mode, Telling, Told, events_alone};
use object_heap::{Heap, Value};
use st_base::OutOfMemory;
use st_contexts::{Activation, Contexts, Env, Outcome};
use std::alloc::Global;
use std::marker::Model;

/// A run of a program. Contracts see its parts.
#[derive(Drop)]
pub struct Machine<H: Heap> {
    pub loaded: Loaded,
    pub contexts: Contexts,
    pub heap: H,
    pub variables: Vec<Value>,
    pub passed: Passed,
    pub mode: Mode,
    pub steps: u64,
    pub deepest: u32,
    pub initializers: usize,
    pub instructions: u64,
}

impl<H: Heap> Model for Machine<H> {
    ghost use Rattle.std.specs.Prelude.{IsTrue};
    ghost use Rattle.std.specs.Coded.{codes};
    ghost use Rattle.st_tree.specs.contracts.units.Unit as unit;
    ghost use Rattle.st_machine.specs.Seen.{Seen};

    ghost coded = { Prim.hlevel (codes, unit.the_row.coded) };

    ghost Value = { Seen };

    ghost view = { λ m. record { plan = m.loaded; stack = m.contexts; memory = H.meaning m.heap; variables = m.variables.items; passed = m.passed; mode = m.mode; steps = m.steps; deepest = m.deepest; initializers = m.initializers; instructions = m.instructions } };

    ghost invariant = { λ _. IsTrue H.reserved };
}

impl<H: Heap> Machine<H> {
    /// The machine at the beginning of a run over a heap, which holds the program's literals. All
    /// memory is taken here.
    pub fn open(alloc: Global, loaded: Loaded, heap: H) -> Result<Machine<H>, OutOfMemory>
    where
        H: Drop,
        requires { IsTrue H.reserved }
        ensures { IfOk result (λ m. m ≡ first_seen loaded (H.meaning heap)) }
    {
        let width = loaded.width();
        let contexts = Contexts::new(alloc, loaded.depth_limit(), width)?;
        let variables = vec![in alloc; Value::Nil; loaded.variables()]?;
        let passed = Passed::new(alloc, room_of(&loaded))?;
        Ok(Machine {
            loaded,
            contexts,
            heap,
            variables,
            passed,
            mode: Mode::Next,
            steps: 0,
            deepest: 0,
            initializers: 0,
            instructions: 0,
        })
    }

    /// What comes next.
    pub fn mode(&self) -> Mode
        ensures { result ≡ self.now.mode }
    {
        self.mode
    }

    /// One small step, and what it tells.
    pub fn advance(&mut self) -> Telling
        ensures stepped { self.new ≡ advanced self.old }
        ensures told { result.events ≡ advance_told self.old }
        ensures written { written_text (program_in self.new.plan) self.new.memory.store result.written ≡ advance_written self.old }
    {
        match self.mode {
            Mode::Run => {
                self.instruct();
                events_alone(Told::Nothing)
            }
            Mode::Settle(outcome) => events_alone(self.settle(outcome)),
            Mode::Begin(work) => self.begin(work),
            Mode::Next => {
                self.open_next();
                events_alone(Told::Nothing)
            }
            Mode::Ended(_) => events_alone(Told::Nothing),
        }
    }

    /// One more activation, unless as many stand as may. Answers its number.
    pub fn stand(&mut self, kept: Activation, env: Env) -> Option<u64>
        ensures stood { self.new ≡ stood kept env self.old }
        ensures number { result ≡ stood_number self.old }
    {
        if self.contexts.next_number() == u64::MAX {
            return None;
        }
        match self.contexts.push(kept, env) {
            Ok(number) => {
                let depth = self.contexts.depth();
                if self.deepest < depth {
                    self.deepest = depth;
                }
                Some(number)
            }
            Err(_) => None,
        }
    }

    /// One more step, unless the limit is reached. Answers whether it was counted.
    pub fn step(&mut self) -> bool
        ensures counted { self.new ≡ stepped self.old }
        ensures answer { result ≡ has_step self.old }
    {
        if self.steps < self.loaded.step_limit() {
            self.steps += 1;
            return true;
        }
        false
    }

    /// This outcome is in hand.
    pub fn settle_with(&mut self, outcome: Outcome)
        ensures { self.new ≡ settling outcome self.old }
    {
        self.mode = Mode::Settle(outcome);
    }

    /// The innermost activation is dropped, with this outcome in hand.
    pub fn leave(&mut self, outcome: Outcome)
        ensures { self.new ≡ left_with outcome self.old }
    {
        self.contexts.pop();
        self.mode = Mode::Settle(outcome);
    }
}
