// How bodies come to stand, with their variables.
ghost use Rattle.std.specs.Prelude.{◌≡◌};
ghost use Rattle.st_machine.specs.Opening.{frame_for, own_furnished, filled, furnished, opened, block_opening, activated, entered, closure_in, fitting, applied};

use crate::machine::Machine;
use crate::operands::push_own;
use crate::scopes::{count_captured, make_scope, put_captured};
use crate::work::{Mode, Work};
use object_heap::{Closure, Heap, Value};
use st_contexts::{Activation, Env, Frame, Limit, Outcome};

/// What a new body is for.
#[derive(Clone, Copy, Debug, PartialEq, Eq)]
pub struct Opening {
    pub code: u32,
    pub receiver: Value,
    /// The class that it is written in.
    pub class: Value,
    /// The number of its home. None where it is its own.
    pub home: Option<u64>,
    /// The innermost scope around it.
    pub outer: Option<u32>,
    pub env: Env,
}

impl Opening {
    /// The frame of a body with this number, at its first instruction.
    pub fn frame(self, own: u64) -> Frame
        ensures { result ≡ frame_for self own }
    {
        let home = match self.home {
            Some(home) => home,
            None => own,
        };
        Frame {
            code: self.code,
            position: 0,
            receiver: self.receiver,
            class: self.class,
            scope: self.outer,
            home,
        }
    }

    /// The activation of a block.
    pub fn of_block(closure: Closure, env: Env) -> Opening
        ensures { result ≡ block_opening closure env }
    {
        Opening {
            code: closure.code,
            receiver: closure.receiver,
            class: closure.class,
            home: Some(closure.home),
            outer: closure.scope,
            env,
        }
    }
}

impl<H: Heap> Machine<H> {
    // The variables that no block names become operands.
    fn furnish_own(&mut self, frame: Frame)
        ensures { self.new ≡ own_furnished frame self.old }
    {
        push_own(
            &mut self.contexts,
            self.loaded.captured(frame.code),
            self.passed.values(),
        );
        self.mode = Mode::Run;
    }

    // The others go to this new scope.
    fn fill(&mut self, frame: Frame, scope: u32)
        ensures { self.new ≡ filled frame scope self.old }
    {
        put_captured(
            &mut self.heap,
            scope,
            self.loaded.captured(frame.code),
            self.passed.values(),
        );
        self.contexts.set_frame(Frame {
            scope: Some(scope),
            ..frame
        });
        self.furnish_own(frame);
    }

    // The body that was pushed gets its scope and its variables.
    fn furnish(&mut self, frame: Frame)
        ensures { self.new ≡ furnished frame self.old }
    {
        let captured = count_captured(self.loaded.captured(frame.code));
        if captured == 0 {
            self.furnish_own(frame);
            return;
        }
        match make_scope(&mut self.heap, frame.code, captured, frame.scope) {
            Some(scope) => self.fill(frame, scope),
            None => self.leave(Outcome::Stop(Limit::Cells)),
        }
    }

    /// A new body over what stands.
    pub fn open_body(&mut self, opening: Opening)
        ensures { self.new ≡ opened opening self.old }
    {
        let frame = opening.frame(self.contexts.next_number());
        match self.stand(Activation::Body(frame), opening.env) {
            Some(_) => self.furnish(frame),
            None => self.settle_with(Outcome::Stop(Limit::Depth)),
        }
    }

    /// A block is activated, which costs a step.
    pub fn activate(&mut self, closure: Closure, env: Env)
        ensures { self.new ≡ activated closure env self.old }
    {
        if self.step() {
            self.open_body(Opening::of_block(closure, env));
        } else {
            self.settle_with(Outcome::Stop(Limit::Steps));
        }
    }

    /// A method is activated.
    pub fn enter(&mut self, code: u32, receiver: Value, env: Env)
        ensures { self.new ≡ entered code receiver env self.old }
    {
        let class = self.loaded.class(code);
        self.open_body(Opening {
            code,
            receiver,
            class,
            home: None,
            outer: None,
            env,
        });
    }

    /// What a value keeps that is a block.
    pub fn closure(&self, receiver: Value) -> Option<Closure>
        ensures { result ≡ closure_in receiver self.now }
    {
        match receiver {
            Value::Object(number) => self.heap.closure(number),
            _ => None,
        }
    }

    /// The closure, where it takes as many values as are passed.
    pub fn fit(&self, closure: Option<Closure>) -> Option<Closure>
        ensures { result ≡ fitting closure self.now }
    {
        match closure {
            Some(closure) => {
                let parameters = self.loaded.parameters(closure.code);
                if parameters as usize == self.passed.values().len() {
                    return Some(closure);
                }
                None
            }
            None => None,
        }
    }

    /// A block that takes as many values is activated, and anything else gets a message.
    pub fn apply(&mut self, receiver: Value, env: Env)
        ensures { self.new ≡ applied receiver env self.old }
    {
        match self.fit(self.closure(receiver)) {
            Some(closure) => {
                self.mode = Mode::Begin(Work::Activate { closure, env });
            }
            None => {
                self.mode = Mode::Begin(Work::SendValue { receiver, env });
            }
        }
    }
}
