// The instructions.
ghost use Rattle.std.specs.Prelude.{◌≡◌, slice_get};
ghost use Rattle.st_contexts.specs.Stack.{top_value};
ghost use Rattle.st_rules.specs.Flat.{code_at};
ghost use Rattle.st_machine.specs.Instructions.{value_delivered, variable_read, variable_written, stored, block_made, arguments_taken, sent, super_sent, answering, returned_home, operand_dropped, gone_on, performed, counted, next_performed, instructed};

use crate::machine::Machine;
use crate::operands::{advance, argument, deliver};
use crate::scopes::{make_block, set_shared, set_slot, set_variable, shared, slot, variable};
use crate::work::{Mode, Work};
use object_heap::{Closure, Heap, Trouble, Value};
use st_code::{Instruction, Variable};
use st_contexts::{Activation, Frame, Limit, Outcome, Target};

impl<H: Heap> Machine<H> {
    // A value is one more operand, and the next instruction comes.
    fn push(&mut self, frame: Frame, value: Value)
        ensures { self.new ≡ value_delivered frame value self.old }
    {
        deliver(&mut self.contexts, frame, value);
    }

    /// What a variable holds.
    pub fn read(&self, variable_: Variable, frame: Frame) -> Value
        ensures { result ≡ variable_read variable_ frame self.now }
    {
        match variable_ {
            Variable::Own(index) => self.contexts.variable(index),
            Variable::Scope { up, index } => variable(&self.heap, frame.scope, up, index),
            Variable::Instance(index) => slot(&self.heap, frame.receiver, index),
            Variable::ClassInstance(index) => {
                let first = self.loaded.first_class_slot(frame.receiver);
                shared(&self.variables, first, index)
            }
            Variable::Shared(index) => argument(&self.variables, index as usize),
        }
    }

    // Pushes what a variable holds.
    fn push_variable(&mut self, variable: Variable, frame: Frame)
        ensures { self.new ≡ value_delivered frame (variable_read variable frame self.old) self.old }
    {
        let value = self.read(variable, frame);
        self.push(frame, value);
    }

    /// Writes a variable.
    pub fn write(&mut self, variable: Variable, value: Value, frame: Frame)
        ensures { self.new ≡ variable_written variable value frame self.old }
    {
        match variable {
            Variable::Own(index) => self.contexts.set_variable(index, value),
            Variable::Scope { up, index } => {
                set_variable(&mut self.heap, frame.scope, up, index, value)
            }
            Variable::Instance(index) => set_slot(&mut self.heap, frame.receiver, index, value),
            Variable::ClassInstance(index) => {
                let first = self.loaded.first_class_slot(frame.receiver);
                set_shared(&mut self.variables, first, index, value)
            }
            Variable::Shared(index) => set_shared(&mut self.variables, 0, index, value),
        }
    }

    // Writes the last operand to a variable, and keeps it.
    fn store(&mut self, variable: Variable, frame: Frame)
        ensures { self.new ≡ stored variable frame self.old }
    {
        let value = self.contexts.top();
        self.write(variable, value, frame);
        advance(&mut self.contexts, frame);
    }

    /// Makes a block of this activation.
    pub fn make_block(&mut self, code: u32, frame: Frame)
        ensures { self.new ≡ block_made code frame self.old }
    {
        let closure = Closure {
            code,
            class: frame.class,
            receiver: frame.receiver,
            scope: frame.scope,
            home: frame.home,
        };
        match make_block(&mut self.heap, closure) {
            Some(number) => self.push(frame, Value::Object(number)),
            None => self.settle_with(Outcome::Stop(Limit::Cells)),
        }
    }

    // Takes the arguments and the receiver, and sends.
    fn send(&mut self, selector: u32, count: u32)
        ensures { self.new ≡ sent selector count self.old }
    {
        let env = self.contexts.env();
        self.passed.take(&mut self.contexts, count);
        let receiver = self.contexts.pop_value();
        self.mode = Mode::Begin(Work::SendTo {
            selector,
            receiver,
            env,
        });
    }

    // The same behind the class that the body is written in.
    fn super_send(&mut self, selector: u32, count: u32, frame: Frame)
        ensures { self.new ≡ super_sent selector count frame self.old }
    {
        let env = self.contexts.env();
        self.passed.take(&mut self.contexts, count);
        let receiver = self.contexts.pop_value();
        self.mode = Mode::Begin(Work::SuperTo {
            class: frame.class,
            selector,
            receiver,
            env,
        });
    }

    // The last operand is the body's value.
    fn answer_top(&mut self)
        ensures { self.new ≡ answering self.old }
    {
        let value = self.contexts.top();
        self.leave(Outcome::Answer(value));
    }

    // The last operand goes to the home, or an Error comes where that has returned.
    fn return_home(&mut self, frame: Frame)
        ensures { self.new ≡ returned_home frame self.old }
    {
        let value = self.contexts.pop_value();
        if self.contexts.stands(frame.home) {
            self.mode = Mode::Settle(Outcome::Go(Target::Home(frame.home), value));
        } else {
            let env = self.contexts.env();
            self.contexts.keep(Activation::Leaving(frame));
            self.mode = Mode::Begin(Work::Fail {
                trouble: Trouble::HomeHasReturned,
                env,
            });
        }
    }

    // Drops the last operand.
    fn pop(&mut self, frame: Frame)
        ensures { self.new ≡ gone_on frame (operand_dropped self.old) }
    {
        let _ = self.contexts.pop_value();
        advance(&mut self.contexts, frame);
    }

    // Pushes the last operand again.
    fn dup(&mut self, frame: Frame)
        ensures { self.new ≡ value_delivered frame (top_value self.old.stack) self.old }
    {
        let value = self.contexts.top();
        deliver(&mut self.contexts, frame, value);
    }

    // One instruction of the innermost body, as far as what it begins.
    fn perform(&mut self, instruction: Instruction, frame: Frame)
        ensures { self.new ≡ performed instruction frame self.old }
    {
        match instruction {
            Instruction::PushConstant(constant) => self.push(frame, constant.value()),
            Instruction::PushSelf => self.push(frame, frame.receiver),
            Instruction::PushVariable(variable) => self.push_variable(variable, frame),
            Instruction::Store(variable) => self.store(variable, frame),
            Instruction::Pop => self.pop(frame),
            Instruction::Dup => self.dup(frame),
            Instruction::Send { selector, count } => self.send(selector, count),
            Instruction::SuperSend { selector, count } => self.super_send(selector, count, frame),
            Instruction::MakeBlock(code) => self.make_block(code, frame),
            Instruction::MethodReturn => self.answer_top(),
            Instruction::HomeReturn => self.return_home(frame),
            Instruction::BlockEnd => self.answer_top(),
        }
    }

    // The next instruction of this frame.
    fn perform_next(&mut self, frame: Frame)
        ensures { self.new ≡ next_performed (slice_get (code_at self.old.plan.codes frame.code).instructions frame.position) frame self.old }
    {
        match self.loaded.instruction(frame.code, frame.position) {
            Some(instruction) => self.perform(instruction, frame),
            None => self.leave(Outcome::Answer(Value::Nil)),
        }
    }

    /// The innermost body runs its next instruction. A body at its end answers nil.
    pub(crate) fn instruct(&mut self)
        ensures { self.new ≡ instructed self.old }
    {
        match self.contexts.top_kept() {
            Some(Activation::Body(frame)) => {
                self.instructions = self.instructions.saturating_add(1);
                self.perform_next(frame);
            }
            _ => (),
        }
    }
}
