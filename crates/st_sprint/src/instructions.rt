// The instructions of a body, each made in place with what it brings at once.
ghost use Rattle.std.specs.Prelude.{◌≡◌, ◌<◌, Some};
ghost use Rattle.st_code.specs.declared.instruction.Instruction.{Instruction};
ghost use Rattle.st_code.specs.declared.instruction.Variable.TheVariants.{Own};
ghost use Rattle.st_machine.specs.Instructions.{counted};
ghost use Rattle.st_contexts.specs.Moving.{body_of};
ghost use Rattle.st_contexts.specs.Stack.{top_value};
ghost use Rattle.st_sprint.specs.Dashes.{Comes, Pushes, Leaves, popped_on, stored_on, written_on, operands_taken, receiver_of, body_left, block_added, block_number};
ghost use Rattle.st_sprint.specs.Sprinting.{SameRun};

use crate::budget::Budget;
use crate::sends::send;
use crate::supers::super_send;
use crate::values::{deliver, push_on};
use object_heap::{Closure, Heap, Value};
use st_code::Variable;
use st_contexts::{Frame, Limit, Outcome};
use st_machine::Machine;

const BLOCK: u32 = 18;

/// One more instruction counts.
pub fn count<H: Heap>(machine: &mut Machine<H>)
    ensures { machine.new ≡ counted machine.old }
{
    machine.instructions = machine.instructions.saturating_add(1);
}

// One operand less, and the next instruction comes.
fn pop_on<H: Heap>(machine: &mut Machine<H>)
    ensures { machine.new ≡ popped_on machine.old }
{
    let _ = machine.contexts.pop_value();
    machine.contexts.go_on();
}

// The last operand goes to a variable of the body, and the next instruction comes.
fn store_on<H: Heap>(machine: &mut Machine<H>, index: u32)
    ensures { machine.new ≡ stored_on index machine.old }
{
    let value = machine.contexts.top();
    machine.contexts.set_variable(index, value);
    machine.contexts.go_on();
}

// The arguments and the receiver of a send are taken. Answers the receiver.
fn take_operands<H: Heap>(machine: &mut Machine<H>, arguments: u32) -> Value
    ensures taken { machine.new ≡ operands_taken arguments machine.old }
    ensures receiver { result ≡ receiver_of arguments machine.old }
{
    count(machine);
    machine.passed.take(&mut machine.contexts, arguments);
    machine.contexts.pop_value()
}

/// The next instruction pushes this value.
pub fn push_next<H: Heap>(machine: &mut Machine<H>, value: Value, budget: Budget) -> Budget
    requires steps { 0 < budget.steps }
    requires turns { 0 < budget.turns }
    requires pushes { Pushes value machine.old }
    ensures { SameRun budget.steps budget.turns machine.old result.steps result.turns machine.new }
{
    count(machine);
    push_on(machine, value);
    budget.after_instruction()
}

pub fn own_next<H: Heap>(machine: &mut Machine<H>, index: u32, budget: Budget) -> Budget
    requires steps { 0 < budget.steps }
    requires turns { 0 < budget.turns }
    requires comes { Comes (Instruction.PushVariable (Own index)) machine.old }
    ensures { SameRun budget.steps budget.turns machine.old result.steps result.turns machine.new }
{
    let value = machine.contexts.variable(index);
    push_next(machine, value, budget)
}

pub fn variable_next<H: Heap>(
    machine: &mut Machine<H>,
    variable: Variable,
    budget: Budget,
) -> Budget
    requires steps { 0 < budget.steps }
    requires turns { 0 < budget.turns }
    requires comes { Comes (Instruction.PushVariable variable) machine.old }
    ensures { SameRun budget.steps budget.turns machine.old result.steps result.turns machine.new }
{
    match machine.contexts.body() {
        Some(frame) => {
            let value = machine.read(variable, *frame);
            push_next(machine, value, budget)
        }
        None => budget,
    }
}

pub fn self_next<H: Heap>(machine: &mut Machine<H>, budget: Budget) -> Budget
    requires steps { 0 < budget.steps }
    requires turns { 0 < budget.turns }
    requires comes { Comes Instruction.PushSelf machine.old }
    ensures { SameRun budget.steps budget.turns machine.old result.steps result.turns machine.new }
{
    match machine.contexts.body() {
        Some(frame) => {
            let receiver = frame.receiver;
            push_next(machine, receiver, budget)
        }
        None => budget,
    }
}

pub fn pop_next<H: Heap>(machine: &mut Machine<H>, budget: Budget) -> Budget
    requires steps { 0 < budget.steps }
    requires turns { 0 < budget.turns }
    requires comes { Comes Instruction.Pop machine.old }
    ensures { SameRun budget.steps budget.turns machine.old result.steps result.turns machine.new }
{
    count(machine);
    pop_on(machine);
    budget.after_instruction()
}

pub fn store_next<H: Heap>(machine: &mut Machine<H>, index: u32, budget: Budget) -> Budget
    requires steps { 0 < budget.steps }
    requires turns { 0 < budget.turns }
    requires comes { Comes (Instruction.Store (Own index)) machine.old }
    ensures { SameRun budget.steps budget.turns machine.old result.steps result.turns machine.new }
{
    count(machine);
    store_on(machine, index);
    budget.after_instruction()
}

// The last operand goes to a variable of this frame, and the next instruction comes.
fn write_on<H: Heap>(machine: &mut Machine<H>, variable: Variable, frame: Frame)
    ensures { machine.new ≡ written_on variable frame machine.old }
{
    let value = machine.contexts.top();
    machine.write(variable, value, frame);
    machine.contexts.go_on();
}

// The next instruction stores into a variable of this frame.
fn store_of<H: Heap>(
    machine: &mut Machine<H>,
    variable: Variable,
    frame: Frame,
    budget: Budget,
) -> Budget
    requires steps { 0 < budget.steps }
    requires turns { 0 < budget.turns }
    requires comes { Comes (Instruction.Store variable) machine.old }
    requires body { body_of machine.old.stack ≡ Some frame }
    ensures { SameRun budget.steps budget.turns machine.old result.steps result.turns machine.new }
{
    count(machine);
    write_on(machine, variable, frame);
    budget.after_instruction()
}

/// The next instruction stores into any variable.
pub fn store_any_next<H: Heap>(
    machine: &mut Machine<H>,
    variable: Variable,
    budget: Budget,
) -> Budget
    requires steps { 0 < budget.steps }
    requires turns { 0 < budget.turns }
    requires comes { Comes (Instruction.Store variable) machine.old }
    ensures { SameRun budget.steps budget.turns machine.old result.steps result.turns machine.new }
{
    match machine.contexts.body() {
        Some(frame) => {
            let copied = *frame;
            store_of(machine, variable, copied, budget)
        }
        None => budget,
    }
}

/// The next instruction pushes the last operand again.
pub fn again_next<H: Heap>(machine: &mut Machine<H>, budget: Budget) -> Budget
    requires steps { 0 < budget.steps }
    requires turns { 0 < budget.turns }
    requires comes { Comes Instruction.Dup machine.old }
    ensures { SameRun budget.steps budget.turns machine.old result.steps result.turns machine.new }
{
    let value = machine.contexts.top();
    push_next(machine, value, budget)
}

/// The next instruction is a send.
pub fn send_next<H: Heap>(
    machine: &mut Machine<H>,
    selector: u32,
    arguments: u32,
    budget: Budget,
) -> Budget
    requires steps { 0 < budget.steps }
    requires turns { 0 < budget.turns }
    requires comes { Comes (Instruction.Send selector arguments) machine.old }
    ensures { SameRun budget.steps budget.turns machine.old result.steps result.turns machine.new }
{
    let env = machine.contexts.env();
    let receiver = take_operands(machine, arguments);
    send(machine, selector, receiver, env, budget.after_instruction())
}

// The next instruction is a send to super in a body with this frame.
fn super_of<H: Heap>(
    machine: &mut Machine<H>,
    selector: u32,
    arguments: u32,
    frame: Frame,
    budget: Budget,
) -> Budget
    requires steps { 0 < budget.steps }
    requires turns { 0 < budget.turns }
    requires comes { Comes (Instruction.SuperSend selector arguments) machine.old }
    requires body { body_of machine.old.stack ≡ Some frame }
    ensures { SameRun budget.steps budget.turns machine.old result.steps result.turns machine.new }
{
    let env = machine.contexts.env();
    let receiver = take_operands(machine, arguments);
    let left = budget.after_instruction();
    super_send(machine, frame.class, selector, receiver, env, left)
}

/// The next instruction is a send to super.
pub fn super_next<H: Heap>(
    machine: &mut Machine<H>,
    selector: u32,
    arguments: u32,
    budget: Budget,
) -> Budget
    requires steps { 0 < budget.steps }
    requires turns { 0 < budget.turns }
    requires comes { Comes (Instruction.SuperSend selector arguments) machine.old }
    ensures { SameRun budget.steps budget.turns machine.old result.steps result.turns machine.new }
{
    match machine.contexts.body() {
        Some(frame) => {
            let copied = *frame;
            super_of(machine, selector, arguments, copied, budget)
        }
        None => budget,
    }
}

// The last operand is the body's value, and the body is dropped.
fn take_answer<H: Heap>(machine: &mut Machine<H>) -> Value
    ensures taken { machine.new ≡ body_left machine.old }
    ensures value { result ≡ top_value machine.old.stack }
{
    count(machine);
    let value = machine.contexts.top();
    machine.contexts.pop();
    value
}

/// The next instruction answers.
pub fn answer_next<H: Heap>(machine: &mut Machine<H>, budget: Budget) -> Budget
    requires steps { 0 < budget.steps }
    requires turns { 0 < budget.turns }
    requires leaves { Leaves machine.old }
    ensures { SameRun budget.steps budget.turns machine.old result.steps result.turns machine.new }
{
    let value = take_answer(machine);
    deliver(machine, value, budget.after_instruction())
}

// A new block of this frame, or None where its cells would pass the limit.
fn make_block<H: Heap>(machine: &mut Machine<H>, code: u32, frame: Frame) -> Option<u32>
    ensures made { machine.new ≡ block_added code frame machine.old }
    ensures number { result ≡ block_number machine.old }
{
    let closure = Closure {
        code,
        class: frame.class,
        receiver: frame.receiver,
        scope: frame.scope,
        home: frame.home,
    };
    count(machine);
    machine.heap.make_closure(BLOCK, closure).ok()
}

// The next instruction makes a block of this frame.
fn block_of<H: Heap>(machine: &mut Machine<H>, code: u32, frame: Frame, budget: Budget) -> Budget
    requires steps { 0 < budget.steps }
    requires turns { 0 < budget.turns }
    requires comes { Comes (Instruction.MakeBlock code) machine.old }
    requires body { body_of machine.old.stack ≡ Some frame }
    ensures { SameRun budget.steps budget.turns machine.old result.steps result.turns machine.new }
{
    match make_block(machine, code, frame) {
        Some(number) => {
            push_on(machine, Value::Object(number));
            budget.after_instruction()
        }
        None => {
            machine.settle_with(Outcome::Stop(Limit::Cells));
            budget.after_instruction()
        }
    }
}

/// The next instruction makes a block.
pub fn block_next<H: Heap>(machine: &mut Machine<H>, code: u32, budget: Budget) -> Budget
    requires steps { 0 < budget.steps }
    requires turns { 0 < budget.turns }
    requires comes { Comes (Instruction.MakeBlock code) machine.old }
    ensures { SameRun budget.steps budget.turns machine.old result.steps result.turns machine.new }
{
    match machine.contexts.body() {
        Some(frame) => {
            let copied = *frame;
            block_of(machine, code, copied, budget)
        }
        None => budget,
    }
}
