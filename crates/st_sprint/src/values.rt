// A value that is in hand.
ghost use Rattle.std.specs.Prelude.{◌≡◌, ◌<◌};
ghost use Rattle.st_sprint.specs.Dashes.{pushed_on};
ghost use Rattle.st_sprint.specs.Sprinting.{SameRun};
ghost use Rattle.st_machine.specs.declared.work.Mode.TheVariants.{Run};
ghost use Rattle.st_machine.specs.Opening.{settling};

use crate::budget::Budget;
use crate::moves::loop_move;
use crate::moving::move_on;
use object_heap::{Heap, Value};
use st_contexts::{Activation, Outcome};
use st_machine::Machine;

/// One more operand, and the next instruction comes.
pub fn push_on<H: Heap>(machine: &mut Machine<H>, value: Value)
    ensures { machine.new ≡ pushed_on value machine.old }
{
    machine.contexts.push_value(value);
    machine.contexts.go_on();
}

/// A value that is in hand.
pub fn deliver<H: Heap>(machine: &mut Machine<H>, value: Value, budget: Budget) -> Budget
    requires runs { machine.old.mode ≡ Run }
    ensures { SameRun budget.steps budget.turns (settling (Outcome.Answer value) machine.old) result.steps result.turns machine.new }
{
    if budget.steps == 0 {
        machine.settle_with(Outcome::Answer(value));
        return budget;
    }
    match machine.contexts.body() {
        Some(_) => {
            push_on(machine, value);
            budget.after_step()
        }
        None => deliver_on(machine, value, budget),
    }
}

/// The same, where a body gets the value or the sprint ends.
pub fn deliver_to_body<H: Heap>(machine: &mut Machine<H>, value: Value, budget: Budget) -> Budget
    requires runs { machine.old.mode ≡ Run }
    ensures { SameRun budget.steps budget.turns (settling (Outcome.Answer value) machine.old) result.steps result.turns machine.new }
{
    if budget.steps == 0 {
        machine.settle_with(Outcome::Answer(value));
        return budget;
    }
    match machine.contexts.body() {
        Some(_) => {
            push_on(machine, value);
            budget.after_step()
        }
        None => {
            machine.settle_with(Outcome::Answer(value));
            budget
        }
    }
}

// A value that is in hand, where no body gets it.
fn deliver_on<H: Heap>(machine: &mut Machine<H>, value: Value, budget: Budget) -> Budget
    requires runs { machine.old.mode ≡ Run }
    ensures { SameRun budget.steps budget.turns (settling (Outcome.Answer value) machine.old) result.steps result.turns machine.new }
{
    if budget.steps < 2 {
        machine.settle_with(Outcome::Answer(value));
        return budget;
    }
    match loop_move(machine, value) {
        Some(next) => move_on(machine, next, value, budget),
        None => deliver_aside(machine, value, budget),
    }
}

// A value that is in hand, where neither a body gets it nor a loop that moves in place.
fn deliver_aside<H: Heap>(machine: &mut Machine<H>, value: Value, budget: Budget) -> Budget
    requires { 1 < budget.steps }
    ensures { SameRun budget.steps budget.turns (settling (Outcome.Answer value) machine.old) result.steps result.turns machine.new }
{
    match machine.contexts.numbered(0) {
        Some(top) => match top.kept {
            Activation::Loop(state) => {
                let _ = machine.visit(state, value, top.env);
                budget.after_step().after_step()
            }
            _ => {
                machine.settle_with(Outcome::Answer(value));
                budget
            }
        },
        None => {
            machine.settle_with(Outcome::Answer(value));
            budget
        }
    }
}
