// A value that returns to the home of a block: the bodies and loops on its way are dropped in place.
ghost use Rattle.std.specs.Prelude.{◌≡◌, ◌<◌, IfSome};
ghost use Rattle.st_code.specs.declared.instruction.Instruction.TheVariants.{HomeReturn};
ghost use Rattle.st_contexts.specs.Stack.{top_value};
ghost use Rattle.st_contexts.specs.declared.outcome.Target.TheVariants.{Home};
ghost use Rattle.st_machine.specs.Instructions.{counted, operand_dropped};
ghost use Rattle.st_machine.specs.Opening.{settling};
ghost use Rattle.st_machine.specs.declared.work.Mode.TheVariants.{Run};
ghost use Rattle.st_sprint.specs.Dashes.{Comes};
ghost use Rattle.st_sprint.specs.Returns.{ReturnsTo, is_number, is_home, lets_pass};
ghost use Rattle.st_sprint.specs.Sprinting.{SameRun};

use crate::budget::Budget;
use crate::instructions::count;
use crate::moving::drop_innermost;
use crate::values::deliver;
use object_heap::{Heap, Value};
use st_contexts::{Outcome, Target};
use st_machine::Machine;

// The home of the body that runs, where it stands.
fn standing_home<H: Heap>(machine: &Machine<H>) -> Option<u64>
    ensures { IfSome result (λ home. ReturnsTo home machine.now) }
{
    match machine.contexts.body() {
        Some(frame) => {
            let home = frame.home;
            if machine.contexts.stands(home) {
                return Some(home);
            }
            None
        }
        None => None,
    }
}

// An instruction counts, and the last operand is taken.
fn take_value<H: Heap>(machine: &mut Machine<H>) -> Value
    ensures taken { machine.new ≡ operand_dropped (counted machine.old) }
    ensures value { result ≡ top_value machine.old.stack }
{
    count(machine);
    machine.contexts.pop_value()
}

/// The next instruction returns to the home.
pub fn return_next<H: Heap>(machine: &mut Machine<H>, budget: Budget) -> Budget
    requires steps { 0 < budget.steps }
    requires turns { 0 < budget.turns }
    requires comes { Comes HomeReturn machine.old }
    ensures { SameRun budget.steps budget.turns machine.old result.steps result.turns machine.new }
{
    match standing_home(machine) {
        Some(home) => {
            let value = take_value(machine);
            return_to(machine, home, value, budget.after_instruction())
        }
        None => budget,
    }
}

// Whether the innermost activation has this number.
fn is_innermost<H: Heap>(machine: &Machine<H>, number: u64) -> bool
    ensures { result ≡ is_number number machine.now.stack }
{
    match machine.contexts.innermost() {
        Some(innermost) => number == innermost,
        None => false,
    }
}

// Whether the innermost activation is a body of this number.
fn is_home<H: Heap>(machine: &Machine<H>, home: u64) -> bool
    ensures { result ≡ is_home home machine.now.stack }
{
    match machine.contexts.body() {
        Some(_) => is_innermost(machine, home),
        None => false,
    }
}

// Whether the innermost activation is a loop, or a body of another number.
fn lets_pass<H: Heap>(machine: &Machine<H>, home: u64) -> bool
    ensures { result ≡ lets_pass home machine.now.stack }
{
    match machine.contexts.body() {
        Some(_) => !is_innermost(machine, home),
        None => machine.contexts.running_loop().is_some(),
    }
}

// A value that returns comes to its home, or waits where it can't pass in place.
fn arrive<H: Heap>(machine: &mut Machine<H>, home: u64, value: Value, budget: Budget) -> Budget
    requires runs { machine.old.mode ≡ Run }
    ensures { SameRun budget.steps budget.turns (settling (Outcome.Go (Home home) value) machine.old) result.steps result.turns machine.new }
{
    if budget.steps > 0 {
        if is_home(machine, home) {
            let left = budget.after_step();
            drop_innermost(machine);
            return deliver(machine, value, left);
        }
    }
    machine.settle_with(Outcome::Go(Target::Home(home), value));
    budget
}

/// A value that returns to the home of this number.
pub fn return_to<H: Heap>(
    machine: &mut Machine<H>,
    home: u64,
    value: Value,
    budget: Budget,
) -> Budget
    requires runs { machine.old.mode ≡ Run }
    ensures { SameRun budget.steps budget.turns (settling (Outcome.Go (Home home) value) machine.old) result.steps result.turns machine.new }
{
    let mut left = budget;
    while left.steps > 0 && lets_pass(machine, home) {
        drop_innermost(machine);
        left = left.after_step();
    }
    arrive(machine, home, value, left)
}
