// A loop that moves in place: it is changed where it stands, and its block is applied.
ghost use Rattle.std.specs.Prelude.{◌≡◌, ◌<◌};
ghost use Rattle.st_contexts.specs.Moving.{loop_aside, loop_at, loop_made};
ghost use Rattle.st_contexts.specs.Stack.{popped};
ghost use Rattle.st_machine.specs.declared.work.Mode.TheVariants.{Run};
ghost use Rattle.st_machine.specs.declared.work.Work.TheVariants as works;
ghost use Rattle.st_machine.specs.Opening.{beginning, left_with, settling};
ghost use Rattle.st_machine.specs.Passing.{passing_on};
ghost use Rattle.st_machine.specs.Seen.{with_stack};
ghost use Rattle.st_sprint.specs.Moves.{LoopMoves, loop_moved};
ghost use Rattle.st_sprint.specs.Sprinting.{SameRun};

use crate::budget::Budget;
use crate::moves::Move;
use crate::values::deliver_to_body;
use crate::works::apply;
use object_heap::{Heap, Value};
use st_contexts::{Env, Outcome};
use st_machine::{Ending, Machine, Mode};

// The loop is at an index.
fn go_to<H: Heap>(machine: &mut Machine<H>, index: i128)
    ensures { machine.new ≡ loop_moved (loop_at index) machine.old }
{
    machine.contexts.move_loop(index);
}

// The loop is at an index, with a value made so far.
fn go_with<H: Heap>(machine: &mut Machine<H>, index: i128, made: Value)
    ensures { machine.new ≡ loop_moved (λ l. loop_made made (loop_at index l)) machine.old }
{
    machine.contexts.move_loop(index);
    machine.contexts.set_loop_made(made);
}

// The loop waits for something else than a visit, or for a visit again.
fn turn<H: Heap>(machine: &mut Machine<H>, aside: bool)
    ensures { machine.new ≡ loop_moved (loop_aside aside) machine.old }
{
    machine.contexts.set_loop_aside(aside);
}

/// The innermost activation is dropped.
pub fn drop_innermost<H: Heap>(machine: &mut Machine<H>)
    ensures { machine.new ≡ with_stack machine.old (popped machine.old.stack) }
{
    machine.contexts.pop();
}

// The loop ends with a value.
fn finish<H: Heap>(machine: &mut Machine<H>, value: Value, budget: Budget) -> Budget
    requires runs { machine.old.mode ≡ Run }
    ensures { SameRun budget.steps budget.turns (left_with (Outcome.Answer value) machine.old) result.steps result.turns machine.new }
{
    drop_innermost(machine);
    deliver_to_body(machine, value, budget)
}

// A block is applied to these values, where there is room for them.
fn apply_to<H: Heap>(
    machine: &mut Machine<H>,
    values: &[Value],
    block: Value,
    env: Env,
    budget: Budget,
) -> Budget
    ensures { SameRun budget.steps budget.turns (passing_on values.now (beginning (works.Apply block env)) machine.old) result.steps result.turns machine.new }
{
    if machine.passed.set(values) {
        return apply(machine, block, env, budget);
    }
    machine.mode = Mode::Ended(Ending::Stranded);
    budget
}

/// The loop that stands innermost moves with a value that it gets.
pub fn move_on<H: Heap>(
    machine: &mut Machine<H>,
    next: Move,
    given: Value,
    budget: Budget,
) -> Budget
    requires more { 1 < budget.steps }
    requires runs { machine.old.mode ≡ Run }
    requires moves { LoopMoves next given machine.old }
    ensures { SameRun budget.steps budget.turns (settling (Outcome.Answer given) machine.old) result.steps result.turns machine.new }
{
    let env = machine.contexts.env();
    let left = budget.after_step().after_step();
    match next {
        Move::Visit {
            index,
            block,
            element,
        } => {
            go_to(machine, index);
            apply_to(machine, &[element], block, env, left)
        }
        Move::Repeat { index, block } => {
            go_to(machine, index);
            apply_to(machine, &[], block, env, left)
        }
        Move::Turn { aside, block } => {
            turn(machine, aside);
            apply_to(machine, &[], block, env, left)
        }
        Move::Inject {
            index,
            block,
            element,
        } => {
            go_with(machine, index, given);
            apply_to(machine, &[given, element], block, env, left)
        }
        Move::Finish(value) => finish(machine, value, left),
    }
}
