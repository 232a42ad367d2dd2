// A send to super that is begun: what it finds above the class of the body, and the method that this is.
ghost use Rattle.std.specs.Prelude.{◌≡◌, IfSome};
ghost use Rattle.st_sprint.specs.Dashes.{FindsAbove, StandsAbove};
ghost use Rattle.st_sprint.specs.Sprinting.{SameRun};
ghost use Rattle.program_image.specs.Images.{as_row, on_side};
ghost use Rattle.st_code.specs.Lookup.{level, UserMethod};
ghost use Rattle.st_machine.specs.declared.work.Work.TheVariants as works;
ghost use Rattle.st_machine.specs.Opening.{beginning};

use crate::budget::Budget;
use crate::sends::{Level, found_from, instances_of, passes};
use crate::works::begin;
use object_heap::{Heap, Value};
use program_image::{Found, Side};
use st_contexts::Env;
use st_machine::{Machine, Work};

// Where the lookup of a send to super begins in a body of this class or metaclass, if it has one
// above it.
fn level_above<H: Heap>(machine: &Machine<H>, class: Value) -> Option<Level>
    ensures { IfSome result (λ from. StandsAbove (level (on_side from.side) from.class) class machine.now) }
{
    match class {
        Value::Class(number) => match machine.loaded.image().superclass(number) {
            Some(above) => Some(instances_of(above)),
            None => None,
        },
        Value::Meta(number) => match machine.loaded.image().superclass(number) {
            Some(above) => Some(Level {
                side: Side::Class,
                class: above,
            }),
            None => None,
        },
        _ => None,
    }
}

// What a send to super finds in a body of this class or metaclass.
fn found_above<H: Heap>(machine: &mut Machine<H>, class: Value, selector: u32) -> Option<Found>
    ensures same { machine.new ≡ machine.old }
    ensures found { IfSome result (λ found. FindsAbove (as_row found) class selector machine.new) }
{
    match level_above(machine, class) {
        Some(from) => found_from(machine, from, selector),
        None => None,
    }
}

// A send to super that is left to the machine.
fn begin_super<H: Heap>(
    machine: &mut Machine<H>,
    class: Value,
    selector: u32,
    receiver: Value,
    env: Env,
    budget: Budget,
) -> Budget
    ensures { SameRun budget.steps budget.turns (beginning (works.SuperTo class selector receiver env) machine.old) result.steps result.turns machine.new }
{
    let work = Work::SuperTo {
        class,
        selector,
        receiver,
        env,
    };
    begin(machine, work, budget)
}

// The method with this code.
fn super_method<H: Heap>(
    machine: &mut Machine<H>,
    code: u32,
    class: Value,
    selector: u32,
    receiver: Value,
    env: Env,
    budget: Budget,
) -> Budget
    requires finds { FindsAbove (UserMethod code) class selector machine.old }
    ensures { SameRun budget.steps budget.turns (beginning (works.SuperTo class selector receiver env) machine.old) result.steps result.turns machine.new }
{
    if budget.steps > 1 {
        if passes(machine) {
            if machine.step() {
                machine.enter(code, receiver, env);
                return budget.after_step().after_step();
            }
        }
    }
    begin_super(machine, class, selector, receiver, env, budget)
}

/// A send to super that is begun in a body of this class or metaclass.
pub fn super_send<H: Heap>(
    machine: &mut Machine<H>,
    class: Value,
    selector: u32,
    receiver: Value,
    env: Env,
    budget: Budget,
) -> Budget
    ensures { SameRun budget.steps budget.turns (beginning (works.SuperTo class selector receiver env) machine.old) result.steps result.turns machine.new }
{
    match found_above(machine, class, selector) {
        Some(Found::User(code)) => {
            super_method(machine, code, class, selector, receiver, env, budget)
        }
        _ => begin_super(machine, class, selector, receiver, env, budget),
    }
}
