// A send that is begun: what it finds, and the method or the message that this is.
ghost use Rattle.std.specs.Prelude.{◌≡◌, IfSome};
ghost use Rattle.st_sprint.specs.Dashes.{Finds};
ghost use Rattle.st_sprint.specs.Sprinting.{SameRun};
ghost use Rattle.program_image.specs.Images.{as_row, on_side};
ghost use Rattle.program_image.specs.declared.table.Side.TheVariants as sides;
ghost use Rattle.std.specs.Option.{option_map};
ghost use Rattle.st_machine.specs.Plans.{program_in};
ghost use Rattle.st_code.specs.Lookup.{lookup, level, level_of, UserMethod, BuiltIn};
ghost use Rattle.st_code.specs.Messages.{Numbers};
ghost use Rattle.st_machine.specs.declared.work.Mode.TheVariants.{Run};
ghost use Rattle.st_machine.specs.declared.work.Work.TheVariants as works;
ghost use Rattle.st_machine.specs.Passing.{fits_in};
ghost use Rattle.st_machine.specs.Opening.{beginning};
ghost use Rattle.st_messages.specs.Rows.{arithmetic_row, table_row};

use crate::branches::send_boolean;
use crate::budget::Budget;
use crate::integers::value_for;
use crate::messages::send_built_in;
use crate::values::deliver;
use crate::works::begin;
use object_heap::{Heap, Value};
use program_image::{Found, Side};
use st_contexts::Env;
use st_machine::{Machine, Work};
use st_messages::{MessageRow, OfNumber, Passed, row_of};
use st_numbers::NumberMessage;

const UNDEFINED_OBJECT: u32 = 1;

const TRUE: u32 = 3;

const FALSE: u32 = 4;

const INTEGER: u32 = 5;

const CHARACTER: u32 = 7;

const SYMBOL: u32 = 10;

const TRANSCRIPT_WRITER: u32 = 22;

/// A side of a class, where methods are looked up.
#[derive(Clone, Copy, Debug, PartialEq, Eq)]
pub struct Level {
    pub side: Side,
    pub class: u32,
}

/// Where the lookup of instances of a class begins.
pub fn instances_of(class: u32) -> Level
    ensures { result ≡ record { side = sides.Instance; class = class } }
{
    Level {
        side: Side::Instance,
        class,
    }
}

// Where the lookup of a receiver begins.
#[tactic(auto, unfolding(st_code::specs::Lookup::level_of))]
fn level_for<H: Heap>(machine: &Machine<H>, receiver: Value) -> Level
    ensures { level_of machine.now.memory.store receiver ≡ level (on_side result.side) result.class }
{
    match receiver {
        Value::Object(number) => instances_of(machine.heap.class_of(number)),
        Value::Integer(_) => instances_of(INTEGER),
        Value::True => instances_of(TRUE),
        Value::False => instances_of(FALSE),
        Value::Nil => instances_of(UNDEFINED_OBJECT),
        Value::Character(_) => instances_of(CHARACTER),
        Value::Symbol(_) => instances_of(SYMBOL),
        Value::Transcript => instances_of(TRANSCRIPT_WRITER),
        Value::Class(class) => Level {
            side: Side::Class,
            class,
        },
        Value::Meta(class) => Level {
            side: Side::Meta,
            class,
        },
    }
}

/// What a lookup from there finds, which is kept for the next time.
pub fn found_from<H: Heap>(machine: &mut Machine<H>, from: Level, selector: u32) -> Option<Found>
    ensures same { machine.new ≡ machine.old }
    ensures found { option_map as_row result ≡ lookup (program_in machine.old.plan) (level (on_side from.side) from.class) selector }
{
    machine.loaded.recall(from.side, from.class, selector)
}

// What a receiver finds for a selector.
fn found_for<H: Heap>(machine: &mut Machine<H>, selector: u32, receiver: Value) -> Option<Found>
    ensures same { machine.new ≡ machine.old }
    ensures found { IfSome result (λ found. Finds (as_row found) selector receiver machine.new) }
{
    let from = level_for(machine, receiver);
    found_from(machine, from, selector)
}

/// A send that is begun.
pub fn send<H: Heap>(
    machine: &mut Machine<H>,
    selector: u32,
    receiver: Value,
    env: Env,
    budget: Budget,
) -> Budget
    requires runs { machine.old.mode ≡ Run }
    ensures { SameRun budget.steps budget.turns (beginning (works.SendTo selector receiver env) machine.old) result.steps result.turns machine.new }
{
    match found_for(machine, selector, receiver) {
        Some(found) => send_found(machine, found, selector, receiver, env, budget),
        None => begin_send(machine, selector, receiver, env, budget),
    }
}

// A send that finds this.
fn send_found<H: Heap>(
    machine: &mut Machine<H>,
    found: Found,
    selector: u32,
    receiver: Value,
    env: Env,
    budget: Budget,
) -> Budget
    requires runs { machine.old.mode ≡ Run }
    requires finds { Finds (as_row found) selector receiver machine.old }
    ensures { SameRun budget.steps budget.turns (beginning (works.SendTo selector receiver env) machine.old) result.steps result.turns machine.new }
{
    match found {
        Found::User(code) => send_method(machine, code, selector, receiver, env, budget),
        Found::BuiltIn(number) => {
            send_row(machine, row_of(number), selector, receiver, env, budget)
        }
    }
}

// A send that finds this row of the table of built-in messages.
fn send_row<H: Heap>(
    machine: &mut Machine<H>,
    row: MessageRow,
    selector: u32,
    receiver: Value,
    env: Env,
    budget: Budget,
) -> Budget
    requires runs { machine.old.mode ≡ Run }
    requires finds { Finds (BuiltIn (table_row row)) selector receiver machine.old }
    ensures { SameRun budget.steps budget.turns (beginning (works.SendTo selector receiver env) machine.old) result.steps result.turns machine.new }
{
    match row {
        MessageRow::Number(OfNumber::Computes(message)) => {
            send_number(machine, message, selector, receiver, env, budget)
        }
        MessageRow::Boolean(message) => {
            send_boolean(machine, message, selector, receiver, env, budget)
        }
        row => send_built_in(machine, row, selector, receiver, env, budget),
    }
}

/// A send that is left to the machine.
pub fn begin_send<H: Heap>(
    machine: &mut Machine<H>,
    selector: u32,
    receiver: Value,
    env: Env,
    budget: Budget,
) -> Budget
    ensures { SameRun budget.steps budget.turns (beginning (works.SendTo selector receiver env) machine.old) result.steps result.turns machine.new }
{
    let work = Work::SendTo {
        selector,
        receiver,
        env,
    };
    begin(machine, work, budget)
}

// Arithmetic.
fn send_number<H: Heap>(
    machine: &mut Machine<H>,
    message: NumberMessage,
    selector: u32,
    receiver: Value,
    env: Env,
    budget: Budget,
) -> Budget
    requires runs { machine.old.mode ≡ Run }
    requires finds { Finds (BuiltIn (Numbers (arithmetic_row message))) selector receiver machine.old }
    ensures { SameRun budget.steps budget.turns (beginning (works.SendTo selector receiver env) machine.old) result.steps result.turns machine.new }
{
    match value_for(machine, message, selector, receiver) {
        Some(value) => {
            if budget.steps > 0 {
                if machine.step() {
                    return deliver(machine, value, budget.after_step());
                }
            }
            begin_send(machine, selector, receiver, env, budget)
        }
        None => {
            let row = MessageRow::Number(OfNumber::Computes(message));
            send_built_in(machine, row, selector, receiver, env, budget)
        }
    }
}

/// Whether there is room for the values that are passed on. There is.
pub fn passes<H: Heap>(machine: &mut Machine<H>) -> bool
    ensures same { machine.new ≡ machine.old }
    ensures fits { result ≡ fits_in machine.old.passed.values machine.old.passed }
{
    machine.passed.pass_on(&machine.heap, Passed::All)
}

// The method with this code.
fn send_method<H: Heap>(
    machine: &mut Machine<H>,
    code: u32,
    selector: u32,
    receiver: Value,
    env: Env,
    budget: Budget,
) -> Budget
    requires finds { Finds (UserMethod code) selector receiver machine.old }
    ensures { SameRun budget.steps budget.turns (beginning (works.SendTo selector receiver env) machine.old) result.steps result.turns machine.new }
{
    if budget.steps > 1 {
        if passes(machine) {
            if machine.step() {
                machine.enter(code, receiver, env);
                return budget.after_step().after_step();
            }
        }
    }
    begin_send(machine, selector, receiver, env, budget)
}
