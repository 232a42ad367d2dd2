// Built-in messages that are done in place.
ghost use Rattle.std.specs.Prelude.{◌≡◌, IfNone, IfSome};
ghost use Rattle.st_code.specs.Lookup.{BuiltIn};
ghost use Rattle.st_messages.specs.Replies.{passed_on};
ghost use Rattle.st_messages.specs.Rows.{table_row};
ghost use Rattle.st_messages.specs.declared.reply.Reply.TheVariants as reply;
ghost use Rattle.st_machine.specs.declared.work.Mode.TheVariants.{Run};
ghost use Rattle.st_machine.specs.declared.work.Work.TheVariants as works;
ghost use Rattle.st_machine.specs.Opening.{beginning, has_step};
ghost use Rattle.st_machine.specs.Passing.{fits_in, put_on};
ghost use Rattle.st_machine.specs.Seen.{with_passed};
ghost use Rattle.st_sprint.specs.AtOnce.{Replies, RepliesQuietly, is_quiet, replied};
ghost use Rattle.st_sprint.specs.Dashes.{Finds};
ghost use Rattle.st_sprint.specs.Sprinting.{SameRun};

use crate::budget::Budget;
use crate::sends::begin_send;
use crate::values::deliver;
use crate::works::{activate, apply};
use object_heap::{Closure, Heap, Value};
use st_collections::Built;
use st_contexts::Env;
use st_machine::Machine;
use st_messages::{MessageRow, Passed, Reply, row_message};

// What a row of the table does at once, where the store is sound for it.
fn reply_of<H: Heap>(machine: &mut Machine<H>, row: MessageRow, receiver: Value) -> Option<Reply>
    ensures made { IfSome result (λ r. Replies row receiver r machine.old machine.new) }
    ensures kept { IfNone result (machine.new ≡ machine.old) }
{
    let arguments = machine.passed.values();
    row_message(&mut machine.heap, &machine.loaded, row, receiver, arguments)
}

// Whether a reply tells nothing and writes nothing, whatever stands.
fn is_quiet(reply: Reply) -> bool
    ensures { result ≡ is_quiet reply }
{
    match reply {
        Reply::Writes(_, _) => false,
        Reply::Misses(_, _) => false,
        Reply::Guards(_, _, _) => false,
        Reply::Ensures(_, _) => false,
        Reply::Curtails(_, _) => false,
        Reply::Controls(_, _, _) => false,
        _ => true,
    }
}

// The same, where that tells nothing and writes nothing. Else nothing was done.
fn quiet_reply_of<H: Heap>(
    machine: &mut Machine<H>,
    row: MessageRow,
    receiver: Value,
) -> Option<Reply>
    ensures made { IfSome result (λ r. RepliesQuietly row receiver r machine.old machine.new) }
    ensures kept { IfNone result (machine.new ≡ machine.old) }
{
    match reply_of(machine, row, receiver) {
        Some(reply) => {
            if is_quiet(reply) {
                return Some(reply);
            }
            None
        }
        None => None,
    }
}

// Whether one more step is left.
fn may_step<H: Heap>(machine: &Machine<H>) -> bool
    ensures { result ≡ has_step machine.now }
{
    machine.steps < machine.loaded.step_limit()
}

// A reply is left to the machine.
fn say<H: Heap>(machine: &mut Machine<H>, reply: Reply, env: Env, budget: Budget) -> Budget
    ensures { SameRun budget.steps budget.turns (replied reply env machine.old) result.steps result.turns machine.new }
{
    let _ = machine.say(reply, env);
    budget
}

// The values that a reply names are passed on, where there is room. Answers whether there is.
fn pass_on<H: Heap>(machine: &mut Machine<H>, named: Passed) -> bool
    ensures put { machine.new ≡ with_passed machine.old (put_on (passed_on machine.old.memory.store machine.old.passed.values named) machine.old.passed) }
    ensures fits { result ≡ fits_in (passed_on machine.old.memory.store machine.old.passed.values named) machine.old.passed }
{
    machine.passed.pass_on(&machine.heap, named)
}

// A value is applied to what a reply names.
fn apply_with<H: Heap>(
    machine: &mut Machine<H>,
    receiver: Value,
    named: Passed,
    env: Env,
    budget: Budget,
) -> Budget
    ensures { SameRun budget.steps budget.turns (replied (reply.Begins receiver named) env machine.old) result.steps result.turns machine.new }
{
    if pass_on(machine, named) {
        return apply(machine, receiver, env, budget);
    }
    say(machine, Reply::Begins(receiver, named), env, budget)
}

// A block is entered with what a reply names.
fn activate_with<H: Heap>(
    machine: &mut Machine<H>,
    closure: Closure,
    named: Passed,
    env: Env,
    budget: Budget,
) -> Budget
    ensures { SameRun budget.steps budget.turns (replied (reply.Activates closure named) env machine.old) result.steps result.turns machine.new }
{
    if pass_on(machine, named) {
        return activate(machine, closure, env, budget);
    }
    say(machine, Reply::Activates(closure, named), env, budget)
}

// What a reply says, as far as it goes on at once.
fn go_on_with<H: Heap>(machine: &mut Machine<H>, reply: Reply, env: Env, budget: Budget) -> Budget
    requires runs { machine.old.mode ≡ Run }
    ensures { SameRun budget.steps budget.turns (replied reply env machine.old) result.steps result.turns machine.new }
{
    match reply {
        Reply::Answer(Built::Value(value)) => deliver(machine, value, budget),
        Reply::Begins(receiver, named) => apply_with(machine, receiver, named, env, budget),
        Reply::Activates(closure, named) => activate_with(machine, closure, named, env, budget),
        _ => say(machine, reply, env, budget),
    }
}

/// A built-in message that a send found.
pub fn send_built_in<H: Heap>(
    machine: &mut Machine<H>,
    row: MessageRow,
    selector: u32,
    receiver: Value,
    env: Env,
    budget: Budget,
) -> Budget
    requires runs { machine.old.mode ≡ Run }
    requires finds { Finds (BuiltIn (table_row row)) selector receiver machine.old }
    ensures { SameRun budget.steps budget.turns (beginning (works.SendTo selector receiver env) machine.old) result.steps result.turns machine.new }
{
    if budget.steps == 0 {
        return begin_send(machine, selector, receiver, env, budget);
    }
    if !may_step(machine) {
        return begin_send(machine, selector, receiver, env, budget);
    }
    match quiet_reply_of(machine, row, receiver) {
        Some(reply) => {
            let _ = machine.step();
            go_on_with(machine, reply, env, budget.after_step())
        }
        None => begin_send(machine, selector, receiver, env, budget),
    }
}
