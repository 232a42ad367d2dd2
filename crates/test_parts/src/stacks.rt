// Activations that stand, what they have and what an unwinding drops.

use crate::call::Call;
use crate::part::{Part, Row, nothing};
use object_heap::Value;
use signal_env::{innermost_turn, is_live};
use st_base::OutOfMemory;
use st_contexts::{Activation, Contexts, Env, Event, Frame, NoWatch, Outcome, Target, Turn, Watch};
use std::alloc::Global;
use unwind::unwind_to;

/// A stack of a depth and a width.
#[derive(Drop)]
pub struct Stack {
    contexts: Contexts,
}

impl Stack {
    pub fn new(alloc: Global, row: &Row) -> Result<Stack, OutOfMemory> {
        Ok(Stack {
            contexts: Contexts::new(alloc, row.limit(0), row.limit(1))?,
        })
    }
}

impl Part for Stack {
    fn answer(&mut self, alloc: Global, call: &Call<'_>) -> Result<String, OutOfMemory> {
        stack_answer(alloc, &mut self.contexts, call)
    }
}

// A body at a position.
fn frame(position: u32) -> Frame {
    Frame {
        code: 3,
        position,
        receiver: Value::Nil,
        class: Value::Class(1),
        scope: None,
        home: 1,
    }
}

// The turn of an exception.
fn turn(exception: u32) -> Turn {
    Turn {
        exception,
        entry: Some(1),
        outside: Env(0),
        resume_point: 1,
        signal: 1,
    }
}

// The activation that the words behind an environment name.
fn activation(call: &Call<'_>) -> Activation {
    match call.word(2) {
        "Body" => Activation::Body(frame(call.number(3))),
        "Protect" => Activation::Protect {
            receiver: call.value(3),
            selector: call.value(4),
            handler: call.value(5),
        },
        "EnsureOn" => Activation::EnsureOn {
            block: call.value(3),
        },
        "CurtailOn" => Activation::CurtailOn {
            block: call.value(3),
        },
        "Signal" => Activation::Signal {
            exception: call.number(3),
        },
        "HandlerRun" => Activation::HandlerRun {
            turn: turn(call.number(3)),
        },
        _ => Activation::Outer,
    }
}

fn pushed(alloc: Global, contexts: &mut Contexts, call: &Call<'_>) -> Result<String, OutOfMemory> {
    if contexts.next_number() == u64::MAX {
        return nothing(alloc);
    }
    let answer = contexts.push(activation(call), Env(call.activation(1)));
    Ok(format!(in alloc; "{answer:?}")?)
}

/// Makes a call to a stack.
pub fn stack_answer(
    alloc: Global,
    contexts: &mut Contexts,
    call: &Call<'_>,
) -> Result<String, OutOfMemory> {
    match call.word(0) {
        "push" => pushed(alloc, contexts, call),
        "pop_value" => Ok(format!(in alloc; "{:?}", contexts.pop_value())?),
        "unwind" => {
            let held = Outcome::Go(Target::Protected(1), Value::Nil);
            let unwound = unwind_to(contexts, call.activation(1), held);
            Ok(format!(in alloc; "{unwound:?}")?)
        }
        "event" => Ok(format!(in alloc; "{:?}", NoWatch.event(Event::Known))?),
        "pop" | "push_value" | "set_variable" | "set_frame" => {
            change(contexts, call);
            nothing(alloc)
        }
        _ => standing(alloc, contexts, call),
    }
}

// Makes a call that answers nothing.
fn change(contexts: &mut Contexts, call: &Call<'_>) {
    match call.word(0) {
        "pop" => contexts.pop(),
        "push_value" => contexts.push_value(call.value(1)),
        "set_variable" => contexts.set_variable(call.number(1), call.value(2)),
        _ => contexts.set_frame(frame(call.number(1))),
    }
}

// What stands.
fn standing(alloc: Global, contexts: &Contexts, call: &Call<'_>) -> Result<String, OutOfMemory> {
    let number = call.activation(1);
    match call.word(0) {
        "depth" => Ok(format!(in alloc; "{}", contexts.depth())?),
        "next_number" => Ok(format!(in alloc; "{}", contexts.next_number())?),
        "innermost" => Ok(format!(in alloc; "{:?}", contexts.innermost())?),
        "stands" => Ok(format!(in alloc; "{}", contexts.stands(number))?),
        "outer_of" => Ok(format!(in alloc; "{:?}", contexts.outer_of(number))?),
        "kept" => Ok(format!(in alloc; "{:?}", contexts.kept(number))?),
        "mark_of" => Ok(format!(in alloc; "{:?}", contexts.mark_of(number))?),
        "env_of" => Ok(format!(in alloc; "{:?}", contexts.env_of(number))?),
        "entry" => Ok(format!(in alloc; "{:?}", contexts.entry(Env(number)))?),
        "turn" => Ok(format!(in alloc; "{:?}", innermost_turn(contexts, call.number(1)))?),
        "live" => Ok(format!(in alloc; "{}", is_live(contexts, call.number(1)))?),
        _ => operands(alloc, contexts, call),
    }
}

// What the operands of activations are.
fn operands(alloc: Global, contexts: &Contexts, call: &Call<'_>) -> Result<String, OutOfMemory> {
    let number = call.activation(1);
    match call.word(0) {
        "frame" => Ok(format!(in alloc; "{:?}", contexts.frame())?),
        "top" => Ok(format!(in alloc; "{:?}", contexts.top())?),
        "variable" => Ok(format!(in alloc; "{:?}", contexts.variable(call.number(1)))?),
        "operands" => Ok(format!(in alloc; "{}", contexts.operands(number))?),
        "operand" => Ok(format!(in alloc; "{:?}", contexts.operand(number, call.number(2)))?),
        _ => nothing(alloc),
    }
}
