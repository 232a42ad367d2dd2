// The flat stack of activations, each with its operands.
ghost use Rattle.std.specs.Prelude.{◌≡◌, ℕ, ◌+◌, ◌-◌, ◌<◌, ◌≤◌, ◌^◌, IfOk, length, reverse, get_or, nat_lt, if◌then◌else◌};
ghost use Rattle.st_contexts.specs.Marks.{entry_of};
ghost use Rattle.st_contexts.specs.Stack.{new_stack, pushed, push_answer, popped, innermost_of, top_kept, frame_of, top_env, with_kept, with_env, value_pushed, value_popped, top_value, variable_of, with_variable, stands_in, outer_in, kept_of, mark_of, env_of, operands_of, operand_at, numbered_at, entry_in, env_in, with_outside};
ghost use Rattle.std.specs.Option.{option_map};
ghost use Rattle.st_contexts.specs.Flat.{Falls, place_in};
ghost use Rattle.st_contexts.specs.Moving.{body_of, loop_aside, loop_at, loop_changed, loop_made, loop_of, moved_here};

use crate::activation::{Activation, Entry, Env, Frame, Mark, Numbered};
use object_heap::Value;
use st_base::OutOfMemory;
use st_loops::LoopState;
use std::alloc::Global;
use std::marker::Model;

/// As many activations stand as may.
#[derive(Clone, Copy, Debug, PartialEq, Eq)]
pub struct DepthLimit {
    pub depth: u32,
}

// An activation without its operands, which are the `count` values from `start` on.
#[derive(Clone, Copy, Debug)]
struct Slot {
    number: u64,
    env: Env,
    kept: Activation,
    start: usize,
    count: u32,
}

/// The activations that stand, and the number of the next one. Numbers rise inwards.
///
/// Contracts see the activations as a list, the innermost first, and the operands of each as a list,
/// the topmost first. What isn't there is nil, None or 0, and a change to it changes nothing.
#[derive(Drop)]
pub struct Contexts {
    slots: Vec<Slot>,
    values: Vec<Value>,
    next: u64,
    depth: u32,
    width: u32,
}

impl Model for Contexts {
    ghost use Rattle.std.specs.Prelude.{vec_capacity};
    ghost use Rattle.st_contexts.specs.Stack.{Stack};

    ghost Value = { Stack };

    ghost use Rattle.st_contexts.specs.Flat.{stack_of, Flat};

    ghost view = { λ c. stack_of c.slots.items c.values.items c.next c.depth c.width };

    ghost invariant = { λ c. Flat c.depth c.width c.next c.slots.items c.values.items (vec_capacity c.slots) (vec_capacity c.values) };
}

impl Contexts {
    /// Takes all memory that `depth` activations of `width` operands each need. No other call takes
    /// any.
    pub fn new(alloc: Global, depth: u32, width: u32) -> Result<Contexts, OutOfMemory>
        ensures { IfOk result (λ c. c ≡ new_stack depth width) }
    {
        let slots = Vec::with_capacity(alloc, depth as usize)?;
        let values = Vec::with_capacity(alloc, depth as usize * width as usize)?;
        Ok(Contexts {
            slots,
            values,
            next: 1,
            depth,
            width,
        })
    }

    /// How many activations stand.
    pub fn depth(&self) -> u32
        ensures { result ≡ length self.now.acts }
    {
        let _most = self.depth;
        self.slots.len() as u32
    }

    /// The number of the next activation.
    pub fn next_number(&self) -> u64
        ensures { result ≡ self.now.next }
    {
        self.next
    }

    /// A new innermost activation, which has no operands. Answers its number, or the limit exactly
    /// where as many stand as may.
    pub fn push(&mut self, kept: Activation, env: Env) -> Result<u64, DepthLimit>
        requires { self.old.next < 2 ^ 64 - 1 }
        ensures pushed { self.new ≡ pushed kept env self.old }
        ensures answer { result ≡ push_answer self.old }
    {
        if self.slots.len() < self.depth as usize {
            let number = self.next;
            let start = self.values.len();
            match self.slots.push(Slot {
                number,
                env,
                kept,
                start,
                count: 0,
            }) {
                Ok(()) => (),
                Err(_) => unreachable!(),
            }
            self.next += 1;
            Ok(number)
        } else {
            Err(DepthLimit { depth: self.depth })
        }
    }

    /// Drops the innermost activation with its operands.
    pub fn pop(&mut self)
        ensures { self.new ≡ popped self.old }
    {
        if let Some(slot) = self.slots.pop() {
            self.values.truncate(slot.start);
        }
    }

    /// The number of the innermost activation.
    pub fn innermost(&self) -> Option<u64>
        ensures { result ≡ innermost_of self.now.acts }
    {
        match self.slots.last() {
            Some(slot) => Some(slot.number),
            None => None,
        }
    }

    /// What the innermost activation is for.
    pub fn top_kept(&self) -> Option<Activation>
        ensures { result ≡ top_kept self.now }
    {
        match self.slots.last() {
            Some(slot) => Some(slot.kept),
            None => None,
        }
    }

    /// The frame of the innermost activation, if it is a body.
    pub fn frame(&self) -> Option<Frame>
        ensures { result ≡ frame_of self.now }
    {
        match self.slots.last() {
            Some(slot) => slot.kept.frame(),
            None => None,
        }
    }

    /// What the innermost activation runs, if it is a body that goes on.
    pub fn body(&self) -> Option<&Frame>
        ensures { option_map (λ f. f.now) result ≡ body_of self.now }
    {
        match self.slots.last() {
            Some(slot) => slot.kept.body(),
            None => None,
        }
    }

    /// The innermost body is at its next instruction.
    pub fn go_on(&mut self)
        ensures { self.new ≡ moved_here self.old }
    {
        let Some(slot) = self.slots.last_mut() else {
            return;
        };
        slot.kept.go_on();
    }

    /// Where the innermost activation is, if it is a loop.
    pub fn running_loop(&self) -> Option<&LoopState>
        ensures { option_map (λ l. l.now) result ≡ loop_of self.now }
    {
        match self.slots.last() {
            Some(slot) => slot.kept.running_loop(),
            None => None,
        }
    }

    /// The innermost loop is at another index, where it waits for a visit.
    pub fn move_loop(&mut self, index: i128)
        ensures { self.new ≡ loop_changed (loop_at index) self.old }
    {
        let Some(slot) = self.slots.last_mut() else {
            return;
        };
        slot.kept.move_loop(index);
    }

    /// The innermost loop has another value made so far.
    pub fn set_loop_made(&mut self, made: Value)
        ensures { self.new ≡ loop_changed (loop_made made) self.old }
    {
        let Some(slot) = self.slots.last_mut() else {
            return;
        };
        slot.kept.set_loop_made(made);
    }

    /// The innermost loop waits for something else than a visit, or for a visit again.
    pub fn set_loop_aside(&mut self, aside: bool)
        ensures { self.new ≡ loop_changed (loop_aside aside) self.old }
    {
        let Some(slot) = self.slots.last_mut() else {
            return;
        };
        slot.kept.set_loop_aside(aside);
    }

    /// The environment of the innermost activation.
    pub fn env(&self) -> Env
        ensures { result ≡ top_env self.now }
    {
        match self.slots.last() {
            Some(slot) => slot.env,
            None => Env(0),
        }
    }

    /// Makes the innermost activation a body at this frame.
    pub fn set_frame(&mut self, frame: Frame)
        ensures { self.new ≡ with_kept (Activation.Body frame) self.old }
    {
        self.keep(Activation::Body(frame));
    }

    /// Changes what the innermost activation is for.
    pub fn keep(&mut self, kept: Activation)
        ensures { self.new ≡ with_kept kept self.old }
    {
        let Some(slot) = self.slots.last_mut() else {
            return;
        };
        slot.kept = kept;
    }

    /// Changes the environment of the innermost activation.
    pub fn set_env(&mut self, env: Env)
        ensures { self.new ≡ with_env env self.old }
    {
        let Some(slot) = self.slots.last_mut() else {
            return;
        };
        slot.env = env;
    }

    /// A new topmost operand of the innermost activation, where it has room.
    pub fn push_value(&mut self, value: Value)
        ensures { self.new ≡ value_pushed value self.old }
    {
        if let Some(slot) = self.slots.last_mut() {
            if slot.count < self.width {
                slot.count += 1;
                match self.values.push(value) {
                    Ok(()) => (),
                    Err(_) => unreachable!(),
                }
            }
        }
    }

    /// Takes the topmost operand of the innermost activation.
    pub fn pop_value(&mut self) -> Value
        ensures popped { self.new ≡ value_popped self.old }
        ensures value { result ≡ top_value self.old }
    {
        if let Some(slot) = self.slots.last_mut() {
            if slot.count > 0 {
                slot.count -= 1;
                match self.values.pop() {
                    Some(value) => return value,
                    None => unreachable!(),
                }
            }
        }
        Value::Nil
    }

    /// The topmost operand of the innermost activation.
    pub fn top(&self) -> Value
        ensures { result ≡ top_value self.now }
    {
        match self.slots.last() {
            Some(slot) if 0 < slot.count => self.values[self.values.len() - 1],
            _ => Value::Nil,
        }
    }

    /// An operand of the innermost activation, counted from 0 in the order in which they were
    /// pushed. The variables of a body that no block names are its first operands.
    pub fn variable(&self, index: u32) -> Value
        ensures { result ≡ variable_of index self.now }
    {
        match self.slots.last() {
            Some(slot) if index < slot.count => self.values[slot.start + index as usize],
            _ => Value::Nil,
        }
    }

    /// Changes an operand of the innermost activation.
    pub fn set_variable(&mut self, index: u32, value: Value)
        ensures { self.new ≡ with_variable index value self.old }
    {
        if let Some(slot) = self.slots.last() {
            if index < slot.count {
                let at = slot.start + index as usize;
                self.values[at] = value;
            }
        }
    }

    /// Whether an activation of this number stands.
    pub fn stands(&self, activation: u64) -> bool
        ensures { result ≡ stands_in activation self.now.acts }
    {
        match place_of(&self.slots, activation) {
            Some(_) => true,
            None => false,
        }
    }

    /// The number of the activation directly outside this one. None for the outermost one, and
    /// where this one doesn't stand.
    pub fn outer_of(&self, activation: u64) -> Option<u64>
        ensures { result ≡ outer_in activation self.now.acts }
    {
        match place_of(&self.slots, activation) {
            Some(place) if 0 < place => Some(self.slots[place - 1].number),
            _ => None,
        }
    }

    /// What an activation is for, with what it keeps.
    pub fn kept(&self, activation: u64) -> Option<Activation>
        ensures { result ≡ kept_of activation self.now.acts }
    {
        match place_of(&self.slots, activation) {
            Some(place) => Some(self.slots[place].kept),
            None => None,
        }
    }

    /// What an activation is for.
    pub fn mark_of(&self, activation: u64) -> Option<Mark>
        ensures { result ≡ mark_of activation self.now.acts }
    {
        match self.kept(activation) {
            Some(kept) => Some(kept.mark()),
            None => None,
        }
    }

    /// The environment of an activation.
    pub fn env_of(&self, activation: u64) -> Option<Env>
        ensures { result ≡ env_of activation self.now.acts }
    {
        match place_of(&self.slots, activation) {
            Some(place) => Some(self.slots[place].env),
            None => None,
        }
    }

    /// How many operands an activation has.
    pub fn operands(&self, activation: u64) -> u32
        ensures { result ≡ length (operands_of activation self.now.acts) }
    {
        match place_of(&self.slots, activation) {
            Some(place) => self.slots[place].count,
            None => 0,
        }
    }

    /// An operand of an activation, counted from 0 in the order in which they were pushed.
    pub fn operand(&self, activation: u64, index: u32) -> Value
        ensures { result ≡ operand_at index (operands_of activation self.now.acts) }
    {
        match place_of(&self.slots, activation) {
            Some(place) => operand_in(&self.values, self.slots[place], index),
            None => Value::Nil,
        }
    }

    /// An activation by its place, the innermost being 0.
    pub fn numbered(&self, place: u32) -> Option<Numbered>
        ensures { result ≡ numbered_at place self.now.acts }
    {
        if place as usize >= self.slots.len() {
            return None;
        }
        let slot = self.slots[self.slots.len() - 1 - place as usize];
        Some(Numbered {
            number: slot.number,
            env: slot.env,
            kept: slot.kept,
        })
    }

    /// The innermost entry of an environment. The environment behind it is that of the link that it
    /// has to its outside.
    pub fn entry(&self, env: Env) -> Option<Entry>
        ensures entry { result ≡ entry_in env.0 self.now.acts }
        ensures environment { env_in self.now.acts env.0 ≡ with_outside self.now.acts result }
    {
        if env.0 == 0 {
            return None;
        }
        match place_of(&self.slots, env.0) {
            Some(place) => entry_of(self.slots[place]),
            None => None,
        }
    }
}

// How many slots stand before the one with this number, which is looked for by halves.
fn place_of(slots: &[Slot], number: u64) -> Option<usize>
    requires { (next : ℕ) × Falls next (reverse slots.now) }
    ensures { result ≡ place_in number (reverse slots.now) }
{
    let mut low = 0;
    let mut high = slots.len();
    while low < high {
        let middle = low + (high - low) / 2;
        let found = slots[middle].number;
        if found == number {
            return Some(middle);
        }
        if found < number {
            low = middle + 1;
        } else {
            high = middle;
        }
    }
    None
}

// The entry that a slot stands for, if it is an `on:do:`.
fn entry_of(slot: Slot) -> Option<Entry>
    ensures { result ≡ entry_of slot.number slot.kept slot.env }
{
    match slot.kept {
        Activation::Protect {
            receiver: _,
            selector,
            handler,
        } => Some(Entry {
            protect: slot.number,
            selector,
            handler,
            outside: slot.env,
        }),
        _ => None,
    }
}

// A value of a slot by its place.
fn operand_in(values: &[Value], slot: Slot, index: u32) -> Value
    requires { slot.start + slot.count ≤ length values.now }
    ensures { result ≡ (if nat_lt index slot.count then get_or values.now (slot.start + index) Value.Nil else Value.Nil) }
{
    if index < slot.count {
        values[slot.start + index as usize]
    } else {
        Value::Nil
    }
}
