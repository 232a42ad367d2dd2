// The operands of the innermost activation, and the values that a work passes on.
ghost use Rattle.std.specs.Prelude.{◌≡◌, ◌+◌, ◌≤◌, ◌<◌, ◌^◌, true, [], ◌∷◌, ◌++◌, length, reverse, min, get_or, IfOk, vec_capacity};
ghost use Rattle.object_heap.specs.Store.{object_at};
ghost use Rattle.st_collections.specs.Kinds.{slots_of};
ghost use Rattle.st_messages.specs.Replies.{behind, passed_on};
ghost use Rattle.st_machine.specs.Operands.{moved_on, delivered, taken, own_pushed};
ghost use Rattle.st_machine.specs.Passing.{fits_in, put_on};
ghost use Rattle.st_machine.specs.Seen.{passing};
ghost use Rattle.st_machine.specs.Searches.{one_passed};

use object_heap::{Heap, Value};
use st_base::OutOfMemory;
use st_contexts::{Contexts, Frame};
use st_messages::Passed as Named;
use std::alloc::Global;
use std::marker::Model;

/// The innermost activation goes on at its next instruction.
pub fn advance(contexts: &mut Contexts, frame: Frame)
    ensures { contexts.new ≡ moved_on frame contexts.old }
{
    contexts.set_frame(Frame {
        position: frame.position.saturating_add(1),
        ..frame
    });
}

/// It goes on with one more operand.
pub fn deliver(contexts: &mut Contexts, frame: Frame, value: Value)
    ensures { contexts.new ≡ delivered frame value contexts.old }
{
    contexts.push_value(value);
    advance(contexts, frame);
}

// Takes so many operands, the last one first.
fn pop_into(contexts: &mut Contexts, values: &mut Vec<Value>, count: u32)
    requires { length values.old.items + count ≤ vec_capacity values.old }
    ensures stack { contexts.new ≡ (taken count contexts.old (reverse values.old.items)).stack }
    ensures values { reverse values.new.items ≡ (taken count contexts.old (reverse values.old.items)).values }
    ensures counted { length values.new.items ≡ length values.old.items + count }
    ensures capacity { vec_capacity values.old ≤ vec_capacity values.new }
{
    let mut left = count;
    while left > 0 {
        match values.push(contexts.pop_value()) {
            Ok(()) => (),
            Err(_) => unreachable!(),
        }
        left -= 1;
    }
}

/// The variables that no block names become operands: the arguments, and nil behind them.
pub fn push_own(contexts: &mut Contexts, captured: &[bool], arguments: &[Value])
    ensures { contexts.new ≡ own_pushed captured.now arguments.now contexts.old }
{
    for (index, is_captured) in captured.iter().enumerate() {
        if !*is_captured {
            contexts.push_value(argument(arguments, index));
        }
    }
}

/// An argument by its place, or nil.
pub fn argument(arguments: &[Value], index: usize) -> Value
    ensures { result ≡ get_or arguments.now index Value.Nil }
{
    if index < arguments.len() {
        return arguments[index];
    }
    Value::Nil
}

// Pushes values into room that is there.
fn push_all(values: &mut Vec<Value>, more: &[Value])
    requires { length values.old.items + length more.now ≤ vec_capacity values.old }
    ensures items { values.new.items ≡ values.old.items ++ more.now }
    ensures capacity { vec_capacity values.old ≤ vec_capacity values.new }
{
    for value in more {
        match values.push(*value) {
            Ok(()) => (),
            Err(_) => unreachable!(),
        }
    }
}

// Pushes the slots of an object into room that is there.
fn push_slots<H: Heap>(values: &mut Vec<Value>, heap: &H, object: u32)
    requires { length values.old.items + length (object_at object (H.meaning heap.now).store).slots ≤ vec_capacity values.old }
    ensures items { values.new.items ≡ values.old.items ++ (object_at object (H.meaning heap.now).store).slots }
    ensures capacity { vec_capacity values.old ≤ vec_capacity values.new }
{
    for slot in 0..heap.length(object) {
        match values.push(heap.get(object, slot)) {
            Ok(()) => (),
            Err(_) => unreachable!(),
        }
    }
}

fn least(a: u32, b: u32) -> u32
    ensures { result ≡ min a b }
{
    if a < b { a } else { b }
}

/// The values that a work passes on. Their memory is taken when it is made.
#[derive(Drop)]
pub struct Passed {
    values: Vec<Value>,
    room: u32,
}

impl Model for Passed {
    ghost use Rattle.std.specs.Prelude.{vec_capacity, length, ◌≤◌};
    ghost use Rattle.st_machine.specs.Seen as seen;

    ghost Value = { seen.Passed };

    ghost view = { λ p. record { values = p.values.items; room = p.room } };

    ghost invariant = { λ p. (p.room ≤ vec_capacity p.values) × (length p.values.items ≤ p.room) };
}

impl Passed {
    /// Room for so many values. No other call takes memory.
    pub fn new(alloc: Global, room: u32) -> Result<Passed, OutOfMemory>
        ensures { IfOk result (λ p. (p.values ≡ []) × (p.room ≡ room)) }
    {
        Ok(Passed {
            values: Vec::with_capacity(alloc, room as usize)?,
            room,
        })
    }

    pub fn values(&self) -> &[Value]
        ensures { result.now ≡ self.now.values }
    {
        &self.values
    }

    pub fn clear(&mut self)
        ensures { self.new ≡ passing [] self.old }
    {
        self.values.clear();
    }

    /// Passes on one value, where there is room.
    pub fn set_one(&mut self, value: Value)
        ensures { self.new ≡ one_passed value self.old }
    {
        self.values.clear();
        if self.room > 0 {
            match self.values.push(value) {
                Ok(()) => (),
                Err(_) => unreachable!(),
            }
        }
    }

    /// Takes so many operands of the innermost activation, in their order.
    pub fn take(&mut self, contexts: &mut Contexts, count: u32)
        ensures values { self.new ≡ passing (taken (min count self.old.room) contexts.old []).values self.old }
        ensures stack { contexts.new ≡ (taken (min count self.old.room) contexts.old []).stack }
    {
        self.values.clear();
        pop_into(contexts, &mut self.values, least(count, self.room));
        self.values.reverse();
    }

    /// How many there are.
    pub fn count(&self) -> u32
        ensures { result ≡ length self.now.values }
    {
        let count = self.values.len();
        if count < self.room as usize {
            return count as u32;
        }
        self.room
    }

    /// Passes on these values, where there is room. Answers whether there is.
    pub fn set(&mut self, values: &[Value]) -> bool
        ensures put { self.new ≡ put_on values.now self.old }
        ensures fits { result ≡ fits_in values.now self.old }
    {
        if values.len() > self.room as usize {
            return false;
        }
        self.values.clear();
        push_all(&mut self.values, values);
        true
    }

    // Whether there is room for the values that are passed on. There is.
    fn fits(&self) -> bool
        ensures { result ≡ fits_in self.now.values self.now }
    {
        self.values.len() <= self.room as usize
    }

    // Passes on all values but the first.
    #[tactic(auto, using(crate::proofs::PassedOn::behind_fits))]
    fn drop_first(&mut self)
        ensures dropped { self.new ≡ passing (behind self.old.values) self.old }
        ensures fits { fits_in (behind self.old.values) self.old ≡ true }
    {
        if !self.values.is_empty() {
            self.values.remove(0);
        }
    }

    // Passes on the slots of an object, where there is room.
    #[tactic(auto, unfolding(st_collections::specs::Kinds::slots_of))]
    fn set_slots<H: Heap>(&mut self, heap: &H, value: Value) -> bool
        ensures put { self.new ≡ put_on (slots_of (H.meaning heap.now).store value) self.old }
        ensures fits { result ≡ fits_in (slots_of (H.meaning heap.now).store value) self.old }
    {
        match value {
            Value::Object(object) => {
                if heap.length(object) > self.room {
                    return false;
                }
                self.values.clear();
                push_slots(&mut self.values, heap, object);
                true
            }
            _ => self.set(&[]),
        }
    }

    /// Passes on what a reply names, where there is room. Answers whether there is.
    pub fn pass_on<H: Heap>(&mut self, heap: &H, named: Named) -> bool
        ensures put { self.new ≡ put_on (passed_on (H.meaning heap.now).store self.old.values named) self.old }
        ensures fits { result ≡ fits_in (passed_on (H.meaning heap.now).store self.old.values named) self.old }
    {
        match named {
            Named::None => self.set(&[]),
            Named::All => self.fits(),
            Named::Behind => {
                self.drop_first();
                true
            }
            Named::SlotsOf(value) => self.set_slots(heap, value),
            Named::One(value) => self.set(&[value]),
            Named::Three(one, two, three) => self.set(&[one, two, three]),
        }
    }
}
