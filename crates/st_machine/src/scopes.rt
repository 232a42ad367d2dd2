// Variables of scopes, slots of objects, and new scopes and blocks.
ghost use Rattle.std.specs.Prelude.{◌≡◌, ◌+◌, ◌<◌, ◌^◌, length, get_or, slice_set, IsTrue};
ghost use Rattle.object_heap.specs.Charges.{with_store, closure_made, scope_made, scope_charge};
ghost use Rattle.st_code.specs.BuiltIns.{block_class};
ghost use Rattle.st_collections.specs.Kinds.{slot_of};
ghost use Rattle.st_rules.specs.Ends.{with_self_slot};
ghost use Rattle.st_rules.specs.State.{scope_up, scoped_variable, with_scoped_variable, count_true};
ghost use Rattle.st_machine.specs.Scopes.{captured_put, if_room};

use crate::operands::argument;
use object_heap::{Closure, Heap, Value};

const BLOCK: u32 = 18;

/// The scope that is so many scopes outwards.
pub fn outwards<H: Heap>(heap: &H, scope: Option<u32>, up: u32) -> Option<u32>
    ensures { result ≡ scope_up (H.meaning heap.now).store up scope }
{
    let mut at = scope;
    let mut left = up;
    while left > 0 {
        match at {
            Some(number) => at = heap.scope_outer(number),
            None => return None,
        }
        left -= 1;
    }
    at
}

/// A variable of a scope so many scopes outwards.
#[tactic(auto, unfolding(st_rules::specs::State::scoped_variable))]
pub fn variable<H: Heap>(heap: &H, scope: Option<u32>, up: u32, index: u32) -> Value
    ensures { result ≡ scoped_variable (H.meaning heap.now).store scope up index }
{
    match outwards(heap, scope, up) {
        Some(number) => heap.scope_get(number, index),
        None => Value::Nil,
    }
}

#[tactic(auto, unfolding(st_rules::specs::State::with_scoped_variable))]
pub fn set_variable<H: Heap>(heap: &mut H, scope: Option<u32>, up: u32, index: u32, value: Value)
    ensures { H.meaning heap.new ≡ with_store (with_scoped_variable (H.meaning heap.old).store scope up index value) (H.meaning heap.old) }
{
    match outwards(heap, scope, up) {
        Some(number) => heap.scope_put(number, index, value),
        None => (),
    }
}

/// A named slot of a value.
#[tactic(auto, unfolding(st_collections::specs::Kinds::slot_of, st_collections::specs::Kinds::slots_of))]
pub fn slot<H: Heap>(heap: &H, receiver: Value, index: u32) -> Value
    ensures { result ≡ slot_of (H.meaning heap.now).store receiver index }
{
    match receiver {
        Value::Object(number) => heap.get(number, index),
        _ => Value::Nil,
    }
}

pub fn set_slot<H: Heap>(heap: &mut H, receiver: Value, index: u32, value: Value)
    ensures { H.meaning heap.new ≡ with_store (with_self_slot receiver index value (H.meaning heap.old).store) (H.meaning heap.old) }
{
    match receiver {
        Value::Object(number) => heap.put(number, index, value),
        _ => (),
    }
}

/// A variable of the program, so many behind the first of its kind.
pub fn shared(variables: &[Value], first: u32, index: u32) -> Value
    ensures { result ≡ get_or variables.now (first + index) Value.Nil }
{
    argument(variables, first as usize + index as usize)
}

pub fn set_shared(variables: &mut [Value], first: u32, index: u32, value: Value)
    ensures { variables.new ≡ slice_set variables.old (first + index) value }
{
    let at = first as usize + index as usize;
    if at < variables.len() {
        variables[at] = value;
    }
}

/// How many of the variables a block names.
pub fn count_captured(captured: &[bool]) -> u32
    requires { length captured.now < 2 ^ 32 }
    ensures { result ≡ count_true captured.now }
{
    let mut count = 0;
    for is_captured in captured {
        if *is_captured {
            count += 1;
        }
    }
    count
}

/// A new block, or None where its cells would pass the limit.
pub fn make_block<H: Heap>(heap: &mut H, closure: Closure) -> Option<u32>
    requires { IsTrue H.reserved }
    ensures made { H.meaning heap.new ≡ closure_made block_class closure (H.meaning heap.old) }
    ensures number { result ≡ if_room 2 (length (H.meaning heap.old).store.objects) (H.meaning heap.old) }
{
    heap.make_closure(BLOCK, closure).ok()
}

/// A new scope of so many nils, or None where its cells would pass the limit.
pub fn make_scope<H: Heap>(
    heap: &mut H,
    code: u32,
    variables: u32,
    outer: Option<u32>,
) -> Option<u32>
    requires { IsTrue H.reserved }
    ensures made { H.meaning heap.new ≡ scope_made code variables outer (H.meaning heap.old) }
    ensures number { result ≡ if_room (scope_charge variables) (length (H.meaning heap.old).store.scopes) (H.meaning heap.old) }
{
    heap.make_scope(code, variables, outer).ok()
}

/// The variables that a block names, in a new scope: the arguments, and nil behind them.
pub fn put_captured<H: Heap>(heap: &mut H, scope: u32, captured: &[bool], arguments: &[Value])
    requires { length captured.now < 2 ^ 32 }
    ensures { H.meaning heap.new ≡ with_store (captured_put captured.now arguments.now scope 0 (H.meaning heap.old).store) (H.meaning heap.old) }
{
    let mut place = 0;
    for (index, is_captured) in captured.iter().enumerate() {
        if *is_captured {
            heap.scope_put(scope, place, argument(arguments, index));
            place += 1;
        }
    }
}
