// New objects of values that stand in other objects.
ghost use Rattle.std.specs.Prelude.{◌≡◌, ◌≢◌, ◌+◌, ◌<◌, ◌≤◌, ◌^◌, ◌++◌, ◌∷◌, [], false, IsTrue, length, take};
ghost use Rattle.object_heap.specs.Charges.{with_store};
ghost use Rattle.object_heap.specs.Store.{object_at};
ghost use Rattle.st_code.specs.BuiltIns.{exception_set_class, fraction_class};
ghost use Rattle.st_collections.specs.Actions.{makes_slots};
ghost use Rattle.st_collections.specs.Answers.{answer_of, is_out, memory_of, unless_out};
ghost use Rattle.st_messages.specs.Pieces.{slots_put};
ghost use Rattle.st_messages.specs.Selectors.{IsOther, selectors_in};

use crate::built_in::{EXCEPTION_SET, FRACTION};
use crate::makers::{answer_stop, blank};
use object_heap::{Heap, Value};
use st_collections::Built;

/// Writes so many slots of another object, and answers the place behind them.
pub fn put_slots_of<H: Heap>(heap: &mut H, object: u32, at: u32, from: u32, count: u32) -> u32
    requires other { 0 < count → from ≢ object }
    requires fits { at + count < 2 ^ 32 }
    requires within { count ≤ length (object_at from (H.meaning heap.old).store).slots }
    ensures written { H.meaning heap.new ≡ with_store (slots_put object at (take count (object_at from (H.meaning heap.old).store).slots) (H.meaning heap.old).store) (H.meaning heap.old) }
    ensures behind { result ≡ at + count }
    ensures literals { H.literal_room heap.new ≡ H.literal_room heap.old }
{
    for place in 0..count {
        let value = heap.get(from, place);
        heap.put(object, at + place, value);
    }
    at + count
}

/// A new Fraction of this numerator and denominator.
pub fn new_fraction<H: Heap>(heap: &mut H, over: Value, under: Value) -> Built
    ensures memory { H.meaning heap.new ≡ unless_out result (H.meaning heap.old) (memory_of (makes_slots fraction_class (over ∷ under ∷ []) (H.meaning heap.old).store) (H.meaning heap.old)) }
    ensures answer { result ≡ unless_out result result (answer_of (makes_slots fraction_class (over ∷ under ∷ []) (H.meaning heap.old).store) (H.meaning heap.old)) }
    ensures reserved { IsTrue H.reserved → is_out result ≡ false }
    ensures literals { H.literal_room heap.new ≡ H.literal_room heap.old }
{
    let object = match blank(heap, FRACTION, 2, 0) {
        Ok(object) => object,
        Err(stop) => return answer_stop(stop),
    };
    heap.put(object, 0, over);
    heap.put(object, 1, under);
    Built::Value(Value::Object(object))
}

// How many selectors a plain selector has.
fn selector_count<H: Heap>(heap: &H, value: Value) -> u32
    ensures { result ≡ length (selectors_in (H.meaning heap.now).store value) }
{
    match value {
        Value::Object(set) => heap.length(set),
        _ => 1,
    }
}

// Writes the selectors of a plain selector, and answers the place behind them.
#[tactic(auto, unfolding(crate::specs::Pieces::slots_put))]
fn put_selectors<H: Heap>(heap: &mut H, object: u32, at: u32, value: Value, count: u32) -> u32
    requires other { 0 < count → IsOther object value }
    requires fits { at + count < 2 ^ 32 }
    requires within { count ≤ length (selectors_in (H.meaning heap.old).store value) }
    ensures written { H.meaning heap.new ≡ with_store (slots_put object at (take count (selectors_in (H.meaning heap.old).store value)) (H.meaning heap.old).store) (H.meaning heap.old) }
    ensures behind { result ≡ at + count }
    ensures literals { H.literal_room heap.new ≡ H.literal_room heap.old }
{
    match value {
        Value::Object(set) => put_slots_of(heap, object, at, set, count),
        _ => {
            if count > 0 {
                heap.put(object, at, value);
            }
            at + count
        }
    }
}

/// A new ExceptionSet of the selectors of two plain selectors.
pub fn new_joined<H: Heap>(heap: &mut H, left: Value, right: Value) -> Built
    ensures memory { H.meaning heap.new ≡ unless_out result (H.meaning heap.old) (memory_of (makes_slots exception_set_class (selectors_in (H.meaning heap.old).store left ++ selectors_in (H.meaning heap.old).store right) (H.meaning heap.old).store) (H.meaning heap.old)) }
    ensures answer { result ≡ unless_out result result (answer_of (makes_slots exception_set_class (selectors_in (H.meaning heap.old).store left ++ selectors_in (H.meaning heap.old).store right) (H.meaning heap.old).store) (H.meaning heap.old)) }
    ensures reserved { IsTrue H.reserved → is_out result ≡ false }
    ensures literals { H.literal_room heap.new ≡ H.literal_room heap.old }
{
    let count = selector_count(heap, left);
    let more = selector_count(heap, right);
    let object = match blank(heap, EXCEPTION_SET, count as u128 + more as u128, 0) {
        Ok(object) => object,
        Err(stop) => return answer_stop(stop),
    };
    let at = put_selectors(heap, object, 0, left, count);
    put_selectors(heap, object, at, right, more);
    Built::Value(Value::Object(object))
}
