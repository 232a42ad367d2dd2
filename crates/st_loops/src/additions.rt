// What is added to a collection where a loop ends, and what is taken out of it.
ghost use Rattle.std.specs.Prelude.{◌≡◌, ◌++◌, ◌∷◌, [], false, IsTrue};
ghost use Rattle.st_collections.specs.Actions.{Finishes};
ghost use Rattle.st_collections.specs.Kinds.{slots_of};
ghost use Rattle.st_loops.specs.Requests.{HasElements, HasPairs};
ghost use Rattle.st_loops.specs.Steps.{Out, is_out, memory_after, seen, told_of, unless_out};
ghost use Rattle.st_loops.specs.Visits.{appended, with_pair};

use crate::growth::{append, append_pair};
use crate::step::{LoopStep, step_stop};
use object_heap::{Heap, Value};

/// Adds an element at the end of a collection, and answers it.
#[tactic(auto, unfolding(st_collections::specs::Kinds::slots_of))]
pub fn add_element<H: Heap>(heap: &mut H, collection: Value, value: Value) -> LoopStep
    requires { HasElements (H.meaning heap.old).store collection }
    ensures memory { let m = H.meaning heap.old in H.meaning heap.new ≡ unless_out (seen result) m (memory_after (appended m.store collection (slots_of m.store collection ++ value ∷ []) (λ s. Finishes value)) m) }
    ensures step { let m = H.meaning heap.old in seen result ≡ unless_out (seen result) Out (told_of (appended m.store collection (slots_of m.store collection ++ value ∷ []) (λ s. Finishes value)) m) }
    ensures reserved { IsTrue H.reserved → is_out (seen result) ≡ false }
    ensures literals { H.literal_room heap.new ≡ H.literal_room heap.old }
{
    let Value::Object(object) = collection else {
        return LoopStep::Answer(value);
    };
    match append(heap, object, value) {
        Ok(()) => LoopStep::Answer(value),
        Err(stop) => step_stop(stop),
    }
}

/// Adds a key and its value at the end of a Dictionary, and answers the value.
#[tactic(auto, unfolding(st_collections::specs::Kinds::slots_of))]
pub fn add_pair<H: Heap>(heap: &mut H, dictionary: Value, key: Value, value: Value) -> LoopStep
    requires { HasPairs (H.meaning heap.old).store dictionary }
    ensures memory { let m = H.meaning heap.old in H.meaning heap.new ≡ unless_out (seen result) m (memory_after (with_pair m.store dictionary key value) m) }
    ensures step { let m = H.meaning heap.old in seen result ≡ unless_out (seen result) Out (told_of (with_pair m.store dictionary key value) m) }
    ensures reserved { IsTrue H.reserved → is_out (seen result) ≡ false }
    ensures literals { H.literal_room heap.new ≡ H.literal_room heap.old }
{
    let Value::Object(object) = dictionary else {
        return LoopStep::Answer(value);
    };
    match append_pair(heap, object, key, value) {
        Ok(()) => LoopStep::Answer(value),
        Err(stop) => step_stop(stop),
    }
}
