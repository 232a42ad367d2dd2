// What Dictionaries and Associations hold.
ghost use Rattle.std.specs.Prelude.{◌≡◌, ℕ, false, IsTrue};
ghost use Rattle.object_heap.specs.Charges.{Memory};
ghost use Rattle.st_code.specs.BuiltIns.{array_class};
ghost use Rattle.st_collections.specs.Actions.{makes_slots};
ghost use Rattle.st_collections.specs.Answers.{program_of, answer_of, memory_of, is_out, unless_out};
ghost use Rattle.st_collections.specs.AtOnce.{pair_action};
ghost use Rattle.st_collections.specs.Kinds.{slots_of};
ghost use Rattle.st_collections.specs.SequenceRows.{firsts, seconds};

use crate::answer::Built;
use crate::classes::ARRAY;
use crate::elements::{slot_now, slots_now};
use crate::items::Items;
use crate::makers::new_items;
use crate::message::OfPair;
use object_heap::{Heap, Value};
use st_names::Names;

// The keys of a Dictionary in an Array.
fn keys<H: Heap>(heap: &mut H, names: &Names, dictionary: Value) -> Built
    ensures memory { H.meaning heap.new ≡ unless_out result (H.meaning heap.old) (memory_of (makes_slots array_class (firsts (slots_of (H.meaning heap.old).store dictionary)) (H.meaning heap.old).store) (H.meaning heap.old)) }
    ensures answer { result ≡ unless_out result result (answer_of (makes_slots array_class (firsts (slots_of (H.meaning heap.old).store dictionary)) (H.meaning heap.old).store) (H.meaning heap.old)) }
    ensures reserved { IsTrue H.reserved → is_out result ≡ false }
    ensures literals { H.literal_room heap.new ≡ H.literal_room heap.old }
{
    let slots = slots_now(heap, dictionary) as u128;
    new_items(heap, names, ARRAY, Items::Keys(dictionary), (slots + 1) / 2)
}

// Its values in an Array.
fn values<H: Heap>(heap: &mut H, names: &Names, dictionary: Value) -> Built
    ensures memory { H.meaning heap.new ≡ unless_out result (H.meaning heap.old) (memory_of (makes_slots array_class (seconds (slots_of (H.meaning heap.old).store dictionary)) (H.meaning heap.old).store) (H.meaning heap.old)) }
    ensures answer { result ≡ unless_out result result (answer_of (makes_slots array_class (seconds (slots_of (H.meaning heap.old).store dictionary)) (H.meaning heap.old).store) (H.meaning heap.old)) }
    ensures reserved { IsTrue H.reserved → is_out result ≡ false }
    ensures literals { H.literal_room heap.new ≡ H.literal_room heap.old }
{
    let slots = slots_now(heap, dictionary) as u128;
    new_items(heap, names, ARRAY, Items::Values(dictionary), slots / 2)
}

/// What a Dictionary or an Association answers of its parts.
#[tactic(auto, unfolding(crate::specs::SequenceRows::collection_action, crate::specs::Kinds::slots_of))]
pub fn pair_message<H: Heap>(heap: &mut H, names: &Names, message: OfPair, receiver: Value) -> Built
    ensures memory { H.meaning heap.new ≡ unless_out result (H.meaning heap.old) (memory_of (pair_action (program_of names.now) (H.meaning heap.old).store message receiver) (H.meaning heap.old)) }
    ensures answer { result ≡ unless_out result result (answer_of (pair_action (program_of names.now) (H.meaning heap.old).store message receiver) (H.meaning heap.old)) }
    ensures reserved { IsTrue H.reserved → is_out result ≡ false }
    ensures literals { H.literal_room heap.new ≡ H.literal_room heap.old }
{
    match message {
        OfPair::Key => Built::Value(slot_now(heap, receiver, 0)),
        OfPair::Value => Built::Value(slot_now(heap, receiver, 1)),
        OfPair::Keys => match receiver {
            Value::Object(_) => keys(heap, names, receiver),
            _ => Built::Value(Value::Nil),
        },
        OfPair::Values => match receiver {
            Value::Object(_) => values(heap, names, receiver),
            _ => Built::Value(Value::Nil),
        },
    }
}
