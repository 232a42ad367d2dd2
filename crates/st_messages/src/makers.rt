// New objects: the charge first, then what they hold.
ghost use Rattle.std.specs.Prelude.{◌≡◌, ◌+◌, ◌*◌, ◌<◌, ◌≤◌, ◌^◌, false, IsTrue, OnOk};
ghost use Rattle.object_heap.specs.Store.{blank_object, object_added};
ghost use Rattle.object_heap.specs.Charges.{charged, if_out, object_charge, ran_out};
ghost use Rattle.st_collections.specs.Actions.{makes_blank};
ghost use Rattle.st_collections.specs.Answers.{allot_answer, answer_of, is_out, memory_of, stop_answer, told, unless_out};

use object_heap::{Heap, HeapStop, Value};
use st_collections::Built;

/// What a heap that made nothing answers.
pub fn answer_stop(stop: HeapStop) -> Built
    ensures { result ≡ stop_answer stop }
{
    match stop {
        HeapStop::Limit { used, charge } => Built::Cells { used, charge },
        HeapStop::OutOfMemory => Built::OutOfMemory,
    }
}

// The cells of an object, as a charge is told.
fn charge_of(slots: u128, bytes: u128) -> u128
    ensures { result ≡ told (object_charge slots bytes) }
{
    let for_bytes = bytes / 16 + (bytes % 16 + 15) / 16;
    slots.saturating_add(for_bytes + 1)
}

/// A new object of so many slots, which are nil, and bytes, which are 0.
pub fn blank<H: Heap>(heap: &mut H, class: u32, slots: u128, bytes: u128) -> Result<u32, HeapStop>
    ensures made { H.meaning heap.new ≡ if_out result (H.meaning heap.old) (charged (object_charge slots bytes) (object_added (blank_object class slots bytes) (H.meaning heap.old).store) (H.meaning heap.old)) }
    ensures answer { result ≡ if_out result result (allot_answer (object_charge slots bytes) (H.meaning heap.old)) }
    ensures slots { OnOk result (slots < 2 ^ 32) }
    ensures bytes { OnOk result (bytes < 2 ^ 32) }
    ensures reserved { IsTrue H.reserved → ran_out result ≡ false }
    ensures literals { H.literal_room heap.new ≡ H.literal_room heap.old }
{
    let charge = charge_of(slots, bytes);
    let used = heap.used();
    if charge > heap.limit() as u128 {
        return Err(HeapStop::Limit { used, charge });
    }
    heap.make(class, slots as u32, bytes as u32)
}

/// A new object of a class of the program: its slots are nil and its bytes 0.
pub fn new_blank<H: Heap>(heap: &mut H, class: u32, slots: u128, bytes: u128) -> Built
    ensures memory { H.meaning heap.new ≡ unless_out result (H.meaning heap.old) (memory_of (makes_blank class slots bytes (H.meaning heap.old).store) (H.meaning heap.old)) }
    ensures answer { result ≡ unless_out result result (answer_of (makes_blank class slots bytes (H.meaning heap.old).store) (H.meaning heap.old)) }
    ensures reserved { IsTrue H.reserved → is_out result ≡ false }
    ensures literals { H.literal_room heap.new ≡ H.literal_room heap.old }
{
    match blank(heap, class, slots, bytes) {
        Ok(object) => Built::Value(Value::Object(object)),
        Err(stop) => answer_stop(stop),
    }
}
