// How the slots of an OrderedCollection grow and shrink.
ghost use Rattle.std.specs.Prelude.{◌≡◌, ℕ, ◌+◌, ◌<◌, ◌≤◌, ◌^◌, Ok, Err, false, get_or, insert, length, nat_le, remove, IsTrue, OnOk, if◌then◌else◌};
ghost use Rattle.object_heap.specs.declared.value.Value.{Value};
ghost use Rattle.object_heap.specs.declared.heap.HeapStop.{HeapStop};
ghost use Rattle.object_heap.specs.Charges.{charged, if_out, ran_out, with_store};
ghost use Rattle.object_heap.specs.Store.{object_at, with_room};
ghost use Rattle.st_collections.specs.Answers.{told};
ghost use Rattle.st_collections.specs.SequenceRows.{grown_to};
ghost use Rattle.st_collections.specs.Ordered.{IsOpen, room_answer, room_for_one, slots_set};

use object_heap::{Heap, HeapStop};

/// What a collection grows to, and the cells of all its growths, each told as at most 2^128 - 1.
#[derive(Clone, Copy, Debug)]
pub struct Growth {
    pub elements: u128,
    pub cells: u128,
}

/// The growths from the room for so many elements until there is room for `size`.
#[tactic(auto, unfolding(crate::specs::SequenceRows::grown_to))]
pub fn growth_to(size: u128, room: u128) -> Growth
    ensures elements { result.elements ≡ told (grown_to size room).elements }
    ensures cells { result.cells ≡ told (grown_to size room).cells }
    ensures paid { room < size → result.elements ≤ result.cells }
    ensures enough { size ≤ result.elements }
{
    let mut growth = Growth {
        elements: room,
        cells: 0,
    };
    while growth.elements < size {
        growth.elements = growth.elements.saturating_mul(2).max(4);
        growth.cells = growth.cells.saturating_add(growth.elements);
    }
    growth
}

/// Room for one more element. Where there is none, the room becomes the greater of 4 and twice
/// itself, which is charged.
pub fn reserve_slot<H: Heap>(heap: &mut H, object: u32) -> Result<(), HeapStop>
    requires { IsOpen (H.meaning heap.old).store object }
    ensures made { let o = object_at object (H.meaning heap.old).store in let room = room_for_one (length o.slots) o.capacity in H.meaning heap.new ≡ if_out result (H.meaning heap.old) (charged room.cells (with_room object room.elements (H.meaning heap.old).store) (H.meaning heap.old)) }
    ensures answer { let o = object_at object (H.meaning heap.old).store in let room = room_for_one (length o.slots) o.capacity in result ≡ if_out result result (room_answer room.cells (H.meaning heap.old)) }
    ensures fits { OnOk result (length (object_at object (H.meaning heap.old).store).slots + 1 < 2 ^ 32) }
    ensures reserved { IsTrue H.reserved → ran_out result ≡ false }
    ensures literals { H.literal_room heap.new ≡ H.literal_room heap.old }
{
    let used = heap.used();
    let capacity = heap.capacity(object);
    if heap.length(object) < capacity {
        return Ok(());
    }
    let more = (2 * capacity as u64).max(4);
    if more > heap.limit() as u64 {
        return Err(HeapStop::Limit {
            used,
            charge: more as u128,
        });
    }
    heap.grow(object, more as u32)
}

/// Room for so many elements. Where there is less, the room becomes the greater of 4 and twice
/// itself until there is enough, which is charged at once.
pub fn reserve_slots<H: Heap>(heap: &mut H, object: u32, size: u128) -> Result<(), HeapStop>
    requires { IsOpen (H.meaning heap.old).store object }
    ensures made { let room = grown_to size (object_at object (H.meaning heap.old).store).capacity in H.meaning heap.new ≡ if_out result (H.meaning heap.old) (charged room.cells (with_room object room.elements (H.meaning heap.old).store) (H.meaning heap.old)) }
    ensures answer { let room = grown_to size (object_at object (H.meaning heap.old).store).capacity in result ≡ if_out result result (room_answer room.cells (H.meaning heap.old)) }
    ensures fits { OnOk result (size < 2 ^ 32) }
    ensures reserved { IsTrue H.reserved → ran_out result ≡ false }
    ensures literals { H.literal_room heap.new ≡ H.literal_room heap.old }
{
    let used = heap.used();
    let capacity = heap.capacity(object) as u128;
    if size <= capacity {
        return Ok(());
    }
    let growth = growth_to(size, capacity);
    if growth.cells > heap.limit() as u128 {
        return Err(HeapStop::Limit {
            used,
            charge: growth.cells,
        });
    }
    heap.grow_through(object, growth.elements as u32, growth.cells as u32)
}

/// Opens a gap at a place of the slots: those behind it move up by one.
pub fn open_slot<H: Heap>(heap: &mut H, object: u32, place: u32)
    requires room { let o = object_at object (H.meaning heap.old).store in length o.slots < o.capacity }
    requires within { place ≤ length (object_at object (H.meaning heap.old).store).slots }
    requires fits { length (object_at object (H.meaning heap.old).store).slots + 1 < 2 ^ 32 }
    ensures opened { let slots = (object_at object (H.meaning heap.old).store).slots in H.meaning heap.new ≡ with_store (slots_set object (insert slots place (get_or slots place Value.Nil)) (H.meaning heap.old).store) (H.meaning heap.old) }
    ensures literals { H.literal_room heap.new ≡ H.literal_room heap.old }
{
    let length = heap.length(object);
    heap.set_length(object, length + 1);
    let mut gap = length;
    while gap > place {
        let value = heap.get(object, gap - 1);
        heap.put(object, gap, value);
        gap -= 1;
    }
}

/// Takes out the slot at a place: those behind it move down by one.
pub fn close_slot<H: Heap>(heap: &mut H, object: u32, place: u32)
    requires room { let o = object_at object (H.meaning heap.old).store in length o.slots ≤ o.capacity }
    requires within { place < length (object_at object (H.meaning heap.old).store).slots }
    ensures closed { let slots = (object_at object (H.meaning heap.old).store).slots in H.meaning heap.new ≡ with_store (slots_set object (remove slots place) (H.meaning heap.old).store) (H.meaning heap.old) }
    ensures literals { H.literal_room heap.new ≡ H.literal_room heap.old }
{
    let last = heap.length(object) - 1;
    let mut gap = place;
    while gap < last {
        let value = heap.get(object, gap + 1);
        heap.put(object, gap, value);
        gap += 1;
    }
    heap.set_length(object, last);
}
