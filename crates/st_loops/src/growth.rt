// How the slots of a collection come and go.
ghost use Rattle.std.specs.Prelude.{◌≡◌, ℕ, ◌+◌, ◌*◌, ◌<◌, ◌≤◌, ◌^◌, ◌++◌, ◌∷◌, [], false, length, IsTrue, OnOk};
ghost use Rattle.object_heap.specs.Charges.{charged, if_out, ran_out, with_store};
ghost use Rattle.object_heap.specs.Store.{object_at, with_room};
ghost use Rattle.st_collections.specs.Ordered.{room_answer};
ghost use Rattle.st_collections.specs.SequenceRows.{with_elements, without_element};
ghost use Rattle.st_loops.specs.Growth.{IsPaired, IsRoomy, IsSingle, room_or};

use object_heap::{Heap, HeapStop, Value};

// Room for more slots. Where there is none, the room becomes so much, which is charged.
fn reserve<H: Heap>(heap: &mut H, object: u32, more: u64) -> Result<(), HeapStop>
    requires roomy { IsRoomy (H.meaning heap.old).store object }
    requires more { (object_at object (H.meaning heap.old).store).capacity ≤ more }
    ensures made { let o = object_at object (H.meaning heap.old).store in let room = room_or (length o.slots) o.capacity more in H.meaning heap.new ≡ if_out result (H.meaning heap.old) (charged room.cells (with_room object room.elements (H.meaning heap.old).store) (H.meaning heap.old)) }
    ensures answer { let o = object_at object (H.meaning heap.old).store in let room = room_or (length o.slots) o.capacity more in result ≡ if_out result result (room_answer room.cells (H.meaning heap.old)) }
    ensures fits { let o = object_at object (H.meaning heap.old).store in OnOk result ((room_or (length o.slots) o.capacity more).elements < 2 ^ 32) }
    ensures reserved { IsTrue H.reserved → ran_out result ≡ false }
    ensures literals { H.literal_room heap.new ≡ H.literal_room heap.old }
{
    let used = heap.used();
    if heap.length(object) < heap.capacity(object) {
        return Ok(());
    }
    if more > heap.limit() as u64 {
        return Err(HeapStop::Limit {
            used,
            charge: more as u128,
        });
    }
    heap.grow(object, more as u32)
}

/// Adds a slot at the end. Where there is no room, the room becomes the greater of 4 and twice
/// itself, which is charged.
pub fn append<H: Heap>(heap: &mut H, object: u32, value: Value) -> Result<(), HeapStop>
    requires { IsSingle (H.meaning heap.old).store object }
    ensures made { let m = H.meaning heap.old in let g = with_elements m.store object ((object_at object m.store).slots ++ value ∷ []) in H.meaning heap.new ≡ if_out result m (charged g.cells g.store m) }
    ensures answer { let m = H.meaning heap.old in let g = with_elements m.store object ((object_at object m.store).slots ++ value ∷ []) in result ≡ if_out result result (room_answer g.cells m) }
    ensures reserved { IsTrue H.reserved → ran_out result ≡ false }
    ensures literals { H.literal_room heap.new ≡ H.literal_room heap.old }
{
    let length = heap.length(object);
    let more = (2 * heap.capacity(object) as u64).max(4);
    match reserve(heap, object, more) {
        Ok(()) => (),
        Err(stop) => return Err(stop),
    }
    heap.set_length(object, length + 1);
    heap.put(object, length, value);
    Ok(())
}

/// Adds a key and its value at the end of a Dictionary.
pub fn append_pair<H: Heap>(
    heap: &mut H,
    object: u32,
    key: Value,
    value: Value,
) -> Result<(), HeapStop>
    requires { IsPaired (H.meaning heap.old).store object }
    ensures made { let m = H.meaning heap.old in let g = with_elements m.store object ((object_at object m.store).slots ++ key ∷ value ∷ []) in H.meaning heap.new ≡ if_out result m (charged g.cells g.store m) }
    ensures answer { let m = H.meaning heap.old in let g = with_elements m.store object ((object_at object m.store).slots ++ key ∷ value ∷ []) in result ≡ if_out result result (room_answer g.cells m) }
    ensures reserved { IsTrue H.reserved → ran_out result ≡ false }
    ensures literals { H.literal_room heap.new ≡ H.literal_room heap.old }
{
    let length = heap.length(object);
    let more = 2 * (heap.capacity(object) as u64).max(4);
    match reserve(heap, object, more) {
        Ok(()) => (),
        Err(stop) => return Err(stop),
    }
    heap.set_length(object, length + 2);
    heap.put(object, length, key);
    heap.put(object, length + 1, value);
    Ok(())
}

/// Takes out the slot at a place: those behind it move down by one.
pub fn take_out<H: Heap>(heap: &mut H, object: u32, place: u32)
    requires roomy { IsRoomy (H.meaning heap.old).store object }
    requires within { place < length (object_at object (H.meaning heap.old).store).slots }
    ensures closed { H.meaning heap.new ≡ with_store (without_element (H.meaning heap.old).store object place) (H.meaning heap.old) }
    ensures literals { H.literal_room heap.new ≡ H.literal_room heap.old }
{
    let last = heap.length(object) - 1;
    let mut gap = place;
    while gap < last {
        let value = heap.get(object, gap + 1);
        heap.put(object, gap, value);
        gap += 1;
    }
    heap.set_length(object, last);
}
