// The flat heap: its cells, its tables of places, and each call.
ghost use Rattle.std.specs.Prelude.{◌≡◌, ◌≤◌, IfOk};
ghost use Rattle.cell_heap.specs.Flat.{CellMemory, new_cells};

use crate::areas::{add_nils, add_zeros, clear_run, copy_run};
use crate::place::{Place, ScopePlace};
use object_heap::{Closure, Heap, HeapStop, Value, charge_of, used_after};
use st_base::OutOfMemory;
use std::alloc::Global;
use std::marker::Model;

/// A heap that takes all memory when it is made.
///
/// A growth takes a new run of cells and leaves the old one.
#[derive(Drop)]
pub struct CellHeap {
    values: Vec<Value>,
    bytes: Vec<u8>,
    places: Vec<Place>,
    closures: Vec<Closure>,
    scopes: Vec<ScopePlace>,
    used: u32,
    limit: u32,
    literals: u32,
}

impl Model for CellHeap {
    ghost use Rattle.cell_heap.specs.Flat.{CellMemory};

    ghost Value = { CellMemory };

    ghost use Rattle.std.specs.Prelude.{length, vec_capacity};
    ghost use Rattle.cell_heap.specs.Flat.{memory_of, Laid, HasRoom};

    ghost view = { λ h. record { memory = memory_of h.values.items h.bytes.items h.places.items h.closures.items h.scopes.items h.used h.limit; literal_room = h.literals } };

    ghost invariant = { λ h. Laid (length h.values.items) (length h.bytes.items) h.places.items h.scopes.items × HasRoom (length h.values.items) (length h.bytes.items) (length h.places.items) (length h.closures.items) (length h.scopes.items) (vec_capacity h.values) (vec_capacity h.bytes) (vec_capacity h.places) (vec_capacity h.closures) (vec_capacity h.scopes) h.used h.limit h.literals };
}

impl CellHeap {
    /// An empty heap with room for so many cells, and for literals that take so many more. It takes
    /// all memory that its calls need.
    pub fn new(alloc: Global, cells: u32, literal_cells: u32) -> Result<CellHeap, OutOfMemory>
        requires { cells ≤ 67108864 }
        ensures { IfOk result (λ h. h ≡ new_cells cells literal_cells) }
    {
        let both = cells as usize + literal_cells as usize;
        Ok(CellHeap {
            values: Vec::with_capacity(alloc, both)?,
            bytes: Vec::with_capacity(alloc, 16 * both)?,
            places: Vec::with_capacity(alloc, both)?,
            closures: Vec::with_capacity(alloc, cells as usize / 2)?,
            scopes: Vec::with_capacity(alloc, cells as usize)?,
            used: 0,
            limit: cells,
            literals: literal_cells,
        })
    }
}

impl Heap for CellHeap {
    ghost use Rattle.std.specs.Prelude.{true};

    ghost meaning = { λ h. h.memory };

    ghost literal_room = { λ h. h.literal_room };

    ghost reserved = { true };

    fn make(&mut self, class: u32, slots: u32, bytes: u32) -> Result<u32, HeapStop> {
        let used = used_after(self.used, self.limit, charge_of(slots, bytes))?;
        let number = self.places.len() as u32;
        self.places.push_reserved(Place {
            class,
            first_slot: self.values.len(),
            slots,
            room: slots,
            first_byte: self.bytes.len(),
            bytes,
            read_only: false,
            closure: None,
        });
        add_nils(&mut self.values, slots);
        add_zeros(&mut self.bytes, bytes);
        self.used = used;
        Ok(number)
    }

    fn make_literal(&mut self, class: u32, slots: u32, bytes: u32) -> Result<u32, OutOfMemory> {
        let number = self.places.len() as u32;
        self.places.push_reserved(Place {
            class,
            first_slot: self.values.len(),
            slots,
            room: slots,
            first_byte: self.bytes.len(),
            bytes,
            read_only: true,
            closure: None,
        });
        add_nils(&mut self.values, slots);
        add_zeros(&mut self.bytes, bytes);
        self.literals -= charge_of(slots, bytes) as u32;
        Ok(number)
    }

    fn make_closure(&mut self, class: u32, closure: Closure) -> Result<u32, HeapStop> {
        let used = used_after(self.used, self.limit, 2)?;
        let number = self.places.len() as u32;
        self.places.push_reserved(Place {
            class,
            first_slot: self.values.len(),
            slots: 0,
            room: 0,
            first_byte: self.bytes.len(),
            bytes: 0,
            read_only: false,
            closure: Some(self.closures.len() as u32),
        });
        self.closures.push_reserved(closure);
        self.used = used;
        Ok(number)
    }

    fn make_scope(
        &mut self,
        code: u32,
        variables: u32,
        outer: Option<u32>,
    ) -> Result<u32, HeapStop> {
        let used = used_after(self.used, self.limit, 1 + variables as u64)?;
        let number = self.scopes.len() as u32;
        self.scopes.push_reserved(ScopePlace {
            code,
            outer,
            first: self.values.len(),
            variables,
        });
        add_nils(&mut self.values, variables);
        self.used = used;
        Ok(number)
    }

    fn grow(&mut self, object: u32, capacity: u32) -> Result<(), HeapStop> {
        self.grow_through(object, capacity, capacity)
    }

    fn grow_through(&mut self, object: u32, capacity: u32, charge: u32) -> Result<(), HeapStop> {
        self.used = used_after(self.used, self.limit, charge as u64)?;
        if (object as usize) < self.places.len() {
            let place = self.places[object as usize];
            if place.slots <= capacity {
                let first_slot = self.values.len();
                copy_run(&mut self.values, place.first_slot, place.slots);
                add_nils(&mut self.values, capacity - place.slots);
                self.places[object as usize] = Place {
                    first_slot,
                    room: capacity,
                    ..place
                };
                return Ok(());
            }
        }
        Ok(())
    }

    fn set_length(&mut self, object: u32, length: u32) {
        if (object as usize) < self.places.len() {
            let place = self.places[object as usize];
            if length <= place.room {
                clear_run(
                    &mut self.values,
                    place.first_slot + place.slots as usize,
                    length.saturating_sub(place.slots),
                );
                self.places[object as usize] = Place {
                    slots: length,
                    ..place
                };
            }
        }
    }

    fn put(&mut self, object: u32, slot: u32, value: Value) {
        if (object as usize) < self.places.len() {
            let place = self.places[object as usize];
            if slot < place.slots {
                self.values[place.first_slot + slot as usize] = value;
            }
        }
    }

    fn put_byte(&mut self, object: u32, index: u32, byte: u8) {
        if (object as usize) < self.places.len() {
            let place = self.places[object as usize];
            if index < place.bytes {
                self.bytes[place.first_byte + index as usize] = byte;
            }
        }
    }

    fn scope_put(&mut self, scope: u32, index: u32, value: Value) {
        if (scope as usize) < self.scopes.len() {
            let place = self.scopes[scope as usize];
            if index < place.variables {
                self.values[place.first + index as usize] = value;
            }
        }
    }

    fn get(&self, object: u32, slot: u32) -> Value {
        if (object as usize) < self.places.len() {
            let place = self.places[object as usize];
            if slot < place.slots {
                return self.values[place.first_slot + slot as usize];
            }
        }
        Value::Nil
    }

    fn get_byte(&self, object: u32, index: u32) -> u8 {
        if (object as usize) < self.places.len() {
            let place = self.places[object as usize];
            if index < place.bytes {
                return self.bytes[place.first_byte + index as usize];
            }
        }
        0
    }

    fn scope_get(&self, scope: u32, index: u32) -> Value {
        if (scope as usize) < self.scopes.len() {
            let place = self.scopes[scope as usize];
            if index < place.variables {
                return self.values[place.first + index as usize];
            }
        }
        Value::Nil
    }

    fn class_of(&self, object: u32) -> u32 {
        if (object as usize) < self.places.len() {
            return self.places[object as usize].class;
        }
        0
    }

    fn length(&self, object: u32) -> u32 {
        if (object as usize) < self.places.len() {
            return self.places[object as usize].slots;
        }
        0
    }

    fn capacity(&self, object: u32) -> u32 {
        if (object as usize) < self.places.len() {
            return self.places[object as usize].room;
        }
        0
    }

    fn byte_length(&self, object: u32) -> u32 {
        if (object as usize) < self.places.len() {
            return self.places[object as usize].bytes;
        }
        0
    }

    fn is_literal(&self, object: u32) -> bool {
        if (object as usize) < self.places.len() {
            return self.places[object as usize].read_only;
        }
        false
    }

    fn closure(&self, object: u32) -> Option<Closure> {
        if (object as usize) < self.places.len() {
            if let Some(number) = self.places[object as usize].closure {
                if (number as usize) < self.closures.len() {
                    return Some(self.closures[number as usize]);
                }
            }
        }
        None
    }

    fn scope_code(&self, scope: u32) -> u32 {
        if (scope as usize) < self.scopes.len() {
            return self.scopes[scope as usize].code;
        }
        0
    }

    fn scope_size(&self, scope: u32) -> u32 {
        if (scope as usize) < self.scopes.len() {
            return self.scopes[scope as usize].variables;
        }
        0
    }

    fn scope_outer(&self, scope: u32) -> Option<u32> {
        if (scope as usize) < self.scopes.len() {
            return self.scopes[scope as usize].outer;
        }
        None
    }

    fn used(&self) -> u32 {
        self.used
    }

    fn limit(&self) -> u32 {
        self.limit
    }
}
