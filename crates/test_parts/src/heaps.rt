// Heaps: one that keeps lists, one that keeps cells, and the literals of a program.

use crate::call::Call;
use crate::part::{Part, Row, nothing};
use cell_heap::CellHeap;
use object_heap::{Closure, Heap, ListHeap, charge_of};
use program_image::build;
use sif_elements::reading::{ReadAnswer, read_definition};
use st_base::{MemorySource, OutOfMemory};
use st_literals::literal_heap;
use st_tree::units::{Definition, UnitList};
use std::alloc::Global;
use std::fmt::Write;

// How many cells a literal may take.
const MOST_LITERALS: u64 = 1_000_000;

/// A heap of lists and one of cells, to which the same calls are made.
#[derive(Drop)]
pub struct Heaps {
    plain: ListHeap,
    cells: CellHeap,
}

impl Heaps {
    /// Heaps with this limit, and in each a literal String of so many slots and bytes.
    pub fn new(alloc: Global, row: &Row) -> Result<Heaps, OutOfMemory> {
        let (limit, slots, bytes) = (row.cells(), row.limit(1), row.limit(2));
        let charge = charge_of(slots, bytes);
        if charge > MOST_LITERALS {
            return Err(OutOfMemory);
        }
        let mut plain = ListHeap::new(alloc, limit)?;
        let mut cells = CellHeap::new(alloc, limit, charge as u32)?;
        if row.limits.len() > 1 {
            plain.make_literal(9, slots, bytes)?;
            cells.make_literal(9, slots, bytes)?;
        }
        Ok(Heaps { plain, cells })
    }
}

impl Part for Heaps {
    fn answer(&mut self, alloc: Global, call: &Call<'_>) -> Result<String, OutOfMemory> {
        let plain = heap_answer(alloc, &mut self.plain, call)?;
        let cells = heap_answer(alloc, &mut self.cells, call)?;
        if plain.as_str() == cells.as_str() {
            return Ok(plain);
        }
        Ok(format!(in alloc; "{plain} in lists, {cells} in cells")?)
    }
}

/// The heap that the literals of a program make.
#[derive(Drop)]
pub struct Literals {
    heap: CellHeap,
}

impl Literals {
    /// The literals of the row's file, in a heap with this limit.
    pub fn new(alloc: Global, row: &Row) -> Result<Literals, OutOfMemory> {
        let image = build(alloc, definition_of(alloc, row)?)?;
        let heap = literal_heap(alloc, &image, row.limit(0))?;
        Ok(Literals { heap })
    }
}

impl Part for Literals {
    fn answer(&mut self, alloc: Global, call: &Call<'_>) -> Result<String, OutOfMemory> {
        heap_answer(alloc, &mut self.heap, call)
    }
}

/// The program of a row's file, or an empty one.
pub fn definition_of(alloc: Global, row: &Row) -> Result<Definition, OutOfMemory> {
    let bytes = Vec::from_slice(alloc, row.text.as_bytes())?;
    let mut source = MemorySource::new(bytes, Vec::new(alloc), Vec::new(alloc));
    match read_definition(alloc, &mut source) {
        ReadAnswer::Read(definition) => Ok(definition),
        _ => {
            let units = UnitList::new(alloc);
            Ok(Definition { units })
        }
    }
}

// The block that a call names: its code, its class, its receiver, its scope and its home.
fn closure(call: &Call<'_>) -> Closure {
    Closure {
        code: call.number(2),
        class: call.value(3),
        receiver: call.value(4),
        scope: call.option(5),
        home: call.activation(6),
    }
}

// Room for so many slots, where so many cells are charged for it.
fn grown<H: Heap>(alloc: Global, heap: &mut H, call: &Call<'_>) -> Result<String, OutOfMemory> {
    let capacity = call.number(2);
    let charge = call.number(3);
    if capacity > charge {
        return nothing(alloc);
    }
    let answer = heap.grow_through(call.number(1), capacity, charge);
    Ok(format!(in alloc; "{answer:?}")?)
}

/// Makes a call to a heap.
pub fn heap_answer<H: Heap>(
    alloc: Global,
    heap: &mut H,
    call: &Call<'_>,
) -> Result<String, OutOfMemory> {
    let first = call.number(1);
    let second = call.number(2);
    match call.word(0) {
        "make" => Ok(format!(in alloc; "{:?}", heap.make(first, second, call.number(3)))?),
        "block" => Ok(format!(in alloc; "{:?}", heap.make_closure(first, closure(call)))?),
        "scope" => {
            let answer = heap.make_scope(first, second, call.option(3));
            Ok(format!(in alloc; "{answer:?}")?)
        }
        "grow" => Ok(format!(in alloc; "{:?}", heap.grow(first, second))?),
        "grow_through" => grown(alloc, heap, call),
        "used" => Ok(format!(in alloc; "{} of {}", heap.used(), heap.limit())?),
        "object" => object_text(alloc, heap, first),
        "variables" => scope_text(alloc, heap, first),
        _ => written(alloc, heap, call),
    }
}

// Makes a call that answers nothing.
fn written<H: Heap>(alloc: Global, heap: &mut H, call: &Call<'_>) -> Result<String, OutOfMemory> {
    let first = call.number(1);
    let second = call.number(2);
    match call.word(0) {
        "set_length" => heap.set_length(first, second),
        "put" => heap.put(first, second, call.value(3)),
        "put_byte" => heap.put_byte(first, second, (call.number(3) % 256) as u8),
        "scope_put" => heap.scope_put(first, second, call.value(3)),
        _ => (),
    }
    nothing(alloc)
}

// What a heap has of an object: its class, its room, its slots and one behind them, its bytes and
// one behind them, whether it is a literal, and its block.
fn object_text<H: Heap>(alloc: Global, heap: &H, object: u32) -> Result<String, OutOfMemory> {
    let mut out = format!(in alloc; "{} {} [", heap.class_of(object), heap.capacity(object))?;
    for slot in 0..heap.length(object) {
        write!(out, "{:?} ", heap.get(object, slot))?;
    }
    write!(out, "{:?}] [", heap.get(object, heap.length(object)))?;
    for index in 0..heap.byte_length(object) {
        write!(out, "{} ", heap.get_byte(object, index))?;
    }
    write!(out, "{}] ", heap.get_byte(object, heap.byte_length(object)))?;
    write!(
        out,
        "{} {:?}",
        heap.is_literal(object),
        heap.closure(object)
    )?;
    Ok(out)
}

// What a heap has of a scope: its code, its outer scope, its variables and one behind them.
fn scope_text<H: Heap>(alloc: Global, heap: &H, scope: u32) -> Result<String, OutOfMemory> {
    let mut out = format!(in alloc;
        "{} {:?} [",
        heap.scope_code(scope),
        heap.scope_outer(scope)
    )?;
    for index in 0..heap.scope_size(scope) {
        write!(out, "{:?} ", heap.scope_get(scope, index))?;
    }
    write!(out, "{:?}]", heap.scope_get(scope, heap.scope_size(scope)))?;
    Ok(out)
}
