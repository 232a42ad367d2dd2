// Opening a machine.
ghost use Rattle.std.specs.Prelude.{◌≡◌, map, IfOk};
ghost use Rattle.st_code.specs.Compiled.{compile_of, seen_code};
ghost use Rattle.st_machine.specs.Plans.{plan_of, program_from};
ghost use Rattle.st_machine.specs.Steps.{first_seen};
ghost use Rattle.st_opening.specs.Opened.{are_counted, are_few, HasRoom, HaveFew, opened_seen};

use cell_heap::CellHeap;
use program_image::build;
use st_base::{Limits, OutOfMemory};
use st_code::Code;
use st_compiler::{Loaded as Compiled, compile};
use st_literals::literal_heap;
use st_machine::{Loaded, Machine};
use st_messages::arity_of;
use st_names::Names;
use st_tree::units::Definition;
use std::alloc::Global;

/// A code has fewer instructions than these, 2^22.
const TOO_MANY_INSTRUCTIONS: usize = 4194304;

/// A machine at the beginning of a program's run. It takes the definition whole, and all memory
/// that the run will need. Limits that memory can't hold count as want of memory, and so do a body
/// of 2^22 instructions or more and a selector of 2^32 - 1 arguments or more.
pub fn open(
    alloc: Global,
    definition: Definition,
    limits: Limits,
) -> Result<Machine<CellHeap>, OutOfMemory>
    ensures opened { IfOk result (λ machine. machine ≡ opened_seen definition.units limits) }
    ensures few { IfOk result (λ _. HaveFew (compile_of (program_from definition.units limits))) }
    ensures room { IfOk result (λ _. HasRoom (plan_of definition.units limits)) }
{
    let program = compile(alloc, build(alloc, definition)?)?;
    open_compiled(alloc, program, limits)
}

// A machine for a compiled program.
fn open_compiled(
    alloc: Global,
    program: Compiled,
    limits: Limits,
) -> Result<Machine<CellHeap>, OutOfMemory>
    ensures opened { IfOk result (λ machine. machine ≡ opened_seen program limits) }
    ensures few { IfOk result (λ _. HaveFew (compile_of (program_from program limits))) }
    ensures room { IfOk result (λ _. HasRoom (plan_of program limits)) }
{
    if !are_few(program.codes()) {
        drop(program);
        return Err(OutOfMemory);
    }
    let Ok(heap) = literal_heap(alloc, program.image(), limits.cells) else {
        drop(program);
        return Err(OutOfMemory);
    };
    open_over(alloc, program, limits, heap)
}

// A machine for a compiled program over a heap.
fn open_over(
    alloc: Global,
    program: Compiled,
    limits: Limits,
    heap: CellHeap,
) -> Result<Machine<CellHeap>, OutOfMemory>
    ensures opened { IfOk result (λ machine. machine ≡ first_seen (plan_of program limits) heap.memory) }
    ensures room { IfOk result (λ _. HasRoom (plan_of program limits)) }
{
    let Ok(loaded) = Loaded::new(alloc, program, limits) else {
        drop(heap);
        return Err(OutOfMemory);
    };
    open_loaded(alloc, loaded, heap)
}

// A machine for a loaded program over a heap.
fn open_loaded(
    alloc: Global,
    loaded: Loaded,
    heap: CellHeap,
) -> Result<Machine<CellHeap>, OutOfMemory>
    ensures opened { IfOk result (λ machine. machine ≡ first_seen loaded heap.memory) }
    ensures room { IfOk result (λ _. HasRoom loaded) }
{
    if !are_counted(loaded.names()) {
        drop(loaded);
        drop(heap);
        return Err(OutOfMemory);
    }
    Machine::open(alloc, loaded, heap)
}

// Whether each code has fewer than 2^22 instructions.
fn are_few(codes: &[Code]) -> bool
    ensures { result ≡ are_few (map seen_code codes.now) }
{
    for code in codes {
        if code.instructions.len() >= TOO_MANY_INSTRUCTIONS {
            return false;
        }
    }
    true
}

// Whether each selector takes fewer than 2^32 - 1 arguments.
fn are_counted(names: &Names) -> bool
    ensures { result ≡ are_counted names.now }
{
    for name in 0..names.len() {
        if arity_of(names.text(name)) >= u32::MAX as usize {
            return false;
        }
    }
    true
}
