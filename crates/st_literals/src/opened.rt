// A heap that holds the literals of a program.
ghost use Rattle.std.specs.Prelude.{◌≡◌, IfOk};
ghost use Rattle.st_code.specs.Definitions.{RunLimits};
ghost use Rattle.program_image.specs.Finding.{program_of_image};
ghost use Rattle.st_literals.specs.Numbered.{first_memory};

use crate::cells::{cells_of, more, trouble_cells};
use crate::gather::literals_of;
use crate::make::{make_all, make_troubles};
use cell_heap::CellHeap;
use program_image::Image;
use st_base::OutOfMemory;
use std::alloc::Global;

const MOST_CELLS: u32 = 67108864;

/// A heap of so many cells that holds the literals of a program and behind them the texts of
/// troubles, which take none of the cells. All memory is taken here. More than 67,108,864 cells, or
/// literals of more than 2^31 cells, count as want of memory.
pub fn literal_heap(alloc: Global, image: &Image, cells: u32) -> Result<CellHeap, OutOfMemory>
    ensures { (limits : RunLimits) → limits.cells ≡ cells → IfOk result (λ heap. heap.memory ≡ first_memory (program_of_image image.now limits)) }
{
    if cells > MOST_CELLS {
        return Err(OutOfMemory);
    }
    let literals = literals_of(alloc, image.definition().units.as_slice())?;
    let room = more(cells_of(literals.as_slice())?, trouble_cells())?;
    let mut heap = CellHeap::new(alloc, cells, room)?;
    make_all(&mut heap, image.names(), literals.as_slice())?;
    make_troubles(&mut heap)?;
    Ok(heap)
}
