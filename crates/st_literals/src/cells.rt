// How many cells the objects of literals take.
ghost use Rattle.std.specs.Prelude.{◌≡◌, ◌+◌, ◌≤◌, ◌^◌, length, map, IfOk};
ghost use Rattle.st_base.specs.Troubles.{trouble_texts};
ghost use Rattle.st_code.specs.Written.{named_literal};
ghost use Rattle.st_literals.specs.Gathered.{seen_literals};
ghost use Rattle.st_literals.specs.Cells as cells;

use object_heap::charge_of;
use st_base::OutOfMemory;
use st_tree::tree::Literal;

/// The most cells of literals, as many as objects can be numbered before a run.
const MOST: u64 = 2147483648;

/// A count as a number of 32 bits. A greater one counts as want of memory.
pub(crate) fn narrow(count: usize) -> Result<u32, OutOfMemory>
    ensures { IfOk result (λ n. n ≡ count) }
{
    if count > u32::MAX as usize {
        return Err(OutOfMemory);
    }
    Ok(count as u32)
}

/// So many cells more. More than 2^31 count as want of memory.
pub(crate) fn more(count: u32, charge: u64) -> Result<u32, OutOfMemory>
    ensures sum { IfOk result (λ n. n ≡ count + charge) }
    ensures few { IfOk result (λ n. n ≤ 2 ^ 31) }
{
    if charge > MOST {
        return Err(OutOfMemory);
    }
    let all = count as u64 + charge;
    if all > MOST {
        return Err(OutOfMemory);
    }
    Ok(all as u32)
}

fn text_cells(text: &[u8]) -> Result<u32, OutOfMemory>
    ensures { IfOk result (λ n. n ≡ cells.text_cells text.now) }
{
    more(0, charge_of(0, narrow(text.len())?))
}

// The cells of a literal. It recurses as deep as the literal nests.
fn literal_cells(literal: &Literal) -> Result<u32, OutOfMemory>
    ensures { IfOk result (λ n. n ≡ cells.literal_cells (named_literal literal.now)) }
{
    match literal {
        Literal::Str(text) => text_cells(text.as_bytes()),
        Literal::Array(items) => {
            let mut count = more(0, charge_of(narrow(items.len())?, 0))?;
            for item in items.as_slice() {
                count = more(count, literal_cells(item)? as u64)?;
            }
            Ok(count)
        }
        Literal::Nil => Ok(0),
        Literal::True => Ok(0),
        Literal::False => Ok(0),
        Literal::Integer(_) => Ok(0),
        Literal::Character(_) => Ok(0),
        Literal::Symbol(_) => Ok(0),
    }
}

/// The cells of literals.
pub(crate) fn cells_of(literals: &[&Literal]) -> Result<u32, OutOfMemory>
    ensures { IfOk result (λ n. n ≡ cells.cells_of (seen_literals literals.now)) }
{
    let mut count = 0;
    for literal in literals {
        count = more(count, literal_cells(literal)? as u64)?;
    }
    Ok(count)
}

/// The cells of the texts of troubles.
pub(crate) fn trouble_cells() -> u64
    ensures { result ≡ cells.texts_cells trouble_texts }
{
    62
}
