// Elements of files, and files that are read whole.
ghost use Rattle.std.specs.Prelude.{◌<◌, ◌-◌, ◌^◌};
ghost use Rattle.st_tree.specs.Numbers.{elements_in};

use crate::rows::Case;
use sif_chunks::ChunkReader;
use sif_elements::reading::{ReadAnswer, read_definition};
use st_answers::listing;
use st_base::OutOfMemory;
use st_tree::tree::Statement;
use st_tree::units::{Definition, Unit, UnitKind};
use std::alloc::Global;
use std::fmt::Write;

// How long a text is that is shown.
const SHOWN: usize = 100;

/// What a reader answers call by call, with the place and the text that it has then.
pub fn elements(alloc: Global, case: &Case) -> Result<String, OutOfMemory> {
    let mut source = case.source(alloc)?;
    let mut reader = ChunkReader::new(alloc)?;
    let mut out = String::new(alloc);
    for _ in 0..case.calls {
        let next = reader.next(&mut source);
        let place = reader.place();
        write!(out, "{next:?} {} {}", place.element, place.byte)?;
        if reader.text().len() <= SHOWN {
            write!(out, " {}", String::from_utf8_lossy(alloc, reader.text())?)?;
        }
        out.push_str("; ")?;
    }
    Ok(out)
}

// The number of each unit's first element, of a program and of its copy.
fn numbers(alloc: Global, definition: &Definition) -> Result<String, OutOfMemory>
    requires { elements_in definition.now.units < 2 ^ 32 - 1 }
{
    let copy = definition.copy()?;
    let lines = listing(alloc, copy.units.as_slice())?;
    let mut out = String::new(alloc);
    for at in 0..copy.units.len() {
        write!(out, "{} ", copy.element_of(at))?;
    }
    write!(out, "{}", String::from_utf8_lossy(alloc, &lines)?)?;
    Ok(out)
}

/// What reading a file answers, with the units of a copy of its program.
pub fn read(alloc: Global, case: &Case) -> Result<String, OutOfMemory> {
    let mut source = case.source(alloc)?;
    match read_definition(alloc, &mut source) {
        ReadAnswer::Read(definition) => numbers(alloc, &definition),
        ReadAnswer::Refused(place, reason) => {
            Ok(format!(in alloc; "{reason:?} at {} {}", place.element, place.byte)?)
        }
        ReadAnswer::ReadFault => Ok(format!(in alloc; "{} read faults", source.faults())?),
        ReadAnswer::OutOfMemory => Err(OutOfMemory),
    }
}

// The place of the first message in the first statement of a method.
fn first_message(unit: &Unit) -> Option<u32> {
    let UnitKind::Method { method, .. } = &unit.kind else {
        return None;
    };
    let Some(Statement::Value(expr)) = method.body.statements.get(0) else {
        return None;
    };
    match expr.operand.chain.get(0) {
        Some(message) => Some(message.at),
        None => None,
    }
}

/// The places of each unit's first message, in a copy of a file's program.
pub fn places(alloc: Global, case: &Case) -> Result<String, OutOfMemory> {
    let mut source = case.source(alloc)?;
    let mut out = String::new(alloc);
    let ReadAnswer::Read(definition) = read_definition(alloc, &mut source) else {
        return Ok(out);
    };
    let copy = definition.copy()?;
    for unit in copy.units.as_slice() {
        write!(out, "{:?} ", first_message(unit))?;
    }
    Ok(out)
}
