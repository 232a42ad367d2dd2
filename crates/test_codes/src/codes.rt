// The codes of a text, with names in place of their numbers.

use program_image::{Image, build};
use sif_elements::reading::{ReadAnswer, read_definition};
use st_base::{MemorySource, OutOfMemory};
use st_code::{Code, Constant, Instruction};
use st_compiler::{Loaded, compile};
use std::alloc::Global;
use std::fmt::Write;

/// The program of a file, compiled. None where the file can't be read.
pub fn loaded(alloc: Global, text: &[u8]) -> Result<Option<Loaded>, OutOfMemory> {
    let bytes = Vec::from_slice(alloc, text)?;
    let mut source = MemorySource::new(bytes, Vec::new(alloc), Vec::new(alloc));
    match read_definition(alloc, &mut source) {
        ReadAnswer::Read(definition) => Ok(Some(compile(alloc, build(alloc, definition)?)?)),
        _ => Ok(None),
    }
}

// A selector or symbol by its number.
fn name_text(alloc: Global, image: &Image, name: u32) -> Result<String, OutOfMemory> {
    if name >= image.names().len() {
        return Ok(String::new(alloc));
    }
    let text = String::from_utf8_lossy(alloc, image.names().text(name))?;
    Ok(format!(in alloc; "{text}")?)
}

fn class_text(alloc: Global, image: &Image, class: u32) -> Result<String, OutOfMemory> {
    let name = String::from_utf8_lossy(alloc, image.class_name(class))?;
    Ok(format!(in alloc; "Class {name}")?)
}

// An instruction, which names its selector, symbol or class.
fn step_text(alloc: Global, image: &Image, step: Instruction) -> Result<String, OutOfMemory> {
    match step {
        Instruction::Send { selector, count } => {
            let name = name_text(alloc, image, selector)?;
            Ok(format!(in alloc; "Send {name} {count}")?)
        }
        Instruction::SuperSend { selector, count } => {
            let name = name_text(alloc, image, selector)?;
            Ok(format!(in alloc; "SuperSend {name} {count}")?)
        }
        Instruction::PushConstant(Constant::Symbol(symbol)) => {
            let name = name_text(alloc, image, symbol)?;
            Ok(format!(in alloc; "Symbol {name}")?)
        }
        Instruction::PushConstant(Constant::Class(class)) => class_text(alloc, image, class),
        _ => Ok(format!(in alloc; "{step:?}")?),
    }
}

/// A code: what it is the code of, its width and its instructions.
pub fn code_text(alloc: Global, image: &Image, code: &Code) -> Result<String, OutOfMemory> {
    let mut out = format!(in alloc; "{:?} {}:", code.kind, code.width)?;
    for step in &code.instructions {
        write!(out, " {};", step_text(alloc, image, *step)?)?;
    }
    Ok(out)
}

/// The numbers of the units' codes, and how many initializers and literals there are.
pub fn facts_text(alloc: Global, loaded: &Loaded) -> Result<String, OutOfMemory> {
    let units = loaded.unit_codes();
    let initializers = loaded.initializers().len();
    let literals = loaded.literals();
    Ok(format!(in alloc; "units {units:?} initializers {initializers} literals {literals}")?)
}
