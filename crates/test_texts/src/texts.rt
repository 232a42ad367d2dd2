// Tokens of texts, and what stands in the way of their trees.

use st_base::{OutOfMemory, Text};
use st_lexer::tokens;
use st_parser::{ParseStop, body, method};
use std::alloc::Global;
use std::fmt::Write;

// How many bytes an element of a file may have.
const MOST: usize = 1_048_576;

fn too_long(alloc: Global) -> Result<String, OutOfMemory> {
    Ok(String::from_str(alloc, "too long")?)
}

/// The tokens of a text, with their first bytes and those behind their last, and its fault.
pub fn lexed(alloc: Global, text: &[u8]) -> Result<String, OutOfMemory> {
    if text.len() > MOST {
        return too_long(alloc);
    }
    let lexed = tokens(alloc, text)?;
    let mut out = String::new(alloc);
    for token in &lexed.tokens {
        write!(out, "{:?} {} {}, ", token.kind, token.start, token.end)?;
    }
    if let Some(fault) = lexed.fault {
        write!(out, "{:?} at {}", fault.reason, fault.byte)?;
    }
    Ok(out)
}

// Whether there is a tree, or where and why there is none.
fn told<T: Drop>(alloc: Global, tree: Result<T, ParseStop>) -> Result<String, OutOfMemory> {
    match tree {
        Ok(_) => Ok(String::from_str(alloc, "a tree")?),
        Err(ParseStop::Fault(byte, reason)) => Ok(format!(in alloc; "{reason:?} at {byte}")?),
        Err(ParseStop::OutOfMemory) => Err(OutOfMemory),
    }
}

/// Whether a text is a body.
pub fn parsed_body(alloc: Global, text: &[u8]) -> Result<String, OutOfMemory> {
    if text.len() > MOST {
        return too_long(alloc);
    }
    let lexed = tokens(alloc, text)?;
    told(alloc, body(alloc, text, &lexed))
}

/// Whether a text is a method.
pub fn parsed_method(alloc: Global, text: &[u8]) -> Result<String, OutOfMemory> {
    if text.len() > MOST {
        return too_long(alloc);
    }
    let lexed = tokens(alloc, text)?;
    told(alloc, method(alloc, text, &lexed))
}

/// The bytes of a text that is kept and copied.
pub fn copied(alloc: Global, bytes: &[u8]) -> Result<String, OutOfMemory> {
    let copy = Text::from_bytes(alloc, bytes)?.copy()?;
    Ok(format!(in alloc; "{}", String::from_utf8_lossy(alloc, copy.as_bytes())?)?)
}
