// Sources and sinks in memory, which cut and fail.

use crate::rows::Case;
use sif_chunks::ChunkWriter;
use st_base::{MemorySink, OutOfMemory, Source, put_all};
use std::alloc::Global;
use std::fmt::Write;

/// What each call for four bytes takes, and how often the source failed.
pub fn taken(alloc: Global, case: &Case) -> Result<String, OutOfMemory> {
    let mut source = case.source(alloc)?;
    let mut out = String::new(alloc);
    for _ in 0..case.calls {
        let mut into = [0u8; 4];
        match source.take(&mut into) {
            Ok(count) if count <= 4 => {
                write!(out, "{} ", String::from_utf8_lossy(alloc, &into[..count])?)?;
            }
            _ => out.push_str("Failed ")?,
        }
    }
    write!(out, "{}", source.faults())?;
    Ok(out)
}

// What a sink has, and how often it failed.
fn told(alloc: Global, mut out: String, sink: &MemorySink) -> Result<String, OutOfMemory> {
    let written = String::from_utf8_lossy(alloc, sink.written())?;
    write!(out, "{:?} {}", written, sink.faults())?;
    Ok(out)
}

/// What comes of texts that are written one after the other.
pub fn put(alloc: Global, case: &Case) -> Result<String, OutOfMemory> {
    let mut sink = MemorySink::new(alloc, case.room, case.failing.clone()?)?;
    let mut out = String::new(alloc);
    for part in &case.parts {
        write!(out, "{:?} ", put_all(&mut sink, part.as_bytes()))?;
    }
    told(alloc, out, &sink)
}

/// What comes of elements that are written one after the other.
pub fn put_elements(alloc: Global, case: &Case) -> Result<String, OutOfMemory> {
    let mut sink = MemorySink::new(alloc, case.room, case.failing.clone()?)?;
    let mut out = String::new(alloc);
    for part in &case.parts {
        write!(out, "{:?} ", ChunkWriter::put(&mut sink, part.as_bytes()))?;
    }
    told(alloc, out, &sink)
}
