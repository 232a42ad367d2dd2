// Watched runs: reads a program a line, runs it with a watcher, and prints a line for each: what the
// run told about its handlers and termination blocks, and how it ended.
#![tactic(auto)]

mod names;
mod watcher;

use anyhow::Result;
use cell_heap::CellHeap;
use names::{name_of, put_event};
use sif_elements::reading::{ReadAnswer, read_definition};
use st_base::{Limits, MemorySink, MemorySource, OutOfMemory};
use st_checks::{CheckAnswer, check};
use st_contexts::Event;
use st_machine::{Machine, Progress};
use st_opening::open;
use st_tree::units::Definition;
use std::alloc::AllocError;
use std::io::{BufRead, BufReader};
use watcher::Watcher;

const LIMITS: Limits = Limits {
    steps: 10_000,
    depth: 1_000,
    cells: 10_000,
};

/// In calls of how many turns each run is made again.
const PIECES: [u64; 3] = [1, 7, 1_000];

/// How many bytes a program may write.
const ROOM: usize = 10_000;

// The program that a text is, where it is one.
fn definition_of(rt: &HostRuntime, text: &[u8]) -> Result<Option<Definition>> {
    let alloc = rt.alloc();
    let bytes = Vec::from_slice(alloc, text)?;
    let mut source = MemorySource::new(bytes, Vec::new(alloc), Vec::new(alloc));
    let ReadAnswer::Read(definition) = read_definition(alloc, &mut source) else {
        return Ok(None);
    };
    match check(alloc, definition) {
        CheckAnswer::Checked(checked) => Ok(Some(checked.into_definition())),
        _ => Ok(None),
    }
}

// A machine at the beginning of a program's run.
fn opened(
    rt: &HostRuntime,
    definition: Definition,
    limits: Limits,
) -> Result<Machine<CellHeap>, OutOfMemory> {
    open(rt.alloc(), definition, limits)
}

// Events, and how far a run has come, in one line.
fn line_of(rt: &HostRuntime, events: &[Event], progress: Progress) -> Result<String> {
    let mut line = String::new(rt.alloc());
    for event in events {
        put_event(&mut line, *event)?;
    }
    line.push_str(name_of(progress))?;
    Ok(line)
}

// The events of a run in calls of so many turns, and how it ended, in one line.
fn watch(rt: &HostRuntime, definition: Definition, turns: u64) -> Result<String> {
    let alloc = rt.alloc();
    let mut machine = opened(rt, definition, LIMITS).map_err(|_| AllocError)?;
    let mut out = MemorySink::new(alloc, ROOM, Vec::new(alloc)).map_err(|_| AllocError)?;
    let mut watcher = Watcher::new(alloc);
    let progress = watcher.watch(&mut machine, turns, &mut out);
    line_of(rt, watcher.events(), progress)
}

// What a run in calls of so many turns tells, where it is a run.
fn told(rt: &HostRuntime, text: &[u8], turns: u64) -> Result<String> {
    match definition_of(rt, text)? {
        Some(definition) => watch(rt, definition, turns),
        None => Ok(String::from_str(rt.alloc(), "no program")?),
    }
}

fn main(rt: HostRuntime) -> Result<()> {
    let alloc = rt.alloc();
    for line in BufReader::new(alloc, rt.reader())?.lines(alloc) {
        let text = line?;
        let whole = told(&rt, text.as_bytes(), u64::MAX)?;
        println!(rt; "{whole}")?;
        for turns in PIECES {
            let pieces = told(&rt, text.as_bytes(), turns)?;
            if pieces != whole {
                println!(rt; "in calls of {turns} turns: {pieces}")?;
            }
        }
    }
    Ok(())
}
