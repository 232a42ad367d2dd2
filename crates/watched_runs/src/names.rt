// Events and endings in words.

use itoa::Buffer;
use st_contexts::Event;
use st_machine::{Ending, Progress};
use std::alloc::AllocError;

// What an event is called.
fn word_of(event: Event) -> &'static str {
    match event {
        Event::Protect(_) => "protect",
        Event::Ensure(_) => "ensure",
        Event::Curtail(_) => "curtail",
        Event::Signal(_) => "signal",
        Event::Outer(_) => "outer",
        Event::Search(_) => "search",
        Event::Tried { .. } => "tried",
        Event::Handle { .. } => "handle",
        Event::Default(_) => "default",
        Event::Known => "known",
        Event::Action(_) => "action",
        Event::Again(_) => "again",
        Event::Ask { .. } => "ask",
        Event::End { cut: false, .. } => "end",
        Event::End { cut: true, .. } => "cut",
    }
}

// The first activation that it happens to.
fn number_of(event: Event) -> Option<u64> {
    match event {
        Event::Protect(number) | Event::Ensure(number) | Event::Curtail(number) => Some(number),
        Event::Signal(number) | Event::Outer(number) | Event::Search(number) => Some(number),
        Event::Default(number) | Event::Action(number) | Event::Again(number) => Some(number),
        Event::Tried { entry, .. } => Some(entry),
        Event::Handle { turn, .. } => Some(turn),
        Event::Ask { wait, .. } => Some(wait),
        Event::End { number, .. } => Some(number),
        Event::Known => None,
    }
}

// The entry that a turn or a question is of.
fn entry_of(event: Event) -> Option<u64> {
    match event {
        Event::Handle { entry, .. } | Event::Ask { entry, .. } => Some(entry),
        _ => None,
    }
}

// What a search found of an entry.
fn verdict_of(event: Event) -> &'static str {
    match event {
        Event::Tried { fits: true, .. } => " yes",
        Event::Tried { fits: false, .. } => " no",
        _ => "",
    }
}

fn put_number(line: &mut String, number: Option<u64>) -> Result<(), AllocError> {
    if let Some(number) = number {
        let mut buffer = Buffer::new();
        line.push_str(" ")?;
        line.push_str(buffer.format(number))?;
    }
    Ok(())
}

/// Puts an event behind a line, and a comma.
pub fn put_event(line: &mut String, event: Event) -> Result<(), AllocError> {
    line.push_str(word_of(event))?;
    put_number(line, number_of(event))?;
    put_number(line, entry_of(event))?;
    line.push_str(verdict_of(event))?;
    line.push_str(", ")
}

// How a run ended, in words.
fn name_of_ending(ending: Ending) -> &'static str {
    match ending {
        Ending::Done => "stop done",
        Ending::Unhandled { .. } => "stop unhandled",
        Ending::Steps => "stop steps",
        Ending::Depth => "stop depth",
        Ending::Cells => "stop cells",
        Ending::Integer => "stop integer",
        Ending::Stranded => "stranded",
    }
}

/// How far a run has come, in words.
pub fn name_of(progress: Progress) -> &'static str {
    match progress {
        Progress::Ended(ending) => name_of_ending(ending),
        Progress::Running => "running",
        Progress::WriteFault => "write fault",
    }
}
