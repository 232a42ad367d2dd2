// What some messages reply to a machine, and how loops are numbered and refused.

use crate::call::Call;
use crate::messages::{number_named, row_named};
use crate::part::{Part, nothing};
use object_heap::{ListHeap, Trouble};
use st_base::OutOfMemory;
use st_loops::{LoopKind, first_trouble, loop_kind};
use st_messages::{MessageRow, Reply, boolean_message, loop_reply, transcript_message};
use std::alloc::Global;

/// Messages to Booleans and the Transcript, and loops.
#[derive(Drop)]
pub struct Replies {
    heap: ListHeap,
}

impl Replies {
    pub fn new(alloc: Global) -> Result<Replies, OutOfMemory> {
        Ok(Replies {
            heap: ListHeap::new(alloc, 1)?,
        })
    }

    fn reply(&self, alloc: Global, call: &Call<'_>) -> Result<Option<Reply>, OutOfMemory> {
        let arguments = call.values(alloc, 3)?;
        let receiver = call.value(2);
        match row_named(call) {
            Some(MessageRow::Boolean(message)) => {
                Ok(Some(boolean_message(message, receiver, &arguments)))
            }
            Some(MessageRow::Transcript(message)) => {
                Ok(Some(transcript_message(&self.heap, message, receiver, &arguments)))
            }
            Some(MessageRow::Loop(kind)) => Ok(Some(loop_reply(kind, receiver, &arguments))),
            _ => Ok(None),
        }
    }
}

impl Part for Replies {
    fn answer(&mut self, alloc: Global, call: &Call<'_>) -> Result<String, OutOfMemory> {
        match call.word(0) {
            "loop_kind" => {
                let number = (call.number(1) % 65_536) as u16;
                Ok(format!(in alloc; "{:?}", loop_kind(number))?)
            }
            "first_trouble" => Ok(format!(in alloc; "{:?}", trouble_of(alloc, call)?)?),
            "text" => text_of(alloc, call),
            _ => match self.reply(alloc, call)? {
                Some(reply) => Ok(format!(in alloc; "{reply:?}")?),
                None => nothing(alloc),
            },
        }
    }
}

// What is judged before a loop begins.
fn trouble_of(alloc: Global, call: &Call<'_>) -> Result<Option<Trouble>, OutOfMemory> {
    let arguments = call.values(alloc, 3)?;
    match number_named(call.word(1), call.word(2)) {
        Some(number) => Ok(first_trouble(kind_of(number), &arguments)),
        None => Ok(None),
    }
}

fn kind_of(number: u16) -> LoopKind {
    match loop_kind(number) {
        Some(kind) => kind,
        None => LoopKind::Do,
    }
}

// The text of a trouble, and its place among all.
fn text_of(alloc: Global, call: &Call<'_>) -> Result<String, OutOfMemory> {
    let trouble = match call.word(1) {
        "WrongNumberOfArguments" => Trouble::WrongNumberOfArguments,
        "SubclassResponsibility" => Trouble::SubclassResponsibility,
        _ => Trouble::ZeroDivide,
    };
    let text = String::from_utf8_lossy(alloc, trouble.text())?;
    Ok(format!(in alloc; "{text}, {} of {}", trouble.place(), Trouble::COUNT)?)
}
