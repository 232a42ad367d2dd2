// What messages to characters, strings and collections answer, and loops over them.
ghost use Rattle.std.specs.Prelude.{◌≡◌};
ghost use Rattle.st_collections.specs.Actions.{first};

use crate::call::Call;
use crate::heaps::heap_answer;
use crate::loops::run;
use crate::messages::row_named;
use crate::part::{Part, Row, nothing};
use object_heap::{ListHeap, Value};
use st_base::OutOfMemory;
use st_collections::{
    Built, CollectionMessage, OfMaking, collection_message, is_measured, is_receiver,
};
use st_loops::LoopKind;
use st_messages::{MessageRow, OfMaker};
use st_names::Names;
use std::alloc::Global;

/// A plain heap, and the names of symbols.
#[derive(Drop)]
pub struct Collections {
    heap: ListHeap,
    names: Names,
}

impl Collections {
    pub fn new(alloc: Global, row: &Row) -> Result<Collections, OutOfMemory> {
        Ok(Collections {
            heap: ListHeap::new(alloc, row.cells())?,
            names: Names::new(alloc),
        })
    }

    // The number of a name, which is new or was there.
    fn number_of(&mut self, name: &str) -> Result<u32, OutOfMemory> {
        if self.names.len() == u32::MAX {
            return Err(OutOfMemory);
        }
        self.names.intern(name.as_bytes())
    }

    // What a message answers.
    fn built(
        &mut self,
        alloc: Global,
        message: CollectionMessage,
        call: &Call<'_>,
    ) -> Result<String, OutOfMemory> {
        let arguments = call.values(alloc, 3)?;
        let heap = &mut self.heap;
        match asked(heap, &self.names, message, call.value(2), &arguments) {
            Some(built) => Ok(format!(in alloc; "{built:?}")?),
            None => nothing(alloc),
        }
    }

    // What a loop comes to once all values came back to it.
    fn looped(
        &mut self,
        alloc: Global,
        kind: LoopKind,
        call: &Call<'_>,
    ) -> Result<String, OutOfMemory> {
        let arguments = call.values(alloc, 3)?;
        let given = call.given(alloc)?;
        let heap = &mut self.heap;
        match run(heap, &self.names, kind, call.value(2), &arguments, &given) {
            Some(step) => Ok(format!(in alloc; "{step:?}")?),
            None => nothing(alloc),
        }
    }
}

impl Part for Collections {
    fn answer(&mut self, alloc: Global, call: &Call<'_>) -> Result<String, OutOfMemory> {
        if call.word(0) == "intern" {
            return Ok(format!(in alloc; "{}", self.number_of(call.word(1))?)?);
        }
        match row_named(call) {
            Some(MessageRow::Loop(kind)) => self.looped(alloc, kind, call),
            Some(row) => match collection_row(row) {
                Some(message) => self.built(alloc, message, call),
                None => nothing(alloc),
            },
            None => heap_answer(alloc, &mut self.heap, call),
        }
    }
}

fn making_of(message: OfMaker) -> OfMaking {
    match message {
        OfMaker::Array => OfMaking::Array,
        OfMaker::ByteArray => OfMaking::ByteArray,
        OfMaker::With => OfMaking::With,
        OfMaker::WithAll => OfMaking::WithAll,
        OfMaker::Empty => OfMaking::Empty,
        OfMaker::KeyValue => OfMaking::KeyValue,
        OfMaker::Arrow => OfMaking::Arrow,
        OfMaker::To => OfMaking::To,
        OfMaker::ToBy => OfMaking::ToBy,
    }
}

// A row of the table as a message of collections.
fn collection_row(row: MessageRow) -> Option<CollectionMessage> {
    match row {
        MessageRow::Character(m) => Some(CollectionMessage::Character(m)),
        MessageRow::String(m) => Some(CollectionMessage::String(m)),
        MessageRow::Sequence(m) => Some(CollectionMessage::Sequence(m)),
        MessageRow::Maker(m) => Some(CollectionMessage::Making(making_of(m))),
        MessageRow::Ordered(m) => Some(CollectionMessage::Ordered(m)),
        MessageRow::Pair(m) => Some(CollectionMessage::Pair(m)),
        _ => None,
    }
}

fn first_of(arguments: &[Value]) -> Value
    ensures { result ≡ first arguments.now }
{
    match arguments {
        [value, ..] => *value,
        [] => Value::Nil,
    }
}

// The answer, where no Interval is too long and no literal is an OrderedCollection.
fn asked(
    heap: &mut ListHeap,
    names: &Names,
    message: CollectionMessage,
    receiver: Value,
    arguments: &[Value],
) -> Option<Built> {
    if !is_measured(heap, receiver) || !is_receiver(heap, message, receiver) {
        return None;
    }
    if !is_measured(heap, first_of(arguments)) {
        return None;
    }
    Some(collection_message(heap, names, message, receiver, arguments))
}
