// What the image of a program answers, and searches for handlers in it.

use crate::call::Call;
use crate::heaps::{definition_of, heap_answer};
use crate::part::{Part, Row, nothing};
use crate::stacks::stack_answer;
use object_heap::ListHeap;
use program_image::{Found, Image, SharedVariable, Side, build};
use signal_env::{find_handler, fits, found_for};
use st_base::{OutOfMemory, built_in_messages};
use st_contexts::{Contexts, Env};
use std::alloc::Global;

/// The image of a program, a plain heap, and a stack.
#[derive(Drop)]
pub struct Program {
    image: Image,
    heap: ListHeap,
    contexts: Contexts,
}

impl Program {
    pub fn new(alloc: Global, row: &Row) -> Result<Program, OutOfMemory> {
        Ok(Program {
            image: build(alloc, definition_of(alloc, row)?)?,
            heap: ListHeap::new(alloc, row.cells())?,
            contexts: Contexts::new(alloc, row.limit(1), 0)?,
        })
    }

    // What the image alone answers.
    fn of_image(&self, alloc: Global, call: &Call<'_>) -> Result<String, OutOfMemory> {
        let image = &self.image;
        match call.word(0) {
            "class_number" => Ok(format!(in alloc; "{:?}", class_at(image, call, 1))?),
            "inherits" => Ok(format!(in alloc; "{:?}", inherits(image, call))?),
            "lookup" => found_text(alloc, looked_up(image, call)),
            "class" => class_text(alloc, image, call),
            "shared" => shared_text(alloc, image, call),
            "name" => Ok(format!(in alloc; "{:?}", image.names().find(call.word(1).as_bytes()))?),
            "counts" => {
                let shared = image.shared().len();
                let units = image.definition().units.len();
                Ok(format!(in alloc;
                    "{} {} {shared} {units}",
                    image.names().len(),
                    image.class_count()
                )?)
            }
            _ => nothing(alloc),
        }
    }

    // What a receiver finds for a selector.
    fn found(&self, alloc: Global, call: &Call<'_>) -> Result<String, OutOfMemory> {
        let found = match self.image.names().find(call.word(2).as_bytes()) {
            Some(selector) => found_for(&self.image, &self.heap, call.value(1), selector),
            None => None,
        };
        found_text(alloc, found)
    }
}

impl Part for Program {
    fn answer(&mut self, alloc: Global, call: &Call<'_>) -> Result<String, OutOfMemory> {
        match call.word(0) {
            "found_for" => self.found(alloc, call),
            "fits" => {
                let answer = fits(&self.heap, &self.image, call.value(1), call.number(2));
                Ok(format!(in alloc; "{answer}")?)
            }
            "find_handler" => {
                let env = Env(call.activation(1));
                let class = call.number(2);
                let search = find_handler(&self.contexts, &self.heap, &self.image, env, class);
                Ok(format!(in alloc; "{search:?}")?)
            }
            "push" => stack_answer(alloc, &mut self.contexts, call),
            "make" | "put" => heap_answer(alloc, &mut self.heap, call),
            _ => self.of_image(alloc, call),
        }
    }
}

// The number of the class that a word names.
fn class_at(image: &Image, call: &Call<'_>, at: usize) -> Option<u32> {
    image.class_number(call.word(at).as_bytes())
}

fn inherits(image: &Image, call: &Call<'_>) -> Option<bool> {
    let class = class_at(image, call, 1)?;
    let ancestor = class_at(image, call, 2)?;
    Some(image.inherits(class, ancestor))
}

// What is found on a side of a class for a selector.
fn looked_up(image: &Image, call: &Call<'_>) -> Option<Found> {
    let side = match call.word(1) {
        "Class" => Side::Class,
        "Meta" => Side::Meta,
        _ => Side::Instance,
    };
    let class = class_at(image, call, 2)?;
    image.lookup(side, class, image.names().find(call.word(3).as_bytes())?)
}

// A method by the place of its unit, or a built-in message by its class and selector.
fn found_text(alloc: Global, found: Option<Found>) -> Result<String, OutOfMemory> {
    match found {
        Some(Found::User(unit)) => Ok(format!(in alloc; "unit {unit}")?),
        Some(Found::BuiltIn(number)) => match built_in_messages().get(number as usize) {
            Some(message) => {
                Ok(format!(in alloc; "{} of {}", message.selector(), message.class())?)
            }
            None => nothing(alloc),
        },
        None => Ok(String::from_str(alloc, "none")?),
    }
}

// A class by its number: its slots, the place of its class instance variables, how many names there
// are of each, its superclass and whether it is in the file.
fn class_text(alloc: Global, image: &Image, call: &Call<'_>) -> Result<String, OutOfMemory> {
    match image.classes().get(call.number(1) as usize) {
        Some(class) => Ok(format!(in alloc;
            "{} {} {} {} {:?} {}",
            class.slots,
            class.class_slots,
            class.instance_names.len(),
            class.class_instance_names.len(),
            class.superclass,
            class.in_file
        )?),
        None => nothing(alloc),
    }
}

// What a variable of the program is declared as.
fn shared_text(alloc: Global, image: &Image, call: &Call<'_>) -> Result<String, OutOfMemory> {
    match image.shared().get(call.number(1) as usize) {
        Some(SharedVariable::OfClassInstance { class, name }) => {
            let name = String::from_utf8_lossy(alloc, name.as_bytes())?;
            Ok(format!(in alloc; "{name} of each {class}")?)
        }
        Some(SharedVariable::OfClass { class, name }) => {
            let name = String::from_utf8_lossy(alloc, name.as_bytes())?;
            Ok(format!(in alloc; "{name} of {class}")?)
        }
        Some(SharedVariable::Global(name)) => {
            Ok(format!(in alloc; "{}", String::from_utf8_lossy(alloc, name.as_bytes())?)?)
        }
        _ => nothing(alloc),
    }
}
