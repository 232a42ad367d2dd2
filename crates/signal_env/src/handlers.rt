// The search for the handler of an exception.
ghost use Rattle.std.specs.Prelude.{◌≡◌, ◌<◌, length, codes};
ghost use Rattle.st_code.specs.Program.{number_of};
ghost use Rattle.st_code.specs.Lookup as code;
ghost use Rattle.object_heap.specs.Store.{object_at};
ghost use Rattle.program_image.specs.Images.{image_names, image_program};
ghost use Rattle.st_contexts.specs.Stack.{env_in};
ghost use Rattle.signal_env.specs.Searches.{class_fits, some_fits, search_in};

use crate::lookups::{found_for, selector_number};
use object_heap::{Heap, Value};
use program_image::{Found, Image};
use st_contexts::{Contexts, Entry, Env};

/// What a search for a handler comes to.
#[derive(Clone, Copy, Debug, PartialEq, Eq)]
pub enum Search {
    /// The innermost entry that fits, where all entries inside it are plain.
    Found(Entry),
    /// All entries are plain, and none fits.
    Nobody,
    /// The innermost entry that isn't plain, where no entry inside it fits. It has to be sent
    /// `handles:`, and after a no the search goes on from its outside.
    Ask(Entry),
}

/// Searches an environment for the handler of an exception of this class, from the innermost entry
/// outwards (section 5.5). An entry is plain where its selector answers `handles:` by a built-in
/// message. Only entries are looked at.
pub fn find_handler<H: Heap>(
    contexts: &Contexts,
    heap: &H,
    image: &Image,
    env: Env,
    class: u32,
) -> Search
    ensures { result ≡ search_in (image_program image.now) (H.meaning heap.now).store class (env_in contexts.now.acts env.0) }
{
    let handles = selector_number(image, b"handles:");
    let mut link = env;
    while let Some(entry) = contexts.entry(link) {
        if !is_plain(heap, image, handles, entry.selector) {
            return Search::Ask(entry);
        }
        if fits(heap, image, entry.selector, class) {
            return Search::Found(entry);
        }
        if entry.outside.0 >= entry.protect {
            return Search::Nobody;
        }
        link = entry.outside;
    }
    Search::Nobody
}

/// Whether a selector of `on:do:` answers `handles:` by a built-in message. `handles` is the number
/// of that selector.
pub fn is_plain<H: Heap>(heap: &H, image: &Image, handles: u32, selector: Value) -> bool
    requires { handles ≡ number_of (image_program image.now) (codes "handles:") }
    ensures { result ≡ code.is_plain (image_program image.now) (H.meaning heap.now).store selector }
{
    match found_for(image, heap, selector, handles) {
        Some(Found::BuiltIn(_)) => true,
        Some(Found::User(_)) => false,
        None => false,
    }
}

/// Whether a plain selector is the class of an exception, one above it, or a set that has one.
#[tactic(auto, unfolding(st_code::specs::Lookup::fits))]
pub fn fits<H: Heap>(heap: &H, image: &Image, selector: Value, class: u32) -> bool
    ensures { result ≡ code.fits (image_program image.now) (H.meaning heap.now).store selector class }
{
    match selector {
        Value::Class(ancestor) => image.inherits(class, ancestor),
        Value::Object(set) => fits_some(heap, image, set, class),
        _ => false,
    }
}

// Whether a slot of an object is the class or one above it.
fn fits_some<H: Heap>(heap: &H, image: &Image, set: u32, class: u32) -> bool
    ensures { result ≡ some_fits (image_program image.now) class (object_at set (H.meaning heap.now).store).slots }
{
    for slot in 0..heap.length(set) {
        if fits_class(image, heap.get(set, slot), class) {
            return true;
        }
    }
    false
}

fn fits_class(image: &Image, value: Value, class: u32) -> bool
    ensures { result ≡ class_fits (image_program image.now) class value }
{
    match value {
        Value::Class(ancestor) => image.inherits(class, ancestor),
        _ => false,
    }
}
