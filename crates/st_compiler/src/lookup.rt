// The image that is compiled, with the places of its variables, found by their keys.
ghost use Rattle.std.specs.Prelude.{◌≡◌, map, IfOk, OnOk};
ghost use Rattle.std.specs.Option.{option_map};
ghost use Rattle.st_code.specs.Resolved.{class_names_at, place_in};
ghost use Rattle.program_image.specs.Classes.{seen_variable};
ghost use Rattle.program_image.specs.Images.{image_names};
ghost use Rattle.st_compiler.specs.Around.{names_of_class, seen_key};
ghost use Rattle.st_compiler.specs.Shared.{keyed, HasPlaces, GainsPlace};

use crate::class_names::{ClassNames, class_names_of};
use indexmap::IndexMap;
use program_image::{Image, SharedVariable};
use sqlite_items::Items;
use st_base::OutOfMemory;
use std::alloc::Global;
use std::marker::Model;

/// What a variable of the program is looked up by.
#[derive(Clone, Copy, Debug, PartialEq, Eq, Hash)]
pub(crate) enum Key<'a> {
    Global(&'a [u8]),
    Pool { pool: &'a [u8], name: &'a [u8] },
    OfClass { class: u32, name: &'a [u8] },
}

// The key of a variable. A class instance variable has none: it is found in its class.
fn key_of<'a>(variable: &'a SharedVariable) -> Option<Key<'a>>
    ensures { option_map seen_key result ≡ keyed (seen_variable variable.now) }
{
    match variable {
        SharedVariable::Global(name) => Some(Key::Global(name.as_bytes())),
        SharedVariable::Pool { pool, name } => Some(Key::Pool {
            pool: pool.as_bytes(),
            name: name.as_bytes(),
        }),
        SharedVariable::OfClass { class, name } => Some(Key::OfClass {
            class: *class,
            name: name.as_bytes(),
        }),
        SharedVariable::OfClassInstance { .. } => None,
    }
}

// Notes the place of a variable, unless its key has one.
fn note<'a>(
    places: &mut IndexMap<Key<'a>, usize>,
    variable: &'a SharedVariable,
    place: usize,
) -> Result<(), OutOfMemory>
    ensures { OnOk result (GainsPlace places.old (seen_variable variable.now) place places.new) }
{
    let Some(key) = key_of(variable) else {
        return Ok(());
    };
    if places.contains_key(&key) {
        return Ok(());
    }
    places.insert(key, place)?;
    Ok(())
}

// The place of the first variable for each key.
fn places_of<'a>(
    alloc: Global,
    variables: &'a [SharedVariable],
) -> Result<IndexMap<Key<'a>, usize>, OutOfMemory>
    ensures { IfOk result (HasPlaces (map seen_variable variables.now)) }
{
    let mut places = IndexMap::new(alloc);
    for (index, variable) in variables.iter().enumerate() {
        note(&mut places, variable, index)?;
    }
    Ok(places)
}

/// The image that is compiled, with the places of its variables by their keys, and those of each
/// class by their names. Contracts see it as the units of its file.
#[derive(Drop)]
pub(crate) struct Lookups<'a> {
    image: &'a Image,
    places: IndexMap<Key<'a>, usize>,
    classes: Items<ClassNames<'a>>,
}

impl<'a> Model for Lookups<'a> {
    ghost use Rattle.std.specs.Prelude.{◌≡◌, List, map};
    ghost use Rattle.std.specs.Coded.{coded_list};
    ghost use Rattle.st_tree.specs.contracts.units.Unit as unit;
    ghost use Rattle.st_tree.specs.declared.units.Unit.{Unit};
    ghost use Rattle.program_image.specs.Classes.{seen_class};
    ghost use Rattle.program_image.specs.Images.{image_names};
    ghost use Rattle.st_compiler.specs.Shared.{HasPlaces};

    ghost coded = { coded_list unit.the_row.coded };

    ghost Value = { List Unit };

    ghost view = { λ l. l.image.now };

    ghost invariant = { λ l. HasPlaces (image_names l.image.now).shared l.places × (map seen_class l.classes ≡ (image_names l.image.now).classes) };
}

impl<'a> Lookups<'a> {
    pub(crate) fn new(alloc: Global, image: &'a Image) -> Result<Lookups<'a>, OutOfMemory>
        ensures { IfOk result (λ l. l ≡ image.now) }
    {
        let places = places_of(alloc, image.shared())?;
        let classes = class_names_of(alloc, image.classes())?;
        Ok(Lookups {
            image,
            places,
            classes,
        })
    }

    /// The image.
    pub(crate) fn image(&self) -> &'a Image
        ensures { result.now ≡ self.now }
    {
        self.image
    }

    /// The place of the first such variable of the program.
    pub(crate) fn shared_place(&self, key: Key<'_>) -> Option<usize>
        ensures { result ≡ place_in 0 (image_names self.now).shared (seen_key key.entry) }
    {
        self.places.get(&key).copied()
    }

    /// A class by its number, with the places of its variables.
    pub(crate) fn class(&self, class: u32) -> Option<&ClassNames<'a>>
        ensures { names_of_class result ≡ class_names_at (image_names self.now).classes class }
    {
        self.classes.as_slice().get(class as usize)
    }
}
