// The names of a class's variables, found by their bytes.
ghost use Rattle.std.specs.Prelude.{◌≡◌, ◌∷◌, [], ◌++◌, IfOk, OnOk};
ghost use Rattle.st_code.specs.Resolved.{text_in};
ghost use Rattle.st_compiler.specs.Bytes.{GainsPlaces, HasPlaces};

use crate::draft::narrow;
use indexmap::IndexMap;
use program_image::Class;
use sqlite_items::Items;
use st_base::{OutOfMemory, Text};
use std::alloc::Global;
use std::marker::Model;

/// Names of variables, each with its first place. Contracts see the names.
#[derive(Drop)]
struct Names<'a> {
    texts: &'a [Text],
    places: IndexMap<&'a [u8], u32>,
}

impl<'a> Model for Names<'a> {
    ghost use Rattle.std.specs.Prelude.{List, ℕ};
    ghost use Rattle.st_compiler.specs.Bytes.{HasPlaces};

    ghost Value = { List (List ℕ) };

    ghost view = { λ n. n.texts.now };

    ghost invariant = { λ n. HasPlaces n.texts.now n.places };
}

// Notes the place of a name, unless it has one.
fn note<'a>(
    places: &mut IndexMap<&'a [u8], u32>,
    name: &'a [u8],
    place: u32,
) -> Result<(), OutOfMemory>
    ensures { OnOk result (GainsPlaces places.old (name.now ∷ []) place places.new) }
{
    if places.contains_key(name) {
        return Ok(());
    }
    places.insert(name, place)?;
    Ok(())
}

// The same by its index.
fn note_at<'a>(
    places: &mut IndexMap<&'a [u8], u32>,
    name: &'a [u8],
    index: usize,
) -> Result<(), OutOfMemory>
    ensures { OnOk result (GainsPlaces places.old (name.now ∷ []) index places.new) }
{
    note(places, name, narrow(index)?)
}

// The first place of each of these names.
fn places_of<'a>(alloc: Global, texts: &'a [Text]) -> Result<IndexMap<&'a [u8], u32>, OutOfMemory>
    ensures { IfOk result (HasPlaces texts.now) }
{
    let mut places = IndexMap::new(alloc);
    for (index, text) in texts.iter().enumerate() {
        note_at(&mut places, text.as_bytes(), index)?;
    }
    Ok(places)
}

impl<'a> Names<'a> {
    fn new(alloc: Global, texts: &'a [Text]) -> Result<Names<'a>, OutOfMemory>
        ensures { IfOk result (λ n. n ≡ texts.now) }
    {
        Ok(Names {
            texts,
            places: places_of(alloc, texts)?,
        })
    }

    fn place(&self, text: &[u8]) -> Option<u32>
        ensures { result ≡ text_in 0 self.now text.now }
    {
        self.places.get(text).copied()
    }
}

/// A class with the places of its instance variables and class instance variables. Contracts see
/// the class.
#[derive(Drop)]
pub(crate) struct ClassNames<'a> {
    class: &'a Class,
    instance: Names<'a>,
    class_instance: Names<'a>,
}

impl<'a> Model for ClassNames<'a> {
    ghost use Rattle.std.specs.Prelude.{◌≡◌};
    ghost use Rattle.program_image.specs.declared.class.Class.{Class};

    ghost Value = { Class };

    ghost view = { λ c. c.class.now };

    ghost invariant = { λ c. (c.instance ≡ c.class.now.instance_names) × (c.class_instance ≡ c.class.now.class_instance_names) };
}

impl<'a> ClassNames<'a> {
    fn new(alloc: Global, class: &'a Class) -> Result<ClassNames<'a>, OutOfMemory>
        ensures { IfOk result (λ c. c ≡ class.now) }
    {
        Ok(ClassNames {
            class,
            instance: Names::new(alloc, class.instance_names.as_slice())?,
            class_instance: Names::new(alloc, class.class_instance_names.as_slice())?,
        })
    }

    /// How many slots stand before those of its instance variables.
    pub(crate) fn base(&self) -> u32
        ensures { result ≡ self.now.base }
    {
        self.class.base
    }

    /// The place of the first instance variable of this name.
    pub(crate) fn instance_place(&self, text: &[u8]) -> Option<u32>
        ensures { result ≡ text_in 0 self.now.instance_names text.now }
    {
        self.instance.place(text)
    }

    /// The place of the first class instance variable of this name.
    pub(crate) fn class_instance_place(&self, text: &[u8]) -> Option<u32>
        ensures { result ≡ text_in 0 self.now.class_instance_names text.now }
    {
        self.class_instance.place(text)
    }
}

// Adds a class behind the others.
fn add_class<'a>(
    all: &mut Items<ClassNames<'a>>,
    alloc: Global,
    class: &'a Class,
) -> Result<(), OutOfMemory>
    ensures { OnOk result (all.new ≡ all.old ++ class.now ∷ []) }
{
    all.push(ClassNames::new(alloc, class)?)?;
    Ok(())
}

/// Each class with the places of its variables.
pub(crate) fn class_names_of<'a>(
    alloc: Global,
    classes: &'a [Class],
) -> Result<Items<ClassNames<'a>>, OutOfMemory>
    ensures { IfOk result (λ all. all ≡ classes.now) }
{
    let mut all = Items::new(alloc);
    for class in classes {
        add_class(&mut all, alloc, class)?;
    }
    Ok(all)
}
