// The image of a program.
ghost use Rattle.std.specs.Prelude.{◌≡◌, ◌<◌, [], ◌∷◌, length, map, slice_get, IfOk, IfSome};
ghost use Rattle.std.specs.Option.{option_map};
ghost use Rattle.st_code.specs.Program.{OfInstance, class_at};
ghost use Rattle.st_code.specs.BuiltIns.{object_class};
ghost use Rattle.st_code.specs.Written.{indexed_by};
ghost use Rattle.st_code.specs.Resolved.{class_in};
ghost use Rattle.st_code.specs.Lookup.{level, superclasses, inherits, lookup};
ghost use Rattle.program_image.specs.Classes.{seen_class, seen_variable};
ghost use Rattle.program_image.specs.Images.{image_names, image_program, on_side, image_found_at, image_found_in, image_lookup, as_row};

use crate::class::{Class, SharedVariable};
use crate::declarations::{Declarations, declarations_of};
use crate::methods::entries_of;
use crate::table::{Found, Key, MethodTable, Side};
use st_base::OutOfMemory;
use st_names::Names;
use st_tree::units::{Definition, Indexed};
use std::alloc::Global;
use std::marker::Model;

const OBJECT: u32 = 0;

const CLASS: u32 = 20;

const METACLASS: u32 = 21;

/// A program with its names, classes, variables and methods by number. Contracts see it as the
/// units of its file, of which all the numbers are functions.
#[derive(Drop)]
pub struct Image {
    definition: Definition,
    declarations: Declarations,
    table: MethodTable,
}

impl Model for Image {
    ghost use Rattle.std.specs.Prelude.{List};
    ghost use Rattle.std.specs.Coded.{coded_list};
    ghost use Rattle.st_tree.specs.contracts.units.Unit as unit;
    ghost use Rattle.st_tree.specs.declared.units.Unit.{Unit};

    ghost coded = { coded_list unit.the_row.coded };

    ghost Value = { List Unit };

    ghost use Rattle.program_image.specs.Images.{IsImage};

    ghost view = { λ i. i.definition.units };

    ghost invariant = { λ i. IsImage i.definition.units i.declarations i.table };
}

/// The image of a program. It takes the definition whole.
pub fn build(alloc: Global, definition: Definition) -> Result<Image, OutOfMemory>
    ensures { IfOk result (λ image. image ≡ definition.units) }
{
    let units = definition.units.as_slice();
    let declarations = declarations_of(alloc, units)?;
    let table = MethodTable::new(entries_of(alloc, &declarations, units)?)?;
    Ok(Image {
        definition,
        declarations,
        table,
    })
}

impl Image {
    /// The definition that the image was built from.
    pub fn definition(&self) -> &Definition
        ensures { result.now.units ≡ self.now }
    {
        &self.definition
    }

    /// The selectors and symbols of the program and the selectors of the built-in messages, by
    /// number.
    pub fn names(&self) -> &Names
        ensures { result.now ≡ (image_names self.now).names }
    {
        self.declarations.names()
    }

    /// The classes by number: the built-in ones, and then those of the file.
    pub fn classes(&self) -> &[Class]
        ensures { map seen_class result.now ≡ (image_names self.now).classes }
    {
        self.declarations.classes()
    }

    /// The variables of the program by number, in the order of their units.
    pub fn shared(&self) -> &[SharedVariable]
        ensures { map seen_variable result.now ≡ (image_names self.now).shared }
    {
        self.declarations.shared()
    }

    /// How many classes there are.
    pub fn class_count(&self) -> u32
        ensures { result ≡ length (image_names self.now).classes }
    {
        self.declarations.class_count()
    }

    /// The number of the first class of this name. None where there is none.
    pub fn class_number(&self, name: &[u8]) -> Option<u32>
        ensures number { result ≡ class_in 0 (image_names self.now).classes name.now }
        ensures there { IfSome result (λ class. class < length (image_names self.now).classes) }
    {
        self.declarations.class_number(name)
    }

    /// A class by its number. None where there is none.
    pub fn class(&self, class: u32) -> Option<&Class>
        ensures { option_map (λ c. seen_class c.now) result ≡ slice_get (image_names self.now).classes class }
    {
        self.declarations.class(class)
    }

    /// The name of a class, empty where there is none.
    pub fn class_name(&self, class: u32) -> &[u8]
        ensures { result.now ≡ (class_at (image_program self.now) class).name }
    {
        match self.class(class) {
            Some(class) => class.name.as_bytes(),
            None => &[],
        }
    }

    /// The number of the superclass of a class. `Object` has none.
    pub fn superclass(&self, class: u32) -> Option<u32>
        ensures value { result ≡ (class_at (image_program self.now) class).superclass }
        ensures there { IfSome result (λ above. above < class) }
    {
        match self.class(class) {
            Some(class) => class.superclass,
            None => None,
        }
    }

    /// Whether the file declares a class.
    pub fn is_in_file(&self, class: u32) -> bool
        ensures { result ≡ (class_at (image_program self.now) class).in_file }
    {
        match self.class(class) {
            Some(class) => class.in_file,
            None => false,
        }
    }

    /// How the instances of a class are indexed.
    pub fn indexed(&self, class: u32) -> Indexed
        ensures { indexed_by result ≡ (class_at (image_program self.now) class).indexed }
    {
        match self.class(class) {
            Some(class) => class.indexed,
            None => Indexed::None,
        }
    }

    /// How many named slots the instances of a class have.
    pub fn slots(&self, class: u32) -> u32
        ensures { result ≡ (class_at (image_program self.now) class).slots }
    {
        match self.class(class) {
            Some(class) => class.slots,
            None => 0,
        }
    }

    /// The place of the first class instance variable of a class among the program's variables.
    pub fn class_slots(&self, class: u32) -> u32
        ensures { result ≡ (class_at (image_program self.now) class).class_slots }
    {
        match self.class(class) {
            Some(class) => class.class_slots,
            None => 0,
        }
    }

    /// Whether a class is the other one or stands under it.
    pub fn inherits(&self, class: u32, ancestor: u32) -> bool
        ensures { result ≡ inherits (image_program self.now) class ancestor }
    {
        let mut at = class;
        loop {
            if at == ancestor {
                return true;
            }
            match self.superclass(at) {
                Some(above) => at = above,
                None => return false,
            }
        }
    }

    // What a class itself has on this side.
    fn found_at(&self, side: Side, class: u32, selector: u32) -> Option<Found>
        ensures { result ≡ image_found_at self.now (level (on_side side) class) selector }
    {
        self.table.find(Key {
            selector,
            side,
            class,
        })
    }

    // What a class and those above it have on this side.
    fn found_up(&self, side: Side, class: u32, selector: u32) -> Option<Found>
        ensures { result ≡ image_found_in self.now (map (level (on_side side)) (superclasses (image_program self.now) class)) selector }
    {
        let mut at = class;
        loop {
            if let Some(found) = self.found_at(side, at, selector) {
                return Some(found);
            }
            match self.superclass(at) {
                Some(above) => at = above,
                None => return None,
            }
        }
    }

    // What the instances of a class and of `Object` have.
    fn found_behind(&self, class: u32, selector: u32) -> Option<Found>
        ensures { result ≡ image_found_in self.now (level OfInstance class ∷ level OfInstance object_class ∷ []) selector }
    {
        match self.found_at(Side::Instance, class, selector) {
            Some(found) => Some(found),
            None => self.found_at(Side::Instance, OBJECT, selector),
        }
    }

    // What the walk from a class on a side finds.
    fn found_on_walk(&self, side: Side, class: u32, selector: u32) -> Option<Found>
        ensures { result ≡ image_lookup self.now side class selector }
    {
        match side {
            Side::Instance => self.found_up(Side::Instance, class, selector),
            Side::Class => match self.found_up(Side::Class, class, selector) {
                Some(found) => Some(found),
                None => self.found_behind(CLASS, selector),
            },
            Side::Meta => self.found_behind(METACLASS, selector),
        }
    }

    /// The method or built-in message that a receiver finds for a selector (ANSI NCITS 319, 3.3).
    /// Lookup begins at the class on the side, and walks the superclasses; on the side of the class
    /// it ends at class `Class` and `Object`, and for a metaclass it is `Metaclass` and `Object`.
    /// None where no class on the walk has the selector.
    pub fn lookup(&self, side: Side, class: u32, selector: u32) -> Option<Found>
        ensures number { result ≡ image_lookup self.now side class selector }
        ensures row { option_map as_row result ≡ lookup (image_program self.now) (level (on_side side) class) selector }
    {
        self.found_on_walk(side, class, selector)
    }
}
