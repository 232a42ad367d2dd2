// Where a tree stands, and what names mean there.
ghost use Rattle.std.specs.Prelude.{◌≡◌, [], ◌∷◌, ◌++◌, suc, IfOk, OnOk};
ghost use Rattle.std.specs.Option.{option_map};
ghost use Rattle.st_code.specs.Program.{OfInstance, OfClass};
ghost use Rattle.st_code.specs.Resolved.{meant_outside, named, number_or_last, class_of_context, inside, own_names, in_pools, in_classes, meant_shared, place_in, class_names_at, or_meant, or_transcript};
ghost use Rattle.st_code.specs.Definitions.{context};
ghost use Rattle.program_image.specs.Classes.{seen_class};
ghost use Rattle.program_image.specs.Images.{image_names};
ghost use Rattle.st_compiler.specs.Steps.{seen_meaning};
ghost use Rattle.st_compiler.specs.Around.{side_of, names_of_class, seen_key, in_one_class, named_globally};

use crate::class_names::ClassNames;
use crate::lookup::{Key, Lookups};
use crate::scope::Scope;
use crate::step::{Meaning, Place};
use object_heap::Value;
use program_image::{Class, Image};
use st_base::{MethodSide, OutOfMemory, Text};
use std::alloc::Global;
use std::marker::Model;

/// Where a tree stands. Contracts see the names, the class and side, the number of the body around
/// it, and the names of its scopes from the innermost on.
#[derive(Drop)]
pub(crate) struct Around<'a, 'l> {
    lookups: &'l Lookups<'a>,
    class: u32,
    side: MethodSide,
    code: u32,
    scopes: Vec<Scope<'a>>,
}

impl<'a, 'l> Model for Around<'a, 'l> {
    ghost use Rattle.st_code.specs.Resolved.{Context};

    ghost Value = { Context };

    ghost use Rattle.program_image.specs.Images.{image_names};
    ghost use Rattle.st_compiler.specs.Around.{side_of};

    ghost view = { λ a. record { names = image_names a.lookups.now; class = a.class; side = side_of a.side; code = a.code; scopes = a.scopes.items } };
}

fn class_at(image: &Image, class: u32) -> Option<&Class>
    ensures { names_of_class result ≡ class_names_at (image_names image.now).classes class }
{
    image.classes().get(class as usize)
}

// A named slot of the instances of a class.
fn slot(class: &ClassNames<'_>, text: &[u8]) -> Option<Meaning>
    ensures { option_map seen_meaning result ≡ own_names (seen_class class.now) OfInstance text.now }
{
    match class.instance_place(text) {
        Some(place) => Some(Meaning::At(Place::Slot(class.base() as usize + place as usize))),
        None => None,
    }
}

// A class instance variable of a class.
fn class_slot(class: &ClassNames<'_>, text: &[u8]) -> Option<Meaning>
    ensures { option_map seen_meaning result ≡ own_names (seen_class class.now) OfClass text.now }
{
    match class.class_instance_place(text) {
        Some(place) => Some(Meaning::At(Place::ClassSlot(place as usize))),
        None => None,
    }
}

// A variable of the program.
fn shared_meaning(lookups: &Lookups<'_>, key: Key<'_>) -> Option<Meaning>
    ensures { option_map seen_meaning result ≡ meant_shared (place_in 0 (image_names lookups.now).shared (seen_key key.entry)) }
{
    match lookups.shared_place(key) {
        Some(place) => Some(Meaning::At(Place::Shared(place))),
        None => None,
    }
}

// A variable of the first of these pools that has it.
fn in_pools(lookups: &Lookups<'_>, pools: &[Text], text: &[u8]) -> Option<Meaning>
    ensures { option_map seen_meaning result ≡ in_pools (image_names lookups.now).shared pools.now text.now }
{
    for pool in pools {
        let pool = pool.as_bytes();
        if let Some(found) = shared_meaning(lookups, Key::Pool { pool, name: text }) {
            return Some(found);
        }
    }
    None
}

// A class variable of a class, or a variable of its pools.
fn in_class(lookups: &Lookups<'_>, class: u32, text: &[u8]) -> Option<Meaning>
    ensures { option_map seen_meaning result ≡ in_one_class (image_names lookups.now) class text.now }
{
    match shared_meaning(lookups, Key::OfClass { class, name: text }) {
        Some(found) => Some(found),
        None => match class_at(lookups.image(), class) {
            Some(class) => in_pools(lookups, class.pools.as_slice(), text),
            None => None,
        },
    }
}

fn superclass(image: &Image, class: u32) -> Option<u32>
    ensures { result ≡ (class_names_at (image_names image.now).classes class).row.superclass }
{
    match class_at(image, class) {
        Some(class) => class.superclass,
        None => None,
    }
}

// The class variables and pools of a class, and then those of the classes above it.
fn in_classes(lookups: &Lookups<'_>, class: u32, text: &[u8]) -> Option<Meaning>
    ensures { option_map seen_meaning result ≡ in_classes (image_names lookups.now) (suc class) class text.now }
{
    let mut at = class;
    let mut left = class as u64 + 1;
    while left > 0 {
        left -= 1;
        if let Some(found) = in_class(lookups, at, text) {
            return Some(found);
        }
        match superclass(lookups.image(), at) {
            Some(above) => at = above,
            None => return None,
        }
    }
    None
}

// A class, or else a global.
fn global(lookups: &Lookups<'_>, text: &[u8]) -> Option<Meaning>
    ensures { option_map seen_meaning result ≡ named_globally (image_names lookups.now) text.now }
{
    match lookups.image().class_number(text) {
        Some(class) => Some(Meaning::Class(class)),
        None => shared_meaning(lookups, Key::Global(text)),
    }
}

// What a class's or a global's name means, and any other.
fn meaning_anywhere(lookups: &Lookups<'_>, text: &[u8]) -> Meaning
    ensures { seen_meaning result ≡ or_transcript (named_globally (image_names lookups.now) text.now) }
{
    match global(lookups, text) {
        Some(found) => found,
        None => Meaning::Transcript,
    }
}

// What a name means that is no variable of the instance.
fn meaning_beyond(lookups: &Lookups<'_>, class: u32, text: &[u8]) -> Meaning
    ensures { seen_meaning result ≡ or_transcript (or_meant (in_classes (image_names lookups.now) (suc class) class text.now) (named_globally (image_names lookups.now) text.now)) }
{
    match in_classes(lookups, class, text) {
        Some(found) => found,
        None => meaning_anywhere(lookups, text),
    }
}

// Puts a scope behind those that are there.
fn share<'a>(scopes: &mut Vec<Scope<'a>>, scope: &Scope<'a>) -> Result<(), OutOfMemory>
    ensures { OnOk result (scopes.new.items ≡ scopes.old.items ++ scope.now ∷ []) }
{
    scopes.push(scope.share()?)?;
    Ok(())
}

// Puts scopes behind those that are there.
fn share_all<'a>(scopes: &mut Vec<Scope<'a>>, outer: &[Scope<'a>]) -> Result<(), OutOfMemory>
    ensures { OnOk result (scopes.new.items ≡ scopes.old.items ++ outer.now) }
{
    for scope in outer {
        share(scopes, scope)?;
    }
    Ok(())
}

// A scope, and those around it.
fn scopes_from<'a>(
    alloc: Global,
    scope: &Scope<'a>,
    outer: &[Scope<'a>],
) -> Result<Vec<Scope<'a>>, OutOfMemory>
    ensures { IfOk result (λ scopes. scopes.items ≡ scope.now ∷ outer.now) }
{
    let mut scopes = Vec::new(alloc);
    share(&mut scopes, scope)?;
    share_all(&mut scopes, outer)?;
    Ok(scopes)
}

impl<'a, 'l> Around<'a, 'l> {
    /// Outside of all bodies of this class and side.
    pub(crate) fn outside(
        alloc: Global,
        lookups: &'l Lookups<'a>,
        class: u32,
        side: MethodSide,
        code: u32,
    ) -> Around<'a, 'l>
        ensures { result ≡ context (image_names lookups.now) class (side_of side) code }
    {
        Around {
            lookups,
            class,
            side,
            code,
            scopes: Vec::new(alloc),
        }
    }

    /// In a body with these variables.
    pub(crate) fn inside(
        &self,
        alloc: Global,
        code: u32,
        scope: &Scope<'a>,
    ) -> Result<Around<'a, 'l>, OutOfMemory>
        ensures { IfOk result (λ x. x ≡ inside self.now code scope.now) }
    {
        Ok(Around {
            lookups: self.lookups,
            class: self.class,
            side: self.side,
            code,
            scopes: scopes_from(alloc, scope, self.scopes.as_slice())?,
        })
    }

    /// The number of the body around.
    pub(crate) fn code(&self) -> u32
        ensures { result ≡ self.now.code }
    {
        self.code
    }

    /// The class, or its metaclass on the side of the class.
    pub(crate) fn class(&self) -> Value
        ensures { result ≡ class_of_context self.now }
    {
        match self.side {
            MethodSide::Instance => Value::Class(self.class),
            MethodSide::Class => Value::Meta(self.class),
        }
    }

    /// The number of a selector or symbol.
    pub(crate) fn number(&self, text: &[u8]) -> u32
        ensures { result ≡ number_or_last self.now.names.names text.now }
    {
        let names = self.lookups.image().names();
        match names.find(text) {
            Some(number) => number,
            None => names.len(),
        }
    }

    // An instance variable, or a class instance variable on the side of the class.
    fn own(&self, text: &[u8]) -> Option<Meaning>
        ensures { option_map seen_meaning result ≡ own_names (class_names_at self.now.names.classes self.now.class) self.now.side text.now }
    {
        let Some(class) = self.lookups.class(self.class) else {
            return None;
        };
        match self.side {
            MethodSide::Instance => slot(class, text),
            MethodSide::Class => class_slot(class, text),
        }
    }

    // What a name means that is no variable of a body.
    #[tactic(auto, unfolding(st_code::specs::Resolved::meant_outside))]
    fn meaning_outside(&self, text: &[u8]) -> Meaning
        ensures { seen_meaning result ≡ meant_outside self.now.names self.now.class self.now.side text.now }
    {
        match self.own(text) {
            Some(found) => found,
            None => meaning_beyond(self.lookups, self.class, text),
        }
    }

    /// What a name means: in the innermost scope that declares it, and else outside of bodies
    /// (ANSI NCITS 319, 3.3).
    pub(crate) fn meaning(&self, text: &[u8]) -> Meaning
        ensures { seen_meaning result ≡ named self.now text.now }
    {
        let mut up = 0;
        for scope in self.scopes.as_slice() {
            if let Some(index) = scope.place(text) {
                return Meaning::At(Place::Scoped { up, index });
            }
            up += 1;
        }
        self.meaning_outside(text)
    }
}
