// The units of a file, one behind the other: the code of each method and initializer, and the number that it gets.
ghost use Rattle.std.specs.Prelude.{◌≡◌, [], ◌∷◌, ◌++◌, length, map, IfOk, OnOk};
ghost use Rattle.std.specs.Option.{option_map};
ghost use Rattle.st_code.specs.Written.{name_text, named_body, named_method, named_unit};
ghost use Rattle.st_code.specs.Resolved.{class_in, place_in};
ghost use Rattle.st_code.specs.Definitions.{Defined, nothing_defined, context, with_method, with_initializer, initialized, or_zero};
ghost use Rattle.program_image.specs.Finding.{defined_kind};
ghost use Rattle.program_image.specs.Images.{image_names};
ghost use Rattle.st_compiler.specs.Around.{side_of, seen_key};
ghost use Rattle.st_compiler.specs.Drafted.{Holds};
ghost use Rattle.st_compiler.specs.Loading.{IsDefined};
ghost use Rattle.st_compiler.specs.Walked.{body_made_of};

use crate::around::Around;
use crate::draft::{Draft, DraftBody, Frame, narrow};
use crate::lookup::{Key, Lookups};
use object_heap::Value;
use sqlite_items::Items;
use st_base::{MethodSide, OutOfMemory};
use st_code::CodeKind;
use st_tree::tree::{Body, Method, Name};
use st_tree::units::{Unit, UnitKind};
use std::alloc::Global;

const UNDEFINED_OBJECT: u32 = 1;

/// An initializer of the program (ANSI NCITS 319, 4.1).
#[derive(Clone, Copy, Debug, PartialEq, Eq)]
pub struct Initializer {
    /// The number of its code.
    pub code: u32,
    /// What `self` is in it: the class that it initializes, and else nil.
    pub receiver: Value,
    /// The variable of the program that takes its value.
    pub target: Option<u32>,
}

/// What is made of the units so far.
#[derive(Drop)]
pub(crate) struct Defining<'a, 'l> {
    lookups: &'l Lookups<'a>,
    draft: Draft<'a>,
    initializers: Items<Initializer>,
}

impl<'a> Draft<'a> {
    // The body of a method or an initializer, and its number.
    fn top(
        &mut self,
        lookups: &Lookups<'a>,
        class: u32,
        side: MethodSide,
        kind: CodeKind,
        parameters: &'a [Name],
        body: &'a Body,
    ) -> Result<u32, OutOfMemory>
        ensures code { IfOk result (λ n. n ≡ length self.old.bodies) }
        ensures made { OnOk result (self.new ≡ body_made_of kind (context (image_names lookups.now) class (side_of side) (length self.old.bodies)) None (map name_text parameters.now) (named_body body.now).temporaries (named_body body.now).statements self.old) }
    {
        let code = narrow(self.bodies.len())?;
        let around = Around::outside(self.alloc, lookups, class, side, code);
        self.outermost(&around, kind, parameters, body)?;
        Ok(code)
    }

    // A body that no other is around.
    fn outermost(
        &mut self,
        around: &Around<'a, '_>,
        kind: CodeKind,
        parameters: &'a [Name],
        body: &'a Body,
    ) -> Result<(), OutOfMemory>
        ensures { OnOk result (self.new ≡ body_made_of kind around.now None (map name_text parameters.now) (named_body body.now).temporaries (named_body body.now).statements self.old) }
    {
        self.body(around, kind, None, parameters, body)?;
        Ok(())
    }
}

// The place of a variable of the program.
fn target(lookups: &Lookups<'_>, key: Key<'_>) -> Result<Option<u32>, OutOfMemory>
    ensures { IfOk result (λ o. o ≡ place_in 0 (image_names lookups.now).shared (seen_key key.entry)) }
{
    match lookups.shared_place(key) {
        Some(place) => Ok(Some(narrow(place)?)),
        None => Ok(None),
    }
}

impl<'a, 'l> Defining<'a, 'l> {
    fn method(
        &mut self,
        class: u32,
        side: MethodSide,
        method: &'a Method,
    ) -> Result<(), OutOfMemory>
        ensures lookups { OnOk result (self.new.lookups ≡ self.old.lookups) }
        ensures holds { OnOk result ((d : Defined) → Holds self.old d → Holds self.new (with_method (image_names self.old.lookups.now) class (side_of side) (named_method method.now) d)) }
    {
        let parameters = method.parameters.as_slice();
        let kind = CodeKind::Method;
        self.draft
            .top(self.lookups, class, side, kind, parameters, &method.body)?;
        Ok(())
    }

    fn initializer(
        &mut self,
        class: u32,
        side: MethodSide,
        receiver: Value,
        target: Option<u32>,
        body: &'a Body,
    ) -> Result<(), OutOfMemory>
        ensures lookups { OnOk result (self.new.lookups ≡ self.old.lookups) }
        ensures holds { OnOk result ((d : Defined) → Holds self.old d → Holds self.new (with_initializer (image_names self.old.lookups.now) class (side_of side) receiver target (named_body body.now) d)) }
    {
        let kind = CodeKind::Initializer;
        let code = self.draft.top(self.lookups, class, side, kind, &[], body)?;
        self.initializers.push(Initializer {
            code,
            receiver,
            target,
        })?;
        Ok(())
    }

    // The initializer of a class, or of a global.
    fn initializer_of(&mut self, name: &[u8], body: &'a Body) -> Result<(), OutOfMemory>
        ensures lookups { OnOk result (self.new.lookups ≡ self.old.lookups) }
        ensures holds { OnOk result ((d : Defined) → Holds self.old d → Holds self.new (initialized (image_names self.old.lookups.now) (class_in 0 (image_names self.old.lookups.now).classes name.now) name.now (named_body body.now) d)) }
    {
        match self.lookups.image().class_number(name) {
            Some(class) => {
                self.initializer(class, MethodSide::Class, Value::Class(class), None, body)
            }
            None => {
                let target = target(self.lookups, Key::Global(name))?;
                self.initializer(
                    UNDEFINED_OBJECT,
                    MethodSide::Instance,
                    Value::Nil,
                    target,
                    body,
                )
            }
        }
    }

    // What a unit defines.
    fn define(&mut self, unit: &'a Unit) -> Result<(), OutOfMemory>
        ensures lookups { OnOk result (self.new.lookups ≡ self.old.lookups) }
        ensures holds { OnOk result ((d : Defined) → Holds self.old d → Holds self.new (defined_kind (image_names self.old.lookups.now) (named_unit unit.now) d)) }
    {
        let lookups = self.lookups;
        let image = lookups.image();
        match &unit.kind {
            UnitKind::Method { class, method } => {
                let class = image.class_number(class.as_bytes()).unwrap_or(0);
                self.method(class, MethodSide::Instance, method)
            }
            UnitKind::ClassMethod { class, method } => {
                let class = image.class_number(class.as_bytes()).unwrap_or(0);
                self.method(class, MethodSide::Class, method)
            }
            UnitKind::Initializer { target, body } => self.initializer_of(target.as_bytes(), body),
            UnitKind::PoolInitializer { pool, name, body } => {
                let (pool, name) = (pool.as_bytes(), name.as_bytes());
                let target = target(lookups, Key::Pool { pool, name })?;
                self.initializer(
                    UNDEFINED_OBJECT,
                    MethodSide::Instance,
                    Value::Nil,
                    target,
                    body,
                )
            }
            UnitKind::ProgramInitializer(body) => {
                self.initializer(
                    UNDEFINED_OBJECT,
                    MethodSide::Instance,
                    Value::Nil,
                    None,
                    body,
                )
            }
            UnitKind::Version(_)
            | UnitKind::Class(_)
            | UnitKind::GlobalVariable(_)
            | UnitKind::GlobalConstant(_)
            | UnitKind::Pool(_)
            | UnitKind::PoolVariable { .. }
            | UnitKind::PoolConstant { .. }
            | UnitKind::Comment(_) => Ok(()),
        }
    }
}

impl<'a, 'l> Defining<'a, 'l> {
    fn new(alloc: Global, lookups: &'l Lookups<'a>) -> Defining<'a, 'l>
        ensures lookups { result.lookups ≡ lookups.entry }
        ensures nothing { Holds result nothing_defined }
    {
        Defining {
            lookups,
            draft: Draft {
                alloc,
                bodies: Items::new(alloc),
                objects: 0,
                frame: Frame::new(alloc),
            },
            initializers: Items::new(alloc),
        }
    }
}

/// What the units of a file define, and the number that the body of each unit gets.
#[derive(Drop)]
pub(crate) struct Definitions<'a, 'l> {
    defining: Defining<'a, 'l>,
    unit_codes: Items<u32>,
}

/// What the units of the image define.
pub(crate) fn definitions_of<'a, 'l>(
    alloc: Global,
    lookups: &'l Lookups<'a>,
) -> Result<Definitions<'a, 'l>, OutOfMemory>
    ensures { IfOk result (IsDefined lookups.now) }
{
    let mut definitions = Definitions::new(alloc, lookups);
    for unit in lookups.image().definition().units.as_slice() {
        definitions.add(unit)?;
    }
    Ok(definitions)
}

impl<'a, 'l> Definitions<'a, 'l> {
    fn new(alloc: Global, lookups: &'l Lookups<'a>) -> Definitions<'a, 'l>
        ensures lookups { result.defining.lookups ≡ lookups.entry }
        ensures nothing { Holds result.defining nothing_defined }
        ensures numbers { result.unit_codes ≡ [] }
    {
        Definitions {
            defining: Defining::new(alloc, lookups),
            unit_codes: Items::new(alloc),
        }
    }

    // A unit, and the number that its body gets.
    fn add(&mut self, unit: &'a Unit) -> Result<(), OutOfMemory>
        ensures lookups { OnOk result (self.new.defining.lookups ≡ self.old.defining.lookups) }
        ensures number { OnOk result (self.new.unit_codes ≡ self.old.unit_codes ++ length self.old.defining.draft.bodies ∷ []) }
        ensures holds { OnOk result ((d : Defined) → Holds self.old.defining d → Holds self.new.defining (defined_kind (image_names self.old.defining.lookups.now) (named_unit unit.now) d)) }
    {
        let code = narrow(self.defining.draft.bodies.len())?;
        self.unit_codes.push(code)?;
        self.defining.define(unit)
    }

    /// The bodies by number.
    pub(crate) fn bodies(&self) -> &[DraftBody]
        ensures { result.now ≡ self.now.defining.draft.bodies }
    {
        self.defining.draft.bodies.as_slice()
    }

    /// How many objects the literals are.
    pub(crate) fn literals(&self) -> u32
        ensures { result ≡ self.now.defining.draft.objects }
    {
        self.defining.draft.objects
    }

    /// The initializers, and the numbers that the units' bodies got.
    pub(crate) fn into_rows(self) -> (Items<Initializer>, Items<u32>)
        ensures initializers { result.0 ≡ self.entry.defining.initializers }
        ensures unit_codes { result.1 ≡ self.entry.unit_codes }
    {
        let Definitions {
            defining,
            unit_codes,
        } = self;
        let Defining { initializers, .. } = defining;
        (initializers, unit_codes)
    }
}
