// The units of an interchange file, and whole programs (ANSI NCITS 319, 4.1).
ghost use Rattle.std.specs.Prelude.{◌≡◌, ◌+◌, ◌-◌, ◌<◌, ◌^◌, [], ◌∷◌, ◌++◌, length, slice_get, OnOk, OnErr};
ghost use Rattle.std.specs.Option.{option_copied};
ghost use Rattle.st_tree.specs.Numbers.{annotated, elements_of_kind, elements_of, elements_in, element_of};

use crate::tree::{Body, Method};
use sqlite_items::Items;
use st_base::{OutOfMemory, Text};
use std::alloc::Global;
use std::marker::Model;

/// What indexed instance variables the instances of a class have.
#[derive(Clone, Copy, Debug, PartialEq, Eq)]
pub enum Indexed {
    /// `#none`: none.
    None,
    /// `#object`: ones that hold any object.
    Object,
    /// `#byte`: ones that hold bytes.
    Byte,
}

/// A class definition, without its methods.
#[derive(Drop)]
pub struct ClassUnit {
    pub name: Text,
    pub superclass: Text,
    pub indexed: Indexed,
    /// The names of its own instance variables, in their order.
    pub instance_names: Items<Text>,
    /// The names of its own class variables, in their order.
    pub class_names: Items<Text>,
    /// The names of the pools that it imports, in their order.
    pub pools: Items<Text>,
    /// The names of its own class instance variables, in their order.
    pub class_instance_names: Items<Text>,
}

/// What a unit declares or defines.
#[derive(Drop)]
pub enum UnitKind {
    /// The version of the interchange format, which is the first unit of a file.
    Version(Text),
    Class(ClassUnit),
    GlobalVariable(Text),
    GlobalConstant(Text),
    /// A pool without its variables.
    Pool(Text),
    PoolVariable { pool: Text, name: Text },
    PoolConstant { pool: Text, name: Text },
    /// The initializer of a class, or of a global variable or constant.
    Initializer { target: Text, body: Body },
    /// The initializer of a pool's variable or constant.
    PoolInitializer { pool: Text, name: Text, body: Body },
    /// A body that the program runs where it stands in the file.
    ProgramInitializer(Body),
    /// A method of a class's instances.
    Method { class: Text, method: Method },
    /// A method of a class itself.
    ClassMethod { class: Text, method: Method },
    /// The contents of the comments of one element, in their order.
    Comment(Items<Text>),
}

impl UnitKind {
    // How many elements it takes: one, or two with a text.
    fn elements(&self) -> usize
        ensures { result ≡ elements_of_kind self.now }
    {
        match self {
            UnitKind::Initializer { .. }
            | UnitKind::PoolInitializer { .. }
            | UnitKind::ProgramInitializer(_)
            | UnitKind::Method { .. }
            | UnitKind::ClassMethod { .. } => 2,
            UnitKind::Version(_)
            | UnitKind::Class(_)
            | UnitKind::GlobalVariable(_)
            | UnitKind::GlobalConstant(_)
            | UnitKind::Pool(_)
            | UnitKind::PoolVariable { .. }
            | UnitKind::PoolConstant { .. }
            | UnitKind::Comment(_) => 1,
        }
    }
}

/// A key with a value, which tools attach to a unit.
#[derive(Drop)]
pub struct Annotation {
    pub key: Text,
    pub value: Text,
}

/// A unit of a file with the annotations behind it, in their order.
#[derive(Drop)]
pub struct Unit {
    pub kind: UnitKind,
    pub annotations: Items<Annotation>,
}

/// Units in file order. Contracts see them as their list.
#[derive(Drop)]
pub struct UnitList {
    units: Vec<Unit>,
}

impl Model for UnitList {
    ghost use Rattle.std.specs.Prelude.{List};
    ghost use Rattle.std.specs.Coded.{coded_list};
    ghost use Rattle.st_tree.specs.contracts.units.Unit as unit;
    ghost use Rattle.st_tree.specs.declared.units.Unit.{Unit};

    ghost coded = { coded_list unit.the_row.coded };

    ghost Value = { List Unit };

    ghost view = { λ l. l.units.items };
}

impl UnitList {
    /// No units yet.
    pub fn new(alloc: Global) -> UnitList
        ensures { result ≡ [] }
    {
        UnitList {
            units: Vec::new(alloc),
        }
    }

    /// All units, the first first.
    pub fn as_slice(&self) -> &[Unit]
        ensures { result.now ≡ self.now }
    {
        &self.units
    }

    /// How many there are.
    pub fn len(&self) -> usize
        ensures { result ≡ length self.now }
    {
        self.units.len()
    }

    /// The unit at a place, counted from 0.
    pub fn get(&self, at: usize) -> Option<&Unit>
        ensures { option_copied result ≡ slice_get self.now at }
    {
        self.units.get(at)
    }

    /// Adds a unit behind the others. Where memory is wanted, nothing changed.
    pub fn push(&mut self, unit: Unit) -> Result<(), OutOfMemory>
        ensures ok { OnOk result (self.new ≡ self.old ++ unit ∷ []) }
        ensures err { OnErr result (self.new ≡ self.old) }
    {
        Ok(self.units.push(unit)?)
    }

    /// Adds an annotation to the last unit, where there is one. Where memory is wanted, nothing
    /// changed.
    pub fn annotate(&mut self, annotation: Annotation) -> Result<(), OutOfMemory>
        ensures ok { OnOk result (self.new ≡ annotated self.old annotation) }
        ensures err { OnErr result (self.new ≡ self.old) }
    {
        if self.units.as_slice().is_empty() {
            return Ok(());
        }
        let Some(last) = self.units.last_mut() else {
            return Ok(());
        };
        Ok(last.annotations.push(annotation)?)
    }

    /// The allocator that the list was made with.
    pub(crate) fn allocator(&self) -> Global {
        *self.units.allocator()
    }
}

/// A program: the version unit and all that follows it in the file.
#[derive(Drop)]
pub struct Definition {
    pub units: UnitList,
}

impl Unit {
    /// How many elements it takes: one, or two with a text, and one for each annotation.
    pub fn elements(&self) -> usize
        requires { elements_of self.now < 2 ^ 64 }
        ensures { result ≡ elements_of self.now }
    {
        self.kind.elements() + self.annotations.len()
    }
}

impl Definition {
    /// The number of the unit's first element in the file, from 1: one more than the elements of
    /// the units before it.
    pub fn element_of(&self, unit: usize) -> u32
        requires there { unit < length self.now.units }
        requires few { elements_in self.now.units < 2 ^ 32 - 1 }
        ensures { result ≡ element_of self.now.units unit }
    {
        let mut number = 1;
        for before in &self.units.as_slice()[..unit] {
            number += before.elements() as u32;
        }
        number
    }

    /// How many elements the file has.
    pub fn elements(&self) -> u32
        requires few { elements_in self.now.units < 2 ^ 32 - 1 }
        ensures { result ≡ elements_in self.now.units }
    {
        let mut number = 0;
        for unit in self.units.as_slice() {
            number += unit.elements() as u32;
        }
        number
    }
}
