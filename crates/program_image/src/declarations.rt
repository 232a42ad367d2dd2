// The classes and variables that the units of a file declare, by number.
ghost use Rattle.std.specs.Prelude.{◌≡◌, ◌<◌, ◌^◌, ◌++◌, [], ◌∷◌, length, map, slice_get, IfOk, IfSome, OnOk, OnErr};
ghost use Rattle.std.specs.Option.{option_map};
ghost use Rattle.st_code.specs.Written.{named_class, named_unit};
ghost use Rattle.st_code.specs.Resolved.{ClassName, ClassInstanceName, class_in, number_or_last};
ghost use Rattle.st_code.specs.Definitions.{built_in_names, class_variables, declared_class, or_zero, with_shared};
ghost use Rattle.st_code.specs.BuiltIns.{built_in_class_rows};
ghost use Rattle.program_image.specs.Images.{image_names};
ghost use Rattle.program_image.specs.Classes.{seen_class, seen_variable, seen_names, declared_kind, IsNumbered};

use crate::class::{Class, SharedVariable};
use crate::class_list::Classes;
use crate::spelled::names_of;
use sqlite_items::Items;
use st_base::{OutOfMemory, Text, built_in_classes};
use st_names::Names;
use st_tree::units::{ClassUnit, Unit, UnitKind};
use std::alloc::Global;
use std::marker::Model;

/// The numbered names, classes and variables of a program. Contracts see all that names stand for.
#[derive(Drop)]
pub(crate) struct Declarations {
    alloc: Global,
    names: Names,
    classes: Classes,
    shared: Items<SharedVariable>,
}

impl Model for Declarations {
    ghost use Rattle.st_code.specs.Resolved.{Names as Resolved};

    ghost Value = { Resolved };

    ghost use Rattle.program_image.specs.Classes.{seen_names, IsNumbered};

    ghost view = { λ d. seen_names d.names d.classes d.shared };

    ghost invariant = { λ d. IsNumbered (seen_names d.names d.classes d.shared) };
}

// The place of the superclass of this name, or of the first class where there is none.
fn superclass_place(classes: &Classes, name: &[u8]) -> u32
    requires { 0 < length classes.now }
    ensures place { result ≡ or_zero (class_in 0 (map seen_class classes.now) name.now) }
    ensures there { result < length classes.now }
{
    classes.number(name).unwrap_or(0)
}

// Adds a variable behind the others.
fn push_variable(
    shared: &mut Items<SharedVariable>,
    variable: SharedVariable,
) -> Result<(), OutOfMemory>
    requires { length shared.old < 2 ^ 32 }
    ensures ok { OnOk result (shared.new ≡ shared.old ++ variable ∷ []) }
    ensures err { OnErr result (shared.new ≡ shared.old) }
    ensures fits { length shared.new < 2 ^ 32 }
{
    if shared.len() >= u32::MAX as usize {
        return Err(OutOfMemory);
    }
    Ok(shared.push(variable)?)
}

// Adds the class variables of a class.
fn push_class_variables(
    shared: &mut Items<SharedVariable>,
    class: u32,
    class_names: &Items<Text>,
) -> Result<(), OutOfMemory>
    requires { length shared.old < 2 ^ 32 }
    ensures ok { OnOk result (map seen_variable shared.new ≡ map seen_variable shared.old ++ map (ClassName class) class_names.now) }
    ensures fits { length shared.new < 2 ^ 32 }
{
    for name in class_names.as_slice() {
        let name = name.copy()?;
        push_variable(shared, SharedVariable::OfClass { class, name })?;
    }
    Ok(())
}

// Adds the class instance variables of a class.
fn push_class_instance_variables(
    shared: &mut Items<SharedVariable>,
    class: u32,
    class_instance_names: &Items<Text>,
) -> Result<(), OutOfMemory>
    requires { length shared.old < 2 ^ 32 }
    ensures ok { OnOk result (map seen_variable shared.new ≡ map seen_variable shared.old ++ map (ClassInstanceName class) class_instance_names.now) }
    ensures fits { length shared.new < 2 ^ 32 }
{
    for name in class_instance_names.as_slice() {
        let name = name.copy()?;
        push_variable(shared, SharedVariable::OfClassInstance { class, name })?;
    }
    Ok(())
}

// The classes that every program has.
fn first_classes(alloc: Global) -> Result<Classes, OutOfMemory>
    ensures { IfOk result (λ classes. map seen_class classes ≡ map built_in_names built_in_class_rows) }
{
    let mut classes = Classes::new(alloc);
    for class in built_in_classes() {
        classes.push(Class::built_in(alloc, class)?)?;
    }
    Ok(classes)
}

impl Declarations {
    /// The built-in classes, and no variables.
    pub(crate) fn new(alloc: Global, names: Names) -> Result<Declarations, OutOfMemory>
        ensures { IfOk result (λ d. d ≡ record { names = names; classes = map built_in_names built_in_class_rows; shared = [] }) }
    {
        Ok(Declarations {
            alloc,
            names,
            classes: first_classes(alloc)?,
            shared: Items::new(alloc),
        })
    }
    /// The numbered names.
    pub(crate) fn names(&self) -> &Names
        ensures { result.now ≡ self.now.names }
    {
        &self.names
    }

    /// The classes by number.
    pub(crate) fn classes(&self) -> &[Class]
        ensures { map seen_class result.now ≡ self.now.classes }
    {
        self.classes.as_slice()
    }

    /// The variables by number.
    pub(crate) fn shared(&self) -> &[SharedVariable]
        ensures { map seen_variable result.now ≡ self.now.shared }
    {
        self.shared.as_slice()
    }

    /// How many classes there are.
    pub(crate) fn class_count(&self) -> u32
        ensures { result ≡ length self.now.classes }
    {
        self.classes.len()
    }

    /// The number of the first class of this name. None where there is none.
    pub(crate) fn class_number(&self, name: &[u8]) -> Option<u32>
        ensures number { result ≡ class_in 0 self.now.classes name.now }
        ensures there { IfSome result (λ class. class < length self.now.classes) }
    {
        self.classes.number(name)
    }

    /// A class by its number. None where there is none.
    pub(crate) fn class(&self, class: u32) -> Option<&Class>
        ensures { option_map (λ c. seen_class c.now) result ≡ slice_get self.now.classes class }
    {
        self.classes.as_slice().get(class as usize)
    }

    /// The number of a selector or symbol, one past the last where it isn't there.
    pub(crate) fn name_number(&self, text: &[u8]) -> u32
        ensures { result ≡ number_or_last self.now.names text.now }
    {
        match self.names.find(text) {
            Some(number) => number,
            None => self.names.len(),
        }
    }

    fn declare_variable(&mut self, variable: SharedVariable) -> Result<(), OutOfMemory>
        ensures { OnOk result (self.new ≡ with_shared self.old (seen_variable variable)) }
    {
        push_variable(&mut self.shared, variable)
    }

    fn declare_class(&mut self, unit: &ClassUnit) -> Result<(), OutOfMemory>
        ensures { OnOk result (self.new ≡ declared_class self.old (named_class unit.now)) }
    {
        let number = self.classes.len();
        let superclass = superclass_place(&self.classes, unit.superclass.as_bytes());
        let above = &self.classes.as_slice()[superclass as usize];
        let class = Class::over(
            self.alloc,
            unit,
            superclass,
            above,
            self.shared.len() as u32,
        )?;
        push_class_variables(&mut self.shared, number, &class.class_names)?;
        push_class_instance_variables(&mut self.shared, number, &class.class_instance_names)?;
        self.classes.push(class)
    }

    /// Adds what a unit declares. After want of memory a part of it may be there.
    fn declare(&mut self, unit: &Unit) -> Result<(), OutOfMemory>
        ensures { OnOk result (self.new ≡ declared_kind self.old (named_unit unit.now)) }
    {
        match &unit.kind {
            UnitKind::Class(class) => self.declare_class(class),
            UnitKind::GlobalVariable(name) => {
                self.declare_variable(SharedVariable::Global(name.copy()?))
            }
            UnitKind::GlobalConstant(name) => {
                self.declare_variable(SharedVariable::Global(name.copy()?))
            }
            UnitKind::PoolVariable { pool, name } => {
                let pool = pool.copy()?;
                let name = name.copy()?;
                self.declare_variable(SharedVariable::Pool { pool, name })
            }
            UnitKind::PoolConstant { pool, name } => {
                let pool = pool.copy()?;
                let name = name.copy()?;
                self.declare_variable(SharedVariable::Pool { pool, name })
            }
            UnitKind::Version(_)
            | UnitKind::Pool(_)
            | UnitKind::Initializer { .. }
            | UnitKind::PoolInitializer { .. }
            | UnitKind::ProgramInitializer(_)
            | UnitKind::Method { .. }
            | UnitKind::ClassMethod { .. }
            | UnitKind::Comment(_) => Ok(()),
        }
    }
}

/// What the units of a file declare.
pub(crate) fn declarations_of(alloc: Global, units: &[Unit]) -> Result<Declarations, OutOfMemory>
    ensures { IfOk result (λ d. d ≡ image_names units.now) }
{
    let mut declarations = Declarations::new(alloc, names_of(alloc, units)?)?;
    for unit in units {
        declarations.declare(unit)?;
    }
    Ok(declarations)
}
