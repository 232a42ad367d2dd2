// The classes of a file, each with its names in sets.
ghost use Rattle.std.specs.Prelude.{◌≡◌, IfOk, OnOk};
ghost use Rattle.std.specs.List.{find, list_any};
ghost use Rattle.std.specs.Option.{option_copied};
ghost use Rattle.std.specs.Str.{bytes_eq};
ghost use Rattle.st_checks.specs.Declarations.{class_of_unit, declares_class};
ghost use Rattle.st_checks.specs.Meanings.{own_names};
ghost use Rattle.st_checks.specs.NameSets.{GainsClass, IsSetOf};

use indexmap::{IndexMap, IndexSet};
use st_base::{MethodSide, OutOfMemory, Text};
use st_tree::units::{ClassUnit, Unit, UnitKind};
use std::alloc::Global;
use std::marker::Model;

fn set_of<'a>(alloc: Global, names: &'a [Text]) -> Result<IndexSet<&'a [u8]>, OutOfMemory>
    ensures { IfOk result (λ s. IsSetOf names.now s) }
{
    let mut all = IndexSet::new(alloc);
    for name in names {
        all.insert(name.as_bytes())?;
    }
    Ok(all)
}

/// A class with sets of the names of its variables. Contracts see the class.
#[derive(Drop)]
pub(crate) struct ClassNames<'a> {
    class: &'a ClassUnit,
    instance_names: IndexSet<&'a [u8]>,
    class_names: IndexSet<&'a [u8]>,
    class_instance_names: IndexSet<&'a [u8]>,
}

impl<'a> Model for ClassNames<'a> {
    ghost use Rattle.st_tree.specs.declared.units.ClassUnit.{ClassUnit};
    ghost use Rattle.st_checks.specs.NameSets.{IsSetOf};

    ghost Value = { ClassUnit };

    ghost view = { λ c. c.class.now };

    ghost invariant = { λ c. IsSetOf c.class.now.instance_names c.instance_names × IsSetOf c.class.now.class_names c.class_names × IsSetOf c.class.now.class_instance_names c.class_instance_names };
}

impl<'a> ClassNames<'a> {
    fn new(alloc: Global, class: &'a ClassUnit) -> Result<ClassNames<'a>, OutOfMemory>
        ensures { IfOk result (λ c. c ≡ class.now) }
    {
        let instance_names = set_of(alloc, class.instance_names.as_slice())?;
        let class_names = set_of(alloc, class.class_names.as_slice())?;
        let class_instance_names = set_of(alloc, class.class_instance_names.as_slice())?;
        Ok(ClassNames {
            class,
            instance_names,
            class_names,
            class_instance_names,
        })
    }

    /// Whether it has an instance variable of this name, or on the class side a class instance
    /// variable.
    pub(crate) fn has_own(&self, side: MethodSide, name: &[u8]) -> bool
        ensures { result ≡ list_any (bytes_eq name.now) (own_names side self.now) }
    {
        match side {
            MethodSide::Instance => self.instance_names.contains(name),
            MethodSide::Class => self.class_instance_names.contains(name),
        }
    }

    /// Whether it has a class variable of this name.
    pub(crate) fn has_shared(&self, name: &[u8]) -> bool
        ensures { result ≡ list_any (bytes_eq name.now) self.now.class_names }
    {
        self.class_names.contains(name)
    }

    /// The pools that it imports.
    pub(crate) fn pools(&self) -> &'a [Text]
        ensures { result.now ≡ self.now.pools }
    {
        self.class.pools.as_slice()
    }

    /// The name of its superclass.
    pub(crate) fn superclass(&self) -> &'a [u8]
        ensures { result.now ≡ self.now.superclass }
    {
        self.class.superclass.as_bytes()
    }
}

/// The classes that the units of a file declare, by name: the first of each. Contracts see the units.
#[derive(Drop)]
pub(crate) struct Classes<'a> {
    units: &'a [Unit],
    by_name: IndexMap<&'a [u8], ClassNames<'a>>,
}

impl<'a> Model for Classes<'a> {
    ghost use Rattle.std.specs.Prelude.{List};
    ghost use Rattle.std.specs.Coded.{coded_list};
    ghost use Rattle.st_tree.specs.contracts.units.Unit as unit;
    ghost use Rattle.st_tree.specs.declared.units.Unit.{Unit};
    ghost use Rattle.st_checks.specs.NameSets.{HasClasses};

    ghost coded = { coded_list unit.the_row.coded };

    ghost Value = { List Unit };

    ghost view = { λ c. c.units.now };

    ghost invariant = { λ c. HasClasses c.units.now c.by_name };
}

// Notes the unit's class, unless an earlier unit has its name.
fn note_class<'a>(
    alloc: Global,
    classes: &mut IndexMap<&'a [u8], ClassNames<'a>>,
    unit: &'a Unit,
) -> Result<(), OutOfMemory>
    ensures { OnOk result (GainsClass classes.old unit.now classes.new) }
{
    let UnitKind::Class(class) = &unit.kind else {
        return Ok(());
    };
    let name = class.name.as_bytes();
    if classes.contains_key(name) {
        return Ok(());
    }
    let names = ClassNames::new(alloc, class)?;
    classes.insert(name, names)?;
    Ok(())
}

impl<'a> Classes<'a> {
    /// The classes of these units.
    pub(crate) fn new(alloc: Global, units: &'a [Unit]) -> Result<Classes<'a>, OutOfMemory>
        ensures { IfOk result (λ c. c ≡ units.now) }
    {
        let mut by_name = IndexMap::new(alloc);
        for unit in units {
            note_class(alloc, &mut by_name, unit)?;
        }
        Ok(Classes { units, by_name })
    }

    /// The class of this name.
    pub(crate) fn get(&self, name: &[u8]) -> Option<&ClassNames<'a>>
        ensures { option_copied result ≡ class_of_unit (find (declares_class name.now) self.now) }
    {
        self.by_name.get(name)
    }
}
