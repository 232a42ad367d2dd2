// The table of a file: the first unit for each key.
ghost use Rattle.std.specs.Prelude.{◌≡◌, IfOk, OnOk, take};
ghost use Rattle.std.specs.List.{find, list_any};
ghost use Rattle.std.specs.Option.{option_copied};
ghost use Rattle.st_checks.specs.Declarations.{class_named, class_of_unit, declares_class, declares_global, declares_in_pool, declares_pool, defines_method, initializes, initializes_in_pool, is_class, is_name};
ghost use Rattle.st_checks.specs.Keys.{first_unit, has_key, text_key, Notes};

use crate::built_in::is_built_in;
use crate::classes::{ClassNames, Classes};
use crate::key::Key;
use indexmap::IndexMap;
use sqlite_items::at;
use st_base::{MethodSide, OutOfMemory};
use st_tree::units::{ClassUnit, Unit, UnitKind};
use std::alloc::Global;
use std::marker::Model;

/// The units of a file, with the place of the first for each key and the names of the classes. Contracts see the units.
#[derive(Drop)]
pub(crate) struct Table<'a> {
    units: &'a [Unit],
    first: IndexMap<Key<'a>, usize>,
    classes: Classes<'a>,
}

impl<'a> Model for Table<'a> {
    ghost use Rattle.std.specs.Prelude.{◌≡◌, List};
    ghost use Rattle.std.specs.Coded.{coded_list};
    ghost use Rattle.st_tree.specs.contracts.units.Unit as unit;
    ghost use Rattle.st_tree.specs.declared.units.Unit.{Unit};
    ghost use Rattle.st_checks.specs.Keys.{IsTable};

    ghost coded = { coded_list unit.the_row.coded };

    ghost Value = { List Unit };

    ghost view = { λ t. t.units.now };

    ghost invariant = { λ t. IsTable t.units.now t.first × (t.classes ≡ t.units.now) };
}

// Notes the unit's key, unless an earlier unit has it.
fn note<'a>(
    first: &mut IndexMap<Key<'a>, usize>,
    unit: &'a Unit,
    index: usize,
) -> Result<(), OutOfMemory>
    ensures { OnOk result (Notes first.old unit.now index first.new) }
{
    let Some(key) = Key::of_kind(&unit.kind) else {
        return Ok(());
    };
    if first.get(&key).is_some() {
        return Ok(());
    }
    first.insert(key, index)?;
    Ok(())
}

impl<'a> Table<'a> {
    /// The table of these units.
    pub(crate) fn new(alloc: Global, units: &'a [Unit]) -> Result<Table<'a>, OutOfMemory>
        ensures { IfOk result (λ t. t ≡ units.now) }
    {
        let mut first = IndexMap::new(alloc);
        for (index, unit) in units.iter().enumerate() {
            note(&mut first, unit, index)?;
        }
        let classes = Classes::new(alloc, units)?;
        Ok(Table {
            units,
            first,
            classes,
        })
    }

    // The first unit that declares or defines what the key names.
    fn first(&self, key: Key<'_>) -> Option<usize>
        ensures { result ≡ first_unit self.now (text_key key.entry) }
    {
        self.first.get(&key).copied()
    }

    // Whether a unit has the key.
    fn has(&self, key: Key<'_>) -> bool
        ensures { result ≡ list_any (has_key (text_key key.entry)) self.now }
    {
        self.first(key).is_some()
    }

    // Whether a unit before the n-th has the key.
    fn has_before(&self, n: usize, key: Key<'_>) -> bool
        ensures { result ≡ list_any (has_key (text_key key.entry)) (take n self.now) }
    {
        match self.first(key) {
            Some(place) => place < n,
            None => false,
        }
    }

    // The first unit that has the key.
    fn unit(&self, key: Key<'_>) -> Option<&'a Unit>
        ensures { option_copied result ≡ find (has_key (text_key key.entry)) self.now }
    {
        match self.first(key) {
            Some(place) => at(self.units, place),
            None => None,
        }
    }

    /// The units of the file.
    pub(crate) fn units(&self) -> &'a [Unit]
        ensures { result.now ≡ self.now }
    {
        self.units
    }

    /// Whether a unit declares a class of this name.
    pub(crate) fn has_class(&self, name: &[u8]) -> bool
        ensures { result ≡ list_any (declares_class name.now) self.now }
    {
        self.has(Key::class(name))
    }

    /// Whether a unit before the n-th declares a class of this name.
    pub(crate) fn has_class_before(&self, n: usize, name: &[u8]) -> bool
        ensures { result ≡ list_any (declares_class name.now) (take n self.now) }
    {
        self.has_before(n, Key::class(name))
    }

    /// Whether a unit declares a global of this name.
    pub(crate) fn has_global(&self, name: &[u8]) -> bool
        ensures { result ≡ list_any (declares_global name.now) self.now }
    {
        self.has(Key::global(name))
    }

    fn has_global_before(&self, n: usize, name: &[u8]) -> bool
        ensures { result ≡ list_any (declares_global name.now) (take n self.now) }
    {
        self.has_before(n, Key::global(name))
    }

    /// Whether a unit declares a pool of this name.
    pub(crate) fn has_pool(&self, name: &[u8]) -> bool
        ensures { result ≡ list_any (declares_pool name.now) self.now }
    {
        self.has(Key::pool(name))
    }

    fn has_pool_before(&self, n: usize, name: &[u8]) -> bool
        ensures { result ≡ list_any (declares_pool name.now) (take n self.now) }
    {
        self.has_before(n, Key::pool(name))
    }

    /// Whether a unit declares a variable or constant of this name in this pool.
    pub(crate) fn has_in_pool(&self, pool: &[u8], name: &[u8]) -> bool
        ensures { result ≡ list_any (declares_in_pool pool.now name.now) self.now }
    {
        self.has(Key::in_pool(pool, name))
    }

    /// Whether a unit before the n-th declares a variable or constant of this name in this pool.
    pub(crate) fn has_in_pool_before(&self, n: usize, pool: &[u8], name: &[u8]) -> bool
        ensures { result ≡ list_any (declares_in_pool pool.now name.now) (take n self.now) }
    {
        self.has_before(n, Key::in_pool(pool, name))
    }

    /// Whether a unit before the n-th defines a method of this selector on this side of the class.
    pub(crate) fn has_method_before(
        &self,
        n: usize,
        class: &[u8],
        side: MethodSide,
        selector: &[u8],
    ) -> bool
        ensures { result ≡ list_any (defines_method class.now side selector.now) (take n self.now) }
    {
        self.has_before(n, Key::method(class, side, selector))
    }

    /// Whether a unit before the n-th initializes the class or global of this name.
    pub(crate) fn has_initializer_before(&self, n: usize, target: &[u8]) -> bool
        ensures { result ≡ list_any (initializes target.now) (take n self.now) }
    {
        self.has_before(n, Key::initializer(target))
    }

    /// Whether a unit before the n-th initializes the variable or constant of this pool.
    pub(crate) fn has_pool_initializer_before(&self, n: usize, pool: &[u8], name: &[u8]) -> bool
        ensures { result ≡ list_any (initializes_in_pool pool.now name.now) (take n self.now) }
    {
        self.has_before(n, Key::pool_initializer(pool, name))
    }

    /// Whether a class of this name is built in or declared by a unit.
    pub(crate) fn is_class(&self, name: &[u8]) -> bool
        ensures { result ≡ is_class self.now name.now }
    {
        if is_built_in(name) {
            return true;
        }
        self.has_class(name)
    }

    /// Whether a class of this name is built in or declared before the n-th unit.
    pub(crate) fn is_class_before(&self, n: usize, name: &[u8]) -> bool
        ensures { result ≡ is_class (take n self.now) name.now }
    {
        if is_built_in(name) {
            return true;
        }
        self.has_class_before(n, name)
    }

    /// Whether the name is built in, or declared before the n-th unit as that of a class, a global or a pool.
    pub(crate) fn is_name_before(&self, n: usize, name: &[u8]) -> bool
        ensures { result ≡ is_name (take n self.now) name.now }
    {
        self.is_class_before(n, name)
            || name == b"Transcript".as_slice()
            || self.has_global_before(n, name)
            || self.has_pool_before(n, name)
    }

    /// The first unit that declares a global of this name.
    pub(crate) fn global(&self, name: &[u8]) -> Option<&'a Unit>
        ensures { option_copied result ≡ find (declares_global name.now) self.now }
    {
        self.unit(Key::global(name))
    }

    /// The first unit that declares a variable or constant of this name in this pool.
    pub(crate) fn in_pool(&self, pool: &[u8], name: &[u8]) -> Option<&'a Unit>
        ensures { option_copied result ≡ find (declares_in_pool pool.now name.now) self.now }
    {
        self.unit(Key::in_pool(pool, name))
    }

    // The first unit that declares a class of this name.
    fn class_unit(&self, name: &[u8]) -> Option<&'a Unit>
        ensures { option_copied result ≡ find (declares_class name.now) self.now }
    {
        self.unit(Key::class(name))
    }

    /// The class of this name that the file declares, unless it is built in: the first.
    pub(crate) fn class(&self, name: &[u8]) -> Option<&'a ClassUnit>
        ensures { option_copied result ≡ class_named self.now name.now }
    {
        if is_built_in(name) {
            return None;
        }
        match self.class_unit(name) {
            Some(unit) => class_of_unit(unit),
            None => None,
        }
    }

    /// The same class, with its names in sets.
    pub(crate) fn class_names(&self, name: &[u8]) -> Option<&ClassNames<'a>>
        ensures { option_copied result ≡ class_named self.now name.now }
    {
        if is_built_in(name) {
            return None;
        }
        self.classes.get(name)
    }
}

fn class_of_unit(unit: &Unit) -> Option<&ClassUnit>
    ensures { option_copied result ≡ class_of_unit (Some unit.now) }
{
    match &unit.kind {
        UnitKind::Class(class) => Some(class),
        _ => None,
    }
}
