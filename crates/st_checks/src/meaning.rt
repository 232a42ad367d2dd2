// What a name stands for, as far as a program may assign it.
ghost use Rattle.std.specs.Prelude.{◌≡◌, Some, codes};
ghost use Rattle.std.specs.List.{find};
ghost use Rattle.std.specs.Str.{bytes_eq};
ghost use Rattle.st_checks.specs.Declarations.{declares_global};
ghost use Rattle.st_checks.specs.Meanings.{fixed_if, of_unit, or_else, in_pool, in_pools, in_program};
ghost use Rattle.st_checks.specs.Views.{meant};

use crate::table::Table;
use st_base::Text;
use st_tree::units::{Unit, UnitKind};

/// What a name stands for, as far as a program may assign it (3.3, 3.4).
#[derive(Clone, Copy, Debug, PartialEq, Eq)]
pub(crate) enum Meaning {
    /// Nothing.
    Undeclared,
    /// What no program may assign: a parameter, a constant, a class or `Transcript`.
    Fixed,
    /// A variable.
    Assignable,
}

// What the variable or constant stands for that the unit declares.
fn of_unit(unit: &Unit) -> Meaning
    ensures { meant result ≡ of_unit (Some unit.now) }
{
    match &unit.kind {
        UnitKind::GlobalVariable(_) | UnitKind::PoolVariable { .. } => Meaning::Assignable,
        UnitKind::GlobalConstant(_) | UnitKind::PoolConstant { .. } => Meaning::Fixed,
        _ => Meaning::Undeclared,
    }
}

fn in_pool(table: &Table<'_>, pool: &[u8], name: &[u8]) -> Meaning
    ensures { meant result ≡ in_pool table.now pool.now name.now }
{
    if !table.has_pool(pool) {
        return Meaning::Undeclared;
    }
    match table.in_pool(pool, name) {
        Some(unit) => of_unit(unit),
        None => Meaning::Undeclared,
    }
}

/// What the name stands for in the first of these pools that declares it.
pub(crate) fn in_pools(table: &Table<'_>, pools: &[Text], name: &[u8]) -> Meaning
    ensures { meant result ≡ in_pools table.now pools.now name.now }
{
    for pool in pools {
        match in_pool(table, pool.as_bytes(), name) {
            Meaning::Undeclared => {}
            found => return found,
        }
    }
    Meaning::Undeclared
}

// What the name stands for as that of a global or of `Transcript`.
fn in_globals(table: &Table<'_>, name: &[u8]) -> Meaning
    ensures { meant result ≡ or_else (of_unit (find (declares_global name.now) table.now)) (fixed_if (bytes_eq name.now (codes "Transcript"))) }
{
    let found = match table.global(name) {
        Some(unit) => of_unit(unit),
        None => Meaning::Undeclared,
    };
    match found {
        Meaning::Undeclared => {
            if name == b"Transcript".as_slice() {
                Meaning::Fixed
            } else {
                Meaning::Undeclared
            }
        }
        found => found,
    }
}

/// What the name stands for as that of a class, a global or `Transcript`.
pub(crate) fn in_program(table: &Table<'_>, name: &[u8]) -> Meaning
    ensures { meant result ≡ in_program table.now name.now }
{
    if table.is_class(name) {
        Meaning::Fixed
    } else {
        in_globals(table, name)
    }
}
