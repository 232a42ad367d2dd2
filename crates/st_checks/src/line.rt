// A class of the file with those above it.
ghost use Rattle.std.specs.Prelude.{◌≡◌, IfOk, map};
ghost use Rattle.std.specs.List.{list_any};
ghost use Rattle.st_checks.specs.Declarations.{ancestors, clash, way};
ghost use Rattle.st_checks.specs.Lists.{shares};

use crate::lists::{NameSet, share};
use crate::table::Table;
use st_base::OutOfMemory;
use st_tree::units::{ClassUnit, Indexed};
use std::alloc::Global;

/// The class of this name and those above it, as far as the file declares them.
pub(crate) fn ancestors<'a>(
    alloc: Global,
    table: &Table<'a>,
    name: &[u8],
) -> Result<Vec<&'a ClassUnit>, OutOfMemory>
    ensures { IfOk result (λ line. map (λ c. c.now) line.items ≡ ancestors table.now name.now) }
{
    let mut line = Vec::new(alloc);
    let mut above = table.class(name);
    for _step in 0..table.units().len() {
        let Some(class) = above else {
            return Ok(line);
        };
        line.push(class)?;
        above = table.class(class.superclass.as_bytes());
    }
    Ok(line)
}

/// How the instances of the first of these classes are indexed: as the first says that says so.
pub(crate) fn way(line: &[&ClassUnit]) -> Indexed
    ensures { result ≡ way (map (λ c. c.now) line.now) }
{
    for class in line {
        if class.indexed != Indexed::None {
            return class.indexed;
        }
    }
    Indexed::None
}

/// Whether the two ways are different ways to be indexed.
pub(crate) fn clash(one: Indexed, other: Indexed) -> bool
    ensures { result ≡ clash one other }
{
    match (one, other) {
        (Indexed::Object, Indexed::Byte) | (Indexed::Byte, Indexed::Object) => true,
        _ => false,
    }
}

/// Whether one of these classes has one of these variables.
pub(crate) fn any_shares(
    line: &[&ClassUnit],
    instance_names: &NameSet<'_>,
    class_instance_names: &NameSet<'_>,
) -> bool
    ensures { result ≡ list_any (shares instance_names.now class_instance_names.now) (map (λ c. c.now) line.now) }
{
    for class in line {
        if share(class.instance_names.as_slice(), instance_names) {
            return true;
        }
        if share(class.class_instance_names.as_slice(), class_instance_names) {
            return true;
        }
    }
    false
}
