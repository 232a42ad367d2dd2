// From where a body sees the names that it doesn't declare itself.
ghost use Rattle.std.specs.Prelude.{◌≡◌, map, IfOk};
ghost use Rattle.std.specs.List.{list_any};
ghost use Rattle.std.specs.Str.{bytes_eq};
ghost use Rattle.st_checks.specs.Declarations.{ancestors};
ghost use Rattle.st_checks.specs.Meanings.{assignable_if, in_classes, in_instances, in_pools, in_program, or_else};
ghost use Rattle.st_checks.specs.Views.{meant, outside};

use crate::classes::ClassNames;
use crate::meaning::{Meaning, in_pools, in_program};
use crate::table::Table;
use st_base::{MethodSide, OutOfMemory};
use std::alloc::Global;
use std::marker::Model;

/// A class of a file, seen from one side, with its superclasses. Contracts see the file's units, the class's name and
/// the side.
#[derive(Drop)]
pub(crate) struct View<'a> {
    table: &'a Table<'a>,
    class: &'a [u8],
    side: MethodSide,
    line: Vec<&'a ClassNames<'a>>,
}

impl<'a> Model for View<'a> {
    ghost use Rattle.std.specs.Prelude.{◌≡◌, map};
    ghost use Rattle.st_checks.specs.Declarations.{ancestors};
    ghost use Rattle.st_checks.specs.Views.{Viewpoint, viewpoint_code};

    ghost Value = { Viewpoint };

    ghost coded = { viewpoint_code };

    ghost view = { λ v. record { units = v.table.now; class = v.class.now; side = v.side } };

    ghost invariant = { λ v. map (λ c. c.now) v.line.items ≡ ancestors v.table.now v.class.now };
}

// The class of this name and its superclasses, upwards, as far as the file declares them.
fn line<'t, 'a>(
    alloc: Global,
    table: &'t Table<'a>,
    name: &[u8],
) -> Result<Vec<&'t ClassNames<'a>>, OutOfMemory>
    ensures { IfOk result (λ line. map (λ c. c.now) line.items ≡ ancestors table.now name.now) }
{
    let mut line = Vec::new(alloc);
    let mut above = table.class_names(name);
    for _step in 0..table.units().len() {
        let Some(class) = above else {
            return Ok(line);
        };
        line.push(class)?;
        above = table.class_names(class.superclass());
    }
    Ok(line)
}

// What the name stands for as that of a variable that the class shares with its subclasses.
fn in_class(table: &Table<'_>, class: &ClassNames<'_>, name: &[u8]) -> Meaning
    ensures { meant result ≡ or_else (assignable_if (list_any (bytes_eq name.now) class.now.class_names)) (in_pools table.now class.now.pools name.now) }
{
    if class.has_shared(name) {
        Meaning::Assignable
    } else {
        in_pools(table, class.pools(), name)
    }
}

// Whether one of these classes has an instance variable of this name, or on the class side a class instance variable.
fn any_has_own(line: &[&ClassNames<'_>], side: MethodSide, name: &[u8]) -> bool
    ensures { assignable_if result ≡ in_instances side (map (λ c. c.now) line.now) name.now }
{
    for class in line {
        if class.has_own(side, name) {
            return true;
        }
    }
    false
}

// What the name stands for in the first of these classes that shares it.
fn in_classes(table: &Table<'_>, line: &[&ClassNames<'_>], name: &[u8]) -> Meaning
    ensures { meant result ≡ in_classes table.now (map (λ c. c.now) line.now) name.now }
{
    for class in line {
        match in_class(table, class, name) {
            Meaning::Undeclared => {}
            found => return found,
        }
    }
    Meaning::Undeclared
}

// What the name stands for behind the instance variables.
fn shared(table: &Table<'_>, line: &[&ClassNames<'_>], name: &[u8]) -> Meaning
    ensures { meant result ≡ or_else (in_classes table.now (map (λ c. c.now) line.now) name.now) (in_program table.now name.now) }
{
    match in_classes(table, line, name) {
        Meaning::Undeclared => in_program(table, name),
        found => found,
    }
}

impl<'a> View<'a> {
    /// The view that this side of the class has of the file.
    pub(crate) fn new(
        alloc: Global,
        table: &'a Table<'a>,
        class: &'a [u8],
        side: MethodSide,
    ) -> Result<View<'a>, OutOfMemory>
        ensures { IfOk result (λ v. v ≡ record { units = table.now; class = class.now; side = side }) }
    {
        let line = line(alloc, table, class)?;
        Ok(View {
            table,
            class,
            side,
            line,
        })
    }

    /// What a name stands for that no scope of the body declares.
    pub(crate) fn meaning(&self, name: &[u8]) -> Meaning
        ensures { meant result ≡ outside self.now name.now }
    {
        let line = self.line.as_slice();
        if any_has_own(line, self.side, name) {
            Meaning::Assignable
        } else {
            shared(self.table, line, name)
        }
    }
}
