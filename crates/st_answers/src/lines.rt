// What `check` and `list` write of the units of a program.
ghost use Rattle.std.specs.Prelude.{◌≡◌, ◌<◌, ◌-◌, ◌^◌, ◌++◌, [], ◌∷◌, IfOk, OnOk};
ghost use Rattle.st_tree.specs.Numbers.{elements_in};
ghost use Rattle.st_answers.specs.Listing.{ok_line, unit_line, listing};

use itoa::Buffer;
use st_base::{OutOfMemory, Text};
use st_tree::units::{Definition, Unit, UnitKind};
use std::alloc::Global;

/// The line of `check`: how many units and elements there are.
pub fn ok_line(alloc: Global, definition: &Definition) -> Result<Vec<u8>, OutOfMemory>
    requires { elements_in definition.now.units < 2 ^ 32 - 1 }
    ensures { IfOk result (λ line. line.items ≡ ok_line definition.now.units) }
{
    let mut number = Buffer::new();
    let mut line = Vec::from_slice(alloc, b"ok ")?;
    line.extend_from_slice(number.format(definition.units.len()).as_bytes())?;
    line.extend_from_slice(b" units ")?;
    line.extend_from_slice(number.format(definition.elements()).as_bytes())?;
    line.extend_from_slice(b" elements\n")?;
    Ok(line)
}

// Adds a word and a name.
fn named(line: &mut Vec<u8>, word: &[u8], name: &Text) -> Result<(), OutOfMemory>
    ensures { OnOk result (line.new.items ≡ line.old.items ++ (word.now ++ name.now)) }
{
    line.extend_from_slice(word)?;
    line.extend_from_slice(name.as_bytes())?;
    Ok(())
}

// Adds a word and two names with something between them.
fn paired(
    line: &mut Vec<u8>,
    word: &[u8],
    first: &Text,
    between: &[u8],
    second: &Text,
) -> Result<(), OutOfMemory>
    ensures { OnOk result (line.new.items ≡ line.old.items ++ (word.now ++ first.now ++ between.now ++ second.now)) }
{
    named(line, word, first)?;
    named(line, between, second)
}

// Adds the line of a unit, without its end.
fn unit_line(line: &mut Vec<u8>, kind: &UnitKind) -> Result<(), OutOfMemory>
    ensures { OnOk result (line.new.items ≡ line.old.items ++ unit_line kind.now) }
{
    match kind {
        UnitKind::Version(text) => named(line, b"version ", text),
        UnitKind::Class(class) => paired(line, b"class ", &class.name, b" < ", &class.superclass),
        UnitKind::GlobalVariable(name) => named(line, b"variable ", name),
        UnitKind::GlobalConstant(name) => named(line, b"constant ", name),
        UnitKind::Pool(name) => named(line, b"pool ", name),
        UnitKind::PoolVariable { pool, name } => paired(line, b"variable ", pool, b".", name),
        UnitKind::PoolConstant { pool, name } => paired(line, b"constant ", pool, b".", name),
        UnitKind::Initializer { target, .. } => named(line, b"initializer ", target),
        UnitKind::PoolInitializer { pool, name, .. } => {
            paired(line, b"initializer ", pool, b".", name)
        }
        UnitKind::ProgramInitializer(_) => Ok(line.extend_from_slice(b"initializer")?),
        UnitKind::Method { class, method } => {
            paired(line, b"method ", class, b" ", &method.selector)
        }
        UnitKind::ClassMethod { class, method } => {
            paired(line, b"classMethod ", class, b" ", &method.selector)
        }
        UnitKind::Comment(_) => Ok(line.extend_from_slice(b"comment")?),
    }
}

// Adds the line of a unit.
fn list_unit(lines: &mut Vec<u8>, unit: &Unit) -> Result<(), OutOfMemory>
    ensures { OnOk result (lines.new.items ≡ lines.old.items ++ listing (unit.now ∷ [])) }
{
    unit_line(lines, &unit.kind)?;
    Ok(lines.extend_from_slice(b"\n")?)
}

/// The lines of `list`: one for each unit, in order.
pub fn listing(alloc: Global, units: &[Unit]) -> Result<Vec<u8>, OutOfMemory>
    ensures { IfOk result (λ lines. lines.items ≡ listing units.now) }
{
    let mut lines = Vec::new(alloc);
    for unit in units {
        list_unit(&mut lines, unit)?;
    }
    Ok(lines)
}
