// The entries of the table of methods: the methods of the file, and the built-in messages behind them.
ghost use Rattle.std.specs.Prelude.{◌≡◌, ◌++◌, map, IfOk, OnOk};
ghost use Rattle.std.specs.Option.{option_map};
ghost use Rattle.st_base.specs.BuiltIns.{messages, message_row};
ghost use Rattle.st_code.specs.Written.{named_unit, named_method};
ghost use Rattle.program_image.specs.Images as image;

use crate::declarations::Declarations;
use crate::table::{Entry, Found, Key, Side};
use st_base::{BuiltInMessage, MethodSide, OutOfMemory, built_in_messages};
use st_tree::tree::Method;
use st_tree::units::{Unit, UnitKind};
use std::alloc::Global;

// A method of a class on a side, by the place of its unit.
fn method_entry(
    declarations: &Declarations,
    place: u32,
    side: Side,
    class: &[u8],
    method: &Method,
) -> Entry
    ensures { result ≡ image.method_entry (image.method_of declarations.now place (image.on_side side) class.now (named_method method.now)) }
{
    Entry {
        key: Key {
            selector: declarations.name_number(method.selector.as_bytes()),
            side,
            class: declarations.class_number(class).unwrap_or(0),
        },
        found: Found::User(place),
    }
}

// The method that a unit defines, where it defines one.
fn entry_of(declarations: &Declarations, place: u32, unit: &Unit) -> Option<Entry>
    ensures { result ≡ option_map image.method_entry (image.method_here declarations.now place (named_unit unit.now)) }
{
    match &unit.kind {
        UnitKind::Method { class, method } => {
            let class = class.as_bytes();
            Some(method_entry(declarations, place, Side::Instance, class, method))
        }
        UnitKind::ClassMethod { class, method } => {
            let class = class.as_bytes();
            Some(method_entry(declarations, place, Side::Class, class, method))
        }
        UnitKind::Version(_)
        | UnitKind::Class(_)
        | UnitKind::GlobalVariable(_)
        | UnitKind::GlobalConstant(_)
        | UnitKind::Pool(_)
        | UnitKind::PoolVariable { .. }
        | UnitKind::PoolConstant { .. }
        | UnitKind::Initializer { .. }
        | UnitKind::PoolInitializer { .. }
        | UnitKind::ProgramInitializer(_)
        | UnitKind::Comment(_) => None,
    }
}

// Adds the methods of the file.
fn push_methods(
    entries: &mut Vec<Entry>,
    declarations: &Declarations,
    units: &[Unit],
) -> Result<(), OutOfMemory>
    ensures { OnOk result (entries.new.items ≡ entries.old.items ++ map image.method_entry (image.methods_from declarations.now 0 units.now)) }
{
    let mut place = 0;
    for unit in units {
        if place == u32::MAX {
            return Err(OutOfMemory);
        }
        if let Some(entry) = entry_of(declarations, place, unit) {
            entries.push(entry)?;
        }
        place += 1;
    }
    Ok(())
}

fn side_of(side: MethodSide) -> Side
    ensures { result ≡ image.message_side side }
{
    match side {
        MethodSide::Instance => Side::Instance,
        MethodSide::Class => Side::Class,
    }
}

// A built-in message with its number.
fn message_entry(declarations: &Declarations, number: u16, message: &BuiltInMessage) -> Entry
    ensures { result ≡ image.message_entry declarations.now.names number (message_row message.now) }
{
    Entry {
        key: Key {
            selector: declarations.name_number(message.selector().as_bytes()),
            side: side_of(message.side()),
            class: message.class(),
        },
        found: Found::BuiltIn(number),
    }
}

// Adds the built-in messages.
fn push_messages(entries: &mut Vec<Entry>, declarations: &Declarations) -> Result<(), OutOfMemory>
    ensures { OnOk result (entries.new.items ≡ entries.old.items ++ image.message_entries declarations.now.names 0 messages) }
{
    let mut number = 0;
    for message in built_in_messages() {
        entries.push(message_entry(declarations, number, message))?;
        number += 1;
    }
    Ok(())
}

/// The methods of the file and the built-in messages, each by its key.
pub(crate) fn entries_of(
    alloc: Global,
    declarations: &Declarations,
    units: &[Unit],
) -> Result<Vec<Entry>, OutOfMemory>
    ensures { IfOk result (λ entries. entries.items ≡ image.entries_with declarations.now units.now) }
{
    let mut entries = Vec::new(alloc);
    push_methods(&mut entries, declarations, units)?;
    push_messages(&mut entries, declarations)?;
    Ok(entries)
}
