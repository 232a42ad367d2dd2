// The selectors that a run can come to by name.
ghost use Rattle.std.specs.Prelude.{◌≡◌, ◌++◌, map, IfOk, OnOk};
ghost use Rattle.std.specs.Str.{bytes_eq};
ghost use Rattle.indexmap.specs.IndexSet.{insert_key};
ghost use Rattle.st_code.specs.Written.{named_unit, named_units};
ghost use Rattle.program_image.specs.Spelled.{spelled};
ghost use Rattle.st_shake.specs.Needed.{always_needed, first_kind, methods_of, texts_of, IsLeast};

use crate::methods::Methods;
use program_image::spell_body;
use st_base::OutOfMemory;
use st_names::Names;
use st_tree::units::{Unit, UnitKind};
use std::alloc::Global;

// What rules, messages and the machine send by themselves, and what a caller may.
static ALWAYS_NEEDED: [&str; 12] = [
    "doesNotUnderstand:",
    "defaultAction",
    "isResumable",
    "handles:",
    "printString",
    "=",
    "value",
    "value:",
    "value:value:",
    "value:value:value:",
    "value:value:value:value:",
    "valueWithArguments:",
];

// Adds a selector, unless it is there.
fn need(names: &mut Names, selector: &str) -> Result<(), OutOfMemory>
    ensures { OnOk result (names.new ≡ insert_key bytes_eq names.old selector.now) }
{
    if names.len() == u32::MAX {
        return Err(OutOfMemory);
    }
    names.intern(selector.as_bytes())?;
    Ok(())
}

fn need_each(names: &mut Names, selectors: &[&str]) -> Result<(), OutOfMemory>
    ensures { OnOk result (names.new ≡ spelled names.old (map (λ s. s.now) selectors.now)) }
{
    for selector in selectors {
        need(names, selector)?;
    }
    Ok(())
}

// Adds what is always needed.
fn need_always(names: &mut Names) -> Result<(), OutOfMemory>
    ensures { OnOk result (names.new ≡ spelled names.old always_needed) }
{
    need_each(names, &ALWAYS_NEEDED)
}

// Adds what a unit spells that is an initializer.
fn need_unit(names: &mut Names, unit: &Unit) -> Result<(), OutOfMemory>
    ensures { OnOk result (names.new ≡ spelled names.old (first_kind (named_unit unit.now))) }
{
    match &unit.kind {
        UnitKind::Initializer { body, .. } => spell_body(names, body),
        UnitKind::PoolInitializer { body, .. } => spell_body(names, body),
        UnitKind::ProgramInitializer(body) => spell_body(names, body),
        UnitKind::Version(_)
        | UnitKind::Class(_)
        | UnitKind::GlobalVariable(_)
        | UnitKind::GlobalConstant(_)
        | UnitKind::Pool(_)
        | UnitKind::PoolVariable { .. }
        | UnitKind::PoolConstant { .. }
        | UnitKind::Method { .. }
        | UnitKind::ClassMethod { .. }
        | UnitKind::Comment(_) => Ok(()),
    }
}

// Adds what the initializers spell.
fn need_initializers(names: &mut Names, units: &[Unit]) -> Result<(), OutOfMemory>
    ensures { OnOk result (names.new ≡ spelled names.old (texts_of (named_units units.now))) }
{
    for unit in units {
        need_unit(names, unit)?;
    }
    Ok(())
}

// Adds what the methods of each selector spell that is there, those too that come so.
fn take_in(names: &mut Names, methods: &Methods<'_>) -> Result<(), OutOfMemory>
    ensures { OnOk result (IsLeast methods.now names.old names.new) }
{
    let mut number = 0;
    while number < names.len() {
        let last = methods.last(names.text(number));
        methods.spell_from(last, names)?;
        number += 1;
    }
    Ok(())
}

/// The least set of selectors that a run of these units needs.
pub(crate) fn needed(alloc: Global, units: &[Unit]) -> Result<Names, OutOfMemory>
    ensures { IfOk result (λ names. IsLeast (methods_of (named_units units.now)) (always_needed ++ texts_of (named_units units.now)) names) }
{
    let methods = Methods::new(alloc, units)?;
    let mut names = Names::new(alloc);
    need_always(&mut names)?;
    need_initializers(&mut names, units)?;
    take_in(&mut names, &methods)?;
    Ok(names)
}
