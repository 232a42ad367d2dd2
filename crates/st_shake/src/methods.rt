// The methods of a file by their selectors.
ghost use Rattle.std.specs.Prelude.{◌≡◌, ◌<◌, length, IfOk, IfSome, OnOk};
ghost use Rattle.st_code.specs.Written.{named_method, named_unit, named_units};
ghost use Rattle.program_image.specs.Spelled.{spelled};
ghost use Rattle.st_shake.specs.Needed.{kind_method, method_of, methods_of};
ghost use Rattle.st_shake.specs.Table.{from_place, last_of, Gains, GainsMethod};

use indexmap::IndexMap;
use program_image::spell_body;
use st_base::OutOfMemory;
use st_names::Names;
use st_tree::tree::Method;
use st_tree::units::{Unit, UnitKind};
use std::alloc::Global;
use std::marker::Model;

// A method, and the place of the one before it that has the same selector.
#[derive(Drop)]
pub(crate) struct Entry<'a> {
    method: &'a Method,
    earlier: Option<usize>,
}

/// The methods of a file, of either side, by their selectors. Contracts see them in file order,
/// each by what it spells.
#[derive(Drop)]
pub(crate) struct Methods<'a> {
    entries: Vec<Entry<'a>>,
    // the place of the last method of each selector
    last: IndexMap<&'a [u8], usize>,
}

impl<'a> Model for Methods<'a> {
    ghost use Rattle.std.specs.Prelude.{List};
    ghost use Rattle.st_shake.specs.Needed.{Method as Spelling};
    ghost use Rattle.st_shake.specs.Table.{entry_methods, IsTable};

    ghost Value = { List Spelling };

    ghost view = { λ m. entry_methods m.entries.items };

    ghost invariant = { λ m. IsTable m.entries.items m.last };
}

// Adds a method behind the others.
fn add<'a>(
    entries: &mut Vec<Entry<'a>>,
    last: &mut IndexMap<&'a [u8], usize>,
    method: &'a Method,
) -> Result<(), OutOfMemory>
    ensures { OnOk result (GainsMethod entries.old.items last.old (method_of (named_method method.now)) entries.new.items last.new) }
{
    let earlier = last.insert(method.selector.as_bytes(), entries.len())?;
    entries.push(Entry { method, earlier })?;
    Ok(())
}

// Adds the method that a unit defines, where it defines one.
fn add_unit<'a>(
    entries: &mut Vec<Entry<'a>>,
    last: &mut IndexMap<&'a [u8], usize>,
    unit: &'a Unit,
) -> Result<(), OutOfMemory>
    ensures { OnOk result (Gains entries.old.items last.old (kind_method (named_unit unit.now)) entries.new.items last.new) }
{
    match &unit.kind {
        UnitKind::Method { method, .. } => add(entries, last, method),
        UnitKind::ClassMethod { method, .. } => add(entries, last, method),
        UnitKind::Version(_)
        | UnitKind::Class(_)
        | UnitKind::GlobalVariable(_)
        | UnitKind::GlobalConstant(_)
        | UnitKind::Pool(_)
        | UnitKind::PoolVariable { .. }
        | UnitKind::PoolConstant { .. }
        | UnitKind::Initializer { .. }
        | UnitKind::PoolInitializer { .. }
        | UnitKind::ProgramInitializer(_)
        | UnitKind::Comment(_) => Ok(()),
    }
}

impl<'a> Methods<'a> {
    /// The methods of these units.
    pub(crate) fn new(alloc: Global, units: &'a [Unit]) -> Result<Methods<'a>, OutOfMemory>
        ensures { IfOk result (λ m. m ≡ methods_of (named_units units.now)) }
    {
        let mut entries = Vec::new(alloc);
        let mut last = IndexMap::new(alloc);
        for unit in units {
            add_unit(&mut entries, &mut last, unit)?;
        }
        Ok(Methods { entries, last })
    }

    /// The place of the last method that has this selector.
    pub(crate) fn last(&self, selector: &[u8]) -> Option<usize>
        ensures { result ≡ last_of self.now selector.now (length self.now) }
    {
        self.last.get(selector).copied()
    }

    /// Adds what the method at this place spells, and those before it that have its selector.
    pub(crate) fn spell_from(
        &self,
        place: Option<usize>,
        names: &mut Names,
    ) -> Result<(), OutOfMemory>
        requires { IfSome place (λ n. n < length self.now) }
        ensures { OnOk result (names.new ≡ spelled names.old (from_place self.now place)) }
    {
        let mut next = place;
        while let Some(place) = next {
            let entry = &self.entries[place];
            spell_body(names, &entry.method.body)?;
            next = entry.earlier;
        }
        Ok(())
    }
}
