// A definition without the methods that its run can't reach by name.
ghost use Rattle.std.specs.Prelude.{◌≡◌, IfOk};
ghost use Rattle.st_code.specs.Resolved.{has_text};
ghost use Rattle.st_shake.specs.Shaken.{kept, shaken, stays};

use crate::needed::needed;
use st_base::OutOfMemory;
use st_names::Names;
use st_tree::units::{Definition, Unit, UnitKind, UnitList};
use std::alloc::Global;

fn is_among(selectors: &Names, selector: &[u8]) -> bool
    ensures { result ≡ has_text selectors.now selector.now }
{
    selectors.find(selector).is_some()
}

// Whether a unit is no method, or one of these selectors.
fn stays(selectors: &Names, unit: &Unit) -> bool
    ensures { result ≡ stays selectors.now unit.now }
{
    match &unit.kind {
        UnitKind::Method { method, .. } => is_among(selectors, method.selector.as_bytes()),
        UnitKind::ClassMethod { method, .. } => is_among(selectors, method.selector.as_bytes()),
        UnitKind::Version(_)
        | UnitKind::Class(_)
        | UnitKind::GlobalVariable(_)
        | UnitKind::GlobalConstant(_)
        | UnitKind::Pool(_)
        | UnitKind::PoolVariable { .. }
        | UnitKind::PoolConstant { .. }
        | UnitKind::Initializer { .. }
        | UnitKind::PoolInitializer { .. }
        | UnitKind::ProgramInitializer(_)
        | UnitKind::Comment(_) => true,
    }
}

// Copies of the units that stay.
fn kept(alloc: Global, selectors: &Names, units: &[Unit]) -> Result<UnitList, OutOfMemory>
    ensures { IfOk result (λ l. l ≡ kept selectors.now units.now) }
{
    let mut all = UnitList::new(alloc);
    for unit in units {
        if stays(selectors, unit) {
            all.push(unit.copy(alloc)?)?;
        }
    }
    Ok(all)
}

/// The program without the methods, of either side, that its run can't reach by name: whose selector
/// stands in no initializer and in no method that is kept, as what is sent or as a symbol, and is
/// none that rules, messages and the machine send by themselves. All other units stay, each with its
/// annotations. Time and memory are linear in the program.
pub fn shake(alloc: Global, definition: &Definition) -> Result<Definition, OutOfMemory>
    ensures { IfOk result (λ d. d.units ≡ shaken definition.now.units) }
{
    let units = definition.units.as_slice();
    let selectors = needed(alloc, units)?;
    Ok(Definition {
        units: kept(alloc, &selectors, units)?,
    })
}
