// A program that meets the static rules, and the check that makes one.
ghost use Rattle.std.specs.Prelude.{◌≡◌, ◌<◌, ◌-◌, ◌^◌, length, IfOk, IfSome};
ghost use Rattle.std.specs.Option.{option_map};
ghost use Rattle.st_tree.specs.Numbers.{elements_in};
ghost use Rattle.st_checks.specs.Answers.{Answers, located};
ghost use Rattle.st_checks.specs.StaticRules.{MeetsRules, first_break};

use crate::broken::Broken;
use crate::rules::unit_fault;
use crate::table::Table;
use st_base::{OutOfMemory, Place, Reason};
use st_tree::units::Definition;
use std::alloc::Global;
use std::marker::Model;

/// A program that meets the static rules (ANSI NCITS 319, 3.3, 3.4, 4.1). Contracts see the program.
#[derive(Drop)]
pub struct Checked {
    definition: Definition,
}

impl Model for Checked {
    ghost use Rattle.std.specs.Prelude.{◌<◌, ◌-◌, ◌^◌};
    ghost use Rattle.st_tree.specs.Numbers.{elements_in};
    ghost use Rattle.st_tree.specs.contracts.units.Definition as program;
    ghost use Rattle.st_tree.specs.declared.units.Definition.{Definition};
    ghost use Rattle.st_checks.specs.StaticRules.{MeetsRules};

    ghost coded = { program.the_row.coded };

    ghost Value = { Definition };

    ghost view = { λ c. c.definition };

    ghost invariant = { λ c. MeetsRules c.definition.units × (elements_in c.definition.units < 2 ^ 32 - 1) };
}

impl Checked {
    /// The program that was checked, all places included.
    pub fn definition(&self) -> &Definition
        ensures same { result.now ≡ self.now }
        ensures meets { MeetsRules self.now.units }
        ensures few { elements_in self.now.units < 2 ^ 32 - 1 }
    {
        &self.definition
    }

    /// The program alone.
    pub fn into_definition(self) -> Definition
        ensures same { result ≡ self }
        ensures meets { MeetsRules result.units }
        ensures few { elements_in result.units < 2 ^ 32 - 1 }
    {
        self.definition
    }
}

/// What a check answers.
#[derive(Drop)]
pub enum CheckAnswer {
    /// No unit breaks a rule.
    Checked(Checked),
    /// The first unit that breaks a rule, and the first rule that it breaks: the place of the unit, or the least place
    /// of a name in its body.
    Refused(Place, Reason),
    /// Memory was wanted.
    OutOfMemory,
}

/// A unit, counted from 0, and the rule that it breaks.
#[derive(Clone, Copy, Debug, PartialEq, Eq)]
struct UnitFault {
    unit: usize,
    broken: Broken,
}

// The first unit that breaks a rule, with the first rule that it breaks.
fn first_fault(alloc: Global, definition: &Definition) -> Result<Option<UnitFault>, OutOfMemory>
    ensures fault { IfOk result (λ f. option_map (located definition.now.units) f ≡ first_break definition.now.units) }
    ensures there { IfOk result (λ f. IfSome f (λ f. f.unit < length definition.now.units)) }
{
    let table = Table::new(alloc, definition.units.as_slice())?;
    for (n, unit) in definition.units.as_slice().iter().enumerate() {
        let fault = unit_fault(alloc, &table, n, unit)?;
        if let Some(broken) = fault {
            return Ok(Some(UnitFault { unit: n, broken }));
        }
    }
    Ok(None)
}

// The place of a unit's fault.
fn place(definition: &Definition, fault: UnitFault) -> Place
    requires few { elements_in definition.now.units < 2 ^ 32 - 1 }
    requires there { fault.unit < length definition.now.units }
    ensures { result ≡ (located definition.now.units fault).place }
{
    let element = definition.element_of(fault.unit);
    match fault.broken.body_byte {
        Some(byte) => Place {
            element: element + 1,
            byte,
        },
        None => Place { element, byte: 0 },
    }
}

/// Checks a program: each unit against the whole file, and the names in its body. A name resolves against all units of
/// the file, later ones included; of two declarations the first counts.
pub fn check(alloc: Global, definition: Definition) -> CheckAnswer
    requires { elements_in definition.units < 2 ^ 32 - 1 }
    ensures { Answers definition result }
{
    match first_fault(alloc, &definition) {
        Ok(None) => CheckAnswer::Checked(Checked { definition }),
        Ok(Some(fault)) => { CheckAnswer::Refused(place(&definition, fault), fault.broken.reason) }
        Err(OutOfMemory) => CheckAnswer::OutOfMemory,
    }
}
