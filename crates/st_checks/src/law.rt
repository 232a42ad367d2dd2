// The first break is the first of all breaks.
ghost use Rattle.std.specs.Prelude.{List};
ghost use Rattle.st_tree.specs.declared.units.Unit.{Unit};
ghost use Rattle.st_checks.specs.Breaks.{IsFirst};
ghost use Rattle.st_checks.specs.StaticRules.{first_break};

/// The break that a check answers is that of the first unit that breaks a rule, there of the first rule, and there at
/// the least place; and where it answers none, no unit breaks any rule.
#[tactic(auto, using(crate::proofs::FirstLaw::first_break_is_first))]
pub fn the_first_break_is_first()
    ensures { (units : List Unit) → IsFirst units (first_break units) }
{}
