// What a program finds is what its image finds.
ghost use Rattle.std.specs.Prelude.{List};
ghost use Rattle.st_tree.specs.declared.units.Unit.{Unit};
ghost use Rattle.st_code.specs.Definitions.{RunLimits};
ghost use Rattle.program_image.specs.Finding.{FindsAlike};

/// Lookup in the program that units define finds what lookup in their image finds, where a method
/// of the file goes by the number of its body in place of that of its unit.
#[tactic(auto, using(crate::proofs::FindingAlike::finds_alike))]
pub fn a_program_finds_what_its_image_finds()
    ensures { (units : List Unit) (limits : RunLimits) → FindsAlike units limits }
{}
