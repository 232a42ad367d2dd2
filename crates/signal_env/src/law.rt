// What a program's search comes to is what its image's comes to.
ghost use Rattle.std.specs.Prelude.{List};
ghost use Rattle.st_tree.specs.declared.units.Unit.{Unit};
ghost use Rattle.st_code.specs.Definitions.{RunLimits};
ghost use Rattle.signal_env.specs.Alike.{SearchesAlike};

/// In the program that units define and in their image, a class inherits alike, the same selectors
/// are plain, they fit alike, and a search for a handler comes to the same.
#[tactic(auto, using(crate::proofs::Alike::searches_alike))]
pub fn a_program_searches_as_its_image()
    ensures { (units : List Unit) (limits : RunLimits) → SearchesAlike units limits }
{}
