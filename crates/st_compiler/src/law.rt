// What holds of every code.
ghost use Rattle.std.specs.Prelude.{◌≡◌, true};
ghost use Rattle.st_code.specs.Program.{Program};
ghost use Rattle.st_code.specs.Compiled.{compile_of};
ghost use Rattle.st_compiler.specs.Ends.{all_end};

/// Each code of a program ends in a return: no body runs past its end.
#[tactic(auto, using(crate::proofs::Ends::codes_end))]
pub fn each_code_ends_in_a_return()
    ensures { (p : Program) → all_end (compile_of p) ≡ true }
{}
