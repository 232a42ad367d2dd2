// Laws of reading.
ghost use Rattle.std.specs.Prelude.{◌≡◌, ◌↔◌, ◌++◌, ℕ, Bool, List, true, false};
ghost use Rattle.st_base.specs.declared.faults.Reason.{Reason};
ghost use Rattle.st_tree.specs.declared.units.Unit.{Unit};
ghost use Rattle.sif_elements.specs.Reading.{Reads, Refuses, Read, Refuse};
ghost use Rattle.st_tree.specs.Small.{IsSmall};
ghost use Rattle.sif_elements.specs.Steps.{reading};

/// Each file has exactly one reading: its units, or one refusal at one place.
pub fn each_file_has_one_reading()
    ensures reads { (bytes : List ℕ) (units : List Unit) → Reads bytes units ↔ (reading bytes ≡ Read units) }
    ensures refuses { (bytes : List ℕ) (number byte : ℕ) (why : Reason) → Refuses bytes true number byte why ↔ (reading bytes ≡ Refuse number byte why) }
{}

/// What some first bytes settle is the refusal of each input that begins with them.
pub fn a_settled_refusal_stays()
    ensures { (bytes more : List ℕ) (ended : Bool) (number byte : ℕ) (why : Reason) → Refuses bytes false number byte why → Refuses (bytes ++ more) ended number byte why }
{}

/// What a file is read as is small.
pub fn each_file_is_small()
    ensures { (bytes : List ℕ) (units : List Unit) → Reads bytes units → IsSmall units }
{}
