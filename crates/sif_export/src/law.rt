// Laws of the canonical text.
ghost use Rattle.std.specs.Prelude.{ℕ, List};
ghost use Rattle.st_tree.specs.declared.units.Definition.{Definition};
ghost use Rattle.st_tree.specs.declared.units.Unit.{Unit};
ghost use Rattle.sif_elements.specs.Reading.{Reads};
ghost use Rattle.sif_export.specs.ExportText.{export_text};
ghost use Rattle.sif_export.specs.RoundTrip.{IsReadable, ReadsAs, is_within, Outcome};
ghost use Rattle.sif_export.specs.Canonical.{IsCanonical};

/// The units that were read of a file are readable.
pub fn what_is_read_is_readable()
    ensures { (bytes : List ℕ) (units : List Unit) → Reads bytes units → IsReadable units }
{}

/// The text of a readable program is split into elements that are a program that is the same.
/// Reading it gives such a program where neither the text nor one of its elements is longer than the
/// longest, and else that it is too long.
pub fn a_text_is_read_as_its_program()
    ensures reads { (d : Definition) → IsReadable d.units → ReadsAs (export_text d.units) d }
    ensures outcome { (d : Definition) → IsReadable d.units → Outcome (is_within d.units) d (export_text d.units) }
{}

/// Two readable programs have equal texts exactly where they are the same.
pub fn texts_are_canonical()
    ensures { (a b : Definition) → IsCanonical a b }
{}
