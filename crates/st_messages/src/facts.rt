// What messages ask of the program that runs.
ghost use Rattle.std.specs.Prelude.{◌≡◌};
ghost use Rattle.std.specs.Option.{option_map};
ghost use Rattle.st_code.specs.Program.{Program, body_at, class_at, number_of};
ghost use Rattle.st_code.specs.Lookup.{level, lookup, super_lookup, inherits};
ghost use Rattle.st_code.specs.Written.{indexed_by};
ghost use Rattle.program_image.specs.Images.{on_side, as_row};

use object_heap::Value;
use program_image::{Found, Side};
use st_names::Names;
use st_tree::units::Indexed;

/// A program as messages read it. What a number names that isn't there is empty, none or 0.
pub trait ProgramFacts {
    /// The program.
    ghost meaning: { Self → Program };

    /// The selectors and symbols by number.
    fn names(&self) -> &Names
        ensures { result.now ≡ (meaning self.now).names };

    /// The number of a selector or symbol, one past the last where it isn't there.
    fn name_number(&self, text: &[u8]) -> u32
        ensures { result ≡ number_of (meaning self.now) text.now };

    /// The name of a class.
    fn class_name(&self, class: u32) -> &[u8]
        ensures { result.now ≡ (class_at (meaning self.now) class).name };

    fn superclass(&self, class: u32) -> Option<u32>
        ensures { result ≡ (class_at (meaning self.now) class).superclass };

    /// Whether the file declares a class.
    fn is_in_file(&self, class: u32) -> bool
        ensures { result ≡ (class_at (meaning self.now) class).in_file };

    /// How the instances of a class are indexed.
    fn indexed(&self, class: u32) -> Indexed
        ensures { indexed_by result ≡ (class_at (meaning self.now) class).indexed };

    /// How many named slots the instances of a class have.
    fn slot_count(&self, class: u32) -> u32
        ensures { result ≡ (class_at (meaning self.now) class).slots };

    /// Whether a class is the other one or stands under it.
    fn is_under(&self, class: u32, ancestor: u32) -> bool
        ensures { result ≡ inherits (meaning self.now) class ancestor };

    /// What a receiver whose lookup begins at this class finds for a selector. The number of a
    /// method is that of its code.
    fn find(&self, side: Side, class: u32, selector: u32) -> Option<Found>
        ensures { option_map as_row result ≡ lookup (meaning self.now) (level (on_side side) class) selector };

    /// What `super` finds in a body of this class or metaclass.
    fn find_above(&self, class: Value, selector: u32) -> Option<Found>
        ensures { option_map as_row result ≡ super_lookup (meaning self.now) class selector };

    /// How many parameters a code has.
    fn parameters(&self, code: u32) -> u32
        ensures { result ≡ (body_at (meaning self.now) code).parameters };
}
