// What messages ask of a loaded program.
ghost use Rattle.std.specs.Prelude.{◌≡◌};
ghost use Rattle.std.specs.Option.{option_map};
ghost use Rattle.st_code.specs.Program.{class_at, number_of, body_at};
ghost use Rattle.st_code.specs.Lookup.{level, lookup, super_lookup, inherits};
ghost use Rattle.st_code.specs.Written.{indexed_by};
ghost use Rattle.program_image.specs.Finding.{coded, unit_codes};
ghost use Rattle.program_image.specs.Images.{on_side, as_row};
ghost use Rattle.st_machine.specs.Plans.{program_in};

use crate::loaded::Loaded;
use known_sends::KnownSend;
use object_heap::Value;
use program_image::{Found, Side};
use st_messages::ProgramFacts;
use st_names::Names;
use st_tree::units::Indexed;

const UNDEFINED_OBJECT: u32 = 1;

const CLASS: u32 = 20;

impl Loaded {
    /// The texts of the selectors and symbols by number.
    pub fn names(&self) -> &Names
        ensures { result.now ≡ (program_in self.now).names }
    {
        self.image().names()
    }

    // A method by the number of its code in place of that of its unit.
    fn coded(&self, found: Found) -> Found
        ensures { as_row result ≡ coded (unit_codes self.now.units) (as_row found) }
    {
        match found {
            Found::User(place) => Found::User(self.unit_code(place)),
            Found::BuiltIn(number) => Found::BuiltIn(number),
        }
    }

    fn coded_found(&self, found: Option<Found>) -> Option<Found>
        ensures { option_map as_row result ≡ option_map (coded (unit_codes self.now.units)) (option_map as_row found) }
    {
        match found {
            Some(found) => Some(self.coded(found)),
            None => None,
        }
    }

    // What a lookup from a class on a side finds.
    fn found(&self, side: Side, class: u32, selector: u32) -> Option<Found>
        ensures { option_map as_row result ≡ lookup (program_in self.now) (level (on_side side) class) selector }
    {
        self.coded_found(self.image().lookup(side, class, selector))
    }

    /// What a lookup from a class on a side finds, which is kept for the next time.
    pub fn recall(&mut self, side: Side, class: u32, selector: u32) -> Option<Found>
        ensures same { self.new ≡ self.old }
        ensures found { option_map as_row result ≡ lookup (program_in self.old) (level (on_side side) class) selector }
    {
        if let Some(found) = self.known(side, class, selector) {
            return Some(found);
        }
        let found = self.found(side, class, selector)?;
        self.keep(KnownSend {
            side,
            class,
            selector,
            found,
        });
        Some(found)
    }

    // What the classes above a class have for its instances.
    fn found_above(&self, class: u32, selector: u32) -> Option<Found>
        ensures { option_map as_row result ≡ super_lookup (program_in self.now) (Value.Class class) selector }
    {
        match self.image().superclass(class) {
            Some(above) => self.found(Side::Instance, above, selector),
            None => None,
        }
    }

    // What the classes above a class have for the class itself, and behind them `Class`.
    fn found_above_class(&self, class: u32, selector: u32) -> Option<Found>
        ensures { option_map as_row result ≡ super_lookup (program_in self.now) (Value.Meta class) selector }
    {
        match self.image().superclass(class) {
            Some(above) => self.found(Side::Class, above, selector),
            None => self.found(Side::Instance, CLASS, selector),
        }
    }
}

impl ProgramFacts for Loaded {
    ghost use Rattle.st_machine.specs.Plans.{program_in};

    ghost meaning = { program_in };

    fn names(&self) -> &Names {
        self.image().names()
    }

    fn name_number(&self, text: &[u8]) -> u32 {
        let names = self.image().names();
        match names.find(text) {
            Some(number) => number,
            None => names.len(),
        }
    }

    fn class_name(&self, class: u32) -> &[u8] {
        self.image().class_name(class)
    }

    fn superclass(&self, class: u32) -> Option<u32> {
        self.image().superclass(class)
    }

    fn is_in_file(&self, class: u32) -> bool {
        self.image().is_in_file(class)
    }

    fn indexed(&self, class: u32) -> Indexed {
        self.image().indexed(class)
    }

    fn slot_count(&self, class: u32) -> u32 {
        self.image().slots(class)
    }

    fn is_under(&self, class: u32, ancestor: u32) -> bool {
        self.image().inherits(class, ancestor)
    }

    fn find(&self, side: Side, class: u32, selector: u32) -> Option<Found> {
        self.found(side, class, selector)
    }

    fn find_above(&self, class: Value, selector: u32) -> Option<Found> {
        match class {
            Value::Class(class) => self.found_above(class, selector),
            Value::Meta(class) => self.found_above_class(class, selector),
            _ => self.found_above(UNDEFINED_OBJECT, selector),
        }
    }

    fn parameters(&self, code: u32) -> u32 {
        self.body_parameters(code)
    }
}
