// A program that is ready to run: its image, its code and the limits of its run.
ghost use Rattle.std.specs.Prelude.{◌≡◌, ◌+◌, ◌<◌, ◌-◌, ◌^◌, [], get_or, length, map, slice_get, IfOk, IfSome, Some};
ghost use Rattle.std.specs.Option.{option_map};
ghost use Rattle.st_rules.specs.Ends.{first_class_slot};
ghost use Rattle.st_rules.specs.Flat.{code_at, greatest_width};
ghost use Rattle.st_code.specs.Compiled.{seen_code};
ghost use Rattle.st_code.specs.Program.{body_at};
ghost use Rattle.st_code.specs.Lookup.{level, lookup};
ghost use Rattle.program_image.specs.Finding.{unit_codes};
ghost use Rattle.program_image.specs.Images.{on_side, as_row};
ghost use Rattle.known_sends.specs.KnownSends.{IsKnown};
ghost use Rattle.st_machine.specs.Plans.{plan_of, program_in, are_short, IsSmall};
ghost use Rattle.st_machine.specs.Signals.{text_in, slots_in};

use known_sends::{KnownSend, SENDS, place_of, send_at};
use object_heap::{Trouble, Value};
use program_image::{Found, Image, Side};
use st_base::{Limits, OutOfMemory};
use st_code::{Code, Instruction};
use st_compiler::{Initializer, Loaded as Compiled};
use std::alloc::Global;
use std::marker::Model;

/// A program that is ready to run. Contracts see its definitions, its code and its initializers,
/// all of which its units and limits determine.
#[derive(Drop)]
pub struct Loaded {
    program: Compiled,
    limits: Limits,
    sends: Vec<Option<KnownSend>>,
}

impl Model for Loaded {
    ghost use Rattle.std.specs.Coded.{codes as parts};
    ghost use Rattle.st_tree.specs.contracts.units.Unit as unit;
    ghost use Rattle.st_machine.specs.Seen.{Plan};

    ghost coded = { Prim.hlevel (parts, unit.the_row.coded) };

    ghost Value = { Plan };

    ghost use Rattle.st_machine.specs.Plans.{plan_of, program_in, IsSmall};
    ghost use Rattle.known_sends.specs.KnownSends.{AreKnown};

    ghost view = { λ l. plan_of l.program l.limits };

    ghost invariant = { λ l. IsSmall (plan_of l.program l.limits) × AreKnown (program_in (plan_of l.program l.limits)) l.sends.items };
}

impl Loaded {
    // The program with its limits, and no send kept.
    fn with_no_sends(
        alloc: Global,
        program: Compiled,
        limits: Limits,
    ) -> Result<Loaded, OutOfMemory>
        requires { IsSmall (plan_of program limits) }
        ensures { IfOk result (λ loaded. loaded ≡ plan_of program limits) }
    {
        let sends = vec![in alloc; None; SENDS]?;
        Ok(Loaded {
            program,
            limits,
            sends,
        })
    }

    /// A compiled program with the limits of its run. A code of 2^32 variables or more, or so many
    /// literals, count as want of memory.
    pub fn new(alloc: Global, program: Compiled, limits: Limits) -> Result<Loaded, OutOfMemory>
        ensures { IfOk result (λ loaded. loaded ≡ plan_of program limits) }
    {
        if program.literals() > u32::MAX - Trouble::COUNT {
            return Err(OutOfMemory);
        }
        if !are_short(program.codes()) {
            return Err(OutOfMemory);
        }
        Loaded::with_no_sends(alloc, program, limits)
    }

    /// What a send found before, where that is kept.
    pub(crate) fn known(&self, side: Side, class: u32, selector: u32) -> Option<Found>
        ensures { IfSome result (λ found. lookup (program_in self.now) (level (on_side side) class) selector ≡ Some (as_row found)) }
    {
        match send_at(&self.sends, place_of(class, selector)) {
            Some(known) => known.found_for(side, class, selector),
            None => None,
        }
    }

    /// Keeps what a send found, in the place of another.
    pub(crate) fn keep(&mut self, known: KnownSend)
        requires { IsKnown (program_in self.old) known }
        ensures { self.new ≡ self.old }
    {
        let place = place_of(known.class, known.selector);
        if place < self.sends.len() {
            self.sends[place] = Some(known);
        }
    }

    /// The image of the program.
    pub fn image(&self) -> &Image
        ensures { result.now ≡ self.now.units }
    {
        self.program.image()
    }

    /// The code of its bodies.
    pub(crate) fn codes(&self) -> &[Code]
        ensures { map seen_code result.now ≡ self.now.codes }
    {
        self.program.codes()
    }

    // A code by its number. None where there is none.
    fn code(&self, code: u32) -> Option<&Code>
        ensures code { option_map (λ c. seen_code c.now) result ≡ slice_get self.now.codes code }
        ensures short { IfSome result (λ c. length c.now.captured.items < 2 ^ 32) }
    {
        code_in(self.program.codes(), code)
    }

    /// The number of the code of a unit's body, by the place of the unit in the file.
    pub(crate) fn unit_code(&self, place: u32) -> u32
        ensures { result ≡ get_or (unit_codes self.now.units) place 0 }
    {
        match self.program.unit_codes().get(place as usize) {
            Some(code) => *code,
            None => 0,
        }
    }

    /// The initializers in file order.
    fn initializers(&self) -> &[Initializer]
        ensures { result.now ≡ self.now.initializers }
    {
        self.program.initializers()
    }

    /// The text of a trouble.
    pub fn trouble_text(&self, trouble: Trouble) -> Value
        ensures { result ≡ text_in self.now trouble }
    {
        Value::Object(self.program.literals() + trouble.place())
    }

    /// How many slots the instances of a class have.
    pub fn slots(&self, class: u32) -> u32
        ensures { result ≡ slots_in self.now class }
    {
        self.image().slots(class)
    }

    /// How many steps a run may make.
    pub fn step_limit(&self) -> u64
        ensures { result ≡ (program_in self.now).step_limit }
    {
        self.limits.steps
    }

    /// How many activations may stand at once.
    pub fn depth_limit(&self) -> u32
        ensures { result ≡ (program_in self.now).depth_limit }
    {
        self.limits.depth
    }

    /// How many variables the program has.
    pub fn variables(&self) -> usize
        ensures { result ≡ (program_in self.now).variables }
    {
        self.image().shared().len()
    }

    /// An initializer by its place in the file.
    pub fn initializer(&self, index: usize) -> Option<Initializer>
        ensures initializer { result ≡ slice_get self.now.initializers index }
        ensures counted { IfSome result (λ _. index < 2 ^ 64 - 1) }
    {
        let initializers = self.initializers();
        if index < initializers.len() {
            return Some(initializers[index]);
        }
        None
    }

    /// How many operands its codes ask for at most, and at least 8.
    pub fn width(&self) -> u32
        ensures { result ≡ greatest_width self.now.codes }
    {
        greatest_width(self.codes())
    }

    /// The place of the first class instance variable of a class among the program's variables.
    pub fn first_class_slot(&self, receiver: Value) -> u32
        ensures { result ≡ first_class_slot (program_in self.now) receiver }
    {
        match receiver {
            Value::Class(class) => self.image().class_slots(class),
            _ => 0,
        }
    }

    /// The instruction at a position of a code.
    pub fn instruction(&self, code: u32, position: u32) -> Option<Instruction>
        ensures { result ≡ slice_get (code_at self.now.codes code).instructions position }
    {
        match self.code(code) {
            Some(code) => instruction_in(code, position),
            None => None,
        }
    }

    /// Of each variable of a code, whether a block inside its body names it.
    pub fn captured(&self, code: u32) -> &[bool]
        ensures captured { result.now ≡ (code_at self.now.codes code).captured }
        ensures short { length result.now < 2 ^ 32 }
    {
        match self.code(code) {
            Some(code) => &code.captured,
            None => &[],
        }
    }

    /// The class that a code is written in.
    pub fn class(&self, code: u32) -> Value
        ensures { result ≡ (code_at self.now.codes code).class }
    {
        match self.code(code) {
            Some(code) => code.class,
            None => Value::Nil,
        }
    }

    /// How many values a block's code takes.
    pub fn parameters(&self, code: u32) -> u32
        ensures { result ≡ (code_at self.now.codes code).parameters }
    {
        match self.code(code) {
            Some(code) => code.parameters,
            None => 0,
        }
    }
}

impl Loaded {
    /// How many parameters a body of the program has, by its number.
    pub(crate) fn body_parameters(&self, code: u32) -> u32
        ensures { result ≡ (body_at (program_in self.now) code).parameters }
    {
        match code_in(self.program.codes(), code) {
            Some(code) => code.parameters,
            None => 0,
        }
    }
}

// A code by its number. None where there is none.
fn code_in(codes: &[Code], code: u32) -> Option<&Code>
    ensures { option_map (λ c. seen_code c.now) result ≡ slice_get (map seen_code codes.now) code }
{
    codes.get(code as usize)
}

// The instruction at a position.
fn instruction_in(code: &Code, position: u32) -> Option<Instruction>
    ensures { result ≡ slice_get code.now.instructions.items position }
{
    if (position as usize) < code.instructions.len() {
        return Some(code.instructions[position as usize]);
    }
    None
}

// Whether each code has fewer than 2^32 variables.
fn are_short(codes: &[Code]) -> bool
    ensures { result ≡ are_short (map seen_code codes.now) }
{
    for code in codes {
        if code.captured.len() > u32::MAX as usize {
            return false;
        }
    }
    true
}

// How many operands these codes ask for at most, and at least 8.
fn greatest_width(codes: &[Code]) -> u32
    ensures { result ≡ greatest_width (map seen_code codes.now) }
{
    let mut greatest = 8;
    for code in codes {
        if greatest < code.width {
            greatest = code.width;
        }
    }
    greatest
}
