// A send that was looked up, with what it found.
ghost use Rattle.std.specs.Prelude.{◌≡◌, get_or, IfSome, IsTrue, None};

use program_image::{Found, Side};

/// How many sends a program keeps.
pub const SENDS: usize = 1024;

/// A send that was looked up from a class on a side, with what it found.
#[derive(Clone, Copy, Debug, PartialEq, Eq)]
pub struct KnownSend {
    pub side: Side,
    pub class: u32,
    pub selector: u32,
    pub found: Found,
}

fn are_same(a: Side, b: Side) -> bool
    ensures { IsTrue result → a ≡ b }
{
    match (a, b) {
        (Side::Instance, Side::Instance) => true,
        (Side::Class, Side::Class) => true,
        (Side::Meta, Side::Meta) => true,
        _ => false,
    }
}

impl KnownSend {
    /// What it found, where it is this send.
    pub fn found_for(self, side: Side, class: u32, selector: u32) -> Option<Found>
        ensures { IfSome result (λ found. self ≡ record { side = side; class = class; selector = selector; found = found }) }
    {
        if self.class == class && self.selector == selector && are_same(self.side, side) {
            return Some(self.found);
        }
        None
    }
}

/// The place of a send among those that a program keeps.
pub fn place_of(class: u32, selector: u32) -> usize {
    (class as usize * 31 + selector as usize) % SENDS
}

/// The send at a place, if one is kept there.
pub fn send_at(sends: &[Option<KnownSend>], place: usize) -> Option<KnownSend>
    ensures { result ≡ get_or sends.now place None }
{
    if place < sends.len() {
        return sends[place];
    }
    None
}
