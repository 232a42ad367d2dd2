// For how many values that a work passes on there is room.
ghost use Rattle.std.specs.Prelude.{◌≡◌, ◌-◌, ◌^◌, max, min, map};
ghost use Rattle.st_code.specs.Compiled.{seen_code};
ghost use Rattle.st_machine.specs.Plans.{greatest_arity, greatest_parameters, room_in};

use crate::loaded::Loaded;
use st_code::Code;
use st_messages::{ProgramFacts, arity_of};
use st_names::Names;

fn greatest(a: u32, b: u32) -> u32
    ensures { result ≡ max a b }
{
    if a < b { b } else { a }
}

// A count, at most 2^32 - 1.
fn limited(count: usize) -> u32
    ensures { result ≡ min count (2 ^ 32 - 1) }
{
    if count < u32::MAX as usize {
        return count as u32;
    }
    u32::MAX
}

// The greatest count of arguments of a selector, at most 2^32 - 1.
fn greatest_arity(names: &Names) -> u32
    ensures { result ≡ min (greatest_arity names.now) (2 ^ 32 - 1) }
{
    let mut most = 0;
    for name in 0..names.len() {
        most = greatest(most, limited(arity_of(names.text(name))));
    }
    most
}

// The greatest count of parameters of a code.
fn greatest_parameters(codes: &[Code]) -> u32
    ensures { result ≡ greatest_parameters (map seen_code codes.now) }
{
    let mut most = 0;
    for code in codes {
        most = greatest(most, code.parameters);
    }
    most
}

/// Room for the operands of an activation, for the arguments of each selector and for those of
/// each block.
pub fn room_of(loaded: &Loaded) -> u32
    ensures { result ≡ room_in loaded.now }
{
    let parameters = greatest_parameters(loaded.codes());
    let arguments = greatest_arity(loaded.names());
    greatest(loaded.width(), greatest(parameters, arguments))
}
