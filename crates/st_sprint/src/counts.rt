// Numbers that loops and Intervals count by.
ghost use Rattle.std.specs.Prelude.{◌≡◌};
ghost use Rattle.st_collections.specs.Kinds.{integer_of};
ghost use Rattle.st_loops.specs.Counts.{is_past};

use object_heap::Value;

/// An Integer's number, and 0 of any other value.
pub fn integer_of(value: Value) -> i128
    ensures { result ≡ integer_of value }
{
    match value {
        Value::Integer(number) => number,
        _ => 0,
    }
}

/// Whether a number is past the stop.
pub fn is_past(step: i128, value: i128, stop: i128) -> bool
    ensures { result ≡ is_past step value stop }
{
    if step < 0 {
        return value < stop;
    }
    stop < value
}
