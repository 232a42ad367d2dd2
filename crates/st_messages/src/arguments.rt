// The arguments of a message by place. An argument that isn't there is nil.
ghost use Rattle.std.specs.Prelude.{◌≡◌, ◌<◌, ◌^◌, IfOk};
ghost use Rattle.st_collections.specs.Answers.{place_of_index, size_result};
ghost use Rattle.st_collections.specs.Actions.{first, second};

use object_heap::{Trouble, Value};

pub fn first_of(arguments: &[Value]) -> Value
    ensures { result ≡ first arguments.now }
{
    match arguments {
        [value, ..] => *value,
        [] => Value::Nil,
    }
}

pub fn second_of(arguments: &[Value]) -> Value
    ensures { result ≡ second arguments.now }
{
    match arguments {
        [_, value, ..] => *value,
        _ => Value::Nil,
    }
}

/// The place, from 0, of an index from 1 to the size.
pub fn place_of(index: Value, size: u32) -> Result<u32, Trouble>
    ensures place { result ≡ place_of_index size index }
    ensures within { IfOk result (λ place. place < size) }
{
    match index {
        Value::Integer(number) => {
            if number < 1 {
                return Err(Trouble::IndexOutOfRange);
            }
            let index = number as u128;
            if index > size as u128 {
                return Err(Trouble::IndexOutOfRange);
            }
            Ok((index - 1) as u32)
        }
        _ => Err(Trouble::NumberExpected),
    }
}

/// A size of at least 0.
pub fn size_asked(size: Value) -> Result<u128, Trouble>
    ensures size { result ≡ size_result size }
    ensures fits { IfOk result (λ size. size < 2 ^ 127) }
{
    match size {
        Value::Integer(number) => {
            if number < 0 {
                return Err(Trouble::IndexOutOfRange);
            }
            Ok(number as u128)
        }
        _ => Err(Trouble::NumberExpected),
    }
}
