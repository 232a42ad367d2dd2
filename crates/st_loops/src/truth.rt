// Whether a value is `true` or `false`.
ghost use Rattle.std.specs.Prelude.{◌≡◌};
ghost use Rattle.object_heap.specs.declared.value.Value.{Value};
ghost use Rattle.st_collections.specs.Kinds.{is_true, same_value};

use object_heap::Value;

#[tactic(auto, unfolding(st_collections::specs::Kinds::same_value))]
pub fn is_true(value: Value) -> bool
    ensures yes_value { result ≡ is_true value }
    ensures same { result ≡ same_value value Value.True }
{
    match value {
        Value::True => true,
        _ => false,
    }
}

#[tactic(auto, unfolding(st_collections::specs::Kinds::same_value))]
pub fn is_false(value: Value) -> bool
    ensures { result ≡ same_value value Value.False }
{
    match value {
        Value::False => true,
        _ => false,
    }
}
