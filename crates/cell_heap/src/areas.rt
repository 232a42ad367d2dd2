// Longer and cleared runs of cells, for which room was taken before.
ghost use Rattle.std.specs.Prelude.{◌≡◌, ℕ, ◌+◌, ◌<◌, ◌≤◌, ◌++◌, length, replicate, take, drop, get_or, vec_capacity};

use object_heap::Value;

/// So many more nils.
pub fn add_nils(values: &mut Vec<Value>, count: u32)
    requires { length values.old.items + count ≤ vec_capacity values.old }
    ensures items { values.new.items ≡ values.old.items ++ replicate count Value.Nil }
    ensures capacity { vec_capacity values.old ≤ vec_capacity values.new }
{
    let after = values.len() + count as usize;
    match values.resize(after, Value::Nil) {
        Ok(()) => (),
        Err(_) => unreachable!(),
    }
}

/// So many more zeros.
pub fn add_zeros(bytes: &mut Vec<u8>, count: u32)
    requires { length bytes.old.items + count ≤ vec_capacity bytes.old }
    ensures items { bytes.new.items ≡ bytes.old.items ++ replicate count 0 }
    ensures capacity { vec_capacity bytes.old ≤ vec_capacity bytes.new }
{
    let after = bytes.len() + count as usize;
    match bytes.resize(after, 0) {
        Ok(()) => (),
        Err(_) => unreachable!(),
    }
}

/// A copy of a run at the end.
pub fn copy_run(values: &mut Vec<Value>, first: usize, count: u32)
    requires inside { first + count ≤ length values.old.items }
    requires room { length values.old.items + count ≤ vec_capacity values.old }
    ensures items { values.new.items ≡ values.old.items ++ take count (drop first values.old.items) }
    ensures capacity { vec_capacity values.old ≤ vec_capacity values.new }
{
    match values.extend_from_within(first..first + count as usize) {
        Ok(()) => (),
        Err(_) => unreachable!(),
    }
}

/// Nil in each cell of a run.
pub fn clear_run(values: &mut Vec<Value>, first: usize, count: u32)
    requires { first + count ≤ length values.old.items }
    ensures length { length values.new.items ≡ length values.old.items }
    ensures inside { (k : ℕ) → first ≤ k → k < first + count → get_or values.new.items k Value.Nil ≡ Value.Nil }
    ensures below { (k : ℕ) → k < first → get_or values.new.items k Value.Nil ≡ get_or values.old.items k Value.Nil }
    ensures above { (k : ℕ) → first + count ≤ k → get_or values.new.items k Value.Nil ≡ get_or values.old.items k Value.Nil }
    ensures capacity { vec_capacity values.new ≡ vec_capacity values.old }
{
    values[first..first + count as usize].fill(Value::Nil);
}
