// How many elements an Interval has, and which.
ghost use Rattle.std.specs.Prelude.{◌≡◌, ℕ, ◌+◌, ◌-◌, ◌<◌, ◌≤◌, ◌^◌, pos, ◌+ℤ◌, ◌-ℤ◌, ◌*ℤ◌, FitsSigned, nat_lt};
ghost use Rattle.std.specs.Int.{w128};
ghost use Rattle.st_collections.specs.Kinds.{interval_size};

/// How many elements it has. By 0 it counts one.
#[tactic(auto, unfolding(crate::specs::Kinds::interval_size))]
pub fn interval_length(start: i128, stop: i128, by: i128) -> u128
    requires { interval_size start stop by < 2 ^ 127 }
    ensures { result ≡ interval_size start stop by }
{
    if by < 0 {
        if start < stop {
            return 0;
        }
        return start.abs_diff(stop) / by.unsigned_abs() + 1;
    }
    if stop < start {
        return 0;
    }
    if by == 0 {
        return 1;
    }
    stop.abs_diff(start) / by.unsigned_abs() + 1
}

/// Whether it has less than 2^127 elements.
#[tactic(auto, unfolding(crate::specs::Kinds::interval_size))]
pub fn has_few_elements(start: i128, stop: i128, by: i128) -> bool
    ensures { result ≡ nat_lt (interval_size start stop by) (2 ^ 127) }
{
    const MOST: u128 = i128::MAX as u128;
    if by < 0 {
        return start < stop || start.abs_diff(stop) / by.unsigned_abs() < MOST;
    }
    if by == 0 {
        return true;
    }
    stop < start || stop.abs_diff(start) / by.unsigned_abs() < MOST
}

// So far above a number.
fn number_above(start: i128, distance: u128) -> i128
    requires { FitsSigned w128 (start +ℤ pos distance) }
    ensures { result ≡ start +ℤ pos distance }
{
    match start.checked_add_unsigned(distance) {
        Some(number) => number,
        None => unreachable!(),
    }
}

// So far below a number.
fn number_below(start: i128, distance: u128) -> i128
    requires { FitsSigned w128 (start -ℤ pos distance) }
    ensures { result ≡ start -ℤ pos distance }
{
    match start.checked_sub_unsigned(distance) {
        Some(number) => number,
        None => unreachable!(),
    }
}

/// The element at a place, from 0.
pub fn interval_element(start: i128, stop: i128, by: i128, place: u128) -> i128
    requires { place ≤ interval_size start stop by - 1 }
    ensures { result ≡ start +ℤ pos place *ℤ by }
{
    let distance = place * by.unsigned_abs();
    if by < 0 {
        return number_below(start, distance);
    }
    number_above(start, distance)
}
