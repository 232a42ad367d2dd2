// Comparisons of any two numbers, which never meet the limit.
ghost use Rattle.std.specs.Prelude.{◌≡◌, ℕ, ◌<◌, ◌*◌, nat_lt};
ghost use Rattle.st_numbers.specs.Numbers.{IsProper, is_less};
ghost use Rattle.st_numbers.specs.Answers.{max_answer, min_answer};

use crate::answer::ratio_of;
use crate::message::{Number, NumberAnswer};

// Whether a/b is less than c/d: the whole parts decide, else what is left of both, turned over.
fn is_smaller(a: u128, b: u128, c: u128, d: u128) -> bool
    requires below { 0 < b }
    requires below_too { 0 < d }
    ensures { result ≡ nat_lt (a * d) (c * b) }
{
    let mut left = (a, b);
    let mut right = (c, d);
    loop {
        let whole = left.0 / left.1;
        let other = right.0 / right.1;
        if whole != other {
            return whole < other;
        }
        let rest = left.0 % left.1;
        let remainder = right.0 % right.1;
        if remainder == 0 {
            return false;
        }
        if rest == 0 {
            return true;
        }
        (left, right) = ((right.1, remainder), (left.1, rest));
    }
}

// Whether the first of any two numbers is less than the second.
fn is_lesser_quotient(x: Number, y: Number) -> bool
    requires receiver { IsProper x }
    requires argument { IsProper y }
    ensures { result ≡ is_less x y }
{
    let left = ratio_of(x);
    let right = ratio_of(y);
    let size = left.numerator.unsigned_abs();
    let other = right.numerator.unsigned_abs();
    match (left.numerator < 0, right.numerator < 0) {
        (false, false) => is_smaller(size, left.denominator, other, right.denominator),
        (true, false) => true,
        (false, true) => false,
        (true, true) => is_smaller(other, right.denominator, size, left.denominator),
    }
}

/// Whether the first number is less than the second.
#[tactic(auto, using(crate::proofs::WholeNumbers::integer_less))]
pub fn is_below(x: Number, y: Number) -> bool
    requires receiver { IsProper x }
    requires argument { IsProper y }
    ensures { result ≡ is_less x y }
{
    match (x, y) {
        (Number::Integer(a), Number::Integer(b)) => a < b,
        _ => is_lesser_quotient(x, y),
    }
}

/// The greater of the two: the receiver on a tie.
pub fn greater(x: Number, y: Number) -> NumberAnswer
    requires receiver { IsProper x }
    requires argument { IsProper y }
    ensures { result ≡ max_answer x y }
{
    if is_below(x, y) {
        return NumberAnswer::Argument;
    }
    NumberAnswer::Receiver
}

/// The lesser of the two: the receiver on a tie.
pub fn lesser(x: Number, y: Number) -> NumberAnswer
    requires receiver { IsProper x }
    requires argument { IsProper y }
    ensures { result ≡ min_answer x y }
{
    if is_below(y, x) {
        return NumberAnswer::Argument;
    }
    NumberAnswer::Receiver
}
