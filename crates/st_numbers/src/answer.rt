// Answers from sizes and signs: an integer or a quotient of any size, or the integer limit.
ghost use Rattle.std.specs.Prelude.{◌≡◌, ℕ, ◌<◌, ◌/◌, ◌*ℤ◌, pos, unsigned_abs, Some, None, if◌then◌else◌};
ghost use Rattle.st_numbers.specs.Gcd.{gcd};
ghost use Rattle.st_numbers.specs.Numbers.{in_range, signed, numerator_of, denominator_of, IsProper};
ghost use Rattle.st_numbers.specs.Answers.{integer_answer, ratio_answer, quotient_answer, truth};

use crate::divisor::greatest_divisor;
use crate::message::{Number, NumberAnswer};
use object_heap::Value;

/// A number as its numerator and its denominator, which is 1 for an Integer.
#[derive(Clone, Copy, Debug)]
pub struct Ratio {
    pub numerator: i128,
    pub denominator: u128,
}

pub fn ratio_of(number: Number) -> Ratio
    requires { IsProper number }
    ensures reduced { gcd (unsigned_abs result.numerator) result.denominator ≡ 1 }
    ensures positive { 0 < result.denominator }
    ensures numerator { result.numerator ≡ numerator_of number }
    ensures denominator { result.denominator ≡ denominator_of number }
{
    match number {
        Number::Integer(n) => Ratio {
            numerator: n,
            denominator: 1,
        },
        Number::Fraction(n, d) => Ratio {
            numerator: n,
            denominator: d.unsigned_abs(),
        },
    }
}

/// The integer of this size, less than 0 where `negative` is set, or None where it doesn't fit.
pub fn signed_value(negative: bool, size: u128) -> Option<i128>
    ensures { result ≡ (if in_range (signed negative size) then Some (signed negative size) else None) }
{
    const EDGE: u128 = 1 << 127;
    if size < EDGE {
        return Some(if negative {
            -(size as i128)
        } else {
            size as i128
        });
    }
    if negative && size == EDGE {
        return Some(i128::MIN);
    }
    None
}

/// `n` times `factor`, or None where that doesn't fit.
pub fn scaled(n: i128, factor: u128) -> Option<i128>
    ensures { result ≡ (if in_range (n *ℤ pos factor) then Some (n *ℤ pos factor) else None) }
{
    match n.unsigned_abs().checked_mul(factor) {
        Some(size) => signed_value(n < 0, size),
        None => None,
    }
}

pub fn answer_truth(holds: bool) -> NumberAnswer
    ensures { result ≡ truth holds }
{
    NumberAnswer::Value(if holds { Value::True } else { Value::False })
}

/// An Integer, or the integer limit where it doesn't fit.
pub fn answer_integer(negative: bool, size: u128) -> NumberAnswer
    ensures { result ≡ integer_answer (signed negative size) }
{
    match signed_value(negative, size) {
        Some(n) => NumberAnswer::Value(Value::Integer(n)),
        None => NumberAnswer::IntegerLimit,
    }
}

/// A quotient in lowest terms.
pub fn answer_ratio(negative: bool, numerator: u128, denominator: u128) -> NumberAnswer
    ensures { result ≡ ratio_answer (signed negative numerator) denominator }
{
    let Some(n) = signed_value(negative, numerator) else {
        return NumberAnswer::IntegerLimit;
    };
    let Some(d) = signed_value(false, denominator) else {
        return NumberAnswer::IntegerLimit;
    };
    if denominator == 1 {
        return NumberAnswer::Value(Value::Integer(n));
    }
    NumberAnswer::Fraction(n, d)
}

/// A quotient that may have common divisors still.
pub fn answer_quotient(negative: bool, numerator: u128, denominator: u128) -> NumberAnswer
    requires { 0 < denominator }
    ensures { result ≡ quotient_answer negative numerator denominator }
{
    let divisor = greatest_divisor(numerator, denominator);
    answer_ratio(negative, numerator / divisor, denominator / divisor)
}
