// Messages between two Integers: quotients that are rounded, divisors, bits.
ghost use Rattle.std.specs.Prelude.{◌≡◌, ◌<◌, ◌*◌, ◌/◌, ◌^◌, pos};
ghost use Rattle.std.specs.Int.{int_shr};
ghost use Rattle.st_numbers.specs.Gcd.{gcd};
ghost use Rattle.st_numbers.specs.Numbers.{signed};
ghost use Rattle.st_numbers.specs.Answers.{given_integers, integer_answer, floor_rest, floor_answer, modulo_answer, quo_answer, rem_answer, gcd_answer, lcm_answer, bit_and_answer, bit_or_answer, bit_xor_answer, shift_answer};

use crate::answer::answer_integer;
use crate::divisor::greatest_divisor;
use crate::message::{Number, NumberAnswer};
use object_heap::{Trouble, Value};

/// `//`: rounded to minus infinity.
pub fn floor_divide(x: Number, y: Number) -> NumberAnswer
    ensures { result ≡ given_integers floor_answer x y }
{
    match (x, y) {
        (Number::Integer(x), Number::Integer(y)) => floor_quotient_of(x, y),
        _ => NumberAnswer::Trouble(Trouble::NumberExpected),
    }
}

/// `\\`: what is left of `//`, with the sign of the divisor.
pub fn modulo(x: Number, y: Number) -> NumberAnswer
    ensures { result ≡ given_integers modulo_answer x y }
{
    match (x, y) {
        (Number::Integer(x), Number::Integer(y)) => modulo_of(x, y),
        _ => NumberAnswer::Trouble(Trouble::NumberExpected),
    }
}

/// `quo:`: rounded to zero.
pub fn quo(x: Number, y: Number) -> NumberAnswer
    ensures { result ≡ given_integers quo_answer x y }
{
    match (x, y) {
        (Number::Integer(x), Number::Integer(y)) => quotient_of(x, y),
        _ => NumberAnswer::Trouble(Trouble::NumberExpected),
    }
}

/// `rem:`: what is left of `quo:`, with the sign of the receiver.
pub fn rem(x: Number, y: Number) -> NumberAnswer
    ensures { result ≡ given_integers rem_answer x y }
{
    match (x, y) {
        (Number::Integer(x), Number::Integer(y)) => remainder_of(x, y),
        _ => NumberAnswer::Trouble(Trouble::NumberExpected),
    }
}

/// `gcd:`.
pub fn gcd_message(x: Number, y: Number) -> NumberAnswer
    ensures { result ≡ given_integers gcd_answer x y }
{
    match (x, y) {
        (Number::Integer(x), Number::Integer(y)) => divisor_of(x, y),
        _ => NumberAnswer::Trouble(Trouble::NumberExpected),
    }
}

/// `lcm:`.
pub fn lcm_message(x: Number, y: Number) -> NumberAnswer
    ensures { result ≡ given_integers lcm_answer x y }
{
    match (x, y) {
        (Number::Integer(x), Number::Integer(y)) => multiple_of(x, y),
        _ => NumberAnswer::Trouble(Trouble::NumberExpected),
    }
}

/// `bitAnd:`.
pub fn bit_and(x: Number, y: Number) -> NumberAnswer
    ensures { result ≡ given_integers bit_and_answer x y }
{
    match (x, y) {
        (Number::Integer(x), Number::Integer(y)) => and_of(x, y),
        _ => NumberAnswer::Trouble(Trouble::NumberExpected),
    }
}

/// `bitOr:`.
pub fn bit_or(x: Number, y: Number) -> NumberAnswer
    ensures { result ≡ given_integers bit_or_answer x y }
{
    match (x, y) {
        (Number::Integer(x), Number::Integer(y)) => or_of(x, y),
        _ => NumberAnswer::Trouble(Trouble::NumberExpected),
    }
}

/// `bitXor:`.
pub fn bit_xor(x: Number, y: Number) -> NumberAnswer
    ensures { result ≡ given_integers bit_xor_answer x y }
{
    match (x, y) {
        (Number::Integer(x), Number::Integer(y)) => xor_of(x, y),
        _ => NumberAnswer::Trouble(Trouble::NumberExpected),
    }
}

/// `bitShift:`.
pub fn bit_shift(x: Number, y: Number) -> NumberAnswer
    ensures { result ≡ given_integers shift_answer x y }
{
    match (x, y) {
        (Number::Integer(x), Number::Integer(y)) => shift_of(x, y),
        _ => NumberAnswer::Trouble(Trouble::NumberExpected),
    }
}

// The quotient rounded to minus infinity.
fn floor_quotient_of(x: i128, y: i128) -> NumberAnswer
    ensures { result ≡ floor_answer x y }
{
    if y == 0 {
        return NumberAnswer::Trouble(Trouble::ZeroDivide);
    }
    let size = x.unsigned_abs();
    let divisor = y.unsigned_abs();
    if (x < 0) != (y < 0) {
        return answer_integer(true, size.div_ceil(divisor));
    }
    answer_integer(false, size / divisor)
}

// What is left of that quotient: it has the divisor's sign.
fn modulo_of(x: i128, y: i128) -> NumberAnswer
    ensures { result ≡ modulo_answer x y }
{
    if y == 0 {
        return NumberAnswer::Trouble(Trouble::ZeroDivide);
    }
    answer_rest(
        (x < 0) != (y < 0),
        y < 0,
        x.unsigned_abs(),
        y.unsigned_abs(),
    )
}

// What is left of a division rounded down, by whether the signs differ and whether the divisor is
// less than 0.
fn answer_rest(differ: bool, negative: bool, size: u128, divisor: u128) -> NumberAnswer
    requires { 0 < divisor }
    ensures { result ≡ integer_answer (signed negative (floor_rest differ size divisor)) }
{
    let rest = size % divisor;
    if differ && rest != 0 {
        return answer_integer(negative, divisor - rest);
    }
    answer_integer(negative, rest)
}

// The quotient rounded to zero.
fn quotient_of(x: i128, y: i128) -> NumberAnswer
    ensures { result ≡ quo_answer x y }
{
    if y == 0 {
        return NumberAnswer::Trouble(Trouble::ZeroDivide);
    }
    answer_integer((x < 0) != (y < 0), x.unsigned_abs() / y.unsigned_abs())
}

// What is left of that quotient: it has the receiver's sign.
fn remainder_of(x: i128, y: i128) -> NumberAnswer
    ensures { result ≡ rem_answer x y }
{
    if y == 0 {
        return NumberAnswer::Trouble(Trouble::ZeroDivide);
    }
    answer_integer(x < 0, x.unsigned_abs() % y.unsigned_abs())
}

fn divisor_of(x: i128, y: i128) -> NumberAnswer
    ensures { result ≡ gcd_answer x y }
{
    answer_integer(false, greatest_divisor(x.unsigned_abs(), y.unsigned_abs()))
}

fn multiple_of(x: i128, y: i128) -> NumberAnswer
    ensures { result ≡ lcm_answer x y }
{
    answer_multiple(x.unsigned_abs(), y.unsigned_abs())
}

// The least common multiple of two sizes.
fn answer_multiple(size: u128, other: u128) -> NumberAnswer
    ensures { result ≡ integer_answer (pos (size * other / gcd size other)) }
{
    if other == 0 {
        return answer_integer(false, 0);
    }
    match (size / greatest_divisor(size, other)).checked_mul(other) {
        Some(multiple) => answer_integer(false, multiple),
        None => NumberAnswer::IntegerLimit,
    }
}

fn and_of(x: i128, y: i128) -> NumberAnswer
    ensures { result ≡ bit_and_answer x y }
{
    NumberAnswer::Value(Value::Integer(x & y))
}

fn or_of(x: i128, y: i128) -> NumberAnswer
    ensures { result ≡ bit_or_answer x y }
{
    NumberAnswer::Value(Value::Integer(x | y))
}

fn xor_of(x: i128, y: i128) -> NumberAnswer
    ensures { result ≡ bit_xor_answer x y }
{
    NumberAnswer::Value(Value::Integer(x ^ y))
}

// Times 2 to the power of `by`, or divided by it and rounded to minus infinity.
fn shift_of(x: i128, by: i128) -> NumberAnswer
    ensures { result ≡ shift_answer x by }
{
    if by < 0 {
        return NumberAnswer::Value(Value::Integer(shift_right(x, by.unsigned_abs())));
    }
    answer_shift_left(x < 0, x.unsigned_abs(), by.unsigned_abs())
}

// From 127 places on only the sign is left.
fn shift_right(x: i128, places: u128) -> i128
    ensures { result ≡ int_shr x places }
{
    x >> places.min(127) as u32
}

// From 128 places on only 0 fits.
fn answer_shift_left(negative: bool, size: u128, places: u128) -> NumberAnswer
    ensures { result ≡ integer_answer (signed negative (size * 2 ^ places)) }
{
    if size == 0 {
        return NumberAnswer::Value(Value::Integer(0));
    }
    if places >= 128 {
        return NumberAnswer::IntegerLimit;
    }
    match size.checked_mul(1 << places as u32) {
        Some(shifted) => answer_integer(negative, shifted),
        None => NumberAnswer::IntegerLimit,
    }
}
