// Messages without an argument.
ghost use Rattle.std.specs.Prelude.{◌≡◌};
ghost use Rattle.st_numbers.specs.Numbers.{IsProper};
ghost use Rattle.st_numbers.specs.Answers.{negated_answer, abs_answer, sign_answer, even_answer, odd_answer, zero_answer, numerator_answer, denominator_answer, truncated_answer, reciprocal_answer};

use crate::answer::{answer_truth, ratio_of};
use crate::arithmetic::divide;
use crate::message::{Number, NumberAnswer};
use object_heap::{Trouble, Value};

pub fn negated(x: Number) -> NumberAnswer
    ensures { result ≡ negated_answer x }
{
    match x {
        Number::Integer(i128::MIN) | Number::Fraction(i128::MIN, _) => NumberAnswer::IntegerLimit,
        Number::Integer(n) => NumberAnswer::Value(Value::Integer(-n)),
        Number::Fraction(n, d) => NumberAnswer::Fraction(-n, d),
    }
}

pub fn abs(x: Number) -> NumberAnswer
    requires { IsProper x }
    ensures { result ≡ abs_answer x }
{
    if ratio_of(x).numerator < 0 {
        return negated(x);
    }
    NumberAnswer::Receiver
}

pub fn sign(x: Number) -> NumberAnswer
    requires { IsProper x }
    ensures { result ≡ sign_answer x }
{
    NumberAnswer::Value(Value::Integer(ratio_of(x).numerator.signum()))
}

pub fn even(x: Number) -> NumberAnswer
    ensures { result ≡ even_answer x }
{
    match x {
        Number::Integer(n) => answer_truth(n.unsigned_abs() % 2 == 0),
        Number::Fraction(_, _) => NumberAnswer::Trouble(Trouble::NumberExpected),
    }
}

pub fn odd(x: Number) -> NumberAnswer
    ensures { result ≡ odd_answer x }
{
    match x {
        Number::Integer(n) => answer_truth(n.unsigned_abs() % 2 == 1),
        Number::Fraction(_, _) => NumberAnswer::Trouble(Trouble::NumberExpected),
    }
}

pub fn is_zero(x: Number) -> NumberAnswer
    requires { IsProper x }
    ensures { result ≡ zero_answer x }
{
    answer_truth(ratio_of(x).numerator.unsigned_abs() == 0)
}

pub fn numerator(x: Number) -> NumberAnswer
    requires { IsProper x }
    ensures { result ≡ numerator_answer x }
{
    NumberAnswer::Value(Value::Integer(ratio_of(x).numerator))
}

pub fn denominator(x: Number) -> NumberAnswer
    ensures { result ≡ denominator_answer x }
{
    match x {
        Number::Integer(_) => NumberAnswer::Value(Value::Integer(1)),
        Number::Fraction(_, d) => NumberAnswer::Value(Value::Integer(d)),
    }
}

/// Rounded to zero.
pub fn truncated(x: Number) -> NumberAnswer
    requires { IsProper x }
    ensures { result ≡ truncated_answer x }
{
    match x {
        Number::Integer(_) => NumberAnswer::Receiver,
        Number::Fraction(n, d) => NumberAnswer::Value(Value::Integer(n / d)),
    }
}

pub fn reciprocal(x: Number) -> NumberAnswer
    requires { IsProper x }
    ensures { result ≡ reciprocal_answer x }
{
    divide(Number::Integer(1), x)
}
