// What a message to a number answers.
ghost use Rattle.std.specs.Prelude.{◌≡◌, ◌↔◌, IsTrue};
ghost use Rattle.object_heap.specs.declared.value.Value.{Value};
ghost use Rattle.st_numbers.specs.Numbers.{IsProper, IsProperArgument, is_proper};
ghost use Rattle.st_numbers.specs.Answers.{answer_of, IsProperAnswer};
ghost use Rattle.st_numbers.specs.declared.message.NumberArgument.{NumberArgument};

use crate::answer::answer_truth;
use crate::arithmetic::{add, divide, multiply, subtract};
use crate::compare::{greater, is_below, lesser};
use crate::divisor::greatest_divisor;
use crate::integers::{
    bit_and, bit_or, bit_shift, bit_xor, floor_divide, gcd_message, lcm_message, modulo, quo, rem,
};
use crate::message::{Number, NumberAnswer, NumberArgument, NumberMessage};
use crate::unary::{
    abs, denominator, even, is_zero, negated, numerator, odd, reciprocal, sign, truncated,
};
use object_heap::Trouble;

/// What a message to a number answers. A message that asks for a number, or for an Integer, and
/// gets none answers `NumberExpected`, and a zero divisor `ZeroDivide`.
pub fn number_message(
    message: NumberMessage,
    receiver: Number,
    argument: NumberArgument,
) -> NumberAnswer
    requires receiver { IsProper receiver }
    requires argument { IsProperArgument argument }
    ensures answer { result ≡ answer_of message receiver argument }
    ensures proper { IsProperAnswer result }
{
    match argument {
        NumberArgument::Number(other) => with_number(message, receiver, other),
        NumberArgument::None => alone(message, receiver),
        NumberArgument::Other(_) => alone(message, receiver),
    }
}

/// Whether a number is an Integer, or a Fraction in lowest terms with a denominator of at least 2.
pub fn is_proper(number: Number) -> bool
    ensures test { result ≡ is_proper number }
    ensures proper { IsTrue result ↔ IsProper number }
{
    match number {
        Number::Integer(_) => true,
        Number::Fraction(n, d) => d >= 2
            && greatest_divisor(n.unsigned_abs(), d.unsigned_abs()) == 1,
    }
}

// The same where no number came with the message.
fn alone(message: NumberMessage, x: Number) -> NumberAnswer
    requires { IsProper x }
    ensures none { result ≡ answer_of message x NumberArgument.None }
    ensures other { (v : Value) → result ≡ answer_of message x (NumberArgument.Other v) }
{
    match message {
        NumberMessage::Negated => negated(x),
        NumberMessage::Abs => abs(x),
        NumberMessage::Sign => sign(x),
        NumberMessage::Even => even(x),
        NumberMessage::Odd => odd(x),
        NumberMessage::IsZero => is_zero(x),
        NumberMessage::Numerator => numerator(x),
        NumberMessage::Denominator => denominator(x),
        NumberMessage::Truncated => truncated(x),
        NumberMessage::Reciprocal => reciprocal(x),
        NumberMessage::Equal => answer_truth(false),
        NumberMessage::Add
        | NumberMessage::Subtract
        | NumberMessage::Multiply
        | NumberMessage::Divide
        | NumberMessage::FloorDivide
        | NumberMessage::Modulo
        | NumberMessage::Quo
        | NumberMessage::Rem
        | NumberMessage::Less
        | NumberMessage::Greater
        | NumberMessage::LessOrEqual
        | NumberMessage::GreaterOrEqual
        | NumberMessage::Max
        | NumberMessage::Min
        | NumberMessage::Gcd
        | NumberMessage::Lcm
        | NumberMessage::BitAnd
        | NumberMessage::BitOr
        | NumberMessage::BitXor
        | NumberMessage::BitShift => NumberAnswer::Trouble(Trouble::NumberExpected),
    }
}

// The same where a number came with it.
fn with_number(message: NumberMessage, x: Number, y: Number) -> NumberAnswer
    requires receiver { IsProper x }
    requires argument { IsProper y }
    ensures { result ≡ answer_of message x (NumberArgument.Number y) }
{
    match message {
        NumberMessage::Add => add(x, y),
        NumberMessage::Subtract => subtract(x, y),
        NumberMessage::Multiply => multiply(x, y),
        NumberMessage::Divide => divide(x, y),
        NumberMessage::FloorDivide => floor_divide(x, y),
        NumberMessage::Modulo => modulo(x, y),
        NumberMessage::Quo => quo(x, y),
        NumberMessage::Rem => rem(x, y),
        NumberMessage::Less => answer_truth(is_below(x, y)),
        NumberMessage::Greater => answer_truth(is_below(y, x)),
        NumberMessage::LessOrEqual => answer_truth(!is_below(y, x)),
        NumberMessage::GreaterOrEqual => answer_truth(!is_below(x, y)),
        NumberMessage::Equal => answer_truth(!is_below(x, y) && !is_below(y, x)),
        NumberMessage::Max => greater(x, y),
        NumberMessage::Min => lesser(x, y),
        NumberMessage::Gcd => gcd_message(x, y),
        NumberMessage::Lcm => lcm_message(x, y),
        NumberMessage::BitAnd => bit_and(x, y),
        NumberMessage::BitOr => bit_or(x, y),
        NumberMessage::BitXor => bit_xor(x, y),
        NumberMessage::BitShift => bit_shift(x, y),
        NumberMessage::Negated => negated(x),
        NumberMessage::Abs => abs(x),
        NumberMessage::Sign => sign(x),
        NumberMessage::Even => even(x),
        NumberMessage::Odd => odd(x),
        NumberMessage::IsZero => is_zero(x),
        NumberMessage::Numerator => numerator(x),
        NumberMessage::Denominator => denominator(x),
        NumberMessage::Truncated => truncated(x),
        NumberMessage::Reciprocal => reciprocal(x),
    }
}
