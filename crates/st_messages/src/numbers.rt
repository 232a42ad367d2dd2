// Messages of Integers and Fractions.
ghost use Rattle.std.specs.Prelude.{◌≡◌, ◌≤◌, false, IfSome, IsTrue, List};
ghost use Rattle.object_heap.specs.Charges.{Memory};
ghost use Rattle.object_heap.specs.declared.value.Value.{Value};
ghost use Rattle.st_numbers.specs.Numbers.{IsProper, IsProperArgument};
ghost use Rattle.st_code.specs.Program.{Program};
ghost use Rattle.st_collections.specs.Actions.{makes_string};
ghost use Rattle.st_collections.specs.Answers.{answer_of, is_out, memory_of, unless_out};
ghost use Rattle.st_rules.specs.NumberRows.{argument_of, arithmetic_action, as_number, dividend_of, fraction_action, if_proper, in_radix_action, number_action, numeric_action, radix_text, troubled};
ghost use Rattle.st_messages.specs.Replies.{is_lost, memory_after, seen, told_by, unless_lost};
ghost use Rattle.st_messages.specs.Rows.{number_row};

use crate::arguments::{first_of, second_of};
use crate::built_in::FRACTION;
use crate::facts::ProgramFacts;
use crate::printed::{integer_in, print_string};
use crate::radix::radix_digits;
use crate::reply::{Reply, answer, answer_trouble};
use crate::row::OfNumber;
use crate::slots::new_fraction;
use crate::texts::new_bytes;
use object_heap::{Heap, Trouble, Value};
use st_collections::Built;
use st_numbers::{Number, NumberAnswer, NumberArgument, NumberMessage, is_proper, number_message};

// A number, unless it is a Fraction that doesn't stand in lowest terms.
fn proper(number: Number) -> Option<Number>
    ensures number { result ≡ if_proper number }
    ensures proper { IfSome result (λ x. IsProper x) }
{
    if is_proper(number) {
        return Some(number);
    }
    None
}

// The number that a value is.
#[tactic(auto, unfolding(st_rules::specs::NumberRows::as_number, st_collections::specs::Kinds::is_a, st_collections::specs::Kinds::slot_of, st_collections::specs::Kinds::slots_of))]
fn number_now<H: Heap>(heap: &H, value: Value) -> Option<Number>
    ensures number { result ≡ as_number (H.meaning heap.now).store value }
    ensures proper { IfSome result (λ x. IsProper x) }
{
    match value {
        Value::Integer(number) => Some(Number::Integer(number)),
        Value::Object(object) => {
            if heap.class_of(object) != FRACTION {
                return None;
            }
            let over = integer_in(heap.get(object, 0));
            let under = integer_in(heap.get(object, 1));
            proper(Number::Fraction(over, under))
        }
        _ => None,
    }
}

// What comes with a message.
#[tactic(auto, unfolding(st_rules::specs::NumberRows::argument_of))]
fn argument_now<H: Heap>(heap: &H, arguments: &[Value]) -> NumberArgument
    ensures argument { result ≡ argument_of (H.meaning heap.now).store arguments.now }
    ensures proper { IsProperArgument result }
{
    match arguments {
        [] => NumberArgument::None,
        [value, ..] => match number_now(heap, *value) {
            Some(number) => NumberArgument::Number(number),
            None => NumberArgument::Other(*value),
        },
    }
}

// What is divided, where the divisor is zero.
fn dividend_for(message: NumberMessage, receiver: Value) -> Value
    ensures { result ≡ dividend_of message receiver }
{
    match message {
        NumberMessage::Reciprocal => Value::Integer(1),
        _ => receiver,
    }
}

// A trouble of arithmetic.
fn trouble_reply(dividend: Value, trouble: Trouble) -> Reply
    ensures reply { (p : Program) (args : List Value) (m : Memory) → seen p m.store args result ≡ told_by (troubled dividend trouble) m }
    ensures kept { (m : Memory) → memory_after (troubled dividend trouble) m ≡ m }
    ensures settled { is_lost result ≡ false }
{
    match trouble {
        Trouble::ZeroDivide => Reply::DividesByZero(dividend),
        _ => answer_trouble(trouble),
    }
}

// An answer of arithmetic: the object of a Fraction is made.
fn numeric_reply<H: Heap>(
    heap: &mut H,
    dividend: Value,
    receiver: Value,
    argument: Value,
    number: NumberAnswer,
) -> Reply
    ensures memory { H.meaning heap.new ≡ unless_lost result (H.meaning heap.old) (memory_after (numeric_action (H.meaning heap.old).store dividend receiver argument number) (H.meaning heap.old)) }
    ensures reply { (p : Program) (args : List Value) → let said = seen p (H.meaning heap.old).store args result in said ≡ unless_lost result said (told_by (numeric_action (H.meaning heap.old).store dividend receiver argument number) (H.meaning heap.old)) }
    ensures reserved { IsTrue H.reserved → is_lost result ≡ false }
    ensures literals { H.literal_room heap.new ≡ H.literal_room heap.old }
{
    match number {
        NumberAnswer::Value(value) => answer(value),
        NumberAnswer::Fraction(over, under) => {
            let made = new_fraction(heap, Value::Integer(over), Value::Integer(under));
            Reply::Answer(made)
        }
        NumberAnswer::Receiver => answer(receiver),
        NumberAnswer::Argument => answer(argument),
        NumberAnswer::Trouble(trouble) => trouble_reply(dividend, trouble),
        NumberAnswer::IntegerLimit => Reply::Answer(Built::IntegerLimit),
    }
}

// What a message of arithmetic answers.
fn arithmetic<H: Heap>(
    heap: &mut H,
    message: NumberMessage,
    receiver: Value,
    arguments: &[Value],
) -> Reply
    ensures memory { H.meaning heap.new ≡ unless_lost result (H.meaning heap.old) (memory_after (arithmetic_action (H.meaning heap.old).store message receiver arguments.now) (H.meaning heap.old)) }
    ensures reply { (p : Program) (args : List Value) → let said = seen p (H.meaning heap.old).store args result in said ≡ unless_lost result said (told_by (arithmetic_action (H.meaning heap.old).store message receiver arguments.now) (H.meaning heap.old)) }
    ensures reserved { IsTrue H.reserved → is_lost result ≡ false }
    ensures literals { H.literal_room heap.new ≡ H.literal_room heap.old }
{
    match number_now(heap, receiver) {
        Some(number) => {
            let argument = argument_now(heap, arguments);
            let answered = number_message(message, number, argument);
            let dividend = dividend_for(message, receiver);
            numeric_reply(heap, dividend, receiver, first_of(arguments), answered)
        }
        None => answer_trouble(Trouble::NumberExpected),
    }
}

// A new String of an Integer by its digits.
fn digits_text<H: Heap>(heap: &mut H, radix: u128, number: i128) -> Built
    requires least { 2 ≤ radix }
    requires greatest { radix ≤ 36 }
    ensures memory { H.meaning heap.new ≡ unless_out result (H.meaning heap.old) (memory_of (makes_string (radix_text radix number) (H.meaning heap.old).store) (H.meaning heap.old)) }
    ensures answer { result ≡ unless_out result result (answer_of (makes_string (radix_text radix number) (H.meaning heap.old).store) (H.meaning heap.old)) }
    ensures reserved { IsTrue H.reserved → is_out result ≡ false }
    ensures literals { H.literal_room heap.new ≡ H.literal_room heap.old }
{
    let digits = radix_digits(radix, number);
    new_bytes(heap, &digits.bytes[digits.start..])
}

// `printString:`.
fn print_in_radix<H: Heap>(heap: &mut H, receiver: Value, radix: Value) -> Reply
    ensures memory { H.meaning heap.new ≡ unless_lost result (H.meaning heap.old) (memory_after (in_radix_action (H.meaning heap.old).store receiver radix) (H.meaning heap.old)) }
    ensures reply { (p : Program) (args : List Value) → let said = seen p (H.meaning heap.old).store args result in said ≡ unless_lost result said (told_by (in_radix_action (H.meaning heap.old).store receiver radix) (H.meaning heap.old)) }
    ensures reserved { IsTrue H.reserved → is_lost result ≡ false }
    ensures literals { H.literal_room heap.new ≡ H.literal_room heap.old }
{
    match radix {
        Value::Integer(radix @ 2..=36) => {
            Reply::Answer(digits_text(heap, radix as u128, integer_in(receiver)))
        }
        Value::Integer(_) => answer_trouble(Trouble::BadRadix),
        _ => answer_trouble(Trouble::NumberExpected),
    }
}

// `numerator:denominator:`.
fn from_numerator<H: Heap>(heap: &mut H, numerator: Value, denominator: Value) -> Reply
    ensures memory { H.meaning heap.new ≡ unless_lost result (H.meaning heap.old) (memory_after (fraction_action (H.meaning heap.old).store numerator denominator) (H.meaning heap.old)) }
    ensures reply { (p : Program) (args : List Value) → let said = seen p (H.meaning heap.old).store args result in said ≡ unless_lost result said (told_by (fraction_action (H.meaning heap.old).store numerator denominator) (H.meaning heap.old)) }
    ensures reserved { IsTrue H.reserved → is_lost result ≡ false }
    ensures literals { H.literal_room heap.new ≡ H.literal_room heap.old }
{
    match (numerator, denominator) {
        (Value::Integer(_), Value::Integer(_)) => {
            arithmetic(heap, NumberMessage::Divide, numerator, &[denominator])
        }
        _ => answer_trouble(Trouble::NumberExpected),
    }
}

/// What an Integer or a Fraction answers (section 5.6). A receiver that is no number answers
/// `NumberExpected` to arithmetic, as one that doesn't stand in lowest terms does.
pub fn number_reply<H: Heap, P: ProgramFacts>(
    heap: &mut H,
    program: &P,
    message: OfNumber,
    receiver: Value,
    arguments: &[Value],
) -> Reply
    ensures memory { H.meaning heap.new ≡ unless_lost result (H.meaning heap.old) (memory_after (number_action (P.meaning program.now) (H.meaning heap.old).store (number_row message) receiver arguments.now) (H.meaning heap.old)) }
    ensures reply { let said = seen (P.meaning program.now) (H.meaning heap.old).store arguments.now result in said ≡ unless_lost result said (told_by (number_action (P.meaning program.now) (H.meaning heap.old).store (number_row message) receiver arguments.now) (H.meaning heap.old)) }
    ensures reserved { IsTrue H.reserved → is_lost result ≡ false }
    ensures literals { H.literal_room heap.new ≡ H.literal_room heap.old }
{
    match message {
        OfNumber::Computes(m) => arithmetic(heap, m, receiver, arguments),
        OfNumber::AsString => Reply::Answer(print_string(heap, program, receiver)),
        OfNumber::PrintRadix => print_in_radix(heap, receiver, first_of(arguments)),
        OfNumber::FromNumerator => {
            from_numerator(heap, first_of(arguments), second_of(arguments))
        }
    }
}
