// What messages to numbers answer.

use crate::call::Call;
use crate::messages::row_named;
use crate::part::{Part, nothing};
use object_heap::Value;
use st_base::OutOfMemory;
use st_messages::{MessageRow, OfNumber};
use st_numbers::{Number, NumberAnswer, NumberArgument, NumberMessage, is_proper, number_message};
use std::alloc::Global;

/// Messages to numbers: a class, a selector, a receiver and an argument.
#[derive(Drop)]
pub struct Numbers;

impl Part for Numbers {
    fn answer(&mut self, alloc: Global, call: &Call<'_>) -> Result<String, OutOfMemory> {
        let Some(MessageRow::Number(OfNumber::Computes(message))) = row_named(call) else {
            return nothing(alloc);
        };
        match asked(message, number_of(call, 2), argument_of(call)) {
            Some(answer) => Ok(format!(in alloc; "{answer:?}")?),
            None => nothing(alloc),
        }
    }
}

// The number at a place: an Integer, or `Fraction(1,3)`.
fn number_of(call: &Call<'_>, at: usize) -> Number {
    if let Value::Integer(number) = call.value(at) {
        return Number::Integer(number);
    }
    let (_, parts) = call.word(at).split_once('(').unwrap_or(("", ""));
    let (over, under) = parts.split_once(',').unwrap_or(("", ""));
    let under = under.strip_suffix(')').unwrap_or("");
    Number::Fraction(
        over.parse::<i128>().unwrap_or(0),
        under.parse::<i128>().unwrap_or(0),
    )
}

fn argument_of(call: &Call<'_>) -> NumberArgument {
    match call.word(3) {
        "" => NumberArgument::None,
        "Nil" => NumberArgument::Other(Value::Nil),
        _ => NumberArgument::Number(number_of(call, 3)),
    }
}

// The answer, where what is asked is proper.
fn asked(message: NumberMessage, x: Number, argument: NumberArgument) -> Option<NumberAnswer> {
    if !is_proper(x) {
        return None;
    }
    match argument {
        NumberArgument::Number(y) => {
            if is_proper(y) {
                return Some(number_message(message, x, NumberArgument::Number(y)));
            }
            None
        }
        NumberArgument::None => Some(number_message(message, x, NumberArgument::None)),
        NumberArgument::Other(value) => {
            Some(number_message(message, x, NumberArgument::Other(value)))
        }
    }
}
