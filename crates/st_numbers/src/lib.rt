// The messages of Integer and Fraction: sums, quotients, comparisons and bits over all the numbers that fit, and the integer limit exactly where a number that a rule names does not.
#![tactic(auto)]

mod answer;
mod arithmetic;
mod compare;
mod dispatch;
mod divisor;
mod integers;
mod message;
mod unary;

pub use dispatch::{is_proper, number_message};
pub use message::{Number, NumberAnswer, NumberArgument, NumberMessage};
