// What a message to a number says, and what it answers.
use object_heap::{Trouble, Value};

/// A number: an Integer, or a Fraction by its numerator and its denominator, which is at least 2.
/// A Fraction stands in lowest terms.
#[derive(Clone, Copy, Debug, PartialEq, Eq)]
pub enum Number {
    Integer(i128),
    Fraction(i128, i128),
}

/// What came with a message: nothing, a number, or another value.
#[derive(Clone, Copy, Debug, PartialEq, Eq)]
pub enum NumberArgument {
    None,
    Number(Number),
    Other(Value),
}

/// What a message answers at once. The object of a `Fraction` answer is still to be made.
#[derive(Clone, Copy, Debug, PartialEq, Eq)]
pub enum NumberAnswer {
    Value(Value),
    /// The numerator and denominator of a new Fraction.
    Fraction(i128, i128),
    /// The receiver itself.
    Receiver,
    /// The argument itself.
    Argument,
    Trouble(Trouble),
    /// A number that the message's rule names lies outside -2^127 to 2^127 - 1.
    IntegerLimit,
}

/// The messages of Integer and Fraction (section 5.6), one for each selector.
#[derive(Clone, Copy, Debug, PartialEq, Eq)]
pub enum NumberMessage {
    /// `+`
    Add,
    /// `-`
    Subtract,
    /// `*`
    Multiply,
    /// `/`
    Divide,
    /// `//`
    FloorDivide,
    /// `\\`
    Modulo,
    /// `quo:`
    Quo,
    /// `rem:`
    Rem,
    /// `<`
    Less,
    /// `>`
    Greater,
    /// `<=`
    LessOrEqual,
    /// `>=`
    GreaterOrEqual,
    /// `=`
    Equal,
    /// `negated`
    Negated,
    /// `abs`
    Abs,
    /// `sign`
    Sign,
    /// `even`
    Even,
    /// `odd`
    Odd,
    /// `isZero`
    IsZero,
    /// `max:`
    Max,
    /// `min:`
    Min,
    /// `gcd:`
    Gcd,
    /// `lcm:`
    Lcm,
    /// `bitAnd:`
    BitAnd,
    /// `bitOr:`
    BitOr,
    /// `bitXor:`
    BitXor,
    /// `bitShift:`
    BitShift,
    /// `numerator`
    Numerator,
    /// `denominator`
    Denominator,
    /// `truncated`
    Truncated,
    /// `reciprocal`
    Reciprocal,
}
