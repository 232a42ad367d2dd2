// The rows of the table of built-in messages, by what they do.
use crate::reply::Control;
use st_collections::{OfCharacter, OfOrdered, OfPair, OfSequence, OfString};
use st_loops::LoopKind;
use st_numbers::NumberMessage;

/// A row of the table of built-in messages that acts at once (ANSI NCITS 319, 5).
#[derive(Clone, Copy, Debug, PartialEq, Eq)]
pub enum MessageRow {
    Object(OfObject),
    Class(OfClass),
    Boolean(OfBoolean),
    Number(OfNumber),
    Transcript(OfTranscript),
    Character(OfCharacter),
    String(OfString),
    Sequence(OfSequence),
    Maker(OfMaker),
    Ordered(OfOrdered),
    Pair(OfPair),
    Block(OfBlock),
    Selector(OfSelector),
    Exception(OfException),
    Loop(LoopKind),
    /// Answers the receiver's slot at this place, from 0.
    Slot(u32),
}

/// The messages of every object (section 5.3.1).
#[derive(Clone, Copy, Debug, PartialEq, Eq)]
pub enum OfObject {
    /// What it is.
    Question(OfQuestion),
    /// `copy`
    Copy,
    /// `printString`
    PrintString,
    /// `displayString`
    DisplayString,
    /// `size`
    Size,
    /// `at:`
    At,
    /// `at:put:`
    AtPut,
    /// `error:`
    ErrorText,
    /// `subclassResponsibility`
    SubclassResponsibility,
    /// `doesNotUnderstand:`
    NotUnderstood,
    /// `perform:`, `perform:with:` and `perform:with:with:`
    Perform,
    /// `perform:withArguments:`
    PerformWithArguments,
}

/// The messages that ask what an object is.
#[derive(Clone, Copy, Debug, PartialEq, Eq)]
pub enum OfQuestion {
    /// `=` and `==`
    Same,
    /// `~~`
    NotSame,
    /// `class`
    ClassOf,
    /// `isNil`
    IsNil,
    /// `notNil`
    NotNil,
    /// `isString`
    IsString,
    /// `isSymbol`
    IsSymbol,
    /// `isKindOf:`
    IsKindOf,
    /// `isMemberOf:`
    IsMemberOf,
    /// `respondsTo:`
    RespondsTo,
    /// `hash`
    Hash,
    /// `yourself`
    Yourself,
}

/// The messages of classes (section 5.3.2).
#[derive(Clone, Copy, Debug, PartialEq, Eq)]
pub enum OfClass {
    /// `name`
    Name,
    /// `superclass`
    Superclass,
    /// `new`
    New,
    /// `new:`
    NewSize,
}

/// The messages of Booleans (section 5.3.3).
#[derive(Clone, Copy, Debug, PartialEq, Eq)]
pub enum OfBoolean {
    /// `&`
    And,
    /// `|`
    Or,
    /// `not`
    Not,
    /// `xor:`
    Xor,
    /// `and:`
    AndThen,
    /// `or:`
    OrElse,
    /// `ifTrue:`
    IfTrue,
    /// `ifFalse:`
    IfFalse,
    /// `ifTrue:ifFalse:`
    IfTrueIfFalse,
    /// `ifFalse:ifTrue:`
    IfFalseIfTrue,
}

/// The messages of Integers and Fractions (section 5.6).
#[derive(Clone, Copy, Debug, PartialEq, Eq)]
pub enum OfNumber {
    /// Arithmetic and comparisons.
    Computes(NumberMessage),
    /// `asString`
    AsString,
    /// `printString:`
    PrintRadix,
    /// `numerator:denominator:` of class Fraction
    FromNumerator,
}

/// The messages that make a collection, an Association or an Interval (sections 5.6 and 5.7).
#[derive(Clone, Copy, Debug, PartialEq, Eq)]
pub enum OfMaker {
    /// `new:` of class Array
    Array,
    /// `new:` of class ByteArray
    ByteArray,
    /// `with:` to `with:with:with:with:` of class Array
    With,
    /// `withAll:` of class Array
    WithAll,
    /// `new` and `new:` of class OrderedCollection, `new` of Set and Dictionary
    Empty,
    /// `key:value:` of class Association
    KeyValue,
    /// `->` of any object
    Arrow,
    /// `to:` of Integer
    To,
    /// `to:by:` of Integer
    ToBy,
}

/// The messages of the Transcript (section 5.10).
#[derive(Clone, Copy, Debug, PartialEq, Eq)]
pub enum OfTranscript {
    /// `show:` and `nextPutAll:`
    Show,
    /// `nextPut:`
    NextPut,
    /// `flush`
    Flush,
    /// `cr`, `tab` and `space`, by the byte
    WriteByte(u8),
}

/// The messages of Blocks (section 5.4.3).
#[derive(Clone, Copy, Debug, PartialEq, Eq)]
pub enum OfBlock {
    /// `value` to `value:value:value:value:`
    Value,
    /// `valueWithArguments:`
    ValueWithArguments,
    /// `numArgs`
    NumArgs,
    /// `on:do:`
    OnDo,
    /// `ensure:`
    Ensure,
    /// `ifCurtailed:`
    IfCurtailed,
}

/// The messages of exception classes and ExceptionSets (section 5.5).
#[derive(Clone, Copy, Debug, PartialEq, Eq)]
pub enum OfSelector {
    /// `new`
    New,
    /// `signal` and `signal:`
    SignalNew,
    /// `,`
    Join,
    /// `handles:`
    Handles,
}

/// The messages of exceptions (section 5.5).
#[derive(Clone, Copy, Debug, PartialEq, Eq)]
pub enum OfException {
    /// `signal`
    Signal,
    /// `signal:`
    SignalText,
    /// `messageText`
    MessageText,
    /// `messageText:`
    SetMessageText,
    /// `description`
    Description,
    /// What a handler tells its exception.
    Controls(Control),
    /// `isResumable`, by what it answers
    IsResumable(bool),
    /// `defaultAction` of Exception
    TerminatesProgram,
    /// `defaultAction` of Notification
    AnswersNil,
    /// `defaultAction` of Warning
    Warns,
}
