// The messages that act at once, by what they are sent to.

/// A message that acts at once: one variant for each built-in selector, by its protocol.
#[derive(Clone, Copy, Debug, PartialEq, Eq)]
pub enum CollectionMessage {
    Character(OfCharacter),
    String(OfString),
    Sequence(OfSequence),
    Making(OfMaking),
    Ordered(OfOrdered),
    Pair(OfPair),
}

/// The messages of Character and its class (section 5.4).
#[derive(Clone, Copy, Debug, PartialEq, Eq)]
pub enum OfCharacter {
    /// `codePoint:` of the class
    FromCodePoint,
    /// `cr` of the class
    Cr,
    /// `lf` of the class
    Lf,
    /// `tab` of the class
    Tab,
    /// `space` of the class
    Space,
    /// `codePoint`
    CodePoint,
    /// `asLowercase`
    AsLowercase,
    /// `asUppercase`
    AsUppercase,
    /// `asString`
    AsString,
    /// `isLetter`
    IsLetter,
    /// `isDigit`
    IsDigit,
    /// `isAlphaNumeric`
    IsAlphaNumeric,
    /// `isLowercase`
    IsLowercase,
    /// `isUppercase`
    IsUppercase,
    /// `<`
    Less,
    /// `>`
    Greater,
    /// `<=`
    LessOrEqual,
    /// `>=`
    GreaterOrEqual,
}

/// The messages of String and its class, and those that Symbol inherits (section 5.7.10).
#[derive(Clone, Copy, Debug, PartialEq, Eq)]
pub enum OfString {
    /// `=`
    Equal,
    /// `<`
    Less,
    /// `>`
    Greater,
    /// `<=`
    LessOrEqual,
    /// `>=`
    GreaterOrEqual,
    /// `asUppercase`
    AsUppercase,
    /// `asLowercase`
    AsLowercase,
    /// `asString`
    AsString,
    /// `sameAs:`
    SameAs,
    /// `new:` of the class
    NewSize,
}

/// The messages of all that has elements at indexes, three of which Sets and Dictionaries have too
/// (section 5.7.8).
#[derive(Clone, Copy, Debug, PartialEq, Eq)]
pub enum OfSequence {
    /// `at:`
    At,
    /// `size`
    Size,
    /// `isEmpty`
    IsEmpty,
    /// `notEmpty`
    NotEmpty,
    /// `first`
    First,
    /// `last`
    Last,
    /// `,`
    Join,
    /// `copyFrom:to:`
    CopyFromTo,
    /// `reverse`
    Reverse,
    /// `asArray`
    AsArray,
    /// `asOrderedCollection`
    AsOrderedCollection,
    /// `at:put:`
    AtPut,
}

/// The messages that make a collection, an Association or an Interval.
#[derive(Clone, Copy, Debug, PartialEq, Eq)]
pub enum OfMaking {
    /// `new:` of class Array
    Array,
    /// `new:` of class ByteArray
    ByteArray,
    /// `with:` to `with:with:with:with:` of class Array
    With,
    /// `withAll:` of class Array
    WithAll,
    /// `new` and `new:` of class OrderedCollection, `new` of Set and Dictionary
    Empty,
    /// `key:value:` of class Association
    KeyValue,
    /// `->` of any object
    Arrow,
    /// `to:` of an Integer
    To,
    /// `to:by:` of an Integer
    ToBy,
}

/// The messages of Dictionary and Association that read their pairs.
#[derive(Clone, Copy, Debug, PartialEq, Eq)]
pub enum OfPair {
    /// `keys` of a Dictionary
    Keys,
    /// `values` of a Dictionary
    Values,
    /// `key` of an Association
    Key,
    /// `value` of an Association
    Value,
}

/// The messages of OrderedCollection that add elements or remove one by its place (section 5.7.14).
#[derive(Clone, Copy, Debug, PartialEq, Eq)]
pub enum OfOrdered {
    /// `add:` and `addLast:`
    Add,
    /// `addFirst:`
    AddFirst,
    /// `addAll:`
    AddAll,
    /// `removeFirst`
    RemoveFirst,
    /// `removeLast`
    RemoveLast,
    /// `add:beforeIndex:`
    AddBeforeIndex,
    /// `removeAtIndex:`
    RemoveAtIndex,
}
