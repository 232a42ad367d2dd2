// What a scan over the tokens keeps in mind of them: what is being read, and what waits around it. No trees.

/// What a token is to the grammar. A number is a byte of the text.
#[derive(Clone, Copy)]
pub enum Class {
    /// An identifier that may name a variable.
    Name,
    /// `nil`, `true`, `false` or `self`.
    Value,
    Super,
    Keyword,
    /// An operator of no further meaning.
    Operator,
    /// `-`, and the byte behind it.
    Minus(u64),
    Bar,
    TwoBars,
    ThreeBars,
    /// An integer, and the byte where it begins.
    Number(u32),
    /// A literal of one token that is no integer.
    Literal,
    ArrayOpen,
    ParenOpen,
    ParenClose,
    BlockOpen,
    BlockClose,
    Colon,
    Assign,
    Caret,
    Period,
    Semicolon,
}

/// What a body belongs to.
#[derive(Clone, Copy)]
pub enum Owner {
    /// The whole text.
    Text,
    Block,
}

/// What an operand is for.
#[derive(Clone, Copy)]
pub enum Slot {
    /// The receiver of the whole expression.
    Receiver,
    /// The argument of a keyword message.
    Argument,
    /// Right of an operator, in the receiver.
    ReceiverRight,
    /// Right of an operator, in an argument.
    ArgumentRight,
    /// Right of an operator, behind `;`.
    FurtherRight,
}

/// How far an expression is read.
#[derive(Clone, Copy)]
pub enum Spot {
    /// At its begin, or behind `:=`.
    Start,
    /// Behind one name, which is a target if `:=` follows.
    Bare,
    /// Behind an operand, and whether it has no message of its own yet.
    Have(Slot, bool),
    /// Before an operand.
    Want(Slot),
    /// Behind `super`.
    Super(Slot),
    /// Behind `-`, and the byte where an integer has to begin.
    Signed(Slot, u64),
    /// Behind `;`.
    Again,
    /// Behind a unary message that stands behind `;`.
    Sent,
}

/// What an expression stands in.
#[derive(Clone, Copy)]
pub enum Around {
    Paren,
    /// A statement of a body, and whether it stands behind `^`.
    Body(Owner, bool),
}

/// What is being read.
#[derive(Clone, Copy)]
pub enum Now {
    /// A method's pattern begins.
    Pattern,
    /// Behind the operator of a pattern.
    OperatorRead,
    /// Behind a keyword of a pattern.
    KeywordRead,
    /// Behind a parameter of a pattern with keywords.
    ParameterRead,
    /// A block up to its parameters, and whether it has none yet.
    Opened(bool),
    /// The name of a block's parameter.
    Parameter,
    /// A body may begin with temporaries.
    Fresh(Owner),
    /// Between the bars of temporaries.
    Temporaries(Owner),
    /// A statement may begin.
    Statements(Owner),
    /// Behind the last statement and its period.
    Ended(Owner),
    Within(Around, Spot),
    /// The items of an array.
    Elements,
    /// Behind `-` in an array, and the byte where an integer would be signed by it.
    Dash(u64),
}

/// What waits for a level to end.
#[derive(Clone, Copy)]
pub enum Held {
    /// An expression that wants a primary.
    Operand(Around, Slot),
    /// An array around an array.
    Array,
}

/// What a token does.
#[derive(Clone, Copy)]
pub enum Turn {
    /// It can't stand.
    Stuck,
    Go(Now),
    /// A level begins in what waits for it.
    Open(Held, Now),
    /// A parenthesis or a block ends, and is a primary of the expression around it.
    Close,
    /// An array ends, and is a primary of the expression or an item of the array around it.
    CloseArray,
}
