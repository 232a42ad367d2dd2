// The trees of methods and bodies (ANSI NCITS 319, 3.4).

use sqlite_items::{Boxed, Items};
use st_base::Text;

/// A name that is declared or used, as a variable, a parameter or an assignment's target.
#[derive(Drop)]
pub struct Name {
    /// The identifier.
    pub text: Text,
    /// The place of its first byte in the element's text, from 0. It is no part of the program.
    pub at: u32,
}

/// A literal (3.4.6), as the value that it denotes.
#[derive(Drop)]
pub enum Literal {
    /// `nil`, in an array.
    Nil,
    /// `true`, in an array.
    True,
    /// `false`, in an array.
    False,
    /// A number from -2^127 to 2^127 - 1, with its sign.
    Integer(i128),
    /// The byte behind `$`.
    Character(u8),
    /// The bytes of a string, each doubled quote as one.
    Str(Text),
    /// The bytes of a symbol, without `#` and quotes.
    Symbol(Text),
    /// The items of `#(..)`, or of `(..)` in an array.
    Array(Items<Literal>),
}

/// A primary: what messages are sent to, or what stands alone (3.4.5).
#[cycle(tree)]
#[derive(Drop)]
pub enum Primary {
    /// A variable's name that isn't reserved.
    Variable(Name),
    /// `self`.
    SelfValue,
    /// `super`, to which a message is sent.
    SuperValue,
    /// A literal, also `nil`, `true` and `false`.
    Literal(Literal),
    /// A block, from `[` to `]`.
    Block(Block),
    /// An expression in parentheses.
    Paren(Boxed<Expr>),
}

/// A message: a selector with its arguments.
#[cycle(tree)]
#[derive(Drop)]
pub struct Message {
    /// The selector; of a keyword message all its keywords, one behind the other.
    pub selector: Text,
    /// The place of the selector's first byte in the element's text, from 0. It is no part of the
    /// program.
    pub at: u32,
    /// None of a unary message, one of a binary one, one a keyword of a keyword message.
    pub arguments: Items<Operand>,
}

/// A primary and the messages that are sent to it, each to what the one before it answers.
#[cycle(tree)]
#[derive(Drop)]
pub struct Operand {
    /// The receiver of the first message.
    pub primary: Primary,
    /// The messages in the order of sending.
    pub chain: Items<Message>,
}

/// An expression: assignments, an operand, and the further messages of a cascade.
#[cycle(tree)]
#[derive(Drop)]
pub struct Expr {
    /// The names before each `:=`, in the order of the text.
    pub targets: Items<Name>,
    /// What is evaluated first.
    pub operand: Operand,
    /// The messages behind each `;`. They go to the receiver of the operand's last message, and
    /// where there are any the operand has a message.
    pub cascade: Items<Message>,
}

/// A statement (3.4.5).
#[cycle(tree)]
#[derive(Drop)]
pub enum Statement {
    /// An expression, whose value is dropped unless it ends a block.
    Value(Expr),
    /// `^` and an expression.
    Return(Expr),
}

/// The temporaries and statements of a method, an initializer or a block.
#[cycle(tree)]
#[derive(Drop)]
pub struct Body {
    /// The names between bars, in their order.
    pub temporaries: Items<Name>,
    /// The statements in their order. At most the last is a `Return`.
    pub statements: Items<Statement>,
}

/// A block (3.4.4).
#[cycle(tree)]
#[derive(Drop)]
pub struct Block {
    /// The place of its `[` in the element's text, from 0. It is no part of the program.
    pub at: u32,
    /// The names behind each `:`, in their order.
    pub parameters: Items<Name>,
    /// What stands behind the parameters.
    pub body: Body,
}

/// A method (3.4.2).
#[derive(Drop)]
pub struct Method {
    /// The selector of its pattern.
    pub selector: Text,
    /// The names in its pattern, as many as the selector takes arguments.
    pub parameters: Items<Name>,
    /// What stands behind the pattern.
    pub body: Body,
}
