// Instructions with what they push, read, write and send, and the code of a method, a block or an initializer.
ghost use Rattle.std.specs.Prelude.{◌≡◌};
ghost use Rattle.st_code.specs.Compiled.{constant_value};

use object_heap::Value;

/// What a Push pushes that is no variable: a literal, a class, `Transcript`.
#[derive(Clone, Copy, Debug, PartialEq, Eq)]
pub enum Constant {
    Nil,
    True,
    False,
    Transcript,
    Integer(i128),
    /// A character, by its byte.
    Character(u8),
    /// A symbol, by the number of its text.
    Symbol(u32),
    Class(u32),
    /// A literal, by its object's number.
    Object(u32),
}

impl Constant {
    /// The value that it is.
    pub fn value(self) -> Value
        ensures { result ≡ constant_value self }
    {
        match self {
            Constant::Nil => Value::Nil,
            Constant::True => Value::True,
            Constant::False => Value::False,
            Constant::Transcript => Value::Transcript,
            Constant::Integer(number) => Value::Integer(number),
            Constant::Character(byte) => Value::Character(byte),
            Constant::Symbol(name) => Value::Symbol(name),
            Constant::Class(class) => Value::Class(class),
            Constant::Object(object) => Value::Object(object),
        }
    }
}

/// Where a variable is.
#[derive(Clone, Copy, Debug, PartialEq, Eq)]
pub enum Variable {
    /// A variable of the body that no block names, by its place among these, parameters first.
    Own(u32),
    /// A variable that a block names, by its place among these in the scope that is so many
    /// scopes outwards from the activation's.
    Scope { up: u32, index: u32 },
    /// A named slot of `self`, the inherited ones first.
    Instance(u32),
    /// A class instance variable of `self`, the inherited ones first.
    ClassInstance(u32),
    /// A variable of the program: a global, a pool's or a class's.
    Shared(u32),
}

/// One instruction.
#[derive(Clone, Copy, Debug, PartialEq, Eq)]
pub enum Instruction {
    PushConstant(Constant),
    PushSelf,
    PushVariable(Variable),
    /// Writes the last operand to a variable, and keeps it.
    Store(Variable),
    Pop,
    Dup,
    /// Sends a message with so many arguments to the operand before them.
    Send { selector: u32, count: u32 },
    /// As `Send`, looked up behind the class that the body is written in.
    SuperSend { selector: u32, count: u32 },
    /// Makes a block of the code with this number.
    MakeBlock(u32),
    /// Answers from a method.
    MethodReturn,
    /// Answers from the home of a block: the method or initializer around it.
    HomeReturn,
    /// Answers from a block or an initializer.
    BlockEnd,
}

/// What a code is the code of.
#[derive(Clone, Copy, Debug, PartialEq, Eq)]
pub enum CodeKind {
    Method,
    Block,
    Initializer,
}

/// The code of a body.
#[derive(Drop)]
pub struct Code {
    pub kind: CodeKind,
    /// The class that it is written in, or its metaclass for a class method.
    pub class: Value,
    /// How many of its variables are parameters.
    pub parameters: u32,
    /// Of each variable, parameters first, whether a block inside the body names it.
    pub captured: Vec<bool>,
    pub instructions: Vec<Instruction>,
    /// How many operands stand at once, at most, the variables that no block names among them.
    pub width: u32,
}
