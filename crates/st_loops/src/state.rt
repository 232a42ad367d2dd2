// Where a loop is, and what it has.
ghost use Rattle.std.specs.Prelude.{◌≡◌, ◌≤◌, pos, length};
ghost use Rattle.st_collections.specs.Actions.{first, second, third};
ghost use Rattle.st_loops.specs.States.{at_index, beside, made_to, past_all, state_of, values_of, visiting};

use crate::kind::LoopKind;
use object_heap::Value;

/// The arguments of a message or of an application of a block.
#[derive(Clone, Copy, Debug, PartialEq, Eq)]
pub enum Arguments {
    None,
    One(Value),
    Two(Value, Value),
    Three(Value, Value, Value),
}

/// Where a loop is, and what it has. The caller keeps it while a block runs or `=` is sent.
#[derive(Clone, Copy, Debug, PartialEq, Eq)]
pub struct LoopState {
    pub kind: LoopKind,
    pub receiver: Value,
    pub arguments: Arguments,
    /// The index of the element that is visited, from 1, or the number that is counted to.
    pub index: i128,
    /// The collection, the number or the value that was made so far, else nil.
    pub made: Value,
    /// The element that is visited, where the loop still asks for it, else nil.
    pub visited: Value,
    /// Whether it waits for something else than a visit: a separator, the argument of a `while`
    /// loop, or what is answered where nothing was found.
    pub aside: bool,
}

impl Arguments {
    /// These values, of which there are at most three.
    pub fn from_values(values: &[Value]) -> Arguments
        requires { length values.now ≤ 3 }
        ensures { values_of result ≡ values.now }
    {
        match values {
            [] => Arguments::None,
            [one] => Arguments::One(*one),
            [one, two] => Arguments::Two(*one, *two),
            [one, two, three] => Arguments::Three(*one, *two, *three),
            _ => unreachable!(),
        }
    }

    /// The first of them, nil where there is none.
    pub fn first(self) -> Value
        ensures { result ≡ first (values_of self) }
    {
        match self {
            Arguments::None => Value::Nil,
            Arguments::One(one) => one,
            Arguments::Two(one, _) => one,
            Arguments::Three(one, _, _) => one,
        }
    }

    /// The second of them, nil where there is none.
    pub fn second(self) -> Value
        ensures { result ≡ second (values_of self) }
    {
        match self {
            Arguments::Two(_, two) => two,
            Arguments::Three(_, two, _) => two,
            Arguments::None => Value::Nil,
            Arguments::One(_) => Value::Nil,
        }
    }

    /// The third of them, nil where there is none.
    pub fn third(self) -> Value
        ensures { result ≡ third (values_of self) }
    {
        match self {
            Arguments::Three(_, _, three) => three,
            Arguments::None => Value::Nil,
            Arguments::One(_) => Value::Nil,
            Arguments::Two(_, _) => Value::Nil,
        }
    }
}

impl LoopState {
    /// The loop at another index.
    pub fn at_index(self, index: i128) -> LoopState
        ensures { state_of result ≡ at_index index (state_of self) }
    {
        LoopState {
            index,
            aside: false,
            visited: Value::Nil,
            ..self
        }
    }

    /// The loop with another value made so far.
    pub fn made_to(self, made: Value) -> LoopState
        ensures { state_of result ≡ made_to made (state_of self) }
    {
        LoopState { made, ..self }
    }

    /// The loop while it waits for something else than a visit.
    pub fn beside(self) -> LoopState
        ensures { state_of result ≡ beside (state_of self) }
    {
        LoopState {
            aside: true,
            ..self
        }
    }

    /// The loop where nothing was found.
    pub fn past_all(self) -> LoopState
        ensures { state_of result ≡ past_all (state_of self) }
    {
        LoopState {
            index: 0,
            aside: true,
            visited: Value::Nil,
            ..self
        }
    }

    /// The loop with the element that it visits.
    pub fn visiting(self, element: Value) -> LoopState
        ensures { state_of result ≡ visiting element (state_of self) }
    {
        LoopState {
            visited: element,
            ..self
        }
    }
}
