// What a message does at once, as a machine goes on with it.
ghost use Rattle.std.specs.Prelude.{◌≡◌};
ghost use Rattle.st_collections.specs.Actions.{boolean};
ghost use Rattle.st_collections.specs.declared.answer.Built.{Built};
ghost use Rattle.object_heap.specs.declared.value.Value.{Value};
ghost use Rattle.object_heap.specs.declared.trouble.Trouble.{Trouble};
ghost use Rattle.st_messages.specs.declared.reply.Reply.{Reply};

use object_heap::{Closure, Trouble, Value};
use st_collections::Built;
use st_loops::LoopKind;

/// Values that go on with a reply. They stand in the arguments of the message or in the heap, so
/// no memory is taken for them.
#[derive(Clone, Copy, Debug, PartialEq, Eq)]
pub enum Passed {
    /// No values.
    None,
    /// The arguments of the message.
    All,
    /// The arguments behind the first.
    Behind,
    /// The slots of this object.
    SlotsOf(Value),
    One(Value),
    Three(Value, Value, Value),
}

/// What goes to the Transcript.
#[derive(Clone, Copy, Debug, PartialEq, Eq)]
pub enum Written {
    Nothing,
    Byte(u8),
    /// The bytes of a String or Symbol.
    TextOf(Value),
    /// `Warning: `, the text of the exception with this number and a line end.
    Warning(u32),
}

/// What a handler tells its exception to do.
#[derive(Clone, Copy, Debug, PartialEq, Eq)]
pub enum Control {
    Return,
    Retry,
    RetryUsing,
    Resume,
    Pass,
    Outer,
    ResignalAs,
    IsNested,
}

/// What a message does at once.
#[derive(Clone, Copy, Debug, PartialEq, Eq)]
pub enum Reply {
    /// A value, a trouble, a limit or want of memory.
    Answer(Built),
    /// A ZeroDivide of this dividend is signaled.
    DividesByZero(Value),
    /// This goes to the Transcript, and the value is answered.
    Writes(Written, Value),
    /// The value is applied.
    Begins(Value, Passed),
    /// The block of this closure is entered.
    Activates(Closure, Passed),
    /// The selector is sent.
    Sends(u32, Value, Passed),
    /// Nothing answers this selector, with the arguments of the message.
    Misses(u32, Value),
    /// The method with this code is entered, with the arguments of the message.
    Enters(u32, Value),
    /// `on:do:` of a receiver, by a selector and a handler.
    Guards(Value, Value, Value),
    /// `ensure:` of a receiver, by a block.
    Ensures(Value, Value),
    /// `ifCurtailed:` of a receiver, by a block.
    Curtails(Value, Value),
    /// The loop of this receiver begins, with the arguments of the message.
    Iterates(LoopKind, Value),
    /// The exception with this number is signaled.
    Raises(u32),
    /// A new exception of this class, with these first slots, is signaled.
    RaisesNew(u32, Passed),
    /// What the exception with this number is told.
    Controls(Control, u32, Value),
    /// The program ends by this exception.
    Terminates(Value),
}

pub(crate) fn answer(value: Value) -> Reply
    ensures { result ≡ Reply.Answer (Built.Value value) }
{
    Reply::Answer(Built::Value(value))
}

pub(crate) fn answer_truth(holds: bool) -> Reply
    ensures { result ≡ Reply.Answer (Built.Value (boolean holds)) }
{
    answer(if holds { Value::True } else { Value::False })
}

pub(crate) fn answer_trouble(trouble: Trouble) -> Reply
    ensures { result ≡ Reply.Answer (Built.Trouble trouble) }
{
    Reply::Answer(Built::Trouble(trouble))
}
