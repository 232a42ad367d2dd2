// The loop messages, and the number of each in the table of built-in messages.
ghost use Rattle.std.specs.Prelude.{◌≡◌, map};
ghost use Rattle.std.specs.Option.{option_map};
ghost use Rattle.st_code.specs.BuiltIns.{numbered_messages, numbered_row};
ghost use Rattle.st_loops.specs.Kinds.{loop_of, loops_in, message_of};

/// A message that visits something again and again (sections 5.4.3 and 5.7): one variant for each
/// rule. One for which no class is named is a message of each kind of collection.
#[derive(Clone, Copy, Debug, PartialEq, Eq)]
pub enum LoopKind {
    /// `whileTrue:` and `whileTrue` of a Block
    WhileTrue,
    /// `whileFalse:` and `whileFalse` of a Block
    WhileFalse,
    /// `timesRepeat:` of an Integer
    TimesRepeat,
    /// `to:do:` of an Integer
    ToDo,
    /// `to:by:do:` of an Integer
    ToByDo,
    /// `do:`
    Do,
    /// `do:separatedBy:`
    DoSeparatedBy,
    /// `reverseDo:` of a sequence
    ReverseDo,
    /// `keysAndValuesDo:` of a sequence or a Dictionary
    KeysAndValuesDo,
    /// `keysDo:` of a Dictionary
    KeysDo,
    /// `inject:into:`
    InjectInto,
    /// `detect:`
    Detect,
    /// `detect:ifNone:`
    DetectIfNone,
    /// `anySatisfy:`
    AnySatisfy,
    /// `allSatisfy:`
    AllSatisfy,
    /// `collect:`
    Collect,
    /// `select:`
    Select,
    /// `reject:`
    Reject,
    /// `includes:`
    Includes,
    /// `occurrencesOf:`
    OccurrencesOf,
    /// `indexOf:` of a sequence
    IndexOf,
    /// `add:` of a Set
    AddToSet,
    /// `remove:` of a Set or an OrderedCollection
    Remove,
    /// `remove:ifAbsent:` of a Set or an OrderedCollection
    RemoveIfAbsent,
    /// `at:` of a Dictionary
    At,
    /// `at:ifAbsent:` of a Dictionary
    AtIfAbsent,
    /// `at:put:` of a Dictionary
    AtPut,
    /// `at:ifAbsentPut:` of a Dictionary
    AtIfAbsentPut,
    /// `includesKey:` of a Dictionary
    IncludesKey,
    /// `removeKey:` of a Dictionary
    RemoveKey,
    /// `removeKey:ifAbsent:` of a Dictionary
    RemoveKeyIfAbsent,
    /// `=` of an Array or an OrderedCollection
    EqualElements,
    /// `~=` of any object
    NotEqual,
}

// The number of the first loop message. Those behind it are all loops.
const FIRST: usize = 278;

// The loops, in the order of their numbers.
static LOOPS: [LoopKind; 138] = [
    LoopKind::WhileTrue,
    LoopKind::WhileFalse,
    LoopKind::WhileTrue,
    LoopKind::WhileFalse,
    LoopKind::TimesRepeat,
    LoopKind::ToDo,
    LoopKind::ToByDo,
    LoopKind::Do,
    LoopKind::DoSeparatedBy,
    LoopKind::Do,
    LoopKind::DoSeparatedBy,
    LoopKind::Do,
    LoopKind::DoSeparatedBy,
    LoopKind::Do,
    LoopKind::DoSeparatedBy,
    LoopKind::Do,
    LoopKind::DoSeparatedBy,
    LoopKind::Do,
    LoopKind::DoSeparatedBy,
    LoopKind::Do,
    LoopKind::DoSeparatedBy,
    LoopKind::Do,
    LoopKind::DoSeparatedBy,
    LoopKind::ReverseDo,
    LoopKind::ReverseDo,
    LoopKind::ReverseDo,
    LoopKind::ReverseDo,
    LoopKind::ReverseDo,
    LoopKind::ReverseDo,
    LoopKind::KeysAndValuesDo,
    LoopKind::KeysAndValuesDo,
    LoopKind::KeysAndValuesDo,
    LoopKind::KeysAndValuesDo,
    LoopKind::KeysAndValuesDo,
    LoopKind::KeysAndValuesDo,
    LoopKind::KeysAndValuesDo,
    LoopKind::KeysDo,
    LoopKind::InjectInto,
    LoopKind::InjectInto,
    LoopKind::InjectInto,
    LoopKind::InjectInto,
    LoopKind::InjectInto,
    LoopKind::InjectInto,
    LoopKind::InjectInto,
    LoopKind::InjectInto,
    LoopKind::Detect,
    LoopKind::DetectIfNone,
    LoopKind::Detect,
    LoopKind::DetectIfNone,
    LoopKind::Detect,
    LoopKind::DetectIfNone,
    LoopKind::Detect,
    LoopKind::DetectIfNone,
    LoopKind::Detect,
    LoopKind::DetectIfNone,
    LoopKind::Detect,
    LoopKind::DetectIfNone,
    LoopKind::Detect,
    LoopKind::DetectIfNone,
    LoopKind::Detect,
    LoopKind::DetectIfNone,
    LoopKind::AnySatisfy,
    LoopKind::AllSatisfy,
    LoopKind::AnySatisfy,
    LoopKind::AllSatisfy,
    LoopKind::AnySatisfy,
    LoopKind::AllSatisfy,
    LoopKind::AnySatisfy,
    LoopKind::AllSatisfy,
    LoopKind::AnySatisfy,
    LoopKind::AllSatisfy,
    LoopKind::AnySatisfy,
    LoopKind::AllSatisfy,
    LoopKind::AnySatisfy,
    LoopKind::AllSatisfy,
    LoopKind::AnySatisfy,
    LoopKind::AllSatisfy,
    LoopKind::Collect,
    LoopKind::Select,
    LoopKind::Reject,
    LoopKind::Collect,
    LoopKind::Select,
    LoopKind::Reject,
    LoopKind::Collect,
    LoopKind::Select,
    LoopKind::Reject,
    LoopKind::Collect,
    LoopKind::Select,
    LoopKind::Reject,
    LoopKind::Collect,
    LoopKind::Select,
    LoopKind::Reject,
    LoopKind::Collect,
    LoopKind::Select,
    LoopKind::Reject,
    LoopKind::Collect,
    LoopKind::Select,
    LoopKind::Reject,
    LoopKind::Collect,
    LoopKind::Select,
    LoopKind::Reject,
    LoopKind::Includes,
    LoopKind::OccurrencesOf,
    LoopKind::Includes,
    LoopKind::OccurrencesOf,
    LoopKind::Includes,
    LoopKind::OccurrencesOf,
    LoopKind::Includes,
    LoopKind::OccurrencesOf,
    LoopKind::Includes,
    LoopKind::OccurrencesOf,
    LoopKind::Includes,
    LoopKind::OccurrencesOf,
    LoopKind::Includes,
    LoopKind::OccurrencesOf,
    LoopKind::Includes,
    LoopKind::OccurrencesOf,
    LoopKind::IndexOf,
    LoopKind::IndexOf,
    LoopKind::IndexOf,
    LoopKind::IndexOf,
    LoopKind::IndexOf,
    LoopKind::IndexOf,
    LoopKind::AddToSet,
    LoopKind::Remove,
    LoopKind::RemoveIfAbsent,
    LoopKind::Remove,
    LoopKind::RemoveIfAbsent,
    LoopKind::At,
    LoopKind::AtIfAbsent,
    LoopKind::AtPut,
    LoopKind::AtIfAbsentPut,
    LoopKind::IncludesKey,
    LoopKind::RemoveKey,
    LoopKind::RemoveKeyIfAbsent,
    LoopKind::EqualElements,
    LoopKind::EqualElements,
    LoopKind::NotEqual,
];

// The loops behind the other messages.
fn loops() -> &'static [LoopKind]
    ensures { map message_of result.now ≡ loops_in numbered_messages }
{
    &LOOPS
}

/// The loop with this number in the table of built-in messages, or None where the message is none.
pub fn loop_kind(message: u16) -> Option<LoopKind>
    ensures { option_map message_of result ≡ loop_of (numbered_row message) }
{
    let number = message as usize;
    if number < FIRST {
        return None;
    }
    let place = number - FIRST;
    let loops = loops();
    if place < loops.len() {
        return Some(loops[place]);
    }
    None
}
