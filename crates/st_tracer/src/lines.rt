// The lines of a trace, as they are written.
ghost use Rattle.std.specs.Prelude.{◌≡◌, ◌∷◌, ◌++◌, [], decimal};
ghost use Rattle.st_base.specs.Streams.{HasCause};
ghost use Rattle.st_machine.specs.Meaning.{event_of, events_of, ending_of};
ghost use Rattle.st_trace.specs.Bytes.{answer_word, line_text};
ghost use Rattle.st_trace.specs.Lines.{Tells, Stops};
ghost use Rattle.st_trace.specs.Told.{word_of};
ghost use Rattle.st_rules.specs.Events.{Tried};
ghost use Rattle.st_transcript.specs.Gained.{Gains};
ghost use Rattle.st_tracer.specs.Traced.{events_text};

use itoa::Buffer;
use st_base::{Failed, Sink, put_all};
use st_contexts::Event;
use st_machine::{Ending, Told};
use st_trace::StopWord;

fn put<K: Sink>(out: &mut K, bytes: &[u8]) -> Result<(), Failed>
    ensures text { Gains (K.written out.old) (K.written out.new) result bytes.now }
    ensures cause { HasCause (K.faults out.old) (K.faults out.new) result }
{
    put_all(out, bytes)
}

fn put_decimal<K: Sink>(out: &mut K, number: u64) -> Result<(), Failed>
    ensures text { Gains (K.written out.old) (K.written out.new) result (decimal number) }
    ensures cause { HasCause (K.faults out.old) (K.faults out.new) result }
{
    let mut digits = Buffer::new();
    put(out, digits.format(number).as_bytes())
}

// A word and a number.
fn put_number<K: Sink>(out: &mut K, word: &[u8], number: u64) -> Result<(), Failed>
    ensures text { Gains (K.written out.old) (K.written out.new) result (word.now ++ decimal number) }
    ensures cause { HasCause (K.faults out.old) (K.faults out.new) result }
{
    match put(out, word) {
        Ok(()) => put_decimal(out, number),
        Err(failed) => Err(failed),
    }
}

// A line of a word and a number.
fn put_numbered<K: Sink>(out: &mut K, word: &[u8], number: u64) -> Result<(), Failed>
    ensures text { Gains (K.written out.old) (K.written out.new) result ((word.now ++ decimal number) ++ 10 ∷ []) }
    ensures cause { HasCause (K.faults out.old) (K.faults out.new) result }
{
    match put_number(out, word, number) {
        Ok(()) => put(out, b"\n"),
        Err(failed) => Err(failed),
    }
}

// A line of a word and two numbers.
fn put_twice_numbered<K: Sink>(
    out: &mut K,
    word: &[u8],
    first: u64,
    second: u64,
) -> Result<(), Failed>
    ensures text { Gains (K.written out.old) (K.written out.new) result ((word.now ++ (decimal first ++ (32 ∷ decimal second))) ++ 10 ∷ []) }
    ensures cause { HasCause (K.faults out.old) (K.faults out.new) result }
{
    match put_number(out, word, first) {
        Ok(()) => put_numbered(out, b" ", second),
        Err(failed) => Err(failed),
    }
}

// The end of a line that says whether an entry fits.
fn answer(fits: bool) -> &'static [u8]
    ensures { result.now ≡ 32 ∷ (answer_word fits ++ 10 ∷ []) }
{
    if fits { b" yes\n" } else { b" no\n" }
}

// The line of an entry that was tried.
fn put_tried<K: Sink>(out: &mut K, entry: u64, fits: bool) -> Result<(), Failed>
    ensures text { Gains (K.written out.old) (K.written out.new) result (line_text (Tells (Tried entry fits))) }
    ensures cause { HasCause (K.faults out.old) (K.faults out.new) result }
{
    match put_number(out, b"tried ", entry) {
        Ok(()) => put(out, answer(fits)),
        Err(failed) => Err(failed),
    }
}

// The line of an event.
fn put_event<K: Sink>(out: &mut K, event: Event) -> Result<(), Failed>
    ensures text { Gains (K.written out.old) (K.written out.new) result (line_text (Tells (event_of event))) }
    ensures cause { HasCause (K.faults out.old) (K.faults out.new) result }
{
    match event {
        Event::Protect(number) => put_numbered(out, b"protect ", number),
        Event::Ensure(number) => put_numbered(out, b"ensure ", number),
        Event::Curtail(number) => put_numbered(out, b"curtail ", number),
        Event::Signal(number) => put_numbered(out, b"signal ", number),
        Event::Outer(number) => put_numbered(out, b"outer ", number),
        Event::Search(number) => put_numbered(out, b"search ", number),
        Event::Tried { entry, fits } => put_tried(out, entry, fits),
        Event::Handle { turn, entry } => put_twice_numbered(out, b"handle ", turn, entry),
        Event::Default(number) => put_numbered(out, b"default ", number),
        Event::Known => put(out, b"known\n"),
        Event::Action(number) => put_numbered(out, b"action ", number),
        Event::Again(number) => put_numbered(out, b"again ", number),
        Event::Ask { wait, entry } => put_twice_numbered(out, b"ask ", wait, entry),
        Event::End { number, cut: false } => put_numbered(out, b"end ", number),
        Event::End { number, cut: true } => put_numbered(out, b"cut ", number),
    }
}

// The lines of two events.
fn put_two<K: Sink>(out: &mut K, first: Event, second: Event) -> Result<(), Failed>
    ensures text { Gains (K.written out.old) (K.written out.new) result (line_text (Tells (event_of first)) ++ line_text (Tells (event_of second))) }
    ensures cause { HasCause (K.faults out.old) (K.faults out.new) result }
{
    match put_event(out, first) {
        Ok(()) => put_event(out, second),
        Err(failed) => Err(failed),
    }
}

/// Writes the lines of what a step tells.
pub(crate) fn put_told<K: Sink>(out: &mut K, told: Told) -> Result<(), Failed>
    ensures text { Gains (K.written out.old) (K.written out.new) result (events_text (events_of told)) }
    ensures cause { HasCause (K.faults out.old) (K.faults out.new) result }
{
    match told {
        Told::Nothing => put(out, b""),
        Told::One(event) => put_event(out, event),
        Told::Two(first, second) => put_two(out, first, second),
    }
}

// The word of an ending.
fn word_of(ending: Ending) -> StopWord
    ensures { result ≡ word_of (ending_of ending) }
{
    match ending {
        Ending::Done => StopWord::Done,
        Ending::Unhandled { .. } => StopWord::Unhandled,
        Ending::Steps => StopWord::Steps,
        Ending::Depth => StopWord::Depth,
        Ending::Cells => StopWord::Cells,
        Ending::Integer | Ending::Stranded => StopWord::Integer,
    }
}

fn stop_line(word: StopWord) -> &'static [u8]
    ensures { result.now ≡ line_text (Stops word) }
{
    match word {
        StopWord::Done => b"stop done\n",
        StopWord::Unhandled => b"stop unhandled\n",
        StopWord::Steps => b"stop steps\n",
        StopWord::Depth => b"stop depth\n",
        StopWord::Cells => b"stop cells\n",
        StopWord::Integer => b"stop integer\n",
    }
}

/// Writes the last line, of a run that ended so.
pub(crate) fn put_stop<K: Sink>(out: &mut K, ending: Ending) -> Result<(), Failed>
    ensures text { Gains (K.written out.old) (K.written out.new) result (line_text (Stops (word_of (ending_of ending)))) }
    ensures cause { HasCause (K.faults out.old) (K.faults out.new) result }
{
    put(out, stop_line(word_of(ending)))
}
