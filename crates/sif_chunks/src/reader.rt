// The reader of a file's elements.
ghost use Rattle.std.specs.Prelude.{◌≡◌, ◌≢◌, ◌+◌, ◌<◌, ◌≤◌, ℕ, [], None, IfOk, IfSome, length, false};
ghost use Rattle.std.specs.Io.KnownBytes.{append_known};
ghost use Rattle.std.specs.Option.{option_map};
ghost use Rattle.st_base.specs.Streams.{Rose};
ghost use Rattle.sif_chunks.specs.Leaving.{Leaves};
ghost use Rattle.sif_chunks.specs.Reading.{outlook, told, judged, Settled};
ghost use Rattle.sif_chunks.specs.Turn.{Gives, judged_of};

use crate::Next;
use crate::appendix::Appendix;
use crate::element::{ElementText, MAX_TEXT};
use crate::next::Stop;
use crate::turn::turn;
use crate::window::{MAX_INPUT, Window};
use st_base::{OutOfMemory, Place, Source};
use std::alloc::Global;
use std::marker::Model;

// Reads on until the element is settled.
fn advance<S: Source>(
    window: &mut Window,
    text: &mut ElementText,
    source: &mut S,
    appendix: &mut Appendix,
) -> Next
    requires { window.old.taken ≤ MAX_INPUT }
    ensures gives { Gives result text.old window.old (append_known (S.left source.old) appendix.old) text.new window.new (append_known (S.left source.new) appendix.new) }
    ensures input { result ≢ Next.InputTooLong → window.new.taken ≤ MAX_INPUT }
    ensures most { window.new.taken ≤ MAX_INPUT + 1 }
    ensures moved { judged_of window.old ≤ judged_of window.new }
    ensures judged { judged_of window.new ≤ MAX_INPUT }
    ensures given { result ≡ Next.Element → judged_of window.old < judged_of window.new }
    ensures ended { result ≡ Next.End → IfSome (append_known (S.left source.new) appendix.new) (λ bytes. bytes ≡ []) }
    ensures leaves { Leaves (S.left source.old) (S.left source.new) appendix.old appendix.new }
    ensures later { S.faults source.old ≤ S.faults source.new }
    ensures kept { result ≢ Next.ReadFault → S.faults source.new ≡ S.faults source.old }
    ensures failed { result ≡ Next.ReadFault → Rose (S.faults source.old) (S.faults source.new) }
{
    loop {
        if let Some(answer) = turn(window, text, source, appendix) {
            return answer;
        }
    }
}

/// Reads the elements of an interchange file (ANSI NCITS 319, section 4), whichever way the source
/// divides it. It takes its memory when it is made.
#[derive(Drop)]
pub struct ChunkReader {
    window: Window,
    text: ElementText,
    number: u32,
    is_given: bool,
    stop: Option<Stop>,
}

impl Model for ChunkReader {
    ghost use Rattle.sif_chunks.specs.Reading.{Reader};

    ghost Value = { Reader };

    ghost use Rattle.sif_chunks.specs.Inside.{view_of, IsSound};

    ghost view = { view_of };

    ghost invariant = { IsSound };
}

impl ChunkReader {
    ghost use Rattle.sif_chunks.specs.Answers.{stop_of, is_element};

    /// A reader that has taken nothing, with room for the longest element.
    pub fn new(alloc: Global) -> Result<ChunkReader, OutOfMemory>
        ensures { IfOk result (λ r. r ≡ record { number = 1; text = []; is_given = false; stop = None; pending = []; taken = 0 }) }
    {
        Ok(ChunkReader {
            window: Window::new(alloc)?,
            text: ElementText::new(alloc)?,
            number: 1,
            is_given: false,
            stop: None,
        })
    }

    /// Reads on to the next element that has more than white space. It takes no memory, and no byte
    /// more than it needs to find an input too long.
    pub fn next<S: Source>(&mut self, source: &mut S) -> Next
        ensures answer { option_map (outlook self.old) (S.left source.old) ≡ option_map (told result self.new) (S.left source.new) }
        ensures settled { Settled result self.old (S.left source.old) self.new (S.left source.new) }
        ensures given { self.new.is_given ≡ is_element result }
        ensures stop { self.new.stop ≡ stop_of result }
        ensures input { self.new.stop ≡ None → self.new.taken ≤ MAX_INPUT }
        ensures most { self.new.taken ≤ MAX_INPUT + 1 }
        ensures moved { judged self.old ≤ judged self.new }
        ensures progress { self.old.stop ≡ None → result ≡ Next.Element → judged self.old < judged self.new }
        ensures bound { judged self.new ≤ MAX_INPUT }
        ensures ended { self.old.stop ≡ None → result ≡ Next.End → IfSome (S.left source.new) (λ bytes. bytes ≡ []) }
        ensures later { S.faults source.old ≤ S.faults source.new }
        ensures kept { result ≢ Next.ReadFault → S.faults source.new ≡ S.faults source.old }
        ensures failed { result ≡ Next.ReadFault → Rose (S.faults source.old) (S.faults source.new) }
    {
        let mut none = Appendix::none();
        self.next_with(source, &mut none)
    }

    /// As `next`, where the input is what the source gives and behind its end the appendix.
    pub fn next_with<S: Source>(&mut self, source: &mut S, appendix: &mut Appendix) -> Next
        ensures answer { option_map (outlook self.old) (append_known (S.left source.old) appendix.old) ≡ option_map (told result self.new) (append_known (S.left source.new) appendix.new) }
        ensures settled { Settled result self.old (append_known (S.left source.old) appendix.old) self.new (append_known (S.left source.new) appendix.new) }
        ensures given { self.new.is_given ≡ is_element result }
        ensures stop { self.new.stop ≡ stop_of result }
        ensures input { self.new.stop ≡ None → self.new.taken ≤ MAX_INPUT }
        ensures most { self.new.taken ≤ MAX_INPUT + 1 }
        ensures moved { judged self.old ≤ judged self.new }
        ensures progress { self.old.stop ≡ None → result ≡ Next.Element → judged self.old < judged self.new }
        ensures bound { judged self.new ≤ MAX_INPUT }
        ensures ended { self.old.stop ≡ None → result ≡ Next.End → IfSome (append_known (S.left source.new) appendix.new) (λ bytes. bytes ≡ []) }
        ensures leaves { Leaves (S.left source.old) (S.left source.new) appendix.old appendix.new }
        ensures later { S.faults source.old ≤ S.faults source.new }
        ensures kept { result ≢ Next.ReadFault → S.faults source.new ≡ S.faults source.old }
        ensures failed { result ≡ Next.ReadFault → Rose (S.faults source.old) (S.faults source.new) }
    {
        if let Some(stop) = self.stop {
            return stop.next();
        }
        if self.is_given {
            self.is_given = false;
            self.number += 1;
            self.text.clear();
        }
        let answer = advance(&mut self.window, &mut self.text, source, appendix);
        self.is_given = answer.is_element();
        self.stop = answer.stop();
        answer
    }

    /// How many bytes were taken.
    pub fn taken(&self) -> usize
        ensures { result ≡ self.now.taken }
    {
        self.window.taken()
    }

    /// The element's text so far.
    pub fn text(&self) -> &[u8]
        ensures text { result.now ≡ self.now.text }
        ensures short { length result.now ≤ MAX_TEXT }
    {
        self.text.bytes()
    }

    /// The element's number, and how long its text is so far.
    pub fn place(&self) -> Place
        ensures { result ≡ record { element = self.now.number; byte = length self.now.text } }
    {
        Place {
            element: self.number,
            byte: self.text.bytes().len() as u32,
        }
    }
}
