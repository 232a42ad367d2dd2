// The whole of a file, element by element.
ghost use Rattle.std.specs.Prelude.{◌≡◌, ◌≢◌, ◌-◌, ◌<◌, ◌≤◌, ◌^◌, ℕ, List, [], length, Some, IfSome};
ghost use Rattle.std.specs.Io.KnownBytes.{append_known};
ghost use Rattle.st_base.specs.Streams.{Rose};
ghost use Rattle.sif_chunks.specs.Leaving.{Leaves};
ghost use Rattle.sif_chunks.specs.Reading.{Takes};
ghost use Rattle.st_tree.specs.Numbers.{elements_in};
ghost use Rattle.sif_elements.specs.Steps.{reading, step_of, at_end};
ghost use Rattle.sif_elements.specs.Turns.{turn_of, turn_behind, made, Ends};
ghost use Rattle.sif_elements.specs.Answered.{said, IfRead, Took, LeavesOpen};
ghost use Rattle.st_tree.specs.Small.{IsSmall};

use crate::progress::{Progress, Stepped, step};
use sif_chunks::{Appendix, ChunkReader, Next};
use st_base::{Place, Reason, Source};
use st_tree::units::Definition;
use std::alloc::Global;

/// What reading a file comes to.
#[derive(Drop)]
pub enum ReadAnswer {
    /// The file's program. The file was read to its end.
    Read(Definition),
    /// The first faulty element, its first faulty byte, and why.
    Refused(Place, Reason),
    /// The source failed.
    ReadFault,
    /// Memory was wanted and not there.
    OutOfMemory,
}

// Where an answer of the reader leads: further, or to what reading answers.
#[derive(Drop)]
enum Turned {
    Goes(Progress),
    Ends(ReadAnswer),
}

fn refuse(place: Place, reason: Reason) -> Turned
    ensures { result ≡ Turned.Ends (ReadAnswer.Refused place reason) }
{
    Turned::Ends(ReadAnswer::Refused(place, reason))
}

// The file ends, and the next element would have this number.
fn finish(progress: Progress, element: u32) -> Turned
    ensures { made result ≡ Some (Ends (at_end progress element)) }
{
    match progress {
        Progress::Start => refuse(Place { element, byte: 0 }, Reason::MissingVersion),
        Progress::Awaiting(_, _) => refuse(Place { element, byte: 0 }, Reason::MissingText),
        Progress::Between(units) => Turned::Ends(ReadAnswer::Read(Definition { units })),
    }
}

// Takes the element with this number.
fn take_element(alloc: Global, progress: Progress, element: u32, text: &[u8]) -> Turned
    requires { length text.now ≤ 1048576 }
    ensures { IfSome (made result) (λ turn. turn ≡ turn_behind element (step_of progress text.now)) }
{
    match step(alloc, progress, text) {
        Stepped::Goes(after) => Turned::Goes(after),
        Stepped::Spoilt(byte, reason) => refuse(Place { element, byte }, reason),
        Stepped::OutOfMemory => Turned::Ends(ReadAnswer::OutOfMemory),
    }
}

// Goes where an answer of the reader leads.
fn turn(alloc: Global, progress: Progress, next: Next, reader: &ChunkReader) -> Turned
    ensures made { IfSome (made result) (λ turn. turn ≡ turn_of progress next reader.now.number reader.now.text) }
    ensures short { next ≡ Next.Element → length reader.now.text ≤ 1048576 }
    ensures fault { next ≡ Next.ReadFault → result ≡ Turned.Ends ReadAnswer.ReadFault }
{
    let place = reader.place();
    match next {
        Next::Element => take_element(alloc, progress, place.element, reader.text()),
        Next::End => finish(progress, place.element),
        Next::Unfinished => refuse(place, Reason::Unfinished),
        Next::TooLong => refuse(place, Reason::ElementTooLong),
        Next::InputTooLong => refuse(place, Reason::InputTooLong),
        Next::ReadFault => Turned::Ends(ReadAnswer::ReadFault),
    }
}

/// What reading a file comes to, and how many bytes were taken.
#[derive(Drop)]
pub struct FileRead {
    pub answer: ReadAnswer,
    pub bytes: usize,
}

/// As `read_definition`, where the file is what the source gives and behind its end the appendix.
pub fn read_file<S: Source>(alloc: Global, source: &mut S, appendix: &mut Appendix) -> FileRead
    ensures told { IfSome (append_known (S.left source.old) appendix.old) (λ file. IfSome (said result.answer) (λ answer. reading file ≡ answer)) }
    ensures ended { IfRead result.answer (λ units. IfSome (append_known (S.left source.new) appendix.new) (λ bytes. bytes ≡ [])) }
    ensures few { IfRead result.answer (λ units. elements_in units < 2 ^ 32 - 1) }
    ensures small { IfRead result.answer IsSmall }
    ensures took { Took (append_known (S.left source.old) appendix.old) (append_known (S.left source.new) appendix.new) }
    ensures unsettled { result.answer ≡ ReadAnswer.ReadFault → IfSome (append_known (S.left source.old) appendix.old) (λ file. LeavesOpen file (append_known (S.left source.new) appendix.new)) }
    ensures source_unsettled { result.answer ≡ ReadAnswer.ReadFault → IfSome (S.left source.old) (λ bytes. LeavesOpen bytes (S.left source.new)) }
    ensures kept { result.answer ≢ ReadAnswer.ReadFault → S.faults source.new ≡ S.faults source.old }
    ensures failed { result.answer ≡ ReadAnswer.ReadFault → Rose (S.faults source.old) (S.faults source.new) }
    ensures counted { (got : List ℕ) × Takes 0 result.bytes (append_known (S.left source.old) appendix.old) (append_known (S.left source.new) appendix.new) got }
    ensures leaves { Leaves (S.left source.old) (S.left source.new) appendix.old appendix.new }
{
    let mut reader = match ChunkReader::new(alloc) {
        Ok(reader) => reader,
        Err(_) => {
            return FileRead {
                answer: ReadAnswer::OutOfMemory,
                bytes: 0,
            };
        }
    };
    let mut progress = Progress::Start;
    loop {
        let next = reader.next_with(source, appendix);
        match turn(alloc, progress, next, &reader) {
            Turned::Goes(after) => progress = after,
            Turned::Ends(answer) => {
                return FileRead {
                    answer,
                    bytes: reader.taken(),
                };
            }
        }
    }
}

/// Reads a file to its end, or to the first element that is refused, whichever way the source
/// divides it (ANSI NCITS 319, 4.1). No element behind a faulty one is judged, and no byte more is
/// taken than shows a file to be too long.
pub fn read_definition<S: Source>(alloc: Global, source: &mut S) -> ReadAnswer
    ensures told { IfSome (S.left source.old) (λ file. IfSome (said result) (λ answer. reading file ≡ answer)) }
    ensures ended { IfRead result (λ units. IfSome (S.left source.new) (λ bytes. bytes ≡ [])) }
    ensures few { IfRead result (λ units. elements_in units < 2 ^ 32 - 1) }
    ensures small { IfRead result IsSmall }
    ensures took { Took (S.left source.old) (S.left source.new) }
    ensures unsettled { result ≡ ReadAnswer.ReadFault → IfSome (S.left source.old) (λ file. LeavesOpen file (S.left source.new)) }
    ensures kept { result ≢ ReadAnswer.ReadFault → S.faults source.new ≡ S.faults source.old }
    ensures failed { result ≡ ReadAnswer.ReadFault → Rose (S.faults source.old) (S.faults source.new) }
{
    let mut none = Appendix::none();
    let read = read_file(alloc, source, &mut none);
    read.answer
}
