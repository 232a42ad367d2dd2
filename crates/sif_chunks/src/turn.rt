// One turn of a reader: a step of the split, and more bytes where it needs them.
ghost use Rattle.std.specs.Prelude.{◌≡◌, ◌≢◌, ◌+◌, ◌<◌, ◌≤◌, ℕ, [], Some, IfSome, length};
ghost use Rattle.std.specs.Io.KnownBytes.{append_known};
ghost use Rattle.st_base.specs.Streams.{Rose};
ghost use Rattle.sif_chunks.specs.Leaving.{Leaves};
ghost use Rattle.sif_chunks.specs.Reading.{answer_at, tells};
ghost use Rattle.sif_chunks.specs.Step.{IsSpent};
ghost use Rattle.sif_chunks.specs.Turn.{judged_of, Ends, Turns};

use crate::Next;
use crate::appendix::Appendix;
use crate::element::{ElementText, MAX_TEXT};
use crate::step::{Step, go_on};
use crate::window::{Fill, MAX_INPUT, Window};
use st_base::Source;

// Judges what stands before the end of the input.
fn finish(window: &mut Window, text: &mut ElementText) -> Next
    requires spent { IsSpent window.old.pending }
    requires short { length text.old ≤ MAX_TEXT }
    ensures { Ends result text.old window.old text.new window.new }
{
    if text.is_white() {
        text.clear();
        return Next::End;
    }
    if window.bytes().is_empty() {
        return Next::Unfinished;
    }
    window.pass(1);
    Next::Element
}

/// Takes one step, and more bytes where it needs them. It answers where the element is settled.
pub(crate) fn turn<S: Source>(
    window: &mut Window,
    text: &mut ElementText,
    source: &mut S,
    appendix: &mut Appendix,
) -> Option<Next>
    requires { window.old.taken ≤ MAX_INPUT }
    ensures turns { Turns result text.old window.old (append_known (S.left source.old) appendix.old) text.new window.new (append_known (S.left source.new) appendix.new) }
    ensures input { result ≢ Some Next.InputTooLong → window.new.taken ≤ MAX_INPUT }
    ensures most { window.new.taken ≤ MAX_INPUT + 1 }
    ensures moved { judged_of window.old ≤ judged_of window.new }
    ensures judged { judged_of window.new ≤ MAX_INPUT }
    ensures given { result ≡ Some Next.Element → judged_of window.old < judged_of window.new }
    ensures ended { result ≡ Some Next.End → IfSome (append_known (S.left source.new) appendix.new) (λ bytes. bytes ≡ []) }
    ensures leaves { Leaves (S.left source.old) (S.left source.new) appendix.old appendix.new }
    ensures later { S.faults source.old ≤ S.faults source.new }
    ensures kept { result ≢ Some Next.ReadFault → S.faults source.new ≡ S.faults source.old }
    ensures failed { result ≡ Some Next.ReadFault → Rose (S.faults source.old) (S.faults source.new) }
{
    let (count, step) = go_on(window.bytes(), text);
    window.pass(count);
    match step {
        Step::Doubled => None,
        Step::TooLong => Some(Next::TooLong),
        Step::Separator => {
            if !text.is_white() {
                return Some(Next::Element);
            }
            text.clear();
            None
        }
        Step::More => match window.refill(source, appendix) {
            Fill::Some => None,
            Fill::End => Some(finish(window, text)),
            Fill::Beyond => Some(Next::InputTooLong),
            Fill::Failed => Some(Next::ReadFault),
        },
    }
}
