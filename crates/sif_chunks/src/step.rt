// One step of the split: the bytes up to a bang, and what the bang is.
ghost use Rattle.std.specs.Prelude.{◌≡◌, ◌≢◌, ◌<◌, ◌≤◌, ℕ, slice_index, length};
ghost use Rattle.sif_chunks.specs.Step.{Steps};

use crate::element::ElementText;
use memchr::memchr;

/// What stands at the end of a step.
#[derive(Clone, Copy, Debug, PartialEq, Eq)]
pub(crate) enum Step {
    /// Two bangs, so the text goes on.
    Doubled,
    /// A separator, so the text is complete.
    Separator,
    /// The text would be too long.
    TooLong,
    /// More bytes are needed.
    More,
}

// How many bytes stand before the first bang.
pub(crate) fn run_of(bytes: &[u8]) -> usize
    ensures within { result ≤ length bytes.now }
    ensures plain { (k : ℕ) → k < result → slice_index bytes.now k ≢ 33 }
    ensures bang { result < length bytes.now → slice_index bytes.now result ≡ 33 }
{
    match memchr(b'!', bytes) {
        Some(run) => run,
        None => bytes.len(),
    }
}

/// Goes on with a text over the bytes, and says how many of them it took.
pub(crate) fn go_on(bytes: &[u8], text: &mut ElementText) -> (usize, Step)
    ensures { Steps text.old bytes.now result.0 result.1 text.new }
{
    let run = run_of(bytes);
    let room = text.room();
    if run > room {
        text.add(&bytes[..room]);
        return (room, Step::TooLong);
    }
    if bytes.len() - run < 2 {
        text.add(&bytes[..run]);
        return (run, Step::More);
    }
    if bytes[run + 1] != b'!' {
        text.add(&bytes[..run]);
        return (run + 1, Step::Separator);
    }
    if run == room {
        text.add(&bytes[..run]);
        return (run, Step::TooLong);
    }
    text.add(&bytes[..run + 1]);
    (run + 2, Step::Doubled)
}
