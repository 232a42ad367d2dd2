// Bytes that stand behind those of a source.
ghost use Rattle.std.specs.Prelude.{◌≡◌, ◌<◌, length, take, min};
ghost use Rattle.std.specs.Io.KnownBytes.{append_known};
ghost use Rattle.st_base.specs.Streams.{HasCause, Gives};
ghost use Rattle.sif_chunks.specs.Leaving.{Leaves};

use st_base::{Failed, Source};
use std::marker::Model;

/// Bytes that stand behind those of a source. Contracts see it as those that are left.
#[derive(Drop)]
pub struct Appendix<'a> {
    left: &'a [u8],
}

impl<'a> Model for Appendix<'a> {
    ghost use Rattle.std.specs.Prelude.{ℕ, List};

    ghost Value = { List ℕ };

    ghost view = { λ a. a.left.now };
}

impl<'a> Appendix<'a> {
    ghost use Rattle.std.specs.Prelude.{◌≡◌, ◌++◌, [], length, take, min};

    /// No bytes.
    pub fn none() -> Appendix<'a>
        ensures { result ≡ [] }
    {
        Appendix { left: &[] }
    }

    pub fn new(bytes: &'a [u8]) -> Appendix<'a>
        ensures { result ≡ bytes.now }
    {
        Appendix { left: bytes }
    }

    // Gives the next bytes, as many as there are and there is room for.
    fn take(&mut self, into: &mut [u8]) -> usize
        ensures count { result ≡ min (length self.old) (length into.old) }
        ensures bytes { self.old ≡ take result into.new ++ self.new }
        ensures size { length into.new ≡ length into.old }
    {
        let count = copy_front(self.left, into);
        self.left = &self.left[count..];
        count
    }
}

// Copies the first bytes of `from`, as many as there are and there is room for, and says how many.
fn copy_front(from: &[u8], into: &mut [u8]) -> usize
    ensures count { result ≡ min (length from.now) (length into.old) }
    ensures copied { take result into.new ≡ take result from.now }
    ensures size { length into.new ≡ length into.old }
{
    let count = from.len().min(into.len());
    into[..count].copy_from_slice(&from[..count]);
    count
}

/// Takes the next bytes of a source, and behind its end those of an appendix.
pub(crate) fn take_with<S: Source>(
    source: &mut S,
    appendix: &mut Appendix,
    into: &mut [u8],
) -> Result<usize, Failed>
    requires { 0 < length into.old }
    ensures bytes { Gives (append_known (S.left source.old) appendix.old) (append_known (S.left source.new) appendix.new) result into.new }
    ensures leaves { Leaves (S.left source.old) (S.left source.new) appendix.old appendix.new }
    ensures cause { HasCause (S.faults source.old) (S.faults source.new) result }
{
    match source.take(into) {
        Ok(0) => Ok(appendix.take(into)),
        other => other,
    }
}
