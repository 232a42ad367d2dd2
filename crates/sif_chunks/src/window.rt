// The bytes of the input that are in hand.
ghost use Rattle.std.specs.Prelude.{◌≡◌, ◌≢◌, ◌+◌, ◌≤◌, [], IfOk, length, drop};
ghost use Rattle.std.specs.Io.KnownBytes.{append_known};
ghost use Rattle.st_base.specs.Streams.{Rose};
ghost use Rattle.sif_chunks.specs.Leaving.{Leaves};
ghost use Rattle.sif_chunks.specs.Window.{Fills};

use crate::appendix::{Appendix, take_with};
use st_base::{OutOfMemory, Source};
use std::alloc::Global;
use std::marker::Model;

/// How many bytes an input has at most.
pub const MAX_INPUT: usize = 16_777_216;

// How many bytes are taken at once.
const PIECE: usize = 65_536;

/// What came of asking for more bytes.
#[derive(Clone, Copy, Debug, PartialEq, Eq)]
pub(crate) enum Fill {
    Some,
    End,
    /// A byte came behind the longest input.
    Beyond,
    Failed,
}

/// Bytes that were taken and not judged: a piece, and before it perhaps a bang of the piece before.
#[derive(Drop)]
pub(crate) struct Window {
    bytes: Vec<u8>,
    start: usize,
    end: usize,
    taken: usize,
}

impl Model for Window {
    ghost use Rattle.sif_chunks.specs.Window.{Held, view_of, IsSound};

    ghost Value = { Held };

    ghost view = { view_of };

    ghost invariant = { IsSound };
}

impl Window {
    pub fn new(alloc: Global) -> Result<Window, OutOfMemory>
        ensures { IfOk result (λ w. w ≡ record { pending = []; taken = 0 }) }
    {
        let mut bytes = Vec::new(alloc);
        bytes.resize(1 + PIECE, 0)?;
        Ok(Window {
            bytes,
            start: 0,
            end: 0,
            taken: 0,
        })
    }

    pub fn bytes(&self) -> &[u8]
        ensures bytes { result.now ≡ self.now.pending }
        ensures counted { length result.now ≤ self.now.taken }
    {
        &self.bytes[self.start..self.end]
    }

    /// How many bytes were taken.
    pub fn taken(&self) -> usize
        ensures { result ≡ self.now.taken }
    {
        self.taken
    }

    /// Takes the first bytes as judged.
    pub fn pass(&mut self, count: usize)
        requires { count ≤ length self.old.pending }
        ensures { self.new ≡ record { pending = drop count self.old.pending; taken = self.old.taken } }
    {
        self.start += count;
    }

    /// Takes the next bytes of the source, or those behind its end, and none behind the longest input but one.
    pub fn refill<S: Source>(&mut self, source: &mut S, appendix: &mut Appendix) -> Fill
        requires spent { length self.old.pending ≤ 1 }
        requires input { self.old.taken ≤ MAX_INPUT }
        ensures bytes { Fills self.old (append_known (S.left source.old) appendix.old) result self.new (append_known (S.left source.new) appendix.new) }
        ensures leaves { Leaves (S.left source.old) (S.left source.new) appendix.old appendix.new }
        ensures later { S.faults source.old ≤ S.faults source.new }
        ensures kept { result ≢ Fill.Failed → S.faults source.new ≡ S.faults source.old }
        ensures failed { result ≡ Fill.Failed → Rose (S.faults source.old) (S.faults source.new) }
    {
        let kept = self.end - self.start;
        self.bytes.copy_within(self.start..self.end, 0);
        self.start = 0;
        self.end = kept;
        let room = PIECE.min(MAX_INPUT - self.taken).max(1);
        match take_with(source, appendix, &mut self.bytes[kept..kept + room]) {
            Ok(0) => Fill::End,
            Ok(count) => {
                self.end += count;
                self.taken += count;
                if self.taken > MAX_INPUT {
                    return Fill::Beyond;
                }
                Fill::Some
            }
            Err(_) => Fill::Failed,
        }
    }
}
