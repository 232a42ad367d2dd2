// The beginning of a line that isn't whole, in room for the longest line.
ghost use Rattle.std.specs.Prelude.{◌≡◌, ◌++◌, ◌≤◌, [], IfOk, length, take};

use st_base::OutOfMemory;
use std::alloc::Global;
use std::marker::Model;

/// How many bytes of a line are kept: one more than the longest line has before its byte 10, so
/// that a longer one is seen to be none.
pub(crate) const MOST_KEPT: usize = 49;

/// The first bytes of a line. It takes its memory when it is made.
#[derive(Drop)]
pub(crate) struct LineStart {
    bytes: Vec<u8>,
}

impl Model for LineStart {
    ghost use Rattle.std.specs.Prelude.{List, ℕ, ◌≤◌, vec_len, vec_capacity};

    ghost Value = { List ℕ };

    ghost view = { λ s. s.bytes.items };

    ghost invariant = { λ s. (vec_len s.bytes ≤ 49) × (49 ≤ vec_capacity s.bytes) };
}

impl LineStart {
    pub fn new(alloc: Global) -> Result<LineStart, OutOfMemory>
        ensures { IfOk result (λ s. s ≡ []) }
    {
        Ok(LineStart {
            bytes: Vec::with_capacity(alloc, MOST_KEPT)?,
        })
    }

    pub fn bytes(&self) -> &[u8]
        ensures text { result.now ≡ self.now }
        ensures short { length result.now ≤ MOST_KEPT }
    {
        &self.bytes
    }

    /// Adds as many of the bytes as there is room for.
    pub fn add(&mut self, run: &[u8])
        ensures { self.new ≡ take MOST_KEPT (self.old ++ run.now) }
    {
        let count = run.len().min(MOST_KEPT - self.bytes.len());
        match self.bytes.extend_from_slice(&run[..count]) {
            Ok(()) => (),
            Err(_) => unreachable!(),
        }
    }

    pub fn clear(&mut self)
        ensures { self.new ≡ [] }
    {
        self.bytes.clear();
    }
}
