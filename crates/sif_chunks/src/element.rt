// The text of the element that is being read, in room for the longest.
ghost use Rattle.std.specs.Prelude.{◌≡◌, ◌+◌, ◌-◌, ◌≤◌, ◌++◌, [], IfOk, length};
ghost use Rattle.sif_chunks.specs.Reading.{is_white};

use st_base::OutOfMemory;
use std::alloc::Global;
use std::marker::Model;

/// How many bytes the text of an element has at most.
pub const MAX_TEXT: usize = 1_048_576;

/// A text that grows by runs of bytes. It takes its memory when it is made.
#[derive(Drop)]
pub(crate) struct ElementText {
    bytes: Vec<u8>,
}

impl Model for ElementText {
    ghost use Rattle.std.specs.Prelude.{List, ℕ, ◌≤◌, vec_len, vec_capacity};

    ghost Value = { List ℕ };

    ghost view = { λ t. t.bytes.items };

    ghost invariant = { λ t. (vec_len t.bytes ≤ 1048576) × (1048576 ≤ vec_capacity t.bytes) };
}

impl ElementText {
    pub fn new(alloc: Global) -> Result<ElementText, OutOfMemory>
        ensures { IfOk result (λ t. t ≡ []) }
    {
        Ok(ElementText {
            bytes: Vec::with_capacity(alloc, MAX_TEXT)?,
        })
    }

    pub fn bytes(&self) -> &[u8]
        ensures text { result.now ≡ self.now }
        ensures short { length result.now ≤ MAX_TEXT }
    {
        &self.bytes
    }

    /// How many bytes more it may have.
    pub fn room(&self) -> usize
        ensures room { result ≡ MAX_TEXT - length self.now }
        ensures short { length self.now ≤ MAX_TEXT }
    {
        MAX_TEXT - self.bytes.len()
    }

    pub fn add(&mut self, run: &[u8])
        requires { length self.old + length run.now ≤ MAX_TEXT }
        ensures { self.new ≡ self.old ++ run.now }
    {
        match self.bytes.extend_from_slice(run) {
            Ok(()) => (),
            Err(_) => unreachable!(),
        }
    }

    pub fn clear(&mut self)
        ensures { self.new ≡ [] }
    {
        self.bytes.clear();
    }

    /// Whether it has white space alone.
    pub fn is_white(&self) -> bool
        ensures { result ≡ is_white self.now }
    {
        self.bytes.iter().all(|b| *b == 9 || *b == 10 || *b == 12 || *b == 13 || *b == 32)
    }
}
