// A row: a call, and its cases with what each has to answer.

use serde::Deserialize;
use st_base::{MemorySource, OutOfMemory};
use std::alloc::Global;

/// A call and its cases.
#[derive(Drop, Deserialize)]
#[serde(deny_unknown_fields)]
pub struct Row {
    /// What the row shows.
    pub name: String,

    pub call: String,

    pub cases: Vec<Case>,
}

/// What a call is given, and what it has to answer.
#[derive(Drop, Deserialize)]
#[serde(deny_unknown_fields)]
pub struct Case {
    /// A text, or the middle of one, which stands there `times` times.
    #[serde(default)]
    pub text: String,

    #[serde(default)]
    pub front: String,

    #[serde(default = "once")]
    pub times: u32,

    #[serde(default)]
    pub back: String,

    /// How many bytes the text gives at once; 0 sets no bound.
    #[serde(default)]
    pub piece: usize,

    /// How many bytes each call gives at most, where that isn't `piece`.
    #[serde(default)]
    pub cuts: Vec<usize>,

    /// The calls of the device that fail, counted from 0.
    #[serde(default)]
    pub failing: Vec<u64>,

    /// How many bytes a sink takes.
    #[serde(default)]
    pub room: usize,

    /// How often the call is made.
    #[serde(default = "once")]
    pub calls: u32,

    /// Words, names, or texts that are written one after the other.
    #[serde(default)]
    pub parts: Vec<String>,

    #[serde(default)]
    pub numbers: Vec<u32>,

    pub wanted: String,
}

fn once() -> u32 {
    1
}

impl Case {
    /// The text with its front and its back.
    pub fn whole_text(&self, alloc: Global) -> Result<Vec<u8>, OutOfMemory> {
        let mut whole = Vec::from_slice(alloc, self.front.as_bytes())?;
        for _ in 0..self.times {
            whole.extend_from_slice(self.text.as_bytes())?;
        }
        whole.extend_from_slice(self.back.as_bytes())?;
        Ok(whole)
    }

    // How many bytes each call gives at most.
    fn pieces(&self, alloc: Global, length: usize) -> Result<Vec<usize>, OutOfMemory> {
        if self.piece == 0 {
            return Ok(self.cuts.clone()?);
        }
        Ok(vec![in alloc; self.piece; length]?)
    }

    /// A source of the whole text.
    pub fn source(&self, alloc: Global) -> Result<MemorySource, OutOfMemory> {
        let bytes = self.whole_text(alloc)?;
        let cuts = self.pieces(alloc, bytes.len())?;
        Ok(MemorySource::new(bytes, cuts, self.failing.clone()?))
    }

    /// A number of the case, or 0.
    pub fn number(&self, at: usize) -> u32 {
        match self.numbers.get(at) {
            Some(number) => *number,
            None => 0,
        }
    }
}
