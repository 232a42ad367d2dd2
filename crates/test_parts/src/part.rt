// A row, and what its calls are made to.
ghost use Rattle.std.specs.Prelude.{◌≤◌};

use crate::call::Call;
use serde::Deserialize;
use st_base::OutOfMemory;
use std::alloc::Global;

/// Calls that are made one after the other.
#[derive(Drop, Deserialize)]
#[serde(deny_unknown_fields)]
pub struct Row {
    /// What the row shows.
    pub name: String,

    /// What the calls are made to.
    pub part: String,

    /// An interchange file, where the part is one of a program.
    #[serde(default)]
    pub text: String,

    /// A limit of cells or of depth, and a width.
    #[serde(default)]
    pub limits: Vec<u32>,

    /// Each call, and behind ` => ` what it has to answer.
    pub calls: Vec<String>,
}

// The greatest limit of cells.
const MOST_CELLS: u32 = 67_108_864;

impl Row {
    /// The limit of a heap's cells.
    pub fn cells(&self) -> u32
        ensures { result ≤ 67108864 }
    {
        let limit = self.limit(0);
        if limit > MOST_CELLS {
            MOST_CELLS
        } else {
            limit
        }
    }

    /// A limit, or 0.
    pub fn limit(&self, at: usize) -> u32 {
        match self.limits.get(at) {
            Some(limit) => *limit,
            None => 0,
        }
    }
}

/// What calls are made to.
pub trait Part {
    /// Makes a call, and tells its answer; nothing, where it has none or isn't known.
    fn answer(&mut self, alloc: Global, call: &Call<'_>) -> Result<String, OutOfMemory>;
}

/// No answer.
pub fn nothing(alloc: Global) -> Result<String, OutOfMemory> {
    Ok(String::new(alloc))
}
