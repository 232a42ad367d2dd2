// The table of names.

ghost use Rattle.std.specs.Prelude.{◌≡◌, ◌-◌, ◌<◌, ◌^◌, [], length, IfOk, OnErr, OnOk, position, slice_get, Some};
ghost use Rattle.std.specs.List.{position_or_len};
ghost use Rattle.std.specs.Str.{bytes_eq};
ghost use Rattle.indexmap.specs.IndexSet.{insert_key};

use indexmap::IndexSet;
use st_base::OutOfMemory;
use std::alloc::Global;
use std::marker::Model;

/// Texts, each once, in the order in which they first came. A text's number is its place there,
/// from 0, and never changes.
#[derive(Drop)]
pub struct Names {
    alloc: Global,
    set: IndexSet<Vec<u8>>,
}

impl Model for Names {
    ghost use Rattle.std.specs.Prelude.{List, ℕ, ◌<◌, ◌^◌, length, map, vec_items};
    ghost use Rattle.indexmap.specs.IndexSet.{keys};

    ghost Value = { List (List ℕ) };

    ghost view = { λ n. map vec_items n.set.keys };

    ghost invariant = { λ n. length n.set.keys < 2 ^ 32 };
}

impl Names {
    /// No names. It takes no memory: each new name takes its own.
    pub fn new(alloc: Global) -> Names
        ensures { result ≡ [] }
    {
        Names {
            alloc,
            set: IndexSet::new(alloc),
        }
    }

    /// How many names there are: the number that the next new name gets.
    pub fn len(&self) -> u32
        ensures { result ≡ length self.now }
    {
        self.set.len() as u32
    }

    /// The number of a name. None where it isn't there.
    pub fn find(&self, text: &[u8]) -> Option<u32>
        ensures { result ≡ position (bytes_eq text.now) self.now }
    {
        match self.set.get_index_of(text) {
            Some(index) => Some(index as u32),
            None => None,
        }
    }

    /// The name with this number.
    pub fn text(&self, number: u32) -> &[u8]
        requires { number < length self.now }
        ensures { slice_get self.now number ≡ Some result.now }
    {
        match self.set.get_index(number as usize) {
            Some(name) => name.as_slice(),
            None => unreachable!(),
        }
    }

    /// The number of a name, which is added behind the others where it isn't there yet. A name
    /// that is there takes no memory. Out of memory leaves the names as they were.
    pub fn intern(&mut self, text: &[u8]) -> Result<u32, OutOfMemory>
        requires { length self.old < 2 ^ 32 - 1 }
        ensures number { IfOk result (λ n. n ≡ position_or_len (bytes_eq text.now) self.old) }
        ensures names { OnOk result (self.new ≡ insert_key bytes_eq self.old text.now) }
        ensures err { OnErr result (self.new ≡ self.old) }
    {
        if let Some(number) = self.find(text) {
            return Ok(number);
        }
        let name = Vec::from_slice(self.alloc, text)?;
        let (index, _) = self.set.insert_full(name)?;
        Ok(index as u32)
    }
}
