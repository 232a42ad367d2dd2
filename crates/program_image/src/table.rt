// The table of methods and built-in messages, sorted by selector, side and class.
ghost use Rattle.std.specs.Prelude.{◌≡◌, ◌≤◌, length, IfOk};
ghost use Rattle.program_image.specs.Tables.{first_found, IsSortedTable, Searched, HasFirsts};

use st_base::OutOfMemory;
use std::alloc::Global;
use std::marker::Model;

/// Which methods of a class are meant: those of its instances, of the class, or of its metaclass.
#[derive(Clone, Copy, Debug, PartialEq, Eq, PartialOrd, Ord)]
pub enum Side {
    Instance,
    Class,
    Meta,
}

/// What a lookup finds.
#[derive(Clone, Copy, Debug, PartialEq, Eq)]
pub enum Found {
    /// A method of the file, by the place of its unit among the definition's units, from 0.
    User(u32),
    /// A built-in message, by its number.
    BuiltIn(u16),
}

/// What a method is looked up by.
#[derive(Clone, Copy, Debug, PartialEq, Eq, PartialOrd, Ord)]
pub(crate) struct Key {
    pub selector: u32,
    pub side: Side,
    pub class: u32,
}

/// A method, or a built-in message.
#[derive(Clone, Copy, Debug, PartialEq, Eq)]
pub(crate) struct Entry {
    pub key: Key,
    pub found: Found,
}

/// Entries by their keys. Where several have one key, the first of the list counts.
#[derive(Drop)]
pub(crate) struct MethodTable {
    entries: Vec<Entry>,
}

impl Model for MethodTable {
    ghost use Rattle.std.specs.Prelude.{List};
    ghost use Rattle.program_image.specs.declared.table.Entry.{Entry};

    ghost Value = { List Entry };

    ghost use Rattle.program_image.specs.Tables.{IsSortedTable};

    ghost view = { λ t. t.entries.items };

    ghost invariant = { λ t. IsSortedTable t.entries.items };
}

// The place of the first entry that doesn't come before this key.
fn place_of(entries: &[Entry], key: Key) -> usize
    requires { IsSortedTable entries.now }
    ensures { Searched entries.now key result result }
{
    let mut low = 0;
    let mut high = entries.len();
    while low < high {
        let middle = low + (high - low) / 2;
        if entries[middle].key.cmp(&key).is_lt() {
            low = middle + 1;
        } else {
            high = middle;
        }
    }
    low
}

impl MethodTable {
    /// The entries, sorted.
    pub(crate) fn new(entries: Vec<Entry>) -> Result<MethodTable, OutOfMemory>
        ensures { IfOk result (λ t. HasFirsts entries.items t) }
    {
        let mut entries = entries;
        entries.sort_by_key(|entry| entry.key)?;
        Ok(MethodTable { entries })
    }

    /// What the first entry with this key has.
    pub(crate) fn find(&self, key: Key) -> Option<Found>
        ensures { result ≡ first_found self.now key }
    {
        let entries = self.entries.as_slice();
        let place = place_of(entries, key);
        if place == entries.len() {
            return None;
        }
        let entry = entries[place];
        if entry.key == key {
            return Some(entry.found);
        }
        None
    }
}
