// The classes of a program by number, and by name.
ghost use Rattle.std.specs.Prelude.{◌≡◌, ◌<◌, ◌^◌, ◌++◌, [], ◌∷◌, length, map, IfSome, OnOk, OnErr};
ghost use Rattle.indexmap.specs.IndexMap.{spare};
ghost use Rattle.st_code.specs.Resolved.{class_in};
ghost use Rattle.program_image.specs.Classes.{seen_class, GainsName};

use crate::class::Class;
use indexmap::IndexMap;
use sqlite_items::Items;
use st_base::OutOfMemory;
use std::alloc::Global;
use std::marker::Model;

/// The classes of a program by number, with the number of the first class of each name. Contracts
/// see the classes.
#[derive(Drop)]
pub(crate) struct Classes {
    alloc: Global,
    items: Items<Class>,
    numbers: IndexMap<Vec<u8>, u32>,
}

impl Model for Classes {
    ghost use Rattle.std.specs.Prelude.{List, ◌<◌, ◌^◌, length};
    ghost use Rattle.std.specs.Coded.{coded_list};
    ghost use Rattle.program_image.specs.contracts.class.Class as class;
    ghost use Rattle.program_image.specs.declared.class.Class.{Class};
    ghost use Rattle.program_image.specs.Classes.{HasNumbers};

    ghost coded = { coded_list class.the_row.coded };

    ghost Value = { List Class };

    ghost view = { λ c. c.items };

    ghost invariant = { λ c. HasNumbers c.items c.numbers × (length c.items < 2 ^ 32) };
}

// Notes the number of a name, unless it has one. There is room for it.
fn note(numbers: &mut IndexMap<Vec<u8>, u32>, name: Vec<u8>, number: u32)
    requires { 0 < spare numbers.old }
    ensures { GainsName numbers.old name.items number numbers.new }
{
    if numbers.contains_key(name.as_slice()) {
        return;
    }
    match numbers.insert(name, number) {
        Ok(_) => {}
        Err(_) => unreachable!(),
    }
}

impl Classes {
    /// No classes.
    pub(crate) fn new(alloc: Global) -> Classes
        ensures { result ≡ [] }
    {
        Classes {
            alloc,
            items: Items::new(alloc),
            numbers: IndexMap::new(alloc),
        }
    }

    /// The classes by number.
    pub(crate) fn as_slice(&self) -> &[Class]
        ensures { result.now ≡ self.now }
    {
        self.items.as_slice()
    }

    /// How many classes there are.
    pub(crate) fn len(&self) -> u32
        ensures { result ≡ length self.now }
    {
        self.items.len() as u32
    }

    /// The number of the first class of this name.
    pub(crate) fn number(&self, name: &[u8]) -> Option<u32>
        ensures number { result ≡ class_in 0 (map seen_class self.now) name.now }
        ensures there { IfSome result (λ n. n < length self.now) }
    {
        self.numbers.get(name).copied()
    }

    /// Adds a class behind the others.
    pub(crate) fn push(&mut self, class: Class) -> Result<(), OutOfMemory>
        ensures ok { OnOk result (self.new ≡ self.old ++ class ∷ []) }
        ensures err { OnErr result (self.new ≡ self.old) }
        ensures fits { length self.new < 2 ^ 32 }
    {
        if self.items.len() >= u32::MAX as usize {
            return Err(OutOfMemory);
        }
        let number = self.items.len() as u32;
        let name = Vec::from_slice(self.alloc, class.name.as_bytes())?;
        self.numbers.reserve(1)?;
        self.items.push(class)?;
        note(&mut self.numbers, name, number);
        Ok(())
    }
}
