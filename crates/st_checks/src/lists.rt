// Lists of names: which repeat a name, and which share one.
ghost use Rattle.std.specs.Prelude.{◌≡◌, [], IfOk, OnOk, ◌++◌, ◌∷◌, not, if◌then◌else◌};
ghost use Rattle.std.specs.List.{list_any};
ghost use Rattle.std.specs.Str.{bytes_eq};
ghost use Rattle.st_checks.specs.Declarations.{repeats, share};
ghost use Rattle.st_checks.specs.Lists.{distinct};

use indexmap::IndexSet;
use st_base::{OutOfMemory, Text};
use std::alloc::Global;
use std::marker::Model;

/// Names, each once. Contracts see them in the order in which they came.
#[derive(Drop)]
pub(crate) struct NameSet<'a> {
    names: IndexSet<&'a [u8]>,
}

impl<'a> Model for NameSet<'a> {
    ghost use Rattle.std.specs.Prelude.{List, ℕ, map};

    ghost Value = { List (List ℕ) };

    ghost view = { λ s. map (λ n. n.now) s.names.keys };
}

impl<'a> NameSet<'a> {
    /// No names.
    fn new(alloc: Global) -> NameSet<'a>
        ensures { result ≡ [] }
    {
        NameSet {
            names: IndexSet::new(alloc),
        }
    }

    /// Whether the name is among them.
    pub(crate) fn contains(&self, name: &[u8]) -> bool
        ensures { result ≡ list_any (bytes_eq name.now) self.now }
    {
        self.names.contains(&name)
    }

    /// Adds the name behind the others, unless it is among them.
    fn add(&mut self, name: &'a [u8]) -> Result<bool, OutOfMemory>
        ensures added { IfOk result (λ added. added ≡ not (list_any (bytes_eq name.now) self.old)) }
        ensures names { OnOk result (self.new ≡ (if list_any (bytes_eq name.now) self.old then self.old else self.old ++ name.now ∷ [])) }
    {
        Ok(self.names.insert(name)?)
    }
}

/// The names as a set. None where one stands twice among them.
pub(crate) fn distinct<'a>(
    alloc: Global,
    names: &'a [Text],
) -> Result<Option<NameSet<'a>>, OutOfMemory>
    ensures { IfOk result (λ set. set ≡ distinct names.now) }
{
    let mut set = NameSet::new(alloc);
    for name in names {
        let added = set.add(name.as_bytes())?;
        if !added {
            return Ok(None);
        }
    }
    Ok(Some(set))
}

/// Whether one of the names is in the set.
pub(crate) fn share(names: &[Text], set: &NameSet<'_>) -> bool
    ensures { result ≡ share names.now set.now }
{
    for name in names {
        if set.contains(name.as_bytes()) {
            return true;
        }
    }
    false
}

/// Whether a name stands twice among them.
pub(crate) fn repeats(alloc: Global, names: &[Text]) -> Result<bool, OutOfMemory>
    ensures { IfOk result (λ b. b ≡ repeats names.now) }
{
    let set = distinct(alloc, names)?;
    Ok(set.is_none())
}
