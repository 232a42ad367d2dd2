// Names that a body uses, in their order and as a set.
ghost use Rattle.std.specs.Prelude.{◌≡◌, [], ◌∷◌, ◌++◌, map, IfOk, OnOk, if◌then◌else◌};
ghost use Rattle.std.specs.List.{list_any};
ghost use Rattle.std.specs.Str.{bytes_eq};
ghost use Rattle.st_code.specs.Texts.{Text};
ghost use Rattle.st_code.specs.Written.{name_text};
ghost use Rattle.st_code.specs.Resolved.{has_text, without};
ghost use Rattle.st_compiler.specs.Around.{variables_of};

use crate::scope::Scope;
use indexmap::IndexSet;
use sqlite_items::Items;
use st_base::OutOfMemory;
use st_tree::tree::Name;
use std::alloc::Global;
use std::marker::Model;

/// Names, each once.
#[derive(Drop)]
struct NameSet<'a> {
    names: IndexSet<&'a [u8]>,
}

impl<'a> Model for NameSet<'a> {
    ghost use Rattle.std.specs.Prelude.{List, ℕ, map};

    ghost Value = { List (List ℕ) };

    ghost view = { λ s. map (λ n. n.now) s.names.keys };
}

impl<'a> NameSet<'a> {
    fn new(alloc: Global) -> NameSet<'a>
        ensures { result ≡ [] }
    {
        NameSet {
            names: IndexSet::new(alloc),
        }
    }

    fn contains(&self, name: &[u8]) -> bool
        ensures { result ≡ list_any (bytes_eq name.now) self.now }
    {
        self.names.contains(&name)
    }

    fn has(&self, name: &[u8]) -> bool
        ensures { result ≡ has_text self.now name.now }
    {
        self.contains(name)
    }

    // Adds the name behind the others, unless it is among them.
    fn add(&mut self, name: &'a [u8]) -> Result<(), OutOfMemory>
        ensures { OnOk result (self.new ≡ (if list_any (bytes_eq name.now) self.old then self.old else self.old ++ name.now ∷ [])) }
    {
        self.names.insert(name)?;
        Ok(())
    }

    // Marks each of the names that is in the set.
    fn mark_all(&self, marks: &mut Items<bool>, names: &[Name]) -> Result<(), OutOfMemory>
        ensures { OnOk result (marks.new ≡ marks.old ++ map (has_text self.now) (map name_text names.now)) }
    {
        for name in names {
            marks.push(self.has(name.text.as_bytes()))?;
        }
        Ok(())
    }

    // Of each of these variables, whether its name is in the set.
    fn marks(
        &self,
        alloc: Global,
        parameters: &[Name],
        temporaries: &[Name],
    ) -> Result<Items<bool>, OutOfMemory>
        ensures { IfOk result (λ marks. marks ≡ map (has_text self.now) (variables_of parameters.now temporaries.now)) }
    {
        let mut marks = Items::new(alloc);
        self.mark_all(&mut marks, parameters)?;
        self.mark_all(&mut marks, temporaries)?;
        Ok(marks)
    }
}

/// Names that are used, in the order of the text.
#[derive(Drop)]
pub(crate) struct Mentions<'a> {
    names: Vec<&'a [u8]>,
}

impl<'a> Model for Mentions<'a> {
    ghost use Rattle.std.specs.Prelude.{List, ℕ, map};
    ghost use Rattle.st_compiler.specs.Bytes.{bytes_now};

    ghost Value = { List (List ℕ) };

    ghost view = { λ m. map bytes_now m.names.items };
}

impl<'a> Mentions<'a> {
    pub(crate) fn new(alloc: Global) -> Mentions<'a>
        ensures { result ≡ [] }
    {
        Mentions {
            names: Vec::new(alloc),
        }
    }

    pub(crate) fn push(&mut self, name: &'a [u8]) -> Result<(), OutOfMemory>
        ensures { OnOk result (self.new ≡ self.old ++ name.now ∷ []) }
    {
        Ok(self.names.push(name)?)
    }

    /// Adds the names of an expression's targets.
    pub(crate) fn push_all(&mut self, names: &'a [Name]) -> Result<(), OutOfMemory>
        ensures { OnOk result (self.new ≡ self.old ++ map name_text names.now) }
    {
        for name in names {
            self.push(name.text.as_bytes())?;
        }
        Ok(())
    }

    /// Adds all of the others.
    pub(crate) fn extend(&mut self, others: &Mentions<'a>) -> Result<(), OutOfMemory>
        ensures { OnOk result (self.new ≡ self.old ++ others.now) }
    {
        Ok(self.names.extend_from_slice(&others.names)?)
    }

    // Adds a name that the scope doesn't declare.
    fn push_free(&mut self, name: &'a [u8], scope: &Scope<'a>) -> Result<(), OutOfMemory>
        ensures { OnOk result (self.new ≡ self.old ++ without (name.now ∷ []) scope.now) }
    {
        if scope.declares(name) {
            return Ok(());
        }
        self.push(name)
    }

    /// The names that the scope doesn't declare.
    pub(crate) fn without(
        &self,
        alloc: Global,
        scope: &Scope<'a>,
    ) -> Result<Mentions<'a>, OutOfMemory>
        ensures { IfOk result (λ m. m ≡ without self.now scope.now) }
    {
        let mut others = Mentions::new(alloc);
        for name in self.names.as_slice() {
            others.push_free(name, scope)?;
        }
        Ok(others)
    }

    // The names as a set.
    fn set(&self, alloc: Global) -> Result<NameSet<'a>, OutOfMemory>
        ensures { IfOk result (λ s. (t : Text) → has_text s t ≡ has_text self.now t) }
    {
        let mut set = NameSet::new(alloc);
        for name in self.names.as_slice() {
            set.add(name)?;
        }
        Ok(set)
    }

    /// Of each of these variables, whether its name is used.
    pub(crate) fn marks(
        &self,
        alloc: Global,
        parameters: &[Name],
        temporaries: &[Name],
    ) -> Result<Items<bool>, OutOfMemory>
        ensures { IfOk result (λ marks. marks ≡ map (has_text self.now) (variables_of parameters.now temporaries.now)) }
    {
        let set = self.set(alloc)?;
        set.marks(alloc, parameters, temporaries)
    }
}
