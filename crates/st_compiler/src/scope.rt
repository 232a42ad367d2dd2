// The variables of one body, found by their names.
ghost use Rattle.std.specs.Prelude.{◌≡◌, ◌∷◌, [], map, IfOk, OnOk};
ghost use Rattle.st_code.specs.Written.{name_text};
ghost use Rattle.st_code.specs.Resolved.{has_text, text_in};
ghost use Rattle.st_compiler.specs.Around.{variables_of};
ghost use Rattle.st_compiler.specs.Bytes.{GainsPlaces};

use indexmap::IndexMap;
use st_base::OutOfMemory;
use st_tree::tree::Name;
use std::alloc::Global;
use std::marker::Model;
use std::rc::Rc;

/// The variables of one body, each with its place.
#[derive(Drop)]
struct Variables<'a> {
    parameters: &'a [Name],
    temporaries: &'a [Name],
    places: IndexMap<&'a [u8], usize>,
}

impl<'a> Model for Variables<'a> {
    ghost use Rattle.std.specs.Prelude.{List, ℕ};
    ghost use Rattle.st_compiler.specs.Around.{variables_of};
    ghost use Rattle.st_compiler.specs.Bytes.{HasPlaces};

    ghost Value = { List (List ℕ) };

    ghost view = { λ s. variables_of s.parameters.now s.temporaries.now };

    ghost invariant = { λ s. HasPlaces (variables_of s.parameters.now s.temporaries.now) s.places };
}

// Notes the place of a name, unless it has one.
fn note<'a>(
    places: &mut IndexMap<&'a [u8], usize>,
    name: &'a [u8],
    place: usize,
) -> Result<(), OutOfMemory>
    ensures { OnOk result (GainsPlaces places.old (name.now ∷ []) place places.new) }
{
    if places.contains_key(name) {
        return Ok(());
    }
    places.insert(name, place)?;
    Ok(())
}

// Notes the places of names from this one on.
fn note_all<'a>(
    places: &mut IndexMap<&'a [u8], usize>,
    names: &'a [Name],
    first: usize,
) -> Result<(), OutOfMemory>
    ensures { OnOk result (GainsPlaces places.old (map name_text names.now) first places.new) }
{
    let mut place = first;
    for name in names {
        note(places, name.text.as_bytes(), place)?;
        if place == usize::MAX {
            return Err(OutOfMemory);
        }
        place += 1;
    }
    Ok(())
}

impl<'a> Variables<'a> {
    fn new(
        alloc: Global,
        parameters: &'a [Name],
        temporaries: &'a [Name],
    ) -> Result<Variables<'a>, OutOfMemory>
        ensures { IfOk result (λ s. s ≡ variables_of parameters.now temporaries.now) }
    {
        let mut places = IndexMap::new(alloc);
        note_all(&mut places, parameters, 0)?;
        note_all(&mut places, temporaries, parameters.len())?;
        Ok(Variables {
            parameters,
            temporaries,
            places,
        })
    }

    fn place(&self, text: &[u8]) -> Option<usize>
        ensures { result ≡ text_in 0 self.now text.now }
    {
        self.places.get(text).copied()
    }
}

/// The variables of one body, which the bodies inside share. Contracts see their names, parameters
/// first.
#[derive(Drop)]
pub(crate) struct Scope<'a> {
    variables: Rc<Variables<'a>>,
}

impl<'a> Model for Scope<'a> {
    ghost use Rattle.std.specs.Prelude.{List, ℕ};

    ghost Value = { List (List ℕ) };

    ghost view = { λ s. s.variables.value };
}

impl<'a> Scope<'a> {
    pub(crate) fn new(
        alloc: Global,
        parameters: &'a [Name],
        temporaries: &'a [Name],
    ) -> Result<Scope<'a>, OutOfMemory>
        ensures { IfOk result (λ s. s ≡ variables_of parameters.now temporaries.now) }
    {
        let variables = Variables::new(alloc, parameters, temporaries)?;
        Ok(Scope {
            variables: Rc::new(alloc, variables)?,
        })
    }

    /// The same scope once more.
    pub(crate) fn share(&self) -> Result<Scope<'a>, OutOfMemory>
        ensures { IfOk result (λ s. s ≡ self.now) }
    {
        Ok(Scope {
            variables: self.variables.clone()?,
        })
    }

    /// The place of the first variable of this name.
    pub(crate) fn place(&self, text: &[u8]) -> Option<usize>
        ensures { result ≡ text_in 0 self.now text.now }
    {
        self.variables.as_ref().place(text)
    }

    /// Whether a variable has this name.
    pub(crate) fn declares(&self, text: &[u8]) -> bool
        ensures { result ≡ has_text self.now text.now }
    {
        self.place(text).is_some()
    }
}
