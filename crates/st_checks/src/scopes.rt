// The scopes around a place in a body, each with its names in a map.
ghost use Rattle.std.specs.Prelude.{◌≡◌, ◌∷◌, [], ◌++◌, List, Some, drop, reverse, IfOk, OnOk};
ghost use Rattle.st_checks.specs.Meanings.{in_scopes};
ghost use Rattle.st_checks.specs.NameSets.{of_variable, variable_in, AreSeen, Gains};
ghost use Rattle.st_checks.specs.StaticRules.{least, repeated_from, repeated_in};
ghost use Rattle.st_checks.specs.Declarations.{Text};
ghost use Rattle.st_checks.specs.Views.{lesser_of, meant};

use crate::meaning::Meaning;
use indexmap::IndexMap;
use st_base::OutOfMemory;
use st_tree::tree::Name;
use std::alloc::Global;
use std::marker::Model;

/// What a name is in the scope that declares it.
#[derive(Clone, Copy, Debug, PartialEq, Eq)]
enum Variable {
    Parameter,
    Temporary,
}

impl Variable {
    fn meaning(self) -> Meaning
        ensures { meant result ≡ of_variable (Some self) }
    {
        match self {
            Variable::Parameter => Meaning::Fixed,
            Variable::Temporary => Meaning::Assignable,
        }
    }
}

/// The lesser of a place and one that is there already, or the place.
pub(crate) fn note_place(least: &mut Option<u32>, at: u32)
    ensures { least.new ≡ lesser_of least.old (Some at) }
{
    match *least {
        Some(earlier) if earlier <= at => {}
        _ => *least = Some(at),
    }
}

type Variables<'a> = IndexMap<&'a [u8], Variable>;

// Declares the names as such variables, and notes the place of each that is declared already.
fn declare<'a>(
    variables: &mut Variables<'a>,
    names: &'a [Name],
    variable: Variable,
    repeated: &mut Option<u32>,
) -> Result<(), OutOfMemory>
    ensures declared { OnOk result (Gains variables.old names.now variable variables.new) }
    ensures repeated { OnOk result ((seen : List Text) → AreSeen seen variables.old → repeated.new ≡ lesser_of repeated.old (least (repeated_from seen names.now))) }
{
    for name in names {
        let text = name.text.as_bytes();
        if variables.contains_key(text) {
            note_place(repeated, name.at);
        } else {
            variables.insert(text, variable)?;
        }
    }
    Ok(())
}

/// The variables of one method, initializer or block. Contracts see its lists of names.
#[derive(Drop)]
struct Declared<'a> {
    parameters: &'a [Name],
    temporaries: &'a [Name],
    variables: IndexMap<&'a [u8], Variable>,
}

impl<'a> Model for Declared<'a> {
    ghost use Rattle.st_checks.specs.Bodies.{Scope};
    ghost use Rattle.st_checks.specs.NameSets.{HasVariables};

    ghost Value = { Scope };

    ghost view = { λ d. record { parameters = d.parameters.now; temporaries = d.temporaries.now } };

    ghost invariant = { λ d. HasVariables (record { parameters = d.parameters.now; temporaries = d.temporaries.now }) d.variables };
}

impl<'a> Declared<'a> {
    // The scope of these names. The place of each that repeats another is noted.
    fn new(
        alloc: Global,
        parameters: &'a [Name],
        temporaries: &'a [Name],
        repeated: &mut Option<u32>,
    ) -> Result<Declared<'a>, OutOfMemory>
        ensures scope { IfOk result (λ d. d ≡ record { parameters = parameters.now; temporaries = temporaries.now }) }
        ensures repeated { OnOk result (repeated.new ≡ lesser_of repeated.old (least (repeated_from [] (parameters.now ++ temporaries.now)))) }
    {
        let mut variables = IndexMap::new(alloc);
        declare(&mut variables, parameters, Variable::Parameter, repeated)?;
        declare(&mut variables, temporaries, Variable::Temporary, repeated)?;
        Ok(Declared {
            parameters,
            temporaries,
            variables,
        })
    }

    // What the name is in this scope.
    fn variable(&self, name: &[u8]) -> Option<Variable>
        ensures { result ≡ variable_in self.now name.now }
    {
        self.variables.get(name).copied()
    }
}

// What the name stands for in the last of these scopes that declares it. It recurses as deep as they nest.
fn innermost_meaning(inward: &[Declared<'_>], name: &[u8]) -> Meaning
    ensures { meant result ≡ in_scopes (reverse inward.now) name.now }
{
    let Some((innermost, outer)) = inward.split_last() else {
        return Meaning::Undeclared;
    };
    match innermost.variable(name) {
        Some(variable) => variable.meaning(),
        None => innermost_meaning(outer, name),
    }
}

/// The scopes around a place, from the innermost as contracts see them.
#[derive(Drop)]
pub(crate) struct Scopes<'a> {
    inward: Vec<Declared<'a>>,
}

impl<'a> Model for Scopes<'a> {
    ghost use Rattle.std.specs.Prelude.{List, reverse};
    ghost use Rattle.st_checks.specs.Bodies.{Scope};

    ghost Value = { List Scope };

    ghost view = { λ s. reverse s.inward.items };
}

impl<'a> Scopes<'a> {
    /// No scope.
    pub(crate) fn new(alloc: Global) -> Scopes<'a>
        ensures { result ≡ [] }
    {
        Scopes {
            inward: Vec::new(alloc),
        }
    }

    /// Enters a scope of these names. The least place of one that repeats another is noted.
    pub(crate) fn enter(
        &mut self,
        alloc: Global,
        parameters: &'a [Name],
        temporaries: &'a [Name],
        repeated: &mut Option<u32>,
    ) -> Result<(), OutOfMemory>
        ensures scopes { OnOk result (self.new ≡ record { parameters = parameters.now; temporaries = temporaries.now } ∷ self.old) }
        ensures repeated { OnOk result (repeated.new ≡ lesser_of repeated.old (least (repeated_from [] (parameters.now ++ temporaries.now)))) }
    {
        let scope = Declared::new(alloc, parameters, temporaries, repeated)?;
        self.inward.push(scope)?;
        Ok(())
    }

    /// Leaves the innermost scope.
    pub(crate) fn leave(&mut self)
        ensures { self.new ≡ drop 1 self.old }
    {
        self.inward.pop();
    }

    /// What the name stands for in the innermost scope that declares it.
    pub(crate) fn meaning(&self, name: &[u8]) -> Meaning
        ensures { meant result ≡ in_scopes self.now name.now }
    {
        innermost_meaning(self.inward.as_slice(), name)
    }
}
