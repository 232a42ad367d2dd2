// Instructions in which each variable stands by its place, before it is known where the machine keeps it.
ghost use Rattle.std.specs.Prelude.{◌≡◌, [], ◌∷◌, ◌++◌, map, OnOk};
ghost use Rattle.st_compiler.specs.Steps.{seen_step};

use st_base::OutOfMemory;
use st_code::Constant;
use std::alloc::Global;
use std::marker::Model;

/// A variable: of the scope that is so many steps outwards, parameters first; a named slot of
/// `self`; a class instance variable of `self`; or one of the program's.
#[derive(Clone, Copy)]
pub(crate) enum Place {
    Scoped { up: usize, index: usize },
    Slot(usize),
    ClassSlot(usize),
    Shared(usize),
}

/// What a name stands for.
#[derive(Clone, Copy)]
pub(crate) enum Meaning {
    At(Place),
    Class(u32),
    Transcript,
}

/// An instruction whose variable stands by its place.
#[derive(Clone, Copy)]
pub(crate) enum Step {
    PushConstant(Constant),
    PushSelf,
    PushVariable(Place),
    Store(Place),
    Pop,
    Dup,
    Send { selector: u32, count: usize },
    SuperSend { selector: u32, count: usize },
    MakeBlock(u32),
    MethodReturn,
    HomeReturn,
    BlockEnd,
}

/// The instructions of a body so far.
#[derive(Drop)]
pub(crate) struct Steps {
    steps: Vec<Step>,
}

impl Model for Steps {
    ghost use Rattle.std.specs.Prelude.{List, map};
    ghost use Rattle.st_code.specs.Code.{Instr};

    ghost Value = { List Instr };

    ghost use Rattle.st_compiler.specs.Steps.{seen_step};

    ghost view = { λ s. map seen_step s.steps.items };
}

impl Steps {
    pub(crate) fn new(alloc: Global) -> Steps
        ensures { result ≡ [] }
    {
        Steps {
            steps: Vec::new(alloc),
        }
    }

    pub(crate) fn push(&mut self, step: Step) -> Result<(), OutOfMemory>
        ensures { OnOk result (self.new ≡ self.old ++ seen_step step ∷ []) }
    {
        Ok(self.steps.push(step)?)
    }

    pub(crate) fn as_slice(&self) -> &[Step]
        ensures { map seen_step result.now ≡ self.now }
    {
        &self.steps
    }
}
