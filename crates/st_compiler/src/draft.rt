// The code of a program while it is made: bodies by number, and the one that is being walked.
ghost use Rattle.std.specs.Prelude.{◌≡◌, ◌≤◌, [], ◌∷◌, ◌++◌, length, map, slice_set, IfOk, OnOk};
ghost use Rattle.st_code.specs.Written.{name_text};
ghost use Rattle.st_code.specs.Resolved.{place_of, without};
ghost use Rattle.st_compiler.specs.Around.{variables_of};
ghost use Rattle.st_compiler.specs.Steps.{seen_place, seen_meaning, seen_step};
ghost use Rattle.st_compiler.specs.Befores.{one_if, befores, count_captured};
ghost use Rattle.st_compiler.specs.Walked.{no_frame, with_step, with_steps, with_names, with_objects, name_walked, push_of, send_of, dup_if, pop_if, stores, of_kind, status_after, body_begun, body_ended, block_made, aside_of, separated, statement_ended, end_of};
ghost use Rattle.st_code.specs.Code.{return_of, empty_code, end_code};

use crate::around::Around;
use crate::names::Mentions;
use crate::scope::Scope;
use crate::step::{Meaning, Place, Step, Steps};
use object_heap::Value;
use sqlite_items::Items;
use st_base::OutOfMemory;
use st_code::{CodeKind, Constant};
use st_tree::tree::Name;
use std::alloc::Global;
use std::mem;

/// What a body is the body of.
#[derive(Clone, Copy)]
pub(crate) struct Header {
    pub(crate) kind: CodeKind,
    /// The class that it is written in, or its metaclass.
    pub(crate) class: Value,
    pub(crate) parameters: usize,
    /// The body around a block.
    pub(crate) outer: Option<u32>,
}

/// A body so far. Its variables are marked and its instructions are put there at its end.
#[derive(Drop)]
pub(crate) struct DraftBody {
    pub(crate) header: Header,
    /// Of each variable, parameters first, whether a block inside names it.
    pub(crate) captured: Items<bool>,
    /// Of each variable, how many before it are captured.
    pub(crate) before: Items<usize>,
    /// How many are captured.
    pub(crate) captures: usize,
    pub(crate) steps: Steps,
}

/// What the walk has of the body that it is in.
#[derive(Drop)]
pub(crate) struct Frame<'a> {
    pub(crate) steps: Steps,
    /// The names that are used and not declared by blocks inside.
    pub(crate) all: Mentions<'a>,
    /// Those of them that are used in blocks inside.
    pub(crate) inner: Mentions<'a>,
}

impl<'a> Frame<'a> {
    pub(crate) fn new(alloc: Global) -> Frame<'a>
        ensures { result ≡ no_frame }
    {
        Frame {
            steps: Steps::new(alloc),
            all: Mentions::new(alloc),
            inner: Mentions::new(alloc),
        }
    }
}

/// How far the statements of a body are: none yet, the last one without `^`, or behind a `^`.
#[derive(Clone, Copy)]
pub(crate) enum Status {
    Empty,
    Open,
    Closed,
}

/// The code of a program while it is made.
#[derive(Drop)]
pub(crate) struct Draft<'a> {
    pub(crate) alloc: Global,
    /// The bodies by number, each before those of its blocks.
    pub(crate) bodies: Items<DraftBody>,
    /// How many objects the literals are.
    pub(crate) objects: u32,
    pub(crate) frame: Frame<'a>,
}

/// A number as one of 32 bits. A greater one counts as want of memory.
pub(crate) fn narrow(number: usize) -> Result<u32, OutOfMemory>
    ensures { IfOk result (λ n. n ≡ number) }
{
    if number > u32::MAX as usize {
        return Err(OutOfMemory);
    }
    Ok(number as u32)
}

impl<'a> Draft<'a> {
    pub(crate) fn push(&mut self, step: Step) -> Result<(), OutOfMemory>
        ensures { OnOk result (self.new ≡ with_step self.old (seen_step step)) }
    {
        self.frame.steps.push(step)
    }

    /// Adds the names of targets.
    pub(crate) fn mention_all(&mut self, names: &'a [Name]) -> Result<(), OutOfMemory>
        ensures { OnOk result (self.new ≡ with_names self.old (map name_text names.now)) }
    {
        self.frame.all.push_all(names)
    }

    /// Adds the name of a variable.
    pub(crate) fn mention(&mut self, name: &'a Name) -> Result<(), OutOfMemory>
        ensures { OnOk result (self.new ≡ with_names self.old (name.now.text ∷ [])) }
    {
        self.frame.all.push(name.text.as_bytes())
    }

    /// A variable, a class or `Transcript` by its name.
    pub(crate) fn name(
        &mut self,
        around: &Around<'a, '_>,
        name: &'a Name,
    ) -> Result<(), OutOfMemory>
        ensures { OnOk result (self.new ≡ name_walked around.now name.now.text self.old) }
    {
        self.mention(name)?;
        self.push(push_of(around.meaning(name.text.as_bytes())))
    }

    /// Counts the objects of a literal.
    pub(crate) fn count_objects(&mut self, count: u32) -> Result<(), OutOfMemory>
        ensures { OnOk result (self.new ≡ with_objects self.old count) }
    {
        if count > u32::MAX - self.objects {
            return Err(OutOfMemory);
        }
        self.objects += count;
        Ok(())
    }

    /// Keeps the receiver of a cascade.
    pub(crate) fn dup_if(&mut self, kept: bool) -> Result<(), OutOfMemory>
        ensures { OnOk result (self.new ≡ dup_if kept self.old) }
    {
        if kept { self.push(Step::Dup) } else { Ok(()) }
    }

    /// Drops the answer of a cascade's message before the last.
    pub(crate) fn pop_if(&mut self, kept: bool) -> Result<(), OutOfMemory>
        ensures { OnOk result (self.new ≡ pop_if kept self.old) }
    {
        if kept { self.push(Step::Pop) } else { Ok(()) }
    }

    /// Stores a value in the targets, the last first.
    pub(crate) fn store_all(
        &mut self,
        around: &Around<'a, '_>,
        names: &'a [Name],
    ) -> Result<(), OutOfMemory>
        ensures { OnOk result (self.new ≡ with_steps self.old (stores around.now (map name_text names.now))) }
    {
        let mut left = names.len();
        while left > 0 {
            left -= 1;
            let name = &names[left];
            self.push(Step::Store(place_of(around.meaning(name.text.as_bytes()))))?;
        }
        Ok(())
    }
}

// The Push of what a name means.
fn push_of(meaning: Meaning) -> Step
    ensures { seen_step result ≡ push_of (seen_meaning meaning) }
{
    match meaning {
        Meaning::At(place) => Step::PushVariable(place),
        Meaning::Class(class) => Step::PushConstant(Constant::Class(class)),
        Meaning::Transcript => Step::PushConstant(Constant::Transcript),
    }
}

// The place of a variable, and the first place of the program's for any other name.
fn place_of(meaning: Meaning) -> Place
    ensures { seen_place result ≡ place_of (seen_meaning meaning) }
{
    match meaning {
        Meaning::At(place) => place,
        Meaning::Class(_) => Place::Shared(0),
        Meaning::Transcript => Place::Shared(0),
    }
}

/// A message to `super`, or to another receiver.
pub(crate) fn send_of(to_super: bool, selector: u32, count: usize) -> Step
    ensures { seen_step result ≡ send_of to_super selector count }
{
    if to_super {
        Step::SuperSend { selector, count }
    } else {
        Step::Send { selector, count }
    }
}

/// The answer behind a `^`.
fn return_of(kind: CodeKind) -> Step
    ensures { seen_step result ≡ return_of (of_kind kind) }
{
    match kind {
        CodeKind::Method => Step::MethodReturn,
        CodeKind::Block => Step::HomeReturn,
        CodeKind::Initializer => Step::BlockEnd,
    }
}

/// How far the statements are behind one more.
pub(crate) fn status_after(status: Status, returns: bool) -> Status
    ensures { result ≡ status_after status returns }
{
    match status {
        Status::Closed => Status::Closed,
        Status::Empty | Status::Open => {
            if returns {
                Status::Closed
            } else {
                Status::Open
            }
        }
    }
}

/// One for a thing that counts.
pub(crate) fn one_if(counts: bool) -> usize
    ensures one { result ≡ one_if counts }
    ensures most { result ≤ 1 }
{
    if counts { 1 } else { 0 }
}

// Of each variable, how many before it are captured.
fn befores(alloc: Global, captured: &[bool]) -> Result<Items<usize>, OutOfMemory>
    ensures { IfOk result (λ before. before ≡ befores 0 captured.now) }
{
    let mut before = Items::new(alloc);
    let mut count = 0;
    for is_captured in captured {
        before.push(count)?;
        count += one_if(*is_captured);
    }
    Ok(before)
}

fn count_captured(captured: &[bool]) -> usize
    ensures { result ≡ count_captured captured.now }
{
    let mut count = 0;
    for is_captured in captured {
        count += one_if(*is_captured);
    }
    count
}

// Puts a body in its place, where there is one.
fn put_body(bodies: &mut Items<DraftBody>, code: u32, body: DraftBody)
    ensures { bodies.new ≡ slice_set bodies.old code body }
{
    if (code as usize) < bodies.len() {
        bodies.set(code as usize, body);
    }
}

impl<'a> Draft<'a> {
    /// Begins a body with the next number, and gives what there was of the one around it.
    pub(crate) fn begin(&mut self, header: Header) -> Result<Frame<'a>, OutOfMemory>
        ensures around { IfOk result (λ f. f ≡ self.old.frame) }
        ensures begun { OnOk result (self.new ≡ body_begun header self.old) }
    {
        self.bodies.push(DraftBody {
            header,
            captured: Items::new(self.alloc),
            before: Items::new(self.alloc),
            captures: 0,
            steps: Steps::new(self.alloc),
        })?;
        Ok(mem::replace(&mut self.frame, Frame::new(self.alloc)))
    }

    // Ends a body, and goes on with the one around it.
    fn end(
        &mut self,
        code: u32,
        header: Header,
        parameters: &[Name],
        temporaries: &[Name],
        around: Frame<'a>,
    ) -> Result<(), OutOfMemory>
        ensures { OnOk result (self.new ≡ body_ended code header (variables_of parameters.now temporaries.now) around.entry self.old) }
    {
        let captured = self.frame.inner.marks(self.alloc, parameters, temporaries)?;
        let Frame { steps, .. } = mem::replace(&mut self.frame, around);
        let body = DraftBody {
            header,
            before: befores(self.alloc, captured.as_slice())?,
            captures: count_captured(captured.as_slice()),
            captured,
            steps,
        };
        put_body(&mut self.bodies, code, body);
        Ok(())
    }

    /// Ends a body, and gives the names that its scope doesn't declare.
    pub(crate) fn finish(
        &mut self,
        scope: &Scope<'a>,
        code: u32,
        header: Header,
        parameters: &[Name],
        temporaries: &[Name],
        around: Frame<'a>,
    ) -> Result<Mentions<'a>, OutOfMemory>
        ensures names { IfOk result (λ m. m ≡ without self.old.frame.all scope.now) }
        ensures ended { OnOk result (self.new ≡ body_ended code header (variables_of parameters.now temporaries.now) around.entry self.old) }
    {
        let names = self.frame.all.without(self.alloc, scope)?;
        self.end(code, header, parameters, temporaries, around)?;
        Ok(names)
    }

    /// A block of this code, which names these.
    pub(crate) fn make_block(&mut self, code: u32, names: &Mentions<'a>) -> Result<(), OutOfMemory>
        ensures { OnOk result (self.new ≡ block_made code names.now self.old) }
    {
        self.frame.all.extend(names)?;
        self.frame.inner.extend(names)?;
        self.push(Step::MakeBlock(code))
    }

    /// Makes ready for a statement: behind a `^` nothing runs, and what was there is given aside.
    pub(crate) fn separate(&mut self, status: Status) -> Result<Steps, OutOfMemory>
        ensures aside { IfOk result (λ s. s ≡ aside_of status self.old) }
        ensures separated { OnOk result (self.new ≡ separated status self.old) }
    {
        match status {
            Status::Empty => Ok(Steps::new(self.alloc)),
            Status::Open => {
                self.push(Step::Pop)?;
                Ok(Steps::new(self.alloc))
            }
            Status::Closed => Ok(mem::replace(&mut self.frame.steps, Steps::new(self.alloc))),
        }
    }

    /// Ends a statement.
    pub(crate) fn end_statement(
        &mut self,
        kind: CodeKind,
        status: Status,
        returns: bool,
        aside: Steps,
    ) -> Result<(), OutOfMemory>
        ensures { OnOk result (self.new ≡ statement_ended kind status returns aside self.old) }
    {
        match status {
            Status::Closed => {
                self.frame.steps = aside;
                Ok(())
            }
            Status::Empty | Status::Open => {
                if returns {
                    self.push(return_of(kind))
                } else {
                    Ok(())
                }
            }
        }
    }

    /// The instructions behind the last statement.
    pub(crate) fn end_statements(
        &mut self,
        kind: CodeKind,
        status: Status,
    ) -> Result<(), OutOfMemory>
        ensures { OnOk result (self.new ≡ with_steps self.old (end_of status kind)) }
    {
        match status {
            Status::Empty => self.end_empty(kind),
            Status::Open => self.end_open(kind),
            Status::Closed => Ok(()),
        }
    }

    fn end_empty(&mut self, kind: CodeKind) -> Result<(), OutOfMemory>
        ensures { OnOk result (self.new ≡ with_steps self.old (empty_code (of_kind kind))) }
    {
        match kind {
            CodeKind::Method => {
                self.push(Step::PushSelf)?;
                self.push(Step::MethodReturn)
            }
            CodeKind::Block | CodeKind::Initializer => {
                self.push(Step::PushConstant(Constant::Nil))?;
                self.push(Step::BlockEnd)
            }
        }
    }

    fn end_open(&mut self, kind: CodeKind) -> Result<(), OutOfMemory>
        ensures { OnOk result (self.new ≡ with_steps self.old (end_code (of_kind kind))) }
    {
        match kind {
            CodeKind::Method => {
                self.push(Step::Pop)?;
                self.push(Step::PushSelf)?;
                self.push(Step::MethodReturn)
            }
            CodeKind::Block | CodeKind::Initializer => self.push(Step::BlockEnd),
        }
    }
}
