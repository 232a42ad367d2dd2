// How far a file is read, and where its next element leads.
ghost use Rattle.std.specs.Prelude.{◌≡◌, ◌≤◌, [], length, IfSome, IfOk, IfErr};
ghost use Rattle.st_base.specs.Lexed.{lexed_of};
ghost use Rattle.st_parser.specs.Parsed.{StopsAt};
ghost use Rattle.st_tree.specs.Headers as headers;
ghost use Rattle.st_tree.specs.Headers.{production_of};
ghost use Rattle.st_tree.specs.Numbers.{annotated};
ghost use Rattle.sif_elements.specs.declared.progress.Progress.TheVariants as progressed;
ghost use Rattle.sif_elements.specs.Steps as steps;
ghost use Rattle.sif_elements.specs.Told.{said, told, Makes};

use crate::elements::{Element, first_element, further_element};
use sqlite_items::Items;
use st_base::Reason;
use st_lexer::{Lexed, tokens};
use st_parser::{ParseStop, body, method};
use st_tree::headers::{Header, Target};
use st_tree::units::{Annotation, Unit, UnitKind, UnitList};
use std::alloc::Global;

/// How far a file is read.
#[derive(Drop)]
pub enum Progress {
    /// Nothing yet.
    Start,
    /// These units.
    Between(UnitList),
    /// These units, and a header whose text is the next element.
    Awaiting(UnitList, Target),
}

/// What an element leads to.
#[derive(Drop)]
pub enum Stepped {
    /// So far the file is read with it.
    Goes(Progress),
    /// Its first fault: the byte in its text, from 0, and the reason.
    Spoilt(u32, Reason),
    /// Memory was wanted and not there.
    OutOfMemory,
}

// One unit more.
fn with_unit(alloc: Global, units: UnitList, kind: UnitKind) -> Stepped
    ensures { IfSome (told result) (λ step. step ≡ steps.Goes (steps.with_unit units kind)) }
{
    let mut units = units;
    let annotations = Items::new(alloc);
    match units.push(Unit { kind, annotations }) {
        Ok(()) => Stepped::Goes(Progress::Between(units)),
        Err(_) => Stepped::OutOfMemory,
    }
}

// One annotation more, of the last unit.
fn with_annotation(units: UnitList, annotation: Annotation) -> Stepped
    ensures { IfSome (told result) (λ step. step ≡ steps.Goes (progressed.Between (annotated units annotation))) }
{
    let mut units = units;
    match units.annotate(annotation) {
        Ok(()) => Stepped::Goes(Progress::Between(units)),
        Err(_) => Stepped::OutOfMemory,
    }
}

// Behind an element that says this.
fn behind_element(alloc: Global, units: UnitList, element: Element) -> Stepped
    ensures { IfSome (told result) (λ step. step ≡ steps.behind_element units (said element)) }
{
    match element {
        Element::Says(Header::Whole(kind)) => with_unit(alloc, units, kind),
        Element::Says(Header::Awaits(target)) => Stepped::Goes(Progress::Awaiting(units, target)),
        Element::Says(Header::Annotates(annotation)) => with_annotation(units, annotation),
        Element::Faulty(byte, reason) => Stepped::Spoilt(byte, reason),
    }
}

// The unit that the text behind a header makes of it.
fn unit_of(alloc: Global, target: Target, text: &[u8], lexed: &Lexed) -> Result<UnitKind, ParseStop>
    requires small { length text.now ≤ 1048576 }
    requires tokens { lexed.now.tokens.items ≡ (lexed_of text.now).tokens }
    requires spoiled { lexed.now.fault ≡ (lexed_of text.now).fault }
    ensures unit { IfOk result (λ kind. Makes target text.now kind) }
    ensures fault { IfErr result (λ stop. StopsAt (production_of target) text.now stop) }
{
    match target {
        Target::Initializer(target) => {
            let body = body(alloc, text, lexed)?;
            Ok(UnitKind::Initializer { target, body })
        }
        Target::PoolInitializer { pool, name } => {
            let body = body(alloc, text, lexed)?;
            Ok(UnitKind::PoolInitializer { pool, name, body })
        }
        Target::ProgramInitializer => {
            let body = body(alloc, text, lexed)?;
            Ok(UnitKind::ProgramInitializer(body))
        }
        Target::Method(class) => {
            let method = method(alloc, text, lexed)?;
            Ok(UnitKind::Method { class, method })
        }
        Target::ClassMethod(class) => {
            let method = method(alloc, text, lexed)?;
            Ok(UnitKind::ClassMethod { class, method })
        }
    }
}

// Behind the text of a header.
fn behind_text(
    alloc: Global,
    units: UnitList,
    target: Target,
    text: &[u8],
    lexed: &Lexed,
) -> Stepped
    requires small { length text.now ≤ 1048576 }
    requires tokens { lexed.now.tokens.items ≡ (lexed_of text.now).tokens }
    requires spoiled { lexed.now.fault ≡ (lexed_of text.now).fault }
    ensures { IfSome (told result) (λ step. step ≡ steps.step_of (progressed.Awaiting units target) text.now) }
{
    match unit_of(alloc, target, text, lexed) {
        Ok(kind) => with_unit(alloc, units, kind),
        Err(ParseStop::Fault(byte, reason)) => Stepped::Spoilt(byte, reason),
        Err(ParseStop::OutOfMemory) => Stepped::OutOfMemory,
    }
}

// Behind the first element.
fn behind_first(alloc: Global, text: &[u8], lexed: &Lexed) -> Stepped
    requires { length text.now ≤ 1048576 }
    ensures { IfSome (told result) (λ step. step ≡ steps.behind_element [] (headers.says_first text.now lexed.now.tokens.items lexed.now.fault)) }
{
    match first_element(alloc, text, lexed.tokens.as_slice(), lexed.fault) {
        Ok(element) => behind_element(alloc, UnitList::new(alloc), element),
        Err(_) => Stepped::OutOfMemory,
    }
}

// Behind a further element that follows no header.
fn behind_further(alloc: Global, units: UnitList, text: &[u8], lexed: &Lexed) -> Stepped
    requires { length text.now ≤ 1048576 }
    ensures { IfSome (told result) (λ step. step ≡ steps.behind_element units (headers.says text.now lexed.now.tokens.items lexed.now.fault)) }
{
    match further_element(alloc, text, lexed.tokens.as_slice(), lexed.fault) {
        Ok(element) => behind_element(alloc, units, element),
        Err(_) => Stepped::OutOfMemory,
    }
}

/// Takes the text of the next element, of at most 1,048,576 bytes.
pub(crate) fn step(alloc: Global, progress: Progress, text: &[u8]) -> Stepped
    requires { length text.now ≤ 1048576 }
    ensures { IfSome (told result) (λ step. step ≡ steps.step_of progress text.now) }
{
    let lexed = match tokens(alloc, text) {
        Ok(lexed) => lexed,
        Err(_) => return Stepped::OutOfMemory,
    };
    match progress {
        Progress::Start => behind_first(alloc, text, &lexed),
        Progress::Between(units) => behind_further(alloc, units, text, &lexed),
        Progress::Awaiting(units, target) => behind_text(alloc, units, target, text, &lexed),
    }
}
