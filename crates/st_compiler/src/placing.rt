// Where the machine keeps each variable, and the code of each body.
ghost use Rattle.std.specs.Prelude.{◌≡◌, ◌+◌, ◌≤◌, suc, length, map, slice_index_or, IfOk};
ghost use Rattle.st_code.specs.Compiled.{is_captured, outwards, stand_after, most_standing, count_uncaptured, seen_code};
ghost use Rattle.st_compiler.specs.Steps.{seen_place, seen_step};
ghost use Rattle.st_compiler.specs.Befores.{one_if};
ghost use Rattle.st_compiler.specs.Placed.{captured_at, outer_at, captures_at, before_at, placed_behind, scoped_in, variable_in, instruction_in, compiled_draft, compiled_drafts};

use crate::draft::{DraftBody, narrow, one_if};
use crate::step::{Place, Step};
use sqlite_items::Items;
use st_base::OutOfMemory;
use st_code::{Code, Instruction, Variable};
use std::alloc::Global;

// The body around a block.
fn outer_at(bodies: &[DraftBody], code: u32) -> Option<u32>
    ensures { result ≡ outer_at bodies.now code }
{
    match bodies.get(code as usize) {
        Some(body) => body.header.outer,
        None => None,
    }
}

// Whether a block inside a body names one of its variables.
fn captures_at(bodies: &[DraftBody], code: u32) -> bool
    ensures { result ≡ captures_at bodies.now code }
{
    match bodies.get(code as usize) {
        Some(body) => body.captures > 0,
        None => false,
    }
}

fn is_captured(captured: &[bool], index: usize) -> bool
    ensures { result ≡ is_captured captured.now index }
{
    match captured.get(index) {
        Some(is_captured) => *is_captured,
        None => false,
    }
}

// Whether a block inside a body names this variable.
fn is_captured_at(bodies: &[DraftBody], code: u32, index: usize) -> bool
    ensures { result ≡ is_captured (captured_at bodies.now code) index }
{
    match bodies.get(code as usize) {
        Some(body) => is_captured(body.captured.as_slice(), index),
        None => false,
    }
}

fn number_at(numbers: &[usize], index: usize, last: usize) -> usize
    ensures { result ≡ slice_index_or numbers.now index last }
{
    match numbers.get(index) {
        Some(number) => *number,
        None => last,
    }
}

// How many variables of a body before this one are captured.
fn before_at(bodies: &[DraftBody], code: u32, index: usize) -> usize
    ensures { result ≡ before_at bodies.now code index }
{
    match bodies.get(code as usize) {
        Some(body) => number_at(body.before.as_slice(), index, body.captures),
        None => 0,
    }
}

// A variable with so many captured ones before it, in a body that is so many scopes outwards.
fn placed(
    is_captured: bool,
    scopes: usize,
    before: usize,
    index: usize,
) -> Result<Variable, OutOfMemory>
    ensures { IfOk result (λ v. v ≡ placed_behind is_captured scopes before index) }
{
    if is_captured {
        let up = narrow(scopes)?;
        let index = narrow(before)?;
        Ok(Variable::Scope { up, index })
    } else {
        Ok(Variable::Own(narrow(index.saturating_sub(before))?))
    }
}

// The scopes outwards behind a body: one more where it captures.
fn outwards(scopes: usize, captures: bool) -> Result<usize, OutOfMemory>
    ensures { IfOk result (λ n. n ≡ outwards scopes captures) }
{
    if !captures {
        return Ok(scopes);
    }
    if scopes == usize::MAX {
        return Err(OutOfMemory);
    }
    Ok(scopes + 1)
}

// A variable so many bodies outwards. It recurses as deep as blocks nest.
fn scoped(
    bodies: &[DraftBody],
    scopes: usize,
    up: usize,
    code: Option<u32>,
    index: usize,
) -> Result<Variable, OutOfMemory>
    ensures { IfOk result (λ v. v ≡ scoped_in bodies.now scopes up code index) }
{
    match code {
        Some(code) => {
            if up == 0 {
                let is_captured = is_captured_at(bodies, code, index);
                return placed(is_captured, scopes, before_at(bodies, code, index), index);
            }
            let scopes = outwards(scopes, captures_at(bodies, code))?;
            scoped(bodies, scopes, up - 1, outer_at(bodies, code), index)
        }
        None => Ok(Variable::Own(0)),
    }
}

// Where a body's code finds a variable.
fn variable(bodies: &[DraftBody], code: u32, place: Place) -> Result<Variable, OutOfMemory>
    ensures { IfOk result (λ v. v ≡ variable_in bodies.now code (seen_place place)) }
{
    match place {
        Place::Scoped { up, index } => scoped(bodies, 0, up, Some(code), index),
        Place::Slot(index) => Ok(Variable::Instance(narrow(index)?)),
        Place::ClassSlot(index) => Ok(Variable::ClassInstance(narrow(index)?)),
        Place::Shared(index) => Ok(Variable::Shared(narrow(index)?)),
    }
}

fn instruction(bodies: &[DraftBody], code: u32, step: Step) -> Result<Instruction, OutOfMemory>
    ensures { IfOk result (λ i. i ≡ instruction_in bodies.now code (seen_step step)) }
{
    match step {
        Step::PushConstant(constant) => Ok(Instruction::PushConstant(constant)),
        Step::PushSelf => Ok(Instruction::PushSelf),
        Step::PushVariable(place) => Ok(Instruction::PushVariable(variable(bodies, code, place)?)),
        Step::Store(place) => Ok(Instruction::Store(variable(bodies, code, place)?)),
        Step::Pop => Ok(Instruction::Pop),
        Step::Dup => Ok(Instruction::Dup),
        Step::Send { selector, count } => {
            let count = narrow(count)?;
            Ok(Instruction::Send { selector, count })
        }
        Step::SuperSend { selector, count } => {
            let count = narrow(count)?;
            Ok(Instruction::SuperSend { selector, count })
        }
        Step::MakeBlock(block) => Ok(Instruction::MakeBlock(block)),
        Step::MethodReturn => Ok(Instruction::MethodReturn),
        Step::HomeReturn => Ok(Instruction::HomeReturn),
        Step::BlockEnd => Ok(Instruction::BlockEnd),
    }
}

// The instructions of a body.
fn instructions(
    alloc: Global,
    bodies: &[DraftBody],
    code: u32,
    steps: &[Step],
) -> Result<Vec<Instruction>, OutOfMemory>
    ensures { IfOk result (λ is. is.items ≡ map (instruction_in bodies.now code) (map seen_step steps.now)) }
{
    let mut all = Vec::new(alloc);
    for step in steps {
        all.push(instruction(bodies, code, *step)?)?;
    }
    Ok(all)
}

fn one_more(count: usize) -> Result<usize, OutOfMemory>
    ensures { IfOk result (λ n. n ≡ suc count) }
{
    if count == usize::MAX {
        return Err(OutOfMemory);
    }
    Ok(count + 1)
}

// The operands that stand behind an instruction.
fn stand_after(instruction: Instruction, count: usize) -> Result<usize, OutOfMemory>
    ensures { IfOk result (λ n. n ≡ stand_after instruction count) }
{
    match instruction {
        Instruction::PushConstant(_) => one_more(count),
        Instruction::PushSelf => one_more(count),
        Instruction::PushVariable(_) => one_more(count),
        Instruction::Store(_) => Ok(count),
        Instruction::Pop => Ok(count.saturating_sub(1)),
        Instruction::Dup => one_more(count),
        Instruction::Send {
            selector: _,
            count: more,
        } => Ok(count.saturating_sub(more as usize)),
        Instruction::SuperSend {
            selector: _,
            count: more,
        } => { Ok(count.saturating_sub(more as usize)) }
        Instruction::MakeBlock(_) => one_more(count),
        Instruction::MethodReturn => Ok(count.saturating_sub(1)),
        Instruction::HomeReturn => Ok(count.saturating_sub(1)),
        Instruction::BlockEnd => Ok(count.saturating_sub(1)),
    }
}

// The greatest number of operands that stand at once.
fn most_standing(instructions: &[Instruction]) -> Result<usize, OutOfMemory>
    ensures { IfOk result (λ n. n ≡ most_standing instructions.now 0) }
{
    let mut standing = 0;
    let mut most = 0;
    for instruction in instructions {
        most = most.max(standing);
        standing = stand_after(*instruction, standing)?;
    }
    Ok(most.max(standing))
}

fn count_uncaptured(captured: &[bool]) -> usize
    ensures count { result ≡ count_uncaptured captured.now }
    ensures most { result ≤ length captured.now }
{
    let mut count = 0;
    for is_captured in captured {
        count += one_if(!*is_captured);
    }
    count
}

// How many operands stand at once, at most, the variables that no block names among them.
fn width(captured: &[bool], instructions: &[Instruction]) -> Result<u32, OutOfMemory>
    ensures { IfOk result (λ n. n ≡ count_uncaptured captured.now + most_standing instructions.now 0) }
{
    let most = narrow(most_standing(instructions)?)?;
    let own = narrow(count_uncaptured(captured))?;
    if most > u32::MAX - own {
        return Err(OutOfMemory);
    }
    Ok(own + most)
}

// The code of a body with its number.
fn code_of(
    alloc: Global,
    bodies: &[DraftBody],
    code: u32,
    body: &DraftBody,
) -> Result<Code, OutOfMemory>
    ensures { IfOk result (λ c. seen_code c ≡ compiled_draft bodies.now code body.now) }
{
    let instructions = instructions(alloc, bodies, code, body.steps.as_slice())?;
    let width = width(body.captured.as_slice(), &instructions)?;
    Ok(Code {
        kind: body.header.kind,
        class: body.header.class,
        parameters: narrow(body.header.parameters)?,
        captured: Vec::from_slice(alloc, body.captured.as_slice())?,
        instructions,
        width,
    })
}

/// The codes of all bodies, by number.
pub(crate) fn codes_of(alloc: Global, bodies: &[DraftBody]) -> Result<Items<Code>, OutOfMemory>
    ensures { IfOk result (λ codes. map seen_code codes ≡ compiled_drafts bodies.now 0 bodies.now) }
{
    let mut codes = Items::new(alloc);
    let mut code = 0;
    for body in bodies {
        if code == u32::MAX {
            return Err(OutOfMemory);
        }
        codes.push(code_of(alloc, bodies, code, body)?)?;
        code += 1;
    }
    Ok(codes)
}
