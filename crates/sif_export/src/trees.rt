// Trees, written word by word.
ghost use Rattle.std.specs.Prelude.{◌≡◌, ◌≤◌, ◌∷◌, [], length, take, drop, if◌then◌else◌};
ghost use Rattle.st_base.specs.Streams.{HasCause};
ghost use Rattle.sif_export.specs.Words.{Mark, Lays};
ghost use Rattle.sif_export.specs.TreeWords.{primary_words, statement_words, block_words, body_parts, expr_words, each_message, operand_words, literal_words, target_words, named_words, colon_words, temporary_words, parameter_words, first_part, other_parts, top_words};

use crate::pieces::run_of;
use crate::sign::{Gap, Sign};
use crate::words::{mark, number, quoted_word, symbol, word, word_of_two};
use sqlite_items::Items;
use st_base::{Failed, Sink};
use st_tree::tree::{Block, Body, Expr, Literal, Message, Name, Operand, Primary, Statement};

pub(crate) fn literal<K: Sink>(sink: &mut K, gap: Gap, value: &Literal) -> Result<Gap, Failed>
    ensures text { Lays gap (K.written sink.old) (K.written sink.new) result (literal_words value.now) }
    ensures cause { HasCause (K.faults sink.old) (K.faults sink.new) result }
{
    match value {
        Literal::Nil => word(sink, gap, b"nil"),
        Literal::True => word(sink, gap, b"true"),
        Literal::False => word(sink, gap, b"false"),
        Literal::Integer(n) => number(sink, gap, *n),
        Literal::Character(c) => word_of_two(sink, gap, b"$", &[*c]),
        Literal::Str(t) => quoted_word(sink, gap, b"", t.as_bytes()),
        Literal::Symbol(t) => symbol(sink, gap, t.as_bytes()),
        Literal::Array(items) => {
            let mut gap = mark(sink, gap, Sign::ArrayOpen)?;
            for item in items.as_slice() {
                gap = literal(sink, gap, item)?;
            }
            mark(sink, gap, Sign::ParenClose)
        }
    }
}

// The targets of an assignment, each with its sign.
fn targets<K: Sink>(sink: &mut K, gap: Gap, names: &Items<Name>) -> Result<Gap, Failed>
    ensures text { Lays gap (K.written sink.old) (K.written sink.new) result (target_words names.now) }
    ensures cause { HasCause (K.faults sink.old) (K.faults sink.new) result }
{
    let mut gap = gap;
    for name in names.as_slice() {
        gap = word(sink, gap, name.text.as_bytes())?;
        gap = mark(sink, gap, Sign::Assign)?;
    }
    Ok(gap)
}

fn named<K: Sink>(sink: &mut K, gap: Gap, names: &Items<Name>) -> Result<Gap, Failed>
    ensures text { Lays gap (K.written sink.old) (K.written sink.new) result (named_words names.now) }
    ensures cause { HasCause (K.faults sink.old) (K.faults sink.new) result }
{
    let mut gap = gap;
    for name in names.as_slice() {
        gap = word(sink, gap, name.text.as_bytes())?;
    }
    Ok(gap)
}

fn coloned<K: Sink>(sink: &mut K, gap: Gap, names: &Items<Name>) -> Result<Gap, Failed>
    ensures text { Lays gap (K.written sink.old) (K.written sink.new) result (colon_words names.now) }
    ensures cause { HasCause (K.faults sink.old) (K.faults sink.new) result }
{
    let mut gap = gap;
    for name in names.as_slice() {
        gap = word_of_two(sink, gap, b":", name.text.as_bytes())?;
    }
    Ok(gap)
}

// The temporaries, if there are any, and a bar on both sides.
fn temporaries<K: Sink>(
    sink: &mut K,
    gap: Gap,
    bar: Sign,
    names: &Items<Name>,
) -> Result<Gap, Failed>
    ensures text { Lays gap (K.written sink.old) (K.written sink.new) result (temporary_words bar names.now) }
    ensures cause { HasCause (K.faults sink.old) (K.faults sink.new) result }
{
    if names.is_empty() {
        return Ok(gap);
    }
    let gap = mark(sink, gap, Sign::Bar)?;
    let gap = named(sink, gap, names)?;
    mark(sink, gap, bar)
}

// The parameters of a block, if there are any, and a bar behind them.
fn parameters<K: Sink>(sink: &mut K, gap: Gap, names: &Items<Name>) -> Result<Gap, Failed>
    ensures text { Lays gap (K.written sink.old) (K.written sink.new) result (parameter_words names.now) }
    ensures cause { HasCause (K.faults sink.old) (K.faults sink.new) result }
{
    if names.is_empty() {
        return Ok(gap);
    }
    let gap = coloned(sink, gap, names)?;
    mark(sink, gap, Sign::Bar)
}

// A sign, where it is due.
fn mark_if<K: Sink>(sink: &mut K, gap: Gap, due: bool, sign: Sign) -> Result<Gap, Failed>
    ensures text { Lays gap (K.written sink.old) (K.written sink.new) result (if due then Mark sign ∷ [] else []) }
    ensures cause { HasCause (K.faults sink.old) (K.faults sink.new) result }
{
    if due { mark(sink, gap, sign) } else { Ok(gap) }
}

/// How many bytes the first part of a selector has.
pub(crate) fn part_end(selector: &[u8]) -> usize
    ensures within { result ≤ length selector.now }
    ensures part { take result selector.now ≡ first_part selector.now }
    ensures others { drop result selector.now ≡ other_parts selector.now }
{
    let run = run_of(b':', selector);
    if run < selector.len() { run + 1 } else { run }
}

#[cycle(export)]
fn primary<K: Sink>(sink: &mut K, gap: Gap, value: &Primary) -> Result<Gap, Failed>
    ensures text { Lays gap (K.written sink.old) (K.written sink.new) result (primary_words value.now) }
    ensures cause { HasCause (K.faults sink.old) (K.faults sink.new) result }
{
    match value {
        Primary::Variable(name) => word(sink, gap, name.text.as_bytes()),
        Primary::SelfValue => word(sink, gap, b"self"),
        Primary::SuperValue => word(sink, gap, b"super"),
        Primary::Literal(value) => literal(sink, gap, value),
        Primary::Block(value) => block(sink, gap, value),
        Primary::Paren(value) => {
            let gap = mark(sink, gap, Sign::ParenOpen)?;
            let gap = expr(sink, gap, value.get())?;
            mark(sink, gap, Sign::ParenClose)
        }
    }
}

#[cycle(export)]
fn message<K: Sink>(sink: &mut K, gap: Gap, value: &Message) -> Result<Gap, Failed>
    ensures text { Lays gap (K.written sink.old) (K.written sink.new) result (each_message value.now) }
    ensures cause { HasCause (K.faults sink.old) (K.faults sink.new) result }
{
    if value.arguments.is_empty() {
        return word(sink, gap, value.selector.as_bytes());
    }
    let selector = value.selector.as_bytes();
    let mut gap = gap;
    let mut at = 0;
    for argument in value.arguments.as_slice() {
        let rest = &selector[at..];
        let end = part_end(rest);
        gap = word(sink, gap, &rest[..end])?;
        gap = operand(sink, gap, argument)?;
        at += end;
    }
    Ok(gap)
}

#[cycle(export)]
fn operand<K: Sink>(sink: &mut K, gap: Gap, value: &Operand) -> Result<Gap, Failed>
    ensures text { Lays gap (K.written sink.old) (K.written sink.new) result (operand_words value.now) }
    ensures cause { HasCause (K.faults sink.old) (K.faults sink.new) result }
{
    let mut gap = primary(sink, gap, &value.primary)?;
    for item in value.chain.as_slice() {
        gap = message(sink, gap, item)?;
    }
    Ok(gap)
}

#[cycle(export)]
fn expr<K: Sink>(sink: &mut K, gap: Gap, value: &Expr) -> Result<Gap, Failed>
    ensures text { Lays gap (K.written sink.old) (K.written sink.new) result (expr_words value.now) }
    ensures cause { HasCause (K.faults sink.old) (K.faults sink.new) result }
{
    let gap = targets(sink, gap, &value.targets)?;
    let mut gap = operand(sink, gap, &value.operand)?;
    for item in value.cascade.as_slice() {
        gap = mark(sink, gap, Sign::Semicolon)?;
        gap = message(sink, gap, item)?;
    }
    Ok(gap)
}

#[cycle(export)]
fn statement<K: Sink>(sink: &mut K, gap: Gap, value: &Statement) -> Result<Gap, Failed>
    ensures text { Lays gap (K.written sink.old) (K.written sink.new) result (statement_words value.now) }
    ensures cause { HasCause (K.faults sink.old) (K.faults sink.new) result }
{
    match value {
        Statement::Value(value) => expr(sink, gap, value),
        Statement::Return(value) => {
            let gap = mark(sink, gap, Sign::Caret)?;
            expr(sink, gap, value)
        }
    }
}

#[cycle(export)]
fn parts<K: Sink>(
    sink: &mut K,
    gap: Gap,
    stop: Sign,
    bar: Sign,
    value: &Body,
) -> Result<Gap, Failed>
    ensures text { Lays gap (K.written sink.old) (K.written sink.new) result (body_parts stop bar value.now) }
    ensures cause { HasCause (K.faults sink.old) (K.faults sink.new) result }
{
    let mut gap = temporaries(sink, gap, bar, &value.temporaries)?;
    let mut due = false;
    for item in value.statements.as_slice() {
        gap = mark_if(sink, gap, due, stop)?;
        gap = statement(sink, gap, item)?;
        due = true;
    }
    Ok(gap)
}

#[cycle(export)]
fn block<K: Sink>(sink: &mut K, gap: Gap, value: &Block) -> Result<Gap, Failed>
    ensures text { Lays gap (K.written sink.old) (K.written sink.new) result (block_words value.now) }
    ensures cause { HasCause (K.faults sink.old) (K.faults sink.new) result }
{
    let gap = mark(sink, gap, Sign::BlockOpen)?;
    let gap = parameters(sink, gap, &value.parameters)?;
    let gap = parts(sink, gap, Sign::Period, Sign::Bar, &value.body)?;
    mark(sink, gap, Sign::BlockClose)
}

/// Writes the body of a method or initializer.
#[tactic(auto, unfolding(crate::specs::TreeWords::top_words))]
pub(crate) fn top<K: Sink>(sink: &mut K, gap: Gap, value: &Body) -> Result<Gap, Failed>
    ensures text { Lays gap (K.written sink.old) (K.written sink.new) result (top_words value.now) }
    ensures cause { HasCause (K.faults sink.old) (K.faults sink.new) result }
{
    parts(sink, gap, Sign::PeriodLine, Sign::BarLine, value)
}
