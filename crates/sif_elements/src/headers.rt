// What the tokens of a whole element say.
ghost use Rattle.std.specs.Prelude.{◌≡◌, IfOk};
ghost use Rattle.st_tree.specs.Headers as headers;

use crate::rows::way_of;
use crate::words::{string_value, text_of, words_of};
use sqlite_items::Items;
use st_base::{OutOfMemory, Text, Token};
use st_tree::headers::{Header, Row, Target};
use st_tree::units::{Annotation, ClassUnit, Indexed, UnitKind};
use std::alloc::Global;

// The content of the string at a place, counted from 0.
fn string_at(alloc: Global, text: &[u8], tokens: &[Token], at: usize) -> Result<Text, OutOfMemory>
    ensures { IfOk result (λ value. value ≡ headers.string_at text.now tokens.now at) }
{
    match tokens.get(at) {
        Some(token) => {
            let value = string_value(alloc, text_of(text, *token))?;
            Ok(value)
        }
        None => {
            let value = Text::from_bytes(alloc, b"")?;
            Ok(value)
        }
    }
}

// The names in the string at a place.
fn names_at(
    alloc: Global,
    text: &[u8],
    tokens: &[Token],
    at: usize,
) -> Result<Items<Text>, OutOfMemory>
    ensures { IfOk result (λ names. names ≡ headers.words_of (headers.string_at text.now tokens.now at)) }
{
    let value = string_at(alloc, text, tokens, at)?;
    let names = words_of(alloc, value.as_bytes())?;
    Ok(names)
}

// The way of indexing at a place.
fn way_at(text: &[u8], tokens: &[Token], at: usize) -> Indexed
    ensures { result ≡ headers.way_at text.now tokens.now at }
{
    match tokens.get(at) {
        Some(token) => way_of(text_of(text, *token)).unwrap_or(Indexed::None),
        None => Indexed::None,
    }
}

// The class that a class element declares.
fn class_of(alloc: Global, text: &[u8], tokens: &[Token]) -> Result<ClassUnit, OutOfMemory>
    ensures { IfOk result (λ class. class ≡ headers.class_of text.now tokens.now) }
{
    Ok(ClassUnit {
        name: string_at(alloc, text, tokens, 0)?,
        superclass: string_at(alloc, text, tokens, 2)?,
        indexed: way_at(text, tokens, 4),
        instance_names: names_at(alloc, text, tokens, 6)?,
        class_names: names_at(alloc, text, tokens, 8)?,
        pools: names_at(alloc, text, tokens, 10)?,
        class_instance_names: names_at(alloc, text, tokens, 12)?,
    })
}

// The pool's variable that an element declares.
fn pool_variable(
    alloc: Global,
    first: &[u8],
    text: &[u8],
    tokens: &[Token],
) -> Result<UnitKind, OutOfMemory>
    ensures { IfOk result (λ kind. kind ≡ UnitKind.PoolVariable first.now (headers.string_at text.now tokens.now 0)) }
{
    Ok(UnitKind::PoolVariable {
        pool: Text::from_bytes(alloc, first)?,
        name: string_at(alloc, text, tokens, 0)?,
    })
}

// The pool's constant that an element declares.
fn pool_constant(
    alloc: Global,
    first: &[u8],
    text: &[u8],
    tokens: &[Token],
) -> Result<UnitKind, OutOfMemory>
    ensures { IfOk result (λ kind. kind ≡ UnitKind.PoolConstant first.now (headers.string_at text.now tokens.now 0)) }
{
    Ok(UnitKind::PoolConstant {
        pool: Text::from_bytes(alloc, first)?,
        name: string_at(alloc, text, tokens, 0)?,
    })
}

// The pool's variable or constant that the next text initializes.
fn pool_initializer(
    alloc: Global,
    first: &[u8],
    text: &[u8],
    tokens: &[Token],
) -> Result<Target, OutOfMemory>
    ensures { IfOk result (λ target. target ≡ Target.PoolInitializer first.now (headers.string_at text.now tokens.now 0)) }
{
    Ok(Target::PoolInitializer {
        pool: Text::from_bytes(alloc, first)?,
        name: string_at(alloc, text, tokens, 0)?,
    })
}

// The key and the value of an annotation.
fn annotation(alloc: Global, text: &[u8], tokens: &[Token]) -> Result<Annotation, OutOfMemory>
    ensures { IfOk result (λ annotation. annotation ≡ record { key = headers.string_at text.now tokens.now 0; value = headers.string_at text.now tokens.now 2 }) }
{
    Ok(Annotation {
        key: string_at(alloc, text, tokens, 0)?,
        value: string_at(alloc, text, tokens, 2)?,
    })
}

/// What an element of this row says, by its first identifier and the tokens behind its first two.
pub fn header_of(
    alloc: Global,
    row: Row,
    first: &[u8],
    text: &[u8],
    tokens: &[Token],
) -> Result<Header, OutOfMemory>
    ensures { IfOk result (λ header. header ≡ headers.header_of row first.now text.now tokens.now) }
{
    match row {
        Row::Version => Ok(Header::Whole(UnitKind::Version(string_at(alloc, text, tokens, 0)?))),
        Row::Class => Ok(Header::Whole(UnitKind::Class(class_of(alloc, text, tokens)?))),
        Row::GlobalVariable => {
            let name = string_at(alloc, text, tokens, 0)?;
            Ok(Header::Whole(UnitKind::GlobalVariable(name)))
        }
        Row::GlobalConstant => {
            let name = string_at(alloc, text, tokens, 0)?;
            Ok(Header::Whole(UnitKind::GlobalConstant(name)))
        }
        Row::Pool => Ok(Header::Whole(UnitKind::Pool(string_at(alloc, text, tokens, 0)?))),
        Row::PoolVariable => Ok(Header::Whole(pool_variable(alloc, first, text, tokens)?)),
        Row::PoolConstant => Ok(Header::Whole(pool_constant(alloc, first, text, tokens)?)),
        Row::PoolInitializer => Ok(Header::Awaits(pool_initializer(alloc, first, text, tokens)?)),
        Row::ProgramInitializer => Ok(Header::Awaits(Target::ProgramInitializer)),
        Row::Initializer => {
            let name = Text::from_bytes(alloc, first)?;
            Ok(Header::Awaits(Target::Initializer(name)))
        }
        Row::Method => {
            let class = Text::from_bytes(alloc, first)?;
            Ok(Header::Awaits(Target::Method(class)))
        }
        Row::ClassMethod => {
            let class = Text::from_bytes(alloc, first)?;
            Ok(Header::Awaits(Target::ClassMethod(class)))
        }
        Row::Annotation => Ok(Header::Annotates(annotation(alloc, text, tokens)?)),
    }
}
