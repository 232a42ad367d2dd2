// The kinds of elements, and what stands at each place of one.
ghost use Rattle.std.specs.Prelude.{◌≡◌, map, IfOk};
ghost use Rattle.st_tree.specs.Headers as headers;
ghost use Rattle.sif_elements.specs.Places.{place_of};

use crate::words::{are_names, is_name, is_text, string_value};
use st_base::{OutOfMemory, TokenKind};
use st_tree::headers::Row;
use st_tree::units::Indexed;
use std::alloc::Global;

/// What may stand at a place of an element.
#[derive(Clone, Copy)]
pub enum Slot {
    /// This keyword.
    Word(&'static [u8]),
    /// Any string.
    AnyString,
    /// A string that holds a name.
    NameString,
    /// A string that holds names, separated by white space, or nothing.
    NamesString,
    /// `#none`, `#object` or `#byte`.
    Way,
}

static NOTHING: [Slot; 0] = [];

static VERSION: [Slot; 1] = [Slot::AnyString];

static NAME: [Slot; 1] = [Slot::NameString];

static ANNOTATION: [Slot; 3] = [Slot::AnyString, Slot::Word(b"value:"), Slot::AnyString];

static CLASS: [Slot; 13] = [
    Slot::NameString,
    Slot::Word(b"superclass:"),
    Slot::NameString,
    Slot::Word(b"indexedInstanceVariables:"),
    Slot::Way,
    Slot::Word(b"instanceVariableNames:"),
    Slot::NamesString,
    Slot::Word(b"classVariableNames:"),
    Slot::NamesString,
    Slot::Word(b"sharedPools:"),
    Slot::NamesString,
    Slot::Word(b"classInstanceVariableNames:"),
    Slot::NamesString,
];

/// What stands behind the first two tokens.
pub fn slots_of(row: Row) -> &'static [Slot]
    ensures { map place_of result.now ≡ headers.slots_of row }
{
    match row {
        Row::Version => &VERSION,
        Row::Class => &CLASS,
        Row::GlobalVariable
        | Row::GlobalConstant
        | Row::Pool
        | Row::PoolVariable
        | Row::PoolConstant
        | Row::PoolInitializer => &NAME,
        Row::ProgramInitializer | Row::Initializer | Row::Method | Row::ClassMethod => &NOTHING,
        Row::Annotation => &ANNOTATION,
    }
}

/// Whether a token is a keyword.
pub(crate) fn is_keyword(kind: TokenKind) -> bool
    ensures { result ≡ headers.is_keyword_kind kind }
{
    matches!(kind, TokenKind::Keyword)
}

/// Whether a token is an identifier.
pub(crate) fn is_identifier(kind: TokenKind) -> bool
    ensures { result ≡ headers.is_identifier_kind kind }
{
    matches!(kind, TokenKind::Identifier)
}

// Whether a token is a string.
fn is_string(kind: TokenKind) -> bool
    ensures { result ≡ headers.is_string_kind kind }
{
    matches!(kind, TokenKind::Str)
}

// Whether a token is a symbol.
fn is_symbol(kind: TokenKind) -> bool
    ensures { result ≡ headers.is_symbol_kind kind }
{
    matches!(kind, TokenKind::Symbol)
}

/// The way of indexing that a symbol names, with its `#`.
pub fn way_of(text: &[u8]) -> Option<Indexed>
    ensures { result ≡ headers.way_of text.now }
{
    if is_text(text, b"#none") {
        Some(Indexed::None)
    } else if is_text(text, b"#object") {
        Some(Indexed::Object)
    } else if is_text(text, b"#byte") {
        Some(Indexed::Byte)
    } else {
        None
    }
}

// The kind of an element that begins with an identifier and a keyword.
fn keyword_row(first: &[u8], word: &[u8]) -> Option<Row>
    ensures { result ≡ headers.keyword_row first.now word.now }
{
    if is_text(word, b"variable:") {
        if is_text(first, b"Global") {
            Some(Row::GlobalVariable)
        } else {
            Some(Row::PoolVariable)
        }
    } else if is_text(word, b"constant:") {
        if is_text(first, b"Global") {
            Some(Row::GlobalConstant)
        } else {
            Some(Row::PoolConstant)
        }
    } else if is_text(word, b"initializerFor:") {
        Some(Row::PoolInitializer)
    } else if is_text(word, b"named:") {
        if is_text(first, b"Class") {
            Some(Row::Class)
        } else if is_text(first, b"Pool") {
            Some(Row::Pool)
        } else {
            None
        }
    } else if is_text(word, b"key:") {
        if is_text(first, b"Annotation") {
            Some(Row::Annotation)
        } else {
            None
        }
    } else {
        None
    }
}

// The kind of an element that begins with two identifiers.
fn word_row(first: &[u8], word: &[u8]) -> Option<Row>
    ensures { result ≡ headers.word_row first.now word.now }
{
    if is_text(word, b"initializer") {
        if is_text(first, b"Global") {
            Some(Row::ProgramInitializer)
        } else {
            Some(Row::Initializer)
        }
    } else if is_text(word, b"method") {
        Some(Row::Method)
    } else if is_text(word, b"classMethod") {
        Some(Row::ClassMethod)
    } else {
        None
    }
}

/// The kind of an element behind the version, by its first identifier and its second token.
pub fn row_of(first: &[u8], kind: TokenKind, word: &[u8]) -> Option<Row>
    ensures { result ≡ headers.row_of first.now kind word.now }
{
    if is_keyword(kind) {
        keyword_row(first, word)
    } else if is_identifier(kind) {
        word_row(first, word)
    } else {
        None
    }
}

/// Whether a string, with its quotes, holds a name.
pub fn holds_name(alloc: Global, text: &[u8]) -> Result<bool, OutOfMemory>
    ensures { IfOk result (λ fits. fits ≡ headers.holds_name text.now) }
{
    let value = string_value(alloc, text)?;
    Ok(is_name(value.as_bytes()))
}

/// Whether a string, with its quotes, holds names, separated by white space, or nothing.
pub fn holds_names(alloc: Global, text: &[u8]) -> Result<bool, OutOfMemory>
    ensures { IfOk result (λ fits. fits ≡ headers.holds_names text.now) }
{
    let value = string_value(alloc, text)?;
    are_names(alloc, value.as_bytes())
}

// Whether a symbol names a way of indexing.
fn is_way(text: &[u8]) -> bool
    ensures { result ≡ headers.is_some_way (headers.way_of text.now) }
{
    way_of(text).is_some()
}

/// Whether a token of this kind with this text may stand at a place.
pub fn fits(alloc: Global, slot: Slot, kind: TokenKind, text: &[u8]) -> Result<bool, OutOfMemory>
    ensures { IfOk result (λ fits. fits ≡ headers.fits (place_of slot) kind text.now) }
{
    match slot {
        Slot::Word(word) => Ok(is_keyword(kind) && is_text(text, word)),
        Slot::AnyString => Ok(is_string(kind)),
        Slot::NameString => Ok(is_string(kind) && holds_name(alloc, text)?),
        Slot::NamesString => Ok(is_string(kind) && holds_names(alloc, text)?),
        Slot::Way => Ok(is_symbol(kind) && is_way(text)),
    }
}
