// What an element says that isn't the text of a method or a body (ANSI NCITS 319, 4.1).
ghost use Rattle.std.specs.Prelude.{◌≡◌, ◌≤◌, [], ◌∷◌, length, IfOk};
ghost use Rattle.st_tree.specs.Headers as headers;
ghost use Rattle.sif_elements.specs.Told.{said};

use crate::comments::comments_of;
use crate::filling::{Filling, fill};
use crate::headers::header_of;
use crate::rows::{is_identifier, is_keyword, row_of, slots_of};
use crate::words::{is_text, text_of};
use st_base::{LexFault, OutOfMemory, Reason, Token};
use st_tree::headers::{Header, Row};
use st_tree::units::UnitKind;
use std::alloc::Global;

/// What an element says, or its first fault.
#[derive(Drop)]
pub enum Element {
    /// What it says.
    Says(Header),
    /// The first byte at fault in its text, from 0, and the reason.
    Faulty(u32, Reason),
}

// What an element says by its row and the tokens behind the first two, the second of which begins
// at this byte.
fn by_row(
    alloc: Global,
    row: Option<Row>,
    second: u32,
    first: &[u8],
    text: &[u8],
    tokens: &[Token],
    lexical: Option<LexFault>,
) -> Result<Element, OutOfMemory>
    requires { length text.now ≤ 1048576 }
    ensures { IfOk result (λ element. said element ≡ headers.by_row row second first.now text.now tokens.now lexical) }
{
    let Some(row) = row else {
        return Ok(Element::Faulty(second, Reason::Syntax));
    };
    match fill(alloc, slots_of(row), text, tokens)? {
        Filling::Stuck(byte) => Ok(Element::Faulty(byte, Reason::Syntax)),
        Filling::Short => match lexical {
            Some(fault) => Ok(Element::Faulty(fault.byte, fault.reason)),
            None => Ok(Element::Faulty(text.len() as u32, Reason::Syntax)),
        },
        Filling::Filled => match lexical {
            Some(fault) => Ok(Element::Faulty(fault.byte, fault.reason)),
            None => {
                let header = header_of(alloc, row, first, text, tokens)?;
                Ok(Element::Says(header))
            }
        },
    }
}

// What an element without tokens says.
fn comment_element(
    alloc: Global,
    text: &[u8],
    lexical: Option<LexFault>,
) -> Result<Element, OutOfMemory>
    ensures { IfOk result (λ element. said element ≡ headers.comment_element text.now lexical) }
{
    match lexical {
        Some(fault) => Ok(Element::Faulty(fault.byte, fault.reason)),
        None => {
            let comments = comments_of(alloc, text)?;
            Ok(Element::Says(Header::Whole(UnitKind::Comment(comments))))
        }
    }
}

// What an element says that has this token alone: more are needed, or it can't stand.
fn by_token(text: &[u8], a: Token, lexical: Option<LexFault>) -> Element
    requires { length text.now ≤ 1048576 }
    ensures { said result ≡ headers.says text.now (a ∷ []) lexical }
{
    if !is_identifier(a.kind) {
        return Element::Faulty(a.start, Reason::Syntax);
    }
    match lexical {
        Some(fault) => Element::Faulty(fault.byte, fault.reason),
        None => Element::Faulty(text.len() as u32, Reason::Syntax),
    }
}

// What an element says that begins with these two tokens.
fn by_tokens(
    alloc: Global,
    text: &[u8],
    a: Token,
    b: Token,
    tokens: &[Token],
    lexical: Option<LexFault>,
) -> Result<Element, OutOfMemory>
    requires { length text.now ≤ 1048576 }
    ensures { IfOk result (λ element. said element ≡ headers.says text.now (a ∷ b ∷ tokens.now) lexical) }
{
    if !is_identifier(a.kind) {
        return Ok(Element::Faulty(a.start, Reason::Syntax));
    }
    let first = text_of(text, a);
    let row = row_of(first, b.kind, text_of(text, b));
    let element = by_row(alloc, row, b.start, first, text, tokens, lexical)?;
    Ok(element)
}

/// What an element behind the first says, by its tokens and its lexical fault, or its first fault.
/// A token that can't stand comes before a lexical fault, and this before the end of the text.
pub fn further_element(
    alloc: Global,
    text: &[u8],
    tokens: &[Token],
    lexical: Option<LexFault>,
) -> Result<Element, OutOfMemory>
    requires { length text.now ≤ 1048576 }
    ensures { IfOk result (λ element. said element ≡ headers.says text.now tokens.now lexical) }
{
    match tokens {
        [] => {
            let element = comment_element(alloc, text, lexical)?;
            Ok(element)
        }
        [a] => Ok(by_token(text, *a, lexical)),
        [a, b, rest @ ..] => {
            let element = by_tokens(alloc, text, *a, *b, rest, lexical)?;
            Ok(element)
        }
    }
}

// Whether these tokens are `Smalltalk` and `interchangeVersion:`.
fn opens_version(text: &[u8], a: Token, b: Token) -> bool
    ensures { result ≡ headers.begins_version text.now (a ∷ b ∷ []) }
{
    is_identifier(a.kind)
        && is_text(text_of(text, a), b"Smalltalk")
        && is_keyword(b.kind)
        && is_text(text_of(text, b), b"interchangeVersion:")
}

/// What the first element says, by its tokens and its lexical fault: the version, or its first
/// fault. Where it doesn't begin as a version element, that is `MissingVersion` at byte 0.
pub fn first_element(
    alloc: Global,
    text: &[u8],
    tokens: &[Token],
    lexical: Option<LexFault>,
) -> Result<Element, OutOfMemory>
    requires { length text.now ≤ 1048576 }
    ensures { IfOk result (λ element. said element ≡ headers.says_first text.now tokens.now lexical) }
{
    match tokens {
        [a, b, rest @ ..] => {
            if !opens_version(text, *a, *b) {
                return Ok(Element::Faulty(0, Reason::MissingVersion));
            }
            let element = by_row(alloc, Some(Row::Version), 0, b"", text, rest, lexical)?;
            Ok(element)
        }
        _ => Ok(Element::Faulty(0, Reason::MissingVersion)),
    }
}
