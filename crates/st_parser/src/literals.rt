// The literals that one token is, and the primaries.
ghost use Rattle.std.specs.Prelude.{◌≡◌, ℕ, ◌-◌, List, ◌∷◌, ◌++◌, drop, take, length, IfOk};
ghost use Rattle.st_tree.specs.Symbols.{unquoted, string_value, word_item, role};
ghost use Rattle.st_tree.specs.Trees as tree;
ghost use Rattle.st_parser.specs.Reading as reading;

use crate::cursor::{is_text, kind_at, start_at, text_at};
use st_base::{OutOfMemory, Text, Token, TokenKind};
use st_tree::tree::{Literal, Name, Primary};
use std::alloc::Global;

/// The least integer that a literal without a sign is too small for: 2^127.
const LIMIT: u128 = 170141183460469231731687303715884105728;

// What is between the quotes.
fn between_quotes(text: &[u8]) -> &[u8]
    ensures { result.now ≡ take (length text.now - 2) (drop 1 text.now) }
{
    if text.len() < 2 {
        &text[0..0]
    } else {
        &text[1..text.len() - 1]
    }
}

// All but the first byte.
fn behind_first(text: &[u8]) -> &[u8]
    ensures { result.now ≡ drop 1 text.now }
{
    if text.is_empty() { text } else { &text[1..] }
}

// Keeps a byte of a string unless the one before it was a quote that was kept, and says whether
// the next is to be skipped.
fn keep_byte(bytes: &mut Vec<u8>, skips: bool, byte: u8) -> Result<bool, OutOfMemory>
    ensures { IfOk result (λ s. (more : List ℕ) → bytes.new.items ++ unquoted s more ≡ bytes.old.items ++ unquoted skips (byte ∷ more)) }
{
    if skips {
        Ok(false)
    } else {
        bytes.push(byte)?;
        Ok(byte == b'\'')
    }
}

// The bytes that a string stands for, each doubled quote as one.
fn string_value(alloc: Global, text: &[u8]) -> Result<Text, OutOfMemory>
    ensures { IfOk result (λ t. t ≡ string_value text.now) }
{
    let mut bytes = Vec::new(alloc);
    let mut skips = false;
    for byte in between_quotes(text) {
        skips = keep_byte(&mut bytes, skips, *byte)?;
    }
    Ok(Text::from_bytes(alloc, &bytes)?)
}

fn number(value: u128) -> Literal
    ensures { result ≡ reading.number value }
{
    if value < LIMIT {
        Literal::Integer(value as i128)
    } else {
        Literal::Nil
    }
}

fn negated(value: u128) -> Literal
    ensures { result ≡ reading.negated value }
{
    if value < LIMIT {
        Literal::Integer(-(value as i128))
    } else {
        Literal::Integer(i128::MIN)
    }
}

fn byte_of(text: &[u8]) -> u8
    ensures { result ≡ reading.byte_of text.now }
{
    match text.get(1) {
        Some(byte) => *byte,
        None => 0,
    }
}

/// The literal that the token there is.
pub(crate) fn literal_at(
    alloc: Global,
    source: &[u8],
    tokens: &[Token],
    at: usize,
) -> Result<Literal, OutOfMemory>
    ensures { IfOk result (λ l. l ≡ reading.literal_of (reading.kind_at tokens.now at) (reading.text_at source.now tokens.now at)) }
{
    let text = text_at(source, tokens, at);
    match kind_at(tokens, at) {
        Some(TokenKind::Integer(value)) => Ok(number(value)),
        Some(TokenKind::Character) => Ok(Literal::Character(byte_of(text))),
        Some(TokenKind::Str) => Ok(Literal::Str(string_value(alloc, text)?)),
        Some(TokenKind::Symbol) => {
            Ok(Literal::Symbol(Text::from_bytes(alloc, behind_first(text))?))
        }
        Some(TokenKind::QuotedSymbol) => {
            Ok(Literal::Symbol(string_value(alloc, behind_first(text))?))
        }
        _ => Ok(Literal::Nil),
    }
}

/// The negative of the integer there.
pub(crate) fn negated_at(tokens: &[Token], at: usize) -> Literal
    ensures { result ≡ reading.negated_of (reading.kind_at tokens.now at) }
{
    match kind_at(tokens, at) {
        Some(TokenKind::Integer(value)) => negated(value),
        _ => Literal::Nil,
    }
}

/// What an identifier is in an array.
#[tactic(auto, using(crate::proofs::Words::word_item_is))]
pub(crate) fn word_item(alloc: Global, text: &[u8]) -> Result<Literal, OutOfMemory>
    ensures { IfOk result (λ l. l ≡ word_item text.now) }
{
    if is_text(text, b"nil") {
        Ok(Literal::Nil)
    } else if is_text(text, b"true") {
        Ok(Literal::True)
    } else if is_text(text, b"false") {
        Ok(Literal::False)
    } else {
        Ok(Literal::Symbol(Text::from_bytes(alloc, text)?))
    }
}

/// The name there, with its place.
pub(crate) fn name_at(
    alloc: Global,
    source: &[u8],
    tokens: &[Token],
    at: usize,
) -> Result<Name, OutOfMemory>
    ensures { IfOk result (λ n. n ≡ tree.name (reading.text_at source.now tokens.now at) (reading.start_at tokens.now at)) }
{
    Ok(Name {
        text: Text::from_bytes(alloc, text_at(source, tokens, at))?,
        at: start_at(tokens, at),
    })
}

// What an identifier is where a primary stands.
#[tactic(auto, using(crate::proofs::Words::role_is))]
fn word_at(
    alloc: Global,
    source: &[u8],
    tokens: &[Token],
    at: usize,
) -> Result<Primary, OutOfMemory>
    ensures { IfOk result (λ p. p ≡ reading.word_of (role (reading.text_at source.now tokens.now at)) (reading.text_at source.now tokens.now at) (reading.start_at tokens.now at)) }
{
    let text = text_at(source, tokens, at);
    if is_text(text, b"nil") {
        Ok(Primary::Literal(Literal::Nil))
    } else if is_text(text, b"true") {
        Ok(Primary::Literal(Literal::True))
    } else if is_text(text, b"false") {
        Ok(Primary::Literal(Literal::False))
    } else if is_text(text, b"self") {
        Ok(Primary::SelfValue)
    } else if is_text(text, b"super") {
        Ok(Primary::SuperValue)
    } else {
        Ok(Primary::Variable(name_at(alloc, source, tokens, at)?))
    }
}

/// The primary that the token there is.
pub(crate) fn single_at(
    alloc: Global,
    source: &[u8],
    tokens: &[Token],
    at: usize,
) -> Result<Primary, OutOfMemory>
    ensures { IfOk result (λ p. p ≡ reading.single_of (reading.kind_at tokens.now at) (reading.text_at source.now tokens.now at) (reading.start_at tokens.now at)) }
{
    match kind_at(tokens, at) {
        Some(TokenKind::Identifier) => Ok(word_at(alloc, source, tokens, at)?),
        _ => Ok(Primary::Literal(literal_at(alloc, source, tokens, at)?)),
    }
}
