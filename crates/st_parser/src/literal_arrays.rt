// Literal arrays (ANSI NCITS 319, 3.4.6.6).
ghost use Rattle.std.specs.Prelude.{◌≡◌, ◌≤◌, ◌<◌, ◌-◌, ◌∷◌, [], IfOk, OnOk, true, false, length};
ghost use Rattle.st_parser.specs.Reading as reading;
ghost use Rattle.st_parser.specs.Reading.{rest, kind_at, ReadsItem, ReadsItems, ReadsArray};

use crate::cursor::{
    Sign, advance, end_at, is_array_end, is_identifier, is_inner_open, is_integer_from, is_keyword,
    is_keyword_from, is_operator, sign_at, start_at, text_at,
};
use crate::literals::{literal_at, negated_at, word_item};
use sqlite_items::Items;
use st_base::{OutOfMemory, Text, Token};
use st_tree::tree::Literal;
use std::alloc::Global;

// Reads keywords that follow each other without a gap.
fn keyword_run(
    alloc: Global,
    source: &[u8],
    tokens: &[Token],
    at: &mut usize,
) -> Result<Literal, OutOfMemory>
    ensures ahead { at.old ≤ at.new }
    ensures less { OnOk result (reading.is_keyword (kind_at tokens.now at.old) ≡ true → length tokens.now - at.new < length tokens.now - at.old) }
    ensures read { IfOk result (λ l. reading.is_keyword (kind_at tokens.now at.old) ≡ true → ReadsItem (rest source.now tokens.now at.old) l (rest source.now tokens.now at.new)) }
{
    let mut text = Vec::from_slice(alloc, text_at(source, tokens, *at))?;
    let mut end = end_at(source, tokens, *at);
    advance(tokens, at);
    'run: while is_keyword_from(tokens, *at, end) {
        text.extend_from_slice(text_at(source, tokens, *at))?;
        end = end_at(source, tokens, *at);
        advance(tokens, at);
    }
    Ok(Literal::Symbol(Text::from_bytes(alloc, &text)?))
}

// Whether `-` stands there, and an integer directly behind it.
fn is_negative(source: &[u8], tokens: &[Token], at: usize) -> bool
    ensures { result ≡ reading.is_negative source.now tokens.now at }
{
    let mut ahead = at;
    advance(tokens, &mut ahead);
    match sign_at(source, tokens, at) {
        Sign::Minus => is_integer_from(tokens, ahead, start_at(tokens, at) as usize + 1),
        _ => false,
    }
}

// Reads a negative integer, or an operator as a symbol.
fn operator_item(
    alloc: Global,
    source: &[u8],
    tokens: &[Token],
    at: &mut usize,
) -> Result<Literal, OutOfMemory>
    ensures ahead { at.old ≤ at.new }
    ensures less { OnOk result (reading.is_operator (kind_at tokens.now at.old) ≡ true → length tokens.now - at.new < length tokens.now - at.old) }
    ensures read { IfOk result (λ l. reading.is_operator (kind_at tokens.now at.old) ≡ true → ReadsItem (rest source.now tokens.now at.old) l (rest source.now tokens.now at.new)) }
{
    if is_negative(source, tokens, *at) {
        advance(tokens, at);
        let number = negated_at(tokens, *at);
        advance(tokens, at);
        Ok(number)
    } else {
        let symbol = Text::from_bytes(alloc, text_at(source, tokens, *at))?;
        advance(tokens, at);
        Ok(Literal::Symbol(symbol))
    }
}

// Reads an identifier, or a literal of one token.
fn single_item(
    alloc: Global,
    source: &[u8],
    tokens: &[Token],
    at: usize,
) -> Result<Literal, OutOfMemory>
    ensures { IfOk result (λ l. l ≡ reading.item_of (kind_at tokens.now at) (reading.text_at source.now tokens.now at)) }
{
    if is_identifier(tokens, at) {
        Ok(word_item(alloc, text_at(source, tokens, at))?)
    } else {
        Ok(literal_at(alloc, source, tokens, at)?)
    }
}

// Reads an item that is no array.
fn plain_item(
    alloc: Global,
    source: &[u8],
    tokens: &[Token],
    at: &mut usize,
) -> Result<Literal, OutOfMemory>
    ensures ahead { at.old ≤ at.new }
    ensures less { OnOk result (reading.is_array_end (kind_at tokens.now at.old) ≡ false → length tokens.now - at.new < length tokens.now - at.old) }
    ensures read { IfOk result (λ l. reading.is_array_end (kind_at tokens.now at.old) ≡ false → reading.is_inner_open (kind_at tokens.now at.old) ≡ false → ReadsItem (rest source.now tokens.now at.old) l (rest source.now tokens.now at.new)) }
{
    if is_keyword(tokens, *at) {
        let symbol = keyword_run(alloc, source, tokens, at)?;
        Ok(symbol)
    } else if is_operator(tokens, *at) {
        let item = operator_item(alloc, source, tokens, at)?;
        Ok(item)
    } else {
        let single = single_item(alloc, source, tokens, *at)?;
        advance(tokens, at);
        Ok(single)
    }
}

// Reads an item.
#[cycle(array)]
fn item(
    alloc: Global,
    source: &[u8],
    tokens: &[Token],
    at: &mut usize,
) -> Result<Literal, OutOfMemory>
    ensures ahead { at.old ≤ at.new }
    ensures less { OnOk result (reading.is_array_end (kind_at tokens.now at.old) ≡ false → length tokens.now - at.new < length tokens.now - at.old) }
    ensures read { IfOk result (λ l. reading.is_array_end (kind_at tokens.now at.old) ≡ false → ReadsItem (rest source.now tokens.now at.old) l (rest source.now tokens.now at.new)) }
{
    if is_inner_open(tokens, *at) {
        advance(tokens, at);
        let inside = array(alloc, source, tokens, at)?;
        Ok(inside)
    } else {
        let plain = plain_item(alloc, source, tokens, at)?;
        Ok(plain)
    }
}

// Reads items up to the end of an array.
#[cycle(array)]
fn items(
    alloc: Global,
    source: &[u8],
    tokens: &[Token],
    at: &mut usize,
    all: &mut Items<Literal>,
) -> Result<(), OutOfMemory>
    ensures ahead { at.old ≤ at.new }
    ensures stops { OnOk result (reading.is_array_end (kind_at tokens.now at.new) ≡ true) }
    ensures read { OnOk result (ReadsItems (rest source.now tokens.now at.old) all.old all.new (rest source.now tokens.now at.new)) }
{
    'items: while !is_array_end(tokens, *at) {
        all.push(item(alloc, source, tokens, at)?)?;
    }
    Ok(())
}

/// Reads on behind `#(`, or behind `(` within an array, past the `)` that closes it. It recurses
/// as deep as arrays nest.
#[cycle(array)]
pub(crate) fn array(
    alloc: Global,
    source: &[u8],
    tokens: &[Token],
    at: &mut usize,
) -> Result<Literal, OutOfMemory>
    ensures ahead { at.old ≤ at.new }
    ensures read { IfOk result (λ l. ReadsArray (rest source.now tokens.now at.old) l (rest source.now tokens.now at.new)) }
{
    let mut all = Items::new(alloc);
    items(alloc, source, tokens, at, &mut all)?;
    advance(tokens, at);
    Ok(Literal::Array(all))
}
