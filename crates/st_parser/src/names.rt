// Names that are declared or assigned: targets, parameters, temporaries and patterns.
ghost use Rattle.std.specs.Prelude.{◌≡◌, ◌≤◌, ◌<◌, ◌-◌, ℕ, List, [], ◌∷◌, IfOk, OnOk, true, false, length};
ghost use Rattle.st_tree.specs.declared.tree.Name as name;
ghost use Rattle.st_parser.specs.Reading as reading;
ghost use Rattle.st_parser.specs.Reading.{rest, kind_at, NoTarget, ReadsTargets, ReadsParameters, ReadsNames, ReadsBetweenBars, ReadsTemporaries, ReadsOpening, ReadsHead, ReadsPart, ReadsPattern};

use crate::built::Head;
use crate::cursor::{
    Sign, advance, is_colon, is_identifier, is_keyword, is_operator, is_target, sign_at, text_at,
};
use crate::literals::name_at;
use sqlite_items::Items;
use st_base::{OutOfMemory, Text, Token};
use st_tree::tree::Name;
use std::alloc::Global;

/// Reads the names before `:=`.
pub(crate) fn targets(
    alloc: Global,
    source: &[u8],
    tokens: &[Token],
    at: &mut usize,
    names: &mut Items<Name>,
) -> Result<(), OutOfMemory>
    ensures ahead { at.old ≤ at.new }
    ensures stops { OnOk result (NoTarget (rest source.now tokens.now at.new)) }
    ensures read { OnOk result (ReadsTargets (rest source.now tokens.now at.old) names.old names.new (rest source.now tokens.now at.new)) }
{
    'targets: while is_target(tokens, *at) {
        names.push(name_at(alloc, source, tokens, *at)?)?;
        advance(tokens, at);
        advance(tokens, at);
    }
    Ok(())
}

// Reads the names behind `:`.
fn parameters(
    alloc: Global,
    source: &[u8],
    tokens: &[Token],
    at: &mut usize,
    names: &mut Items<Name>,
) -> Result<(), OutOfMemory>
    ensures ahead { at.old ≤ at.new }
    ensures stops { OnOk result (reading.is_colon (kind_at tokens.now at.new) ≡ false) }
    ensures read { OnOk result (ReadsParameters (rest source.now tokens.now at.old) names.old names.new (rest source.now tokens.now at.new)) }
{
    'names: while is_colon(tokens, *at) {
        advance(tokens, at);
        names.push(name_at(alloc, source, tokens, *at)?)?;
        advance(tokens, at);
    }
    Ok(())
}

// Reads names as far as there are any.
fn names(
    alloc: Global,
    source: &[u8],
    tokens: &[Token],
    at: &mut usize,
    names: &mut Items<Name>,
) -> Result<(), OutOfMemory>
    ensures ahead { at.old ≤ at.new }
    ensures stops { OnOk result (reading.is_identifier (kind_at tokens.now at.new) ≡ false) }
    ensures read { OnOk result (ReadsNames (rest source.now tokens.now at.old) names.old names.new (rest source.now tokens.now at.new)) }
{
    'names: while is_identifier(tokens, *at) {
        names.push(name_at(alloc, source, tokens, *at)?)?;
        advance(tokens, at);
    }
    Ok(())
}

// Reads temporaries behind their opening bar, and the bar that closes them.
fn between_bars(
    alloc: Global,
    source: &[u8],
    tokens: &[Token],
    at: &mut usize,
    all: &mut Items<Name>,
) -> Result<(), OutOfMemory>
    ensures ahead { at.old ≤ at.new }
    ensures read { OnOk result (ReadsBetweenBars (rest source.now tokens.now at.old) all.old all.new (rest source.now tokens.now at.new)) }
{
    names(alloc, source, tokens, at, all)?;
    advance(tokens, at);
    Ok(())
}

fn is_bar(source: &[u8], tokens: &[Token], at: usize) -> bool
    ensures { result ≡ reading.is_bar (reading.sign_there (kind_at tokens.now at) (reading.text_at source.now tokens.now at)) }
{
    matches!(sign_at(source, tokens, at), Sign::Bar)
}

fn is_two_bars(source: &[u8], tokens: &[Token], at: usize) -> bool
    ensures { result ≡ reading.is_two_bars (reading.sign_there (kind_at tokens.now at) (reading.text_at source.now tokens.now at)) }
{
    matches!(sign_at(source, tokens, at), Sign::TwoBars)
}

fn is_three_bars(source: &[u8], tokens: &[Token], at: usize) -> bool
    ensures { result ≡ reading.is_three_bars (reading.sign_there (kind_at tokens.now at) (reading.text_at source.now tokens.now at)) }
{
    matches!(sign_at(source, tokens, at), Sign::ThreeBars)
}

/// Reads the temporaries of a body, if it has any.
pub(crate) fn temporaries(
    alloc: Global,
    source: &[u8],
    tokens: &[Token],
    at: &mut usize,
    all: &mut Items<Name>,
) -> Result<(), OutOfMemory>
    ensures ahead { at.old ≤ at.new }
    ensures read { OnOk result (ReadsTemporaries (rest source.now tokens.now at.old) all.old all.new (rest source.now tokens.now at.new)) }
{
    if is_bar(source, tokens, *at) {
        advance(tokens, at);
        between_bars(alloc, source, tokens, at, all)?;
        Ok(())
    } else if is_two_bars(source, tokens, *at) {
        advance(tokens, at);
        Ok(())
    } else {
        Ok(())
    }
}

// Reads the bar behind a block's parameters, and temporaries.
fn behind_parameters(
    alloc: Global,
    source: &[u8],
    tokens: &[Token],
    at: &mut usize,
    all: &mut Items<Name>,
) -> Result<(), OutOfMemory>
    ensures ahead { at.old ≤ at.new }
    ensures read { OnOk result (reading.is_colon (kind_at tokens.now at.old) ≡ false → all.old ≡ [] → (n : name.Name) (ns : List name.Name) → ReadsOpening (n ∷ ns) (rest source.now tokens.now at.old) all.new (rest source.now tokens.now at.new)) }
{
    if is_bar(source, tokens, *at) {
        advance(tokens, at);
        temporaries(alloc, source, tokens, at, all)?;
        Ok(())
    } else if is_two_bars(source, tokens, *at) {
        advance(tokens, at);
        between_bars(alloc, source, tokens, at, all)?;
        Ok(())
    } else if is_three_bars(source, tokens, *at) {
        advance(tokens, at);
        Ok(())
    } else {
        Ok(())
    }
}

fn is_named(names: &Items<Name>) -> bool
    ensures { result ≡ reading.is_named names.now }
{
    !names.is_empty()
}

// Reads what stands between a block's parameters, if it has any, and its statements.
fn opening(
    alloc: Global,
    source: &[u8],
    tokens: &[Token],
    at: &mut usize,
    parameters: &Items<Name>,
) -> Result<Items<Name>, OutOfMemory>
    ensures ahead { at.old ≤ at.new }
    ensures read { IfOk result (λ ts. reading.is_colon (kind_at tokens.now at.old) ≡ false → ReadsOpening parameters.now (rest source.now tokens.now at.old) ts (rest source.now tokens.now at.new)) }
{
    let mut all = Items::new(alloc);
    if is_named(parameters) {
        behind_parameters(alloc, source, tokens, at, &mut all)?;
        Ok(all)
    } else {
        temporaries(alloc, source, tokens, at, &mut all)?;
        Ok(all)
    }
}

/// Reads a block's parameters and temporaries.
pub(crate) fn head(
    alloc: Global,
    source: &[u8],
    tokens: &[Token],
    at: &mut usize,
) -> Result<Head, OutOfMemory>
    ensures ahead { at.old ≤ at.new }
    ensures read { IfOk result (λ h. ReadsHead (rest source.now tokens.now at.old) h.parameters h.temporaries (rest source.now tokens.now at.new)) }
{
    let mut names = Items::new(alloc);
    parameters(alloc, source, tokens, at, &mut names)?;
    let temporaries = opening(alloc, source, tokens, at, &names)?;
    Ok(Head {
        parameters: names,
        temporaries,
    })
}

/// The pattern of a method: its selector and parameters.
#[derive(Drop)]
pub(crate) struct Heading {
    pub selector: Text,
    pub parameters: Items<Name>,
}

// Reads a keyword of a pattern and its parameter.
fn part(
    alloc: Global,
    source: &[u8],
    tokens: &[Token],
    at: &mut usize,
    text: &mut Vec<u8>,
    parameters: &mut Items<Name>,
) -> Result<(), OutOfMemory>
    ensures ahead { at.old ≤ at.new }
    ensures less { OnOk result (reading.is_keyword (kind_at tokens.now at.old) ≡ true → length tokens.now - at.new < length tokens.now - at.old) }
    ensures read { OnOk result (reading.is_keyword (kind_at tokens.now at.old) ≡ true → ReadsPart (rest source.now tokens.now at.old) text.old.items parameters.old text.new.items parameters.new (rest source.now tokens.now at.new)) }
{
    text.extend_from_slice(text_at(source, tokens, *at))?;
    advance(tokens, at);
    parameters.push(name_at(alloc, source, tokens, *at)?)?;
    advance(tokens, at);
    Ok(())
}

// Reads a pattern of keywords.
fn keywords(
    alloc: Global,
    source: &[u8],
    tokens: &[Token],
    at: &mut usize,
) -> Result<Heading, OutOfMemory>
    ensures ahead { at.old ≤ at.new }
    ensures read { IfOk result (λ h. reading.is_keyword (kind_at tokens.now at.old) ≡ true → ReadsPattern (rest source.now tokens.now at.old) h.selector h.parameters (rest source.now tokens.now at.new)) }
{
    let mut text = Vec::new(alloc);
    let mut parameters = Items::new(alloc);
    part(alloc, source, tokens, at, &mut text, &mut parameters)?;
    'parts: while is_keyword(tokens, *at) {
        part(alloc, source, tokens, at, &mut text, &mut parameters)?;
    }
    let selector = Text::from_bytes(alloc, &text)?;
    Ok(Heading {
        selector,
        parameters,
    })
}

// Reads an operator and its parameter.
fn operator(
    alloc: Global,
    source: &[u8],
    tokens: &[Token],
    at: &mut usize,
) -> Result<Heading, OutOfMemory>
    ensures ahead { at.old ≤ at.new }
    ensures read { IfOk result (λ h. reading.is_operator (kind_at tokens.now at.old) ≡ true → ReadsPattern (rest source.now tokens.now at.old) h.selector h.parameters (rest source.now tokens.now at.new)) }
{
    let selector = Text::from_bytes(alloc, text_at(source, tokens, *at))?;
    advance(tokens, at);
    let mut parameters = Items::new(alloc);
    parameters.push(name_at(alloc, source, tokens, *at)?)?;
    advance(tokens, at);
    Ok(Heading {
        selector,
        parameters,
    })
}

/// Reads a method's pattern.
pub(crate) fn pattern(
    alloc: Global,
    source: &[u8],
    tokens: &[Token],
    at: &mut usize,
) -> Result<Heading, OutOfMemory>
    ensures ahead { at.old ≤ at.new }
    ensures read { IfOk result (λ h. ReadsPattern (rest source.now tokens.now at.old) h.selector h.parameters (rest source.now tokens.now at.new)) }
{
    if is_keyword(tokens, *at) {
        let heading = keywords(alloc, source, tokens, at)?;
        Ok(heading)
    } else if is_operator(tokens, *at) {
        let heading = operator(alloc, source, tokens, at)?;
        Ok(heading)
    } else {
        let selector = Text::from_bytes(alloc, text_at(source, tokens, *at))?;
        advance(tokens, at);
        Ok(Heading {
            selector,
            parameters: Items::new(alloc),
        })
    }
}
