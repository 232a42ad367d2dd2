// The words and strings that an element holds.
ghost use Rattle.std.specs.Prelude.{◌≡◌, ℕ, ◌-◌, List, ◌∷◌, ◌++◌, drop, take, length, IfOk};
ghost use Rattle.std.specs.Str.{bytes_eq};
ghost use Rattle.st_base.specs.TokenBytes.{is_white_byte};
ghost use Rattle.st_tree.specs.Symbols.{text_of, unquoted, string_value};
ghost use Rattle.st_tree.specs.Headers.{is_reserved, is_name, words_behind, words_of, are_names};
ghost use Rattle.sif_elements.specs.Words.{in_front};

use sqlite_items::Items;
use st_base::{OutOfMemory, Text, Token};
use st_lexer::is_identifier;
use std::alloc::Global;

/// Whether a text is this one.
pub(crate) fn is_text(text: &[u8], wanted: &[u8]) -> bool
    ensures { result ≡ bytes_eq text.now wanted.now }
{
    text == wanted
}

/// The bytes of a token.
pub fn text_of(source: &[u8], token: Token) -> &[u8]
    ensures { result.now ≡ text_of source.now token }
{
    let start = (token.start as usize).min(source.len());
    let end = (token.end as usize).min(source.len());
    if start <= end {
        &source[start..end]
    } else {
        &source[start..start]
    }
}

fn is_reserved(bytes: &[u8]) -> bool
    ensures { result ≡ is_reserved bytes.now }
{
    is_text(bytes, b"nil")
        || is_text(bytes, b"true")
        || is_text(bytes, b"false")
        || is_text(bytes, b"self")
        || is_text(bytes, b"super")
}

/// Whether it is an identifier that isn't reserved.
pub fn is_name(bytes: &[u8]) -> bool
    ensures { result ≡ is_name bytes.now }
{
    is_identifier(bytes) && !is_reserved(bytes)
}

// What is between the quotes.
fn between_quotes(text: &[u8]) -> &[u8]
    ensures { result.now ≡ take (length text.now - 2) (drop 1 text.now) }
{
    if text.len() < 2 {
        &text[0..0]
    } else {
        &text[1..text.len() - 1]
    }
}

// Keeps a byte of a string unless the one before it was a quote that was kept, and says whether
// the next is to be skipped.
fn keep_byte(bytes: &mut Vec<u8>, skips: bool, byte: u8) -> Result<bool, OutOfMemory>
    ensures { IfOk result (λ s. (more : List ℕ) → bytes.new.items ++ unquoted s more ≡ bytes.old.items ++ unquoted skips (byte ∷ more)) }
{
    if skips {
        Ok(false)
    } else {
        bytes.push(byte)?;
        Ok(byte == b'\'')
    }
}

/// The bytes that a string stands for, each doubled quote as one.
pub fn string_value(alloc: Global, text: &[u8]) -> Result<Text, OutOfMemory>
    ensures { IfOk result (λ t. t ≡ string_value text.now) }
{
    let mut bytes = Vec::new(alloc);
    let mut skips = false;
    for byte in between_quotes(text) {
        skips = keep_byte(&mut bytes, skips, *byte)?;
    }
    Ok(Text::from_bytes(alloc, &bytes)?)
}

// Tab, line feed, form feed, carriage return or space.
fn is_white_byte(byte: u8) -> bool
    ensures { result ≡ is_white_byte byte }
{
    matches!(byte, 9 | 10 | 12 | 13 | 32)
}

// Takes a byte into a word, or ends the word where white space begins, and says whether the byte
// is white space.
fn take_into_words(
    alloc: Global,
    words: &mut Items<Text>,
    word: &mut Vec<u8>,
    white: bool,
    byte: u8,
) -> Result<bool, OutOfMemory>
    ensures { IfOk result (λ w. (more : List ℕ) → words.new ++ in_front word.new.items (words_behind w more) ≡ words.old ++ in_front word.old.items (words_behind white (byte ∷ more))) }
{
    if !is_white_byte(byte) {
        word.push(byte)?;
        return Ok(false);
    }
    if !white {
        words.push(Text::from_bytes(alloc, word.as_slice())?)?;
        word.clear();
    }
    Ok(true)
}

/// The words between runs of white space, in their order. An empty text has none. Where white space
/// stands at an end, an empty word does.
pub fn words_of(alloc: Global, bytes: &[u8]) -> Result<Items<Text>, OutOfMemory>
    ensures { IfOk result (λ words. words ≡ words_of bytes.now) }
{
    let mut words = Items::new(alloc);
    if bytes.is_empty() {
        return Ok(words);
    }
    let mut word = Vec::new(alloc);
    let mut white = false;
    for byte in bytes {
        white = take_into_words(alloc, &mut words, &mut word, white, *byte)?;
    }
    words.push(Text::from_bytes(alloc, word.as_slice())?)?;
    Ok(words)
}

/// Whether it is names, separated by white space, or nothing.
pub fn are_names(alloc: Global, bytes: &[u8]) -> Result<bool, OutOfMemory>
    ensures { IfOk result (λ all. all ≡ are_names bytes.now) }
{
    let words = words_of(alloc, bytes)?;
    Ok(words.as_slice().iter().all(|word| is_name(word.as_bytes())))
}
