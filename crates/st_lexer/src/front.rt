// What stands at the front of bytes.
ghost use Rattle.std.specs.Prelude.{◌≡◌, ◌<◌, false, length, slice_index, drop};
ghost use Rattle.st_base.specs.Lexed.{front_of, word_front, symbol_front, sign_front, character_front, string_front, quoted_front, comment_front, string_len, comment_len};
ghost use Rattle.st_lexer.specs.Seen.{seen};

use crate::bytes::{begins_colon, begins_with, is_letter, is_operator_byte, is_white_byte};
use crate::numbers::number_front;
use crate::spans::{comment_len, operator_len, operators_len, selector_len, string_len, word_len};
use st_base::{Reason, TokenKind};

/// A token or a gap of so many bytes, or a fault so many bytes further on.
#[derive(Clone, Copy, Debug, PartialEq, Eq)]
pub enum Front {
    Lexeme(TokenKind, usize),
    Gap(usize),
    Spoiled(Reason, usize),
}

// An identifier or a keyword, where a letter comes first.
#[tactic(auto, unfolding(st_base::specs::Lexed::word_front))]
fn word_front(bytes: &[u8]) -> Front
    ensures { seen result ≡ word_front bytes.now }
{
    let n = word_len(bytes);
    if begins_colon(&bytes[n..]) {
        Front::Lexeme(TokenKind::Keyword, n + 1)
    } else {
        Front::Lexeme(TokenKind::Identifier, n)
    }
}

// A symbol, a quoted symbol or the opening of an array, behind its `#`.
#[tactic(auto, unfolding(st_base::specs::Lexed::symbol_front))]
fn symbol_front(after: &[u8]) -> Front
    ensures { seen result ≡ symbol_front after.now }
{
    match after {
        [b'(', ..] => Front::Lexeme(TokenKind::ArrayOpen, 2),
        [b'\'', rest @ ..] => match string_len(rest) {
            Some(n) => Front::Lexeme(TokenKind::QuotedSymbol, n + 2),
            None => Front::Spoiled(Reason::OpenString, 1),
        },
        [first, ..] if is_letter(*first) => Front::Lexeme(
            TokenKind::Symbol,
            selector_len(after) + 1,
        ),
        [first, ..] if is_operator_byte(*first) => Front::Lexeme(
            TokenKind::Symbol,
            operators_len(after) + 1,
        ),
        _ => Front::Spoiled(Reason::BadCharacter, 0),
    }
}

// A sign of one or two bytes, or white space.
#[tactic(auto, unfolding(st_base::specs::Lexed::sign_front))]
fn sign_front(first: u8, after: &[u8]) -> Front
    ensures { seen result ≡ sign_front first after.now }
{
    match first {
        _ if is_white_byte(first) => Front::Gap(1),
        b'(' => Front::Lexeme(TokenKind::ParenOpen, 1),
        b')' => Front::Lexeme(TokenKind::ParenClose, 1),
        b'[' => Front::Lexeme(TokenKind::BlockOpen, 1),
        b']' => Front::Lexeme(TokenKind::BlockClose, 1),
        b':' if begins_with(b'=', after) => Front::Lexeme(TokenKind::Assign, 2),
        b':' => Front::Lexeme(TokenKind::Colon, 1),
        b'^' => Front::Lexeme(TokenKind::Caret, 1),
        b'.' => Front::Lexeme(TokenKind::Period, 1),
        b';' => Front::Lexeme(TokenKind::Semicolon, 1),
        _ => Front::Spoiled(Reason::BadCharacter, 0),
    }
}

/// What stands at the front of the bytes.
#[tactic(auto, unfolding(st_base::specs::Lexed::front_of))]
pub fn front_of(bytes: &[u8]) -> Front
    requires { 0 < length bytes.now }
    ensures { seen result ≡ front_of (slice_index bytes.now 0) (drop 1 bytes.now) }
{
    let first = bytes[0];
    let after = &bytes[1..];
    match first {
        _ if is_letter(first) => word_front(bytes),
        _ if first.is_ascii_digit() => number_front(bytes),
        _ if is_operator_byte(first) => Front::Lexeme(TokenKind::Operator, operator_len(bytes)),
        b'$' if after.is_empty() => Front::Spoiled(Reason::BadCharacter, 0),
        b'$' => Front::Lexeme(TokenKind::Character, 2),
        b'\'' => match string_len(after) {
            Some(n) => Front::Lexeme(TokenKind::Str, n + 1),
            None => Front::Spoiled(Reason::OpenString, 0),
        },
        b'"' => match comment_len(after) {
            Some(n) => Front::Gap(n + 1),
            None => Front::Spoiled(Reason::OpenComment, 0),
        },
        b'#' => symbol_front(after),
        _ => sign_front(first, after),
    }
}
