// How many bytes at the front belong together.
ghost use Rattle.std.specs.Prelude.{◌≡◌, ◌≤◌, ◌==◌, IfSome, length, position, true, false};
ghost use Rattle.std.specs.List.{prefix_len};
ghost use Rattle.st_base.specs.TokenBytes.{is_digit, is_word_byte, is_operator_byte, is_figure};
ghost use Rattle.st_base.specs.Lexed.{operator_len, string_len, comment_len, keywords_len, selector_len};

use crate::bytes::{
    begins_colon, begins_with_digit, is_figure, is_letter, is_operator_byte, is_word_byte,
};

/// Letters, digits and `_`.
pub fn word_len(bytes: &[u8]) -> usize
    ensures len { result ≡ prefix_len is_word_byte bytes.now }
    ensures within { result ≤ length bytes.now }
{
    bytes.iter().take_while(|byte| is_word_byte(**byte)).count()
}

/// Digits.
pub fn digits_len(bytes: &[u8]) -> usize
    ensures len { result ≡ prefix_len is_digit bytes.now }
    ensures within { result ≤ length bytes.now }
{
    bytes
        .iter()
        .take_while(|byte| byte.is_ascii_digit())
        .count()
}

/// Digits and capital letters.
pub fn figures_len(bytes: &[u8]) -> usize
    ensures len { result ≡ prefix_len is_figure bytes.now }
    ensures within { result ≤ length bytes.now }
{
    bytes.iter().take_while(|byte| is_figure(**byte)).count()
}

/// Operator characters.
pub fn operators_len(bytes: &[u8]) -> usize
    ensures len { result ≡ prefix_len is_operator_byte bytes.now }
    ensures within { result ≤ length bytes.now }
{
    bytes
        .iter()
        .take_while(|byte| is_operator_byte(**byte))
        .count()
}

/// An operator: a run of operator characters, cut before a `-` that is not first in it and is directly before a digit.
#[tactic(auto, unfolding(st_base::specs::Lexed::operator_len))]
pub fn operator_len(bytes: &[u8]) -> usize
    ensures { result ≡ operator_len bytes.now }
{
    let run = operators_len(bytes);
    if run > 1 && bytes[run - 1] == b'-' && begins_with_digit(&bytes[run..]) {
        run - 1
    } else {
        run
    }
}

/// A string behind its opening quote, where two quotes are one of its bytes; none where it has no end.
pub fn string_len(bytes: &[u8]) -> Option<usize>
    ensures len { result ≡ string_len false bytes.now }
    ensures within { IfSome result (λ n. n ≤ length bytes.now) }
{
    let mut closing = false;
    for (i, byte) in bytes.iter().enumerate() {
        if *byte == b'\'' {
            closing = !closing;
        } else if closing {
            return Some(i);
        }
    }
    if closing { Some(bytes.len()) } else { None }
}

// Where the first double quote stands.
fn double_quote_at(bytes: &[u8]) -> Option<usize>
    ensures { result ≡ position (λ b. b == 34) bytes.now }
{
    bytes.iter().position(|byte| *byte == b'"')
}

/// A comment behind its opening quote; none where it has no end.
pub fn comment_len(bytes: &[u8]) -> Option<usize>
    ensures len { result ≡ comment_len bytes.now }
    ensures within { IfSome result (λ n. n ≤ length bytes.now) }
{
    match double_quote_at(bytes) {
        Some(end) => Some(end + 1),
        None => None,
    }
}

// One or more whole keywords without a gap, where a letter comes first; none where there is no colon for the first.
fn keywords_len(bytes: &[u8]) -> Option<usize>
    ensures len { result ≡ keywords_len true bytes.now }
    ensures within { IfSome result (λ n. n ≤ length bytes.now) }
{
    let mut whole = None;
    let mut begun = true;
    for (i, byte) in bytes.iter().enumerate() {
        if begun {
            if !is_word_byte(*byte) {
                if !begins_colon(&bytes[i..]) {
                    return whole;
                }
                whole = Some(i + 1);
                begun = false;
            }
        } else {
            if !is_letter(*byte) {
                return whole;
            }
            begun = true;
        }
    }
    whole
}

/// One or more keywords without a gap, else an identifier, where a letter comes first.
#[tactic(auto, unfolding(st_base::specs::Lexed::selector_len))]
pub fn selector_len(bytes: &[u8]) -> usize
    ensures len { result ≡ selector_len bytes.now }
    ensures within { result ≤ length bytes.now }
{
    match keywords_len(bytes) {
        Some(n) => n,
        None => word_len(bytes),
    }
}
