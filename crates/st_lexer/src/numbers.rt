// Integers, with or without a radix.
ghost use Rattle.std.specs.Prelude.{◌≡◌, ◌<◌, ◌*◌, ◌+◌, ◌^◌, ℕ, nat_lt, length, IsTrue};
ghost use Rattle.std.specs.List.{list_all};
ghost use Rattle.st_base.specs.TokenBytes.{figure_value};
ghost use Rattle.st_base.specs.Lexed.{value_of, integer_at, is_radix_number, radix_front, number_front};
ghost use Rattle.st_lexer.specs.Seen.{seen, held};

use crate::bytes::{begins_float, begins_with, figure_value};
use crate::front::Front;
use crate::spans::{digits_len, figures_len};
use st_base::{Reason, TokenKind};

/// The greatest value of a token.
const GREATEST: u128 = 1 << 127;

// A value with one more digit, if it is at most 2^127.
fn with_digit(value: u128, radix: u128, byte: u8) -> Option<u128>
    ensures { result ≡ held (value * radix + figure_value byte) }
{
    let next = value
        .checked_mul(radix)?
        .checked_add(figure_value(byte) as u128)?;
    if next <= GREATEST { Some(next) } else { None }
}

// The value of digits, if it is at most 2^127.
fn value_of(radix: u128, digits: &[u8]) -> Option<u128>
    requires { 0 < radix }
    ensures { result ≡ held (value_of radix digits.now) }
{
    let mut value = 0;
    for byte in digits {
        value = with_digit(value, radix, *byte)?;
    }
    Some(value)
}

// An integer of n bytes, by the value of its digits and what follows them.
#[tactic(auto, unfolding(st_base::specs::Lexed::integer_at))]
fn integer_at(value: Option<u128>, n: usize, after: &[u8]) -> Front
    ensures { (exact : ℕ) → value ≡ held exact → seen result ≡ integer_at exact n after.now }
{
    if begins_float(after) {
        return Front::Spoiled(Reason::FloatOutside, 0);
    }
    match value {
        Some(value) => Front::Lexeme(TokenKind::Integer(value), n),
        None => Front::Spoiled(Reason::IntegerTooLarge, 0),
    }
}

// Whether each digit is below the radix.
fn are_below(radix: u128, figures: &[u8]) -> bool
    ensures { result ≡ list_all (λ c. nat_lt (figure_value c) radix) figures.now }
{
    figures
        .iter()
        .all(|byte| (figure_value(*byte) as u128) < radix)
}

// A radix is from 2 to 36, and its digits are there and below it.
fn is_radix_number(radix: u128, figures: &[u8]) -> bool
    ensures same { result ≡ is_radix_number radix figures.now }
    ensures some { IsTrue result → 0 < radix }
{
    if radix < 2 || radix > 36 || figures.is_empty() {
        return false;
    }
    are_below(radix, figures)
}

// A number behind its radix and `r`, which are n bytes.
#[tactic(auto, unfolding(st_base::specs::Lexed::radix_front))]
fn radix_front(radix: Option<u128>, n: usize, after: &[u8]) -> Front
    requires { n + length after.now < 2 ^ 64 }
    ensures { (exact : ℕ) → radix ≡ held exact → seen result ≡ radix_front exact n after.now }
{
    let m = figures_len(after);
    let figures = &after[..m];
    match radix {
        Some(radix) if is_radix_number(radix, figures) => {
            integer_at(value_of(radix, figures), n + m, &after[m..])
        }
        _ => Front::Spoiled(Reason::BadRadix, 0),
    }
}

/// A number at the front of bytes that begin with a digit.
#[tactic(auto, unfolding(st_base::specs::Lexed::number_front))]
pub fn number_front(bytes: &[u8]) -> Front
    ensures { seen result ≡ number_front bytes.now }
{
    let n = digits_len(bytes);
    let value = value_of(10, &bytes[..n]);
    let after = &bytes[n..];
    if begins_with(b'r', after) {
        radix_front(value, n + 1, &after[1..])
    } else {
        integer_at(value, n, after)
    }
}
