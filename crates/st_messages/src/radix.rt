// Integers by their digits for a radix.
ghost use Rattle.std.specs.Prelude.{◌≡◌, ◌<◌, ◌≤◌, [], ◌∷◌, drop, true};
ghost use Rattle.std.specs.Fmt.{digit_glyph};
ghost use Rattle.st_rules.specs.NumberRows.{last_digits, radix_text};

/// The bytes of a text, which stands from a place on.
#[derive(Drop)]
pub struct Digits {
    pub bytes: [u8; 129],
    pub start: usize,
}

// A digit as it is written.
fn glyph(digit: u8) -> u8
    requires { digit < 36 }
    ensures { result ≡ digit_glyph true digit }
{
    if digit < 10 {
        return digit + b'0';
    }
    digit + (b'A' - 10)
}

// The digits of a size, of which there are at most 128.
fn digits_of(radix: u128, size: u128) -> Digits
    requires least { 2 ≤ radix }
    requires greatest { radix ≤ 36 }
    ensures text { drop result.start result.bytes ≡ last_digits 128 radix size [] }
    ensures behind { 1 ≤ result.start }
    ensures within { result.start ≤ 129 }
{
    let mut bytes = [0; 129];
    let mut start = 129;
    let mut rest = size;
    loop {
        start -= 1;
        bytes[start] = glyph((rest % radix) as u8);
        rest /= radix;
        if rest == 0 {
            return Digits { bytes, start };
        }
    }
}

// The same behind a minus sign.
fn with_minus(digits: Digits) -> Digits
    requires before { 1 ≤ digits.start }
    requires within { digits.start ≤ 129 }
    ensures text { drop result.start result.bytes ≡ 45 ∷ drop digits.start digits.bytes }
    ensures within { result.start ≤ 129 }
{
    let mut bytes = digits.bytes;
    let start = digits.start - 1;
    bytes[start] = b'-';
    Digits { bytes, start }
}

/// An Integer as it is written for a radix from 2 to 36, with capital letters.
pub fn radix_digits(radix: u128, number: i128) -> Digits
    requires least { 2 ≤ radix }
    requires greatest { radix ≤ 36 }
    ensures text { drop result.start result.bytes ≡ radix_text radix number }
    ensures within { result.start ≤ 129 }
{
    let digits = digits_of(radix, number.unsigned_abs());
    if number < 0 {
        return with_minus(digits);
    }
    digits
}
