// The bytes of which tokens are made.
ghost use Rattle.std.specs.Prelude.{◌≡◌, ◌==◌, ◌<◌, length};
ghost use Rattle.std.specs.List.{list_all};
ghost use Rattle.st_base.specs.Lexes.{is_identifier};
ghost use Rattle.st_base.specs.TokenBytes.{is_letter, is_digit, is_word_byte, is_operator_byte, is_white_byte, is_figure, figure_value, begins, begins_colon, begins_float};

/// A letter or `_`.
pub fn is_letter(byte: u8) -> bool
    ensures { result ≡ is_letter byte }
{
    byte.is_ascii_alphabetic() || byte == b'_'
}

/// What an identifier goes on with: a letter, `_` or a digit.
pub fn is_word_byte(byte: u8) -> bool
    ensures { result ≡ is_word_byte byte }
{
    is_letter(byte) || byte.is_ascii_digit()
}

/// One of ``! % & * + , / < > = ? @ \ ~ | -``.
pub fn is_operator_byte(byte: u8) -> bool
    ensures { result ≡ is_operator_byte byte }
{
    matches!(
        byte,
        b'!' | b'%'
            | b'&'
            | b'*'
            | b'+'
            | b','
            | b'-'
            | b'/'
            | b'<'
            | b'='
            | b'>'
            | b'?'
            | b'@'
            | b'\\'
            | b'|'
            | b'~'
    )
}

fn are_word_bytes(bytes: &[u8]) -> bool
    ensures { result ≡ list_all is_word_byte bytes.now }
{
    bytes.iter().all(|byte| is_word_byte(*byte))
}

/// A letter or `_`, and behind it letters, `_` and digits.
pub fn is_identifier(bytes: &[u8]) -> bool
    ensures { result ≡ is_identifier bytes.now }
{
    match bytes {
        [first, rest @ ..] => is_letter(*first) && are_word_bytes(rest),
        [] => false,
    }
}

/// A tab, line feed, form feed, carriage return or space.
pub fn is_white_byte(byte: u8) -> bool
    ensures { result ≡ is_white_byte byte }
{
    matches!(byte, 9 | 10 | 12 | 13 | 32)
}

/// A digit behind a radix: a digit or a capital letter.
pub fn is_figure(byte: u8) -> bool
    ensures { result ≡ is_figure byte }
{
    byte.is_ascii_digit() || byte.is_ascii_uppercase()
}

/// What a digit behind a radix counts: `A` is 10.
pub fn figure_value(byte: u8) -> u8
    ensures { result ≡ figure_value byte }
{
    if byte.is_ascii_digit() {
        byte.saturating_sub(b'0')
    } else {
        byte.saturating_sub(b'A' - 10)
    }
}

/// Whether a digit comes first.
pub fn begins_with_digit(bytes: &[u8]) -> bool
    ensures { result ≡ begins is_digit bytes.now }
{
    match bytes {
        [first, ..] => first.is_ascii_digit(),
        [] => false,
    }
}

/// Whether this byte comes first.
pub fn begins_with(byte: u8, bytes: &[u8]) -> bool
    ensures { result ≡ begins (λ c. c == byte) bytes.now }
{
    match bytes {
        [first, ..] => *first == byte,
        [] => false,
    }
}

/// Whether a colon comes first that no `=` follows.
pub fn begins_colon(bytes: &[u8]) -> bool
    ensures { result ≡ begins_colon bytes.now }
{
    match bytes {
        [b':', rest @ ..] => !begins_with(b'=', rest),
        _ => false,
    }
}

/// Whether a period and a digit come first, or one of the letters `e d q s`.
pub fn begins_float(bytes: &[u8]) -> bool
    ensures { result ≡ begins_float bytes.now }
{
    match bytes {
        [b'e' | b'd' | b'q' | b's', ..] => true,
        [b'.', rest @ ..] => begins_with_digit(rest),
        _ => false,
    }
}
