// The forms of selectors and symbols.
ghost use Rattle.std.specs.Prelude.{◌≡◌};
ghost use Rattle.st_code.specs.Program.{name_at};
ghost use Rattle.st_code.specs.Texts.{all_bytes, are_keywords, arity, count_byte, is_identifier, is_keywords, is_operators};
ghost use Rattle.st_messages.specs.Printed.{is_bare};
ghost use Rattle.st_messages.specs.Spellings.{begins, continues, is_operator};

use crate::facts::ProgramFacts;

#[tactic(auto, unfolding(st_code::specs::Texts::is_letter, st_code::specs::Texts::is_upper, st_code::specs::Texts::is_lower))]
fn begins_name(byte: u8) -> bool
    ensures { result ≡ begins byte }
{
    byte.is_ascii_alphabetic() || byte == b'_'
}

#[tactic(auto, unfolding(st_code::specs::Texts::is_digit))]
fn continues_name(byte: u8) -> bool
    ensures { result ≡ continues byte }
{
    begins_name(byte) || byte.is_ascii_digit()
}

#[tactic(auto, unfolding(st_code::specs::Texts::holds_byte))]
fn is_operator_byte(byte: u8) -> bool
    ensures { result ≡ is_operator byte }
{
    matches!(
        byte,
        b'!' | b'%'
            | b'&'
            | b'*'
            | b'+'
            | b','
            | b'-'
            | b'/'
            | b'<'
            | b'='
            | b'>'
            | b'?'
            | b'@'
            | b'\\'
            | b'|'
            | b'~'
    )
}

// Whether all bytes may go on with a name.
#[tactic(auto, unfolding(st_code::specs::Texts::all_bytes))]
fn are_name_bytes(text: &[u8]) -> bool
    ensures { result ≡ all_bytes continues text.now }
{
    for byte in text {
        if !continues_name(*byte) {
            return false;
        }
    }
    true
}

// Whether all bytes are those of operators.
#[tactic(auto, unfolding(st_code::specs::Texts::all_bytes))]
fn are_operator_bytes(text: &[u8]) -> bool
    ensures { result ≡ all_bytes is_operator text.now }
{
    for byte in text {
        if !is_operator_byte(*byte) {
            return false;
        }
    }
    true
}

// Whether keywords go on from here, where one has begun or not.
#[tactic(auto, unfolding(st_code::specs::Texts::are_keywords))]
fn go_on_as_keywords(begun: bool, text: &[u8]) -> bool
    ensures { result ≡ are_keywords begun text.now }
{
    let mut begun = begun;
    for byte in text {
        if begun && *byte == b':' {
            begun = false;
        } else if begun {
            if !continues_name(*byte) {
                return false;
            }
        } else if begins_name(*byte) {
            begun = true;
        } else {
            return false;
        }
    }
    !begun
}

#[tactic(auto, unfolding(st_code::specs::Texts::is_identifier))]
fn is_identifier_text(text: &[u8]) -> bool
    ensures { result ≡ is_identifier text.now }
{
    match text.split_first() {
        Some((first, rest)) => begins_name(*first) && are_name_bytes(rest),
        None => false,
    }
}

#[tactic(auto, unfolding(st_code::specs::Texts::is_keywords))]
fn is_keywords_text(text: &[u8]) -> bool
    ensures { result ≡ is_keywords text.now }
{
    if text.is_empty() {
        return false;
    }
    go_on_as_keywords(false, text)
}

#[tactic(auto, unfolding(st_code::specs::Texts::is_operators))]
fn is_operators_text(text: &[u8]) -> bool
    ensures { result ≡ is_operators text.now }
{
    if text.is_empty() {
        return false;
    }
    are_operator_bytes(text)
}

// How many bytes of a text are this one.
#[tactic(auto, unfolding(st_code::specs::Texts::count_byte))]
fn count_of(byte: u8, text: &[u8]) -> usize
    ensures { result ≡ count_byte byte text.now }
{
    let mut count = 0;
    for other in text {
        if *other == byte {
            count += 1;
        }
    }
    count
}

/// Whether a symbol needs no quotes.
pub(crate) fn is_bare(text: &[u8]) -> bool
    ensures { result ≡ is_bare text.now }
{
    is_identifier_text(text) || is_keywords_text(text) || is_operators_text(text)
}

/// How many arguments a message of this selector has.
#[tactic(auto, unfolding(st_code::specs::Texts::arity))]
pub fn arity_of(text: &[u8]) -> usize
    ensures { result ≡ arity text.now }
{
    if is_keywords_text(text) {
        return count_of(b':', text);
    }
    if is_operators_text(text) { 1 } else { 0 }
}

/// The text of a symbol, empty where there is no such symbol.
#[tactic(auto, unfolding(st_code::specs::Program::name_at))]
pub fn name_of<P: ProgramFacts>(program: &P, name: u32) -> &[u8]
    ensures { result.now ≡ name_at (P.meaning program.now) name }
{
    let names = program.names();
    if name < names.len() {
        return names.text(name);
    }
    &[]
}
