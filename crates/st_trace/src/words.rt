// How the bytes of a line are read.
ghost use Rattle.std.specs.Prelude.{◌≡◌, ◌∷◌, [], Some, None, option_map};
ghost use Rattle.st_trace.specs.Events.{event_of, line_of};
ghost use Rattle.st_trace.specs.Reading.{judged_in, known_in, line_in, number_in, numbered_in, read_line, stop_in, told_by, twice_in, value_behind, with_digit, with_number, words_behind, words_of};

use crate::line::{Line, StopWord};
use memchr::memchr;
use st_contexts::Event;

// A word, and what stands behind the space behind it, where there is one.
#[derive(Clone, Copy)]
struct Parted<'a> {
    word: &'a [u8],
    rest: Option<&'a [u8]>,
}

fn split(bytes: &[u8]) -> Parted<'_>
    ensures { words_of bytes.now ≡ result.word.now ∷ words_behind (option_map (λ rest. rest.now) result.rest) }
{
    match memchr(b' ', bytes) {
        Some(end) => Parted {
            word: &bytes[..end],
            rest: Some(&bytes[end + 1..]),
        },
        None => Parted {
            word: bytes,
            rest: None,
        },
    }
}

// A digit behind a number.
fn with_digit(number: u64, digit: u8) -> Option<u64>
    ensures { result ≡ with_digit number digit }
{
    if !digit.is_ascii_digit() {
        return None;
    }
    number.checked_mul(10)?.checked_add(u64::from(digit - b'0'))
}

fn value_of(digits: &[u8]) -> Option<u64>
    ensures { result ≡ value_behind (Some 0) digits.now }
{
    let mut value = 0;
    for digit in digits {
        value = with_digit(value, *digit)?;
    }
    Some(value)
}

// The number that is written so, without leading zeros.
fn number_of(digits: &[u8]) -> Option<u64>
    ensures { result ≡ number_in digits.now }
{
    if digits.is_empty() || (digits.len() > 1 && digits[0] == b'0') {
        return None;
    }
    value_of(digits)
}

fn known_in(word: &[u8]) -> Option<Line>
    ensures { option_map line_of result ≡ known_in word.now }
{
    if word == b"known".as_slice() {
        return Some(Line::Tells(Event::Known));
    }
    None
}

fn stop_in(word: &[u8]) -> Option<StopWord>
    ensures { option_map (λ w. line_of (Line.Stops w)) result ≡ stop_in word.now }
{
    if word == b"done".as_slice() {
        return Some(StopWord::Done);
    }
    if word == b"unhandled".as_slice() {
        return Some(StopWord::Unhandled);
    }
    if word == b"steps".as_slice() {
        return Some(StopWord::Steps);
    }
    if word == b"depth".as_slice() {
        return Some(StopWord::Depth);
    }
    if word == b"cells".as_slice() {
        return Some(StopWord::Cells);
    }
    if word == b"integer".as_slice() {
        return Some(StopWord::Integer);
    }
    None
}

// The event with this word and number.
fn numbered_in(word: &[u8], number: u64) -> Option<Event>
    ensures { option_map event_of result ≡ numbered_in word.now number }
{
    if word == b"protect".as_slice() {
        return Some(Event::Protect(number));
    }
    if word == b"ensure".as_slice() {
        return Some(Event::Ensure(number));
    }
    if word == b"curtail".as_slice() {
        return Some(Event::Curtail(number));
    }
    if word == b"signal".as_slice() {
        return Some(Event::Signal(number));
    }
    if word == b"outer".as_slice() {
        return Some(Event::Outer(number));
    }
    if word == b"search".as_slice() {
        return Some(Event::Search(number));
    }
    if word == b"default".as_slice() {
        return Some(Event::Default(number));
    }
    if word == b"action".as_slice() {
        return Some(Event::Action(number));
    }
    if word == b"again".as_slice() {
        return Some(Event::Again(number));
    }
    if word == b"end".as_slice() {
        return Some(Event::End { number, cut: false });
    }
    if word == b"cut".as_slice() {
        return Some(Event::End { number, cut: true });
    }
    None
}

fn judged_in(entry: u64, word: &[u8]) -> Option<Event>
    ensures { option_map event_of result ≡ judged_in entry word.now }
{
    if word == b"yes".as_slice() {
        return Some(Event::Tried { entry, fits: true });
    }
    if word == b"no".as_slice() {
        return Some(Event::Tried { entry, fits: false });
    }
    None
}

// The event with this word, number and other word.
fn twice_in(word: &[u8], number: u64, other: &[u8]) -> Option<Event>
    ensures { option_map event_of result ≡ twice_in word.now number other.now }
{
    if word == b"tried".as_slice() {
        return judged_in(number, other);
    }
    if word == b"handle".as_slice() {
        return Some(Event::Handle {
            turn: number,
            entry: number_of(other)?,
        });
    }
    if word == b"ask".as_slice() {
        return Some(Event::Ask {
            wait: number,
            entry: number_of(other)?,
        });
    }
    None
}

// The line of two words.
fn line_of_two(word: &[u8], other: &[u8]) -> Option<Line>
    ensures { option_map line_of result ≡ line_in (word.now ∷ other.now ∷ []) }
{
    if word == b"stop".as_slice() {
        return Some(Line::Stops(stop_in(other)?));
    }
    Some(Line::Tells(numbered_in(word, number_of(other)?)?))
}

// The line of three words.
fn line_of_three(word: &[u8], number: &[u8], other: &[u8]) -> Option<Line>
    ensures { option_map line_of result ≡ line_in (word.now ∷ number.now ∷ other.now ∷ []) }
{
    Some(Line::Tells(twice_in(word, number_of(number)?, other)?))
}

// The line of a word and what stands behind it.
#[tactic(auto, using(crate::proofs::Reading::too_many))]
fn line_behind(word: &[u8], rest: &[u8]) -> Option<Line>
    ensures { option_map line_of result ≡ line_in (word.now ∷ words_of rest.now) }
{
    let second = split(rest);
    match second.rest {
        None => line_of_two(word, second.word),
        Some(rest) => {
            let third = split(rest);
            match third.rest {
                None => line_of_three(word, second.word, third.word),
                Some(_) => None,
            }
        }
    }
}

/// The line that these bytes are, without its byte 10.
#[tactic(auto, unfolding(crate::specs::Reading::read_line))]
pub(crate) fn read_line(bytes: &[u8]) -> Option<Line>
    ensures { option_map line_of result ≡ read_line bytes.now }
{
    let first = split(bytes);
    match first.rest {
        None => known_in(first.word),
        Some(rest) => line_behind(first.word, rest),
    }
}
