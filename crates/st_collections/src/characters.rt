// Messages of Characters: their code points, cases and order.
ghost use Rattle.std.specs.Prelude.{◌≡◌, ℕ, ◌∷◌, [], false, IsTrue};
ghost use Rattle.object_heap.specs.Charges.{Memory};
ghost use Rattle.st_collections.specs.Actions.{makes_string};
ghost use Rattle.st_collections.specs.Answers.{answer_of, memory_of, is_out, unless_out};
ghost use Rattle.st_collections.specs.AtOnce.{character_row};
ghost use Rattle.st_collections.specs.TextRows.{byte_of, character_action, from_code_point};

use crate::answer::{Built, answer_truth};
use crate::arguments::first_of;
use crate::classes::STRING;
use crate::items::Items;
use crate::letters::{
    is_digit_byte, is_letter_byte, is_lower_letter, is_upper_letter, lower_of, upper_of,
};
use crate::makers::new_items;
use crate::message::OfCharacter;
use object_heap::{Heap, Trouble, Value};
use st_names::Names;

/// The byte of a Character, and 0 of any other value.
pub fn byte_of(value: Value) -> u8
    ensures { result ≡ byte_of value }
{
    match value {
        Value::Character(byte) => byte,
        _ => 0,
    }
}

fn character(value: Value) -> Built
    ensures answer { (m : Memory) → result ≡ answer_of (from_code_point value) m }
    ensures settled { is_out result ≡ false }
{
    match value {
        Value::Integer(code @ 0..=255) => Built::Value(Value::Character(code as u8)),
        Value::Integer(_) => Built::Trouble(Trouble::IndexOutOfRange),
        _ => Built::Trouble(Trouble::NumberExpected),
    }
}

/// What a Character or its class answers.
#[tactic(auto, unfolding(crate::specs::TextRows::character_action, crate::specs::SequenceRows::makes_sequence, crate::specs::Actions::makes_string, crate::specs::Actions::makes_bytes))]
pub fn character_message<H: Heap>(
    heap: &mut H,
    names: &Names,
    message: OfCharacter,
    receiver: Value,
    arguments: &[Value],
) -> Built
    ensures memory { H.meaning heap.new ≡ unless_out result (H.meaning heap.old) (memory_of (character_action (H.meaning heap.old).store (character_row message) receiver arguments.now) (H.meaning heap.old)) }
    ensures answer { result ≡ unless_out result result (answer_of (character_action (H.meaning heap.old).store (character_row message) receiver arguments.now) (H.meaning heap.old)) }
    ensures reserved { IsTrue H.reserved → is_out result ≡ false }
    ensures literals { H.literal_room heap.new ≡ H.literal_room heap.old }
{
    let byte = byte_of(receiver);
    let argument = first_of(arguments);
    match message {
        OfCharacter::FromCodePoint => character(argument),
        OfCharacter::Cr => Built::Value(Value::Character(13)),
        OfCharacter::Lf => Built::Value(Value::Character(10)),
        OfCharacter::Tab => Built::Value(Value::Character(9)),
        OfCharacter::Space => Built::Value(Value::Character(32)),
        OfCharacter::CodePoint => Built::Value(Value::Integer(byte as i128)),
        OfCharacter::AsLowercase => Built::Value(Value::Character(lower_of(byte))),
        OfCharacter::AsUppercase => Built::Value(Value::Character(upper_of(byte))),
        OfCharacter::AsString => {
            new_items(
                heap,
                names,
                STRING,
                Items::Repeated(Value::Character(byte)),
                1,
            )
        },
        OfCharacter::IsLetter => answer_truth(is_letter_byte(byte)),
        OfCharacter::IsDigit => answer_truth(is_digit_byte(byte)),
        OfCharacter::IsAlphaNumeric => answer_truth(is_letter_byte(byte) || is_digit_byte(byte)),
        OfCharacter::IsLowercase => answer_truth(is_lower_letter(byte)),
        OfCharacter::IsUppercase => answer_truth(is_upper_letter(byte)),
        OfCharacter::Less => match argument {
            Value::Character(other) => answer_truth(byte < other),
            _ => Built::Trouble(Trouble::CharacterExpected),
        },
        OfCharacter::Greater => match argument {
            Value::Character(other) => answer_truth(other < byte),
            _ => Built::Trouble(Trouble::CharacterExpected),
        },
        OfCharacter::LessOrEqual => match argument {
            Value::Character(other) => answer_truth(byte <= other),
            _ => Built::Trouble(Trouble::CharacterExpected),
        },
        OfCharacter::GreaterOrEqual => match argument {
            Value::Character(other) => answer_truth(other <= byte),
            _ => Built::Trouble(Trouble::CharacterExpected),
        },
    }
}
