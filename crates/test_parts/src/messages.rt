// Built-in messages by the names of their classes and selectors.

use crate::call::Call;
use st_base::{BuiltInMessage, MethodSide, built_in_classes, built_in_messages};
use st_messages::{MessageRow, row_of};

// Whether a message is that of a class and a selector; of the class side where the class's name is
// written with `.class` behind it.
fn is_named(message: &BuiltInMessage, class: &str, selector: &str) -> bool {
    let (name, side) = match class.strip_suffix(".class") {
        Some(name) => (name, MethodSide::Class),
        None => (class, MethodSide::Instance),
    };
    match built_in_classes().get(message.class() as usize) {
        Some(row) => {
            row.name() == name && message.side() == side && message.selector() == selector
        }
        None => false,
    }
}

/// The number of the message that a call's first words name.
pub fn number_named(class: &str, selector: &str) -> Option<u16> {
    let mut number = 0u16;
    for message in built_in_messages() {
        if is_named(message, class, selector) {
            return Some(number);
        }
        number = number.saturating_add(1);
    }
    None
}

/// What the message that a call's first words name does.
pub fn row_named(call: &Call<'_>) -> Option<MessageRow> {
    match number_named(call.word(0), call.word(1)) {
        Some(number) => Some(row_of(number)),
        None => None,
    }
}
