// What is built in, by name.
ghost use Rattle.std.specs.Prelude.{◌≡◌, ℕ};
ghost use Rattle.std.specs.List.{list_any};
ghost use Rattle.std.specs.Str.{bytes_eq};
ghost use Rattle.st_base.specs.BuiltIns.{class_row, message_row};
ghost use Rattle.st_checks.specs.Declarations.{built_in_number, first_place, is_built_in, is_built_in_method, is_message, superclasses};

use st_base::{BuiltInClass, BuiltInMessage, MethodSide, built_in_classes, built_in_messages};

fn number_among(classes: &[BuiltInClass], name: &[u8]) -> Option<usize>
    ensures { result ≡ first_place (λ c. bytes_eq name.now (class_row c).name) classes.now }
{
    for (number, class) in classes.iter().enumerate() {
        if name == class.name().as_bytes() {
            return Some(number);
        }
    }
    None
}

// The number of the built-in class of this name.
fn built_in_number(name: &[u8]) -> Option<usize>
    ensures { result ≡ built_in_number name.now }
{
    number_among(built_in_classes(), name)
}

/// Whether a built-in class has this name.
pub(crate) fn is_built_in(name: &[u8]) -> bool
    ensures { result ≡ is_built_in name.now }
{
    built_in_number(name).is_some()
}

fn is_row(message: &BuiltInMessage, class: usize, side: MethodSide, selector: &[u8]) -> bool
    ensures { result ≡ is_message class side selector.now (message_row message.now) }
{
    message.class() as usize == class
        && message.side() == side
        && selector == message.selector().as_bytes()
}

fn has_row(messages: &[BuiltInMessage], class: usize, side: MethodSide, selector: &[u8]) -> bool
    ensures { result ≡ list_any (λ m. is_message class side selector.now (message_row m)) messages.now }
{
    for message in messages {
        if is_row(message, class, side, selector) {
            return true;
        }
    }
    false
}

/// Whether the class of this name is built in and itself has this selector on this side.
pub(crate) fn is_built_in_method(class: &[u8], side: MethodSide, selector: &[u8]) -> bool
    ensures { result ≡ is_built_in_method class.now side selector.now }
{
    match built_in_number(class) {
        Some(number) => has_row(built_in_messages(), number, side, selector),
        None => false,
    }
}

static SUPERCLASSES: [&str; 7] = [
    "Object",
    "Exception",
    "Error",
    "ZeroDivide",
    "MessageNotUnderstood",
    "Notification",
    "Warning",
];

fn is_among(names: &[&str], name: &[u8]) -> bool
    ensures { result ≡ list_any (λ n. bytes_eq name.now n.now) names.now }
{
    for other in names {
        if name == other.as_bytes() {
            return true;
        }
    }
    false
}

/// Whether a class of a file may have the built-in class of this name as its superclass.
pub(crate) fn may_have_subclasses(name: &[u8]) -> bool
    ensures { result ≡ list_any (bytes_eq name.now) superclasses }
{
    is_among(&SUPERCLASSES, name)
}
