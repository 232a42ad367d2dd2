// Literals and texts as objects of a heap.
ghost use Rattle.std.specs.Prelude.{◌≡◌, ◌+◌, ◌-◌, ◌≤◌, ◌^◌, [], ◌∷◌, length, map, IfOk, OnOk, IsTrue};
ghost use Rattle.st_base.specs.Troubles.{trouble_texts};
ghost use Rattle.object_heap.specs.Troubles.{text_of};
ghost use Rattle.st_code.specs.Literals.{literal_string, trouble_literals};
ghost use Rattle.st_code.specs.Resolved.{number_or_last};
ghost use Rattle.st_code.specs.Written.{named_literal};
ghost use Rattle.st_literals.specs.Cells.{text_cells, literal_cells, cells_of, texts_cells};
ghost use Rattle.st_literals.specs.Gathered.{seen_literals};
ghost use Rattle.st_literals.specs.Numbered.{objects_of, objects_from, value_of, with_objects};

use crate::cells::narrow;
use object_heap::{Heap, Trouble, Value};
use st_base::OutOfMemory;
use st_names::Names;
use st_tree::tree::Literal;

const STRING: u32 = 9;

const ARRAY: u32 = 11;

// The troubles, in the order of their table.
static TROUBLES: [Trouble; 24] = [
    Trouble::WrongNumberOfArguments,
    Trouble::IndexOutOfRange,
    Trouble::NumberExpected,
    Trouble::StringExpected,
    Trouble::BooleanExpected,
    Trouble::CharacterExpected,
    Trouble::ByteExpected,
    Trouble::CollectionExpected,
    Trouble::SymbolExpected,
    Trouble::NotIndexed,
    Trouble::CannotBeInstantiated,
    Trouble::LiteralIsReadOnly,
    Trouble::CollectionIsEmpty,
    Trouble::NotFound,
    Trouble::StepIsZero,
    Trouble::BadRadix,
    Trouble::ExceptionSelectorExpected,
    Trouble::ExceptionExpected,
    Trouble::AlreadySignaled,
    Trouble::NotActive,
    Trouble::NotResumable,
    Trouble::HomeHasReturned,
    Trouble::SubclassResponsibility,
    Trouble::ZeroDivide,
];

// The number of a symbol, one past the last where it isn't there.
fn symbol_number(names: &Names, text: &[u8]) -> u32
    ensures { result ≡ number_or_last names.now text.now }
{
    match names.find(text) {
        Some(number) => number,
        None => names.len(),
    }
}

// A literal String of these bytes.
fn make_text<H: Heap>(heap: &mut H, text: &[u8]) -> Result<u32, OutOfMemory>
    requires few { length (H.meaning heap.old).store.objects + text_cells text.now ≤ 2 ^ 31 }
    requires room { IsTrue H.reserved → text_cells text.now ≤ H.literal_room heap.old }
    ensures number { IfOk result (λ n. n ≡ length (H.meaning heap.old).store.objects) }
    ensures made { OnOk result (H.meaning heap.new ≡ with_objects (literal_string text.now ∷ []) (H.meaning heap.old)) }
    ensures room { OnOk result (IsTrue H.reserved → H.literal_room heap.new ≡ H.literal_room heap.old - text_cells text.now) }
{
    let number = heap.make_literal(STRING, 0, narrow(text.len())?)?;
    for index in 0..text.len() {
        heap.put_byte(number, index as u32, text[index]);
    }
    Ok(number)
}

// A literal, numbered on from the objects that are there. It recurses as deep as the literal nests.
fn make<H: Heap>(heap: &mut H, names: &Names, literal: &Literal) -> Result<Value, OutOfMemory>
    requires few { length (H.meaning heap.old).store.objects + literal_cells (named_literal literal.now) ≤ 2 ^ 31 }
    requires room { IsTrue H.reserved → literal_cells (named_literal literal.now) ≤ H.literal_room heap.old }
    ensures value { IfOk result (λ v. v ≡ value_of names.now (length (H.meaning heap.old).store.objects) (named_literal literal.now)) }
    ensures made { OnOk result (H.meaning heap.new ≡ with_objects (objects_of names.now (length (H.meaning heap.old).store.objects) (named_literal literal.now)) (H.meaning heap.old)) }
    ensures room { OnOk result (IsTrue H.reserved → H.literal_room heap.new ≡ H.literal_room heap.old - literal_cells (named_literal literal.now)) }
{
    match literal {
        Literal::Nil => Ok(Value::Nil),
        Literal::True => Ok(Value::True),
        Literal::False => Ok(Value::False),
        Literal::Integer(number) => Ok(Value::Integer(*number)),
        Literal::Character(byte) => Ok(Value::Character(*byte)),
        Literal::Symbol(text) => Ok(Value::Symbol(symbol_number(names, text.as_bytes()))),
        Literal::Str(text) => Ok(Value::Object(make_text(heap, text.as_bytes())?)),
        Literal::Array(items) => {
            let number = heap.make_literal(ARRAY, narrow(items.len())?, 0)?;
            let mut slot = 0;
            for item in items.as_slice() {
                let value = make(heap, names, item)?;
                heap.put(number, slot, value);
                slot += 1;
            }
            Ok(Value::Object(number))
        }
    }
}

/// Literals, one behind the other.
pub(crate) fn make_all<H: Heap>(
    heap: &mut H,
    names: &Names,
    literals: &[&Literal],
) -> Result<(), OutOfMemory>
    requires few { length (H.meaning heap.old).store.objects + cells_of (seen_literals literals.now) ≤ 2 ^ 31 }
    requires room { IsTrue H.reserved → cells_of (seen_literals literals.now) ≤ H.literal_room heap.old }
    ensures made { OnOk result (H.meaning heap.new ≡ with_objects (objects_from names.now (length (H.meaning heap.old).store.objects) (seen_literals literals.now)) (H.meaning heap.old)) }
    ensures room { OnOk result (IsTrue H.reserved → H.literal_room heap.new ≡ H.literal_room heap.old - cells_of (seen_literals literals.now)) }
{
    for literal in literals {
        make(heap, names, literal)?;
    }
    Ok(())
}

// The texts of some troubles, one behind the other.
fn make_texts<H: Heap>(heap: &mut H, troubles: &[Trouble]) -> Result<(), OutOfMemory>
    requires few { length (H.meaning heap.old).store.objects + texts_cells (map text_of troubles.now) ≤ 2 ^ 31 }
    requires room { IsTrue H.reserved → texts_cells (map text_of troubles.now) ≤ H.literal_room heap.old }
    ensures { OnOk result (H.meaning heap.new ≡ with_objects (map literal_string (map text_of troubles.now)) (H.meaning heap.old)) }
{
    for trouble in troubles {
        make_text(heap, trouble.text())?;
    }
    Ok(())
}

/// The texts of troubles, in the order of their table.
pub(crate) fn make_troubles<H: Heap>(heap: &mut H) -> Result<(), OutOfMemory>
    requires few { length (H.meaning heap.old).store.objects + texts_cells trouble_texts ≤ 2 ^ 31 }
    requires room { IsTrue H.reserved → texts_cells trouble_texts ≤ H.literal_room heap.old }
    ensures { OnOk result (H.meaning heap.new ≡ with_objects trouble_literals (H.meaning heap.old)) }
{
    make_texts(heap, &TROUBLES)
}
