// What each token does, by what is being read.

ghost use Rattle.std.specs.Prelude.{◌≡◌};
ghost use Rattle.st_parser.specs.Scan as scan;

use crate::scan_state::{Around, Class, Held, Now, Owner, Slot, Spot, Turn};

fn have(around: Around, slot: Slot, plain: bool) -> Turn
    ensures { result ≡ scan.have around slot plain }
{
    Turn::Go(Now::Within(around, Spot::Have(slot, plain)))
}

fn wanted(around: Around, slot: Slot) -> Turn
    ensures { result ≡ scan.wanted around slot }
{
    Turn::Go(Now::Within(around, Spot::Want(slot)))
}

/// An operand begins.
fn want(around: Around, slot: Slot, class: Class) -> Turn
    ensures { result ≡ scan.want around slot class }
{
    let held = Held::Operand(around, slot);
    match class {
        Class::Name | Class::Value | Class::Number(_) | Class::Literal => have(around, slot, true),
        Class::Super => Turn::Go(Now::Within(around, Spot::Super(slot))),
        Class::Minus(at) => Turn::Go(Now::Within(around, Spot::Signed(slot, at))),
        Class::ArrayOpen => Turn::Open(held, Now::Elements),
        Class::ParenOpen => Turn::Open(held, Now::Within(Around::Paren, Spot::Start)),
        Class::BlockOpen => Turn::Open(held, Now::Opened(true)),
        _ => Turn::Stuck,
    }
}

/// An expression begins.
fn begin(around: Around, class: Class) -> Turn
    ensures { result ≡ scan.begin around class }
{
    match class {
        Class::Name => Turn::Go(Now::Within(around, Spot::Bare)),
        _ => want(around, Slot::Receiver, class),
    }
}

fn operator(around: Around, slot: Slot) -> Turn
    ensures { result ≡ scan.operator around slot }
{
    match slot {
        Slot::Receiver | Slot::ReceiverRight => wanted(around, Slot::ReceiverRight),
        Slot::Argument | Slot::ArgumentRight => wanted(around, Slot::ArgumentRight),
        Slot::FurtherRight => Turn::Stuck,
    }
}

fn keyword(around: Around, slot: Slot) -> Turn
    ensures { result ≡ scan.keyword around slot }
{
    match slot {
        Slot::FurtherRight => Turn::Stuck,
        _ => wanted(around, Slot::Argument),
    }
}

fn semicolon(around: Around, slot: Slot, plain: bool) -> Turn
    ensures { result ≡ scan.semicolon around slot plain }
{
    match slot {
        Slot::Receiver if plain => Turn::Stuck,
        _ => Turn::Go(Now::Within(around, Spot::Again)),
    }
}

/// An operand goes on.
fn more(around: Around, slot: Slot, plain: bool, class: Class) -> Turn
    ensures { result ≡ scan.more around slot plain class }
{
    match class {
        Class::Name | Class::Value | Class::Super => have(around, slot, false),
        Class::Operator | Class::Minus(_) | Class::Bar | Class::TwoBars | Class::ThreeBars => {
            operator(around, slot)
        }
        Class::Keyword => keyword(around, slot),
        Class::Semicolon => semicolon(around, slot, plain),
        _ => Turn::Stuck,
    }
}

/// A name goes on.
fn bare(around: Around, class: Class) -> Turn
    ensures { result ≡ scan.bare around class }
{
    match class {
        Class::Assign => Turn::Go(Now::Within(around, Spot::Start)),
        _ => more(around, Slot::Receiver, true, class),
    }
}

fn super_operator(around: Around, slot: Slot) -> Turn
    ensures { result ≡ scan.super_operator around slot }
{
    match slot {
        Slot::Receiver => wanted(around, Slot::ReceiverRight),
        Slot::Argument => wanted(around, Slot::ArgumentRight),
        _ => Turn::Stuck,
    }
}

fn super_keyword(around: Around, slot: Slot) -> Turn
    ensures { result ≡ scan.super_keyword around slot }
{
    match slot {
        Slot::Receiver => wanted(around, Slot::Argument),
        _ => Turn::Stuck,
    }
}

/// A message to `super` begins.
fn super_goes(around: Around, slot: Slot, class: Class) -> Turn
    ensures { result ≡ scan.super_goes around slot class }
{
    match class {
        Class::Name | Class::Value | Class::Super => have(around, slot, false),
        Class::Operator | Class::Minus(_) | Class::Bar | Class::TwoBars | Class::ThreeBars => {
            super_operator(around, slot)
        }
        Class::Keyword => super_keyword(around, slot),
        _ => Turn::Stuck,
    }
}

/// An integer comes directly behind `-`.
fn signed(around: Around, slot: Slot, at: u64, class: Class) -> Turn
    ensures { result ≡ scan.signed around slot at class }
{
    match class {
        Class::Number(begin) => {
            if begin as u64 == at {
                have(around, slot, true)
            } else {
                Turn::Stuck
            }
        }
        _ => Turn::Stuck,
    }
}

/// A message comes behind `;`.
fn resend(around: Around, class: Class) -> Turn
    ensures { result ≡ scan.resend around class }
{
    match class {
        Class::Name | Class::Value | Class::Super => Turn::Go(Now::Within(around, Spot::Sent)),
        Class::Operator | Class::Minus(_) | Class::Bar | Class::TwoBars | Class::ThreeBars => {
            wanted(around, Slot::FurtherRight)
        }
        Class::Keyword => wanted(around, Slot::Argument),
        _ => Turn::Stuck,
    }
}

fn sent(around: Around, class: Class) -> Turn
    ensures { result ≡ scan.sent around class }
{
    match class {
        Class::Semicolon => Turn::Go(Now::Within(around, Spot::Again)),
        _ => Turn::Stuck,
    }
}

fn advance(around: Around, spot: Spot, class: Class) -> Turn
    ensures { result ≡ scan.move around spot class }
{
    match spot {
        Spot::Start => begin(around, class),
        Spot::Bare => bare(around, class),
        Spot::Have(slot, plain) => more(around, slot, plain, class),
        Spot::Want(slot) => want(around, slot, class),
        Spot::Super(slot) => super_goes(around, slot, class),
        Spot::Signed(slot, at) => signed(around, slot, at, class),
        Spot::Again => resend(around, class),
        Spot::Sent => sent(around, class),
    }
}

fn is_whole(spot: Spot) -> bool
    ensures { result ≡ scan.whole spot }
{
    matches!(spot, Spot::Bare | Spot::Have(_, _) | Spot::Sent)
}

fn close_paren(around: Around) -> Turn
    ensures { result ≡ scan.close_paren around }
{
    match around {
        Around::Paren => Turn::Close,
        Around::Body(_, _) => Turn::Stuck,
    }
}

fn close_level(owner: Owner) -> Turn
    ensures { result ≡ scan.close_level owner }
{
    match owner {
        Owner::Block => Turn::Close,
        Owner::Text => Turn::Stuck,
    }
}

fn close_block(around: Around) -> Turn
    ensures { result ≡ scan.close_block around }
{
    match around {
        Around::Paren => Turn::Stuck,
        Around::Body(owner, _) => close_level(owner),
    }
}

fn period(around: Around) -> Turn
    ensures { result ≡ scan.period around }
{
    match around {
        Around::Paren => Turn::Stuck,
        Around::Body(owner, true) => Turn::Go(Now::Ended(owner)),
        Around::Body(owner, false) => Turn::Go(Now::Statements(owner)),
    }
}

/// A token within an expression.
fn within(around: Around, spot: Spot, class: Class) -> Turn
    ensures { result ≡ scan.within around spot class }
{
    match class {
        Class::ParenClose => {
            if is_whole(spot) {
                close_paren(around)
            } else {
                Turn::Stuck
            }
        }
        Class::BlockClose => {
            if is_whole(spot) {
                close_block(around)
            } else {
                Turn::Stuck
            }
        }
        Class::Period => {
            if is_whole(spot) {
                period(around)
            } else {
                Turn::Stuck
            }
        }
        _ => advance(around, spot, class),
    }
}

fn statements(owner: Owner, class: Class) -> Turn
    ensures { result ≡ scan.statements owner class }
{
    match class {
        Class::Caret => Turn::Go(Now::Within(Around::Body(owner, true), Spot::Start)),
        Class::BlockClose => close_level(owner),
        _ => begin(Around::Body(owner, false), class),
    }
}

fn ended(owner: Owner, class: Class) -> Turn
    ensures { result ≡ scan.ended owner class }
{
    match class {
        Class::BlockClose => close_level(owner),
        _ => Turn::Stuck,
    }
}

/// Temporaries, or a statement.
fn fresh(owner: Owner, class: Class) -> Turn
    ensures { result ≡ scan.fresh owner class }
{
    match class {
        Class::Bar => Turn::Go(Now::Temporaries(owner)),
        Class::TwoBars => Turn::Go(Now::Statements(owner)),
        _ => statements(owner, class),
    }
}

fn temporaries(owner: Owner, class: Class) -> Turn
    ensures { result ≡ scan.temporaries owner class }
{
    match class {
        Class::Name => Turn::Go(Now::Temporaries(owner)),
        Class::Bar => Turn::Go(Now::Statements(owner)),
        _ => Turn::Stuck,
    }
}

fn after_parameters(class: Class) -> Turn
    ensures { result ≡ scan.after_parameters class }
{
    match class {
        Class::Bar => Turn::Go(Now::Fresh(Owner::Block)),
        Class::TwoBars => Turn::Go(Now::Temporaries(Owner::Block)),
        Class::ThreeBars => Turn::Go(Now::Statements(Owner::Block)),
        Class::BlockClose => Turn::Close,
        _ => Turn::Stuck,
    }
}

fn opened(plain: bool, class: Class) -> Turn
    ensures { result ≡ scan.opened plain class }
{
    match class {
        Class::Colon => Turn::Go(Now::Parameter),
        _ if plain => fresh(Owner::Block, class),
        _ => after_parameters(class),
    }
}

fn parameter(class: Class) -> Turn
    ensures { result ≡ scan.parameter class }
{
    match class {
        Class::Name => Turn::Go(Now::Opened(false)),
        _ => Turn::Stuck,
    }
}

/// An item of an array, or its end.
fn elements(class: Class) -> Turn
    ensures { result ≡ scan.elements class }
{
    match class {
        Class::Name | Class::Value | Class::Super | Class::Keyword => Turn::Go(Now::Elements),
        Class::Operator | Class::Bar | Class::TwoBars | Class::ThreeBars => Turn::Go(Now::Elements),
        Class::Number(_) | Class::Literal => Turn::Go(Now::Elements),
        Class::Minus(at) => Turn::Go(Now::Dash(at)),
        Class::ArrayOpen | Class::ParenOpen => Turn::Open(Held::Array, Now::Elements),
        Class::ParenClose => Turn::CloseArray,
        _ => Turn::Stuck,
    }
}

/// The first token of a method.
fn pattern(class: Class) -> Turn
    ensures { result ≡ scan.pattern class }
{
    match class {
        Class::Name | Class::Value | Class::Super => Turn::Go(Now::Fresh(Owner::Text)),
        Class::Operator | Class::Minus(_) | Class::Bar | Class::TwoBars | Class::ThreeBars => {
            Turn::Go(Now::OperatorRead)
        }
        Class::Keyword => Turn::Go(Now::KeywordRead),
        _ => Turn::Stuck,
    }
}

/// A parameter of a pattern, and what is read behind it.
fn named(next: Now, class: Class) -> Turn
    ensures { result ≡ scan.named next class }
{
    match class {
        Class::Name => Turn::Go(next),
        _ => Turn::Stuck,
    }
}

fn parameter_read(class: Class) -> Turn
    ensures { result ≡ scan.parameter_read class }
{
    match class {
        Class::Keyword => Turn::Go(Now::KeywordRead),
        _ => fresh(Owner::Text, class),
    }
}

/// What a token does.
pub fn turn(now: Now, class: Class) -> Turn
    ensures { result ≡ scan.turn_at now class }
{
    match now {
        Now::Pattern => pattern(class),
        Now::OperatorRead => named(Now::Fresh(Owner::Text), class),
        Now::KeywordRead => named(Now::ParameterRead, class),
        Now::ParameterRead => parameter_read(class),
        Now::Opened(plain) => opened(plain, class),
        Now::Parameter => parameter(class),
        Now::Fresh(owner) => fresh(owner, class),
        Now::Temporaries(owner) => temporaries(owner, class),
        Now::Statements(owner) => statements(owner, class),
        Now::Ended(owner) => ended(owner, class),
        Now::Within(around, spot) => within(around, spot, class),
        Now::Elements | Now::Dash(_) => elements(class),
    }
}

fn ends_body(owner: Owner) -> bool
    ensures { result ≡ scan.ends_body owner }
{
    matches!(owner, Owner::Text)
}

fn ends_within(around: Around, spot: Spot) -> bool
    ensures { result ≡ scan.ends_within around spot }
{
    match around {
        Around::Body(Owner::Text, _) => is_whole(spot),
        _ => false,
    }
}

/// Whether the text can end here, where nothing waits.
pub fn can_end(now: Now) -> bool
    ensures { result ≡ scan.can_end now }
{
    match now {
        Now::ParameterRead => true,
        Now::Fresh(owner) | Now::Statements(owner) | Now::Ended(owner) => ends_body(owner),
        Now::Within(around, spot) => ends_within(around, spot),
        _ => false,
    }
}
