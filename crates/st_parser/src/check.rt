// The first fault of a text, found by a scan over its tokens.

ghost use Rattle.std.specs.Prelude.{◌≡◌, ◌≤◌, [], ◌∷◌, length, IfOk, IfErr, OnOk, MatchOption, reverse, None, Some};
ghost use Rattle.st_parser.specs.Scan.{apply_turn, turn_at, Applies, ends_at};
ghost use Rattle.st_parser.specs.Finding as finding;
ghost use Rattle.st_parser.specs.declared.scan_state.Turn.TheVariants as turn;
ghost use Rattle.st_parser.specs.Finding.{Passes, Stops, fault_from};

use crate::class::class_at;
use crate::scan::{can_end, turn};
use crate::scan_state::{Class, Held, Now, Spot, Turn};
use crate::stop::ParseStop;
use sqlite_items::Items;
use st_base::{LexFault, Reason, Token, TokenKind};
use std::alloc::{AllocError, Global};

// How many of `(`, `[` and `#(` may be open at once.
const MOST_OPEN: usize = 200;

fn push(levels: &mut Items<Held>, held: Held) -> Result<(), AllocError>
    ensures { OnOk result (reverse levels.new ≡ held ∷ reverse levels.old) }
{
    levels.push(held)
}

fn pop(levels: &mut Items<Held>) -> Option<Held>
    ensures { MatchOption result ((reverse levels.old ≡ []) × (reverse levels.new ≡ [])) (λ h. reverse levels.old ≡ h ∷ reverse levels.new) }
{
    levels.pop()
}

fn close(levels: &mut Items<Held>) -> Option<Now>
    ensures { Applies (apply_turn turn.Close (reverse levels.old)) result (reverse levels.new) }
{
    match pop(levels) {
        Some(Held::Operand(around, slot)) => Some(Now::Within(around, Spot::Have(slot, true))),
        Some(Held::Array) => None,
        None => None,
    }
}

fn close_array(levels: &mut Items<Held>) -> Option<Now>
    ensures { Applies (apply_turn turn.CloseArray (reverse levels.old)) result (reverse levels.new) }
{
    match pop(levels) {
        Some(Held::Operand(around, slot)) => Some(Now::Within(around, Spot::Have(slot, true))),
        Some(Held::Array) => Some(Now::Elements),
        None => None,
    }
}

fn after(levels: &mut Items<Held>, turn: Turn) -> Result<Option<Now>, AllocError>
    ensures { IfOk result (λ n. Applies (apply_turn turn (reverse levels.old)) n (reverse levels.new)) }
{
    match turn {
        Turn::Stuck => Ok(None),
        Turn::Go(next) => Ok(Some(next)),
        Turn::Open(held, next) => {
            push(levels, held)?;
            Ok(Some(next))
        }
        Turn::Close => Ok(close(levels)),
        Turn::CloseArray => Ok(close_array(levels)),
    }
}

/// Whether the text can end here.
fn ends(levels: &Items<Held>, now: Now) -> bool
    ensures { result ≡ ends_at now (reverse levels.now) }
{
    levels.is_empty() && can_end(now)
}

// Whether an integer that begins here has a sign directly before it.
fn has_sign(now: Now, begin: u32) -> bool
    ensures { result ≡ finding.has_sign now begin }
{
    match now {
        Now::Within(_, Spot::Signed(_, at)) => begin as u64 == at,
        Now::Dash(at) => begin as u64 == at,
        _ => false,
    }
}

fn is_too_large(signed: bool, value: u128) -> bool
    ensures { result ≡ finding.is_too_large signed value }
{
    if signed {
        value > 1 << 127
    } else {
        value >= 1 << 127
    }
}

// Whether a token is an integer that is too large where it stands.
fn is_out_of_range(now: Now, token: Token) -> bool
    ensures { result ≡ finding.is_out_of_range now token }
{
    match token.kind {
        TokenKind::Integer(value) => is_too_large(has_sign(now, token.start), value),
        _ => false,
    }
}

// Why a token is at fault that may stand.
fn fault_here(large: bool, depth: usize) -> Option<Reason>
    ensures { result ≡ finding.fault_here large depth }
{
    if large {
        Some(Reason::IntegerTooLarge)
    } else if depth > MOST_OPEN {
        Some(Reason::TooDeep)
    } else {
        None
    }
}

// What is read behind a token that is at no fault.
fn pass(levels: &mut Items<Held>, now: Now, token: Token, class: Class) -> Result<Now, ParseStop>
    ensures { Passes (finding.is_out_of_range now token) token (apply_turn (turn_at now class) (reverse levels.old)) result (reverse levels.new) }
{
    match after(levels, turn(now, class))? {
        None => Err(ParseStop::Fault(token.start, Reason::Syntax)),
        Some(next) => match fault_here(is_out_of_range(now, token), levels.len()) {
            Some(reason) => Err(ParseStop::Fault(token.start, reason)),
            None => Ok(next),
        },
    }
}

// The fault behind the last token.
fn fault_end(text: &[u8], spoiled: Option<LexFault>, ends: bool) -> Result<(), ParseStop>
    requires { length text.now ≤ 1048576 }
    ensures clean { OnOk result (finding.fault_end (length text.now) spoiled ends ≡ None) }
    ensures fault { IfErr result (λ e. Stops (finding.fault_end (length text.now) spoiled ends) e) }
{
    match spoiled {
        Some(fault) => Err(ParseStop::Fault(fault.byte, fault.reason)),
        None if ends => Ok(()),
        None => Err(ParseStop::Fault(text.len() as u32, Reason::Syntax)),
    }
}

/// The first fault of a text whose tokens and lexical fault are given, if it has any.
pub fn check(
    alloc: Global,
    text: &[u8],
    tokens: &[Token],
    spoiled: Option<LexFault>,
    start: Now,
) -> Result<(), ParseStop>
    requires { length text.now ≤ 1048576 }
    ensures clean { OnOk result (fault_from text.now spoiled start [] tokens.now ≡ None) }
    ensures fault { IfErr result (λ e. Stops (fault_from text.now spoiled start [] tokens.now) e) }
{
    let mut now = start;
    let mut levels = Items::new(alloc);
    'tokens: for token in tokens {
        match pass(&mut levels, now, *token, class_at(text, *token)) {
            Ok(next) => now = next,
            Err(stop) => return Err(stop),
        }
    }
    fault_end(text, spoiled, ends(&levels, now))
}
