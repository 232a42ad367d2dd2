// The innermost turn of an exception, and whether the exception is live.
ghost use Rattle.std.specs.Prelude.{◌≡◌};
ghost use Rattle.signal_env.specs.Turns.{turn_at, turn_in, signals_at, live_in};

use st_contexts::{Activation, Contexts, Numbered, Turn};

/// A turn that stands, with the number of its activation.
#[derive(Clone, Copy, Debug, PartialEq, Eq)]
pub struct FoundTurn {
    pub number: u64,
    pub turn: Turn,
}

/// The innermost turn of an exception, by the number of its object (section 5.5). None exactly
/// where no turn of it stands.
pub fn innermost_turn(contexts: &Contexts, exception: u32) -> Option<FoundTurn>
    ensures { result ≡ turn_in exception contexts.now.acts }
{
    for place in 0..contexts.depth() {
        let Some(standing) = contexts.numbered(place) else {
            return None;
        };
        if let Some(found) = turn_at(standing, exception) {
            return Some(found);
        }
    }
    None
}

/// Whether a signal of an exception stands.
pub fn is_live(contexts: &Contexts, exception: u32) -> bool
    ensures { result ≡ live_in exception contexts.now.acts }
{
    for place in 0..contexts.depth() {
        let Some(standing) = contexts.numbered(place) else {
            return false;
        };
        if signals_at(standing, exception) {
            return true;
        }
    }
    false
}

// The turn that an activation is, if it is one of this exception.
fn turn_at(standing: Numbered, exception: u32) -> Option<FoundTurn>
    ensures { result ≡ turn_at exception standing }
{
    match standing.kept {
        Activation::HandlerRun { turn } if turn.exception == exception => Some(FoundTurn {
            number: standing.number,
            turn,
        }),
        _ => None,
    }
}

// Whether an activation is a signal of this exception.
fn signals_at(standing: Numbered, exception: u32) -> bool
    ensures { result ≡ signals_at exception standing }
{
    match standing.kept {
        Activation::Signal {
            exception: signaled,
        } => signaled == exception,
        _ => false,
    }
}
