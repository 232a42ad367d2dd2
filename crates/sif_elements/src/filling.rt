// How far the tokens of an element fill its places.
ghost use Rattle.std.specs.Prelude.{◌≡◌, map, IfOk};
ghost use Rattle.st_tree.specs.Headers as headers;
ghost use Rattle.sif_elements.specs.Places.{place_of, walk_of};

use crate::rows::{Slot, fits};
use crate::words::text_of;
use st_base::{OutOfMemory, Token};
use std::alloc::Global;

/// How far tokens fill the places of an element.
#[derive(Clone, Copy, Debug, PartialEq, Eq)]
pub enum Filling {
    /// All tokens, all places.
    Filled,
    /// Up to a token that can't stand, which begins at this byte.
    Stuck(u32),
    /// All tokens, and there are more places.
    Short,
}

/// How far the tokens of a text fill these places.
pub fn fill(
    alloc: Global,
    slots: &[Slot],
    text: &[u8],
    tokens: &[Token],
) -> Result<Filling, OutOfMemory>
    ensures { IfOk result (λ filling. walk_of filling ≡ headers.walk (map place_of slots.now) text.now tokens.now) }
{
    match slots {
        [] => match tokens {
            [] => Ok(Filling::Filled),
            [token, ..] => Ok(Filling::Stuck(token.start)),
        },
        [slot, further @ ..] => match tokens {
            [] => Ok(Filling::Short),
            [token, behind @ ..] => {
                if !fits(alloc, *slot, token.kind, text_of(text, *token))? {
                    return Ok(Filling::Stuck(token.start));
                }
                let filling = fill(alloc, further, text, behind)?;
                Ok(filling)
            }
        },
    }
}
