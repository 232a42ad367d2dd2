// Why a text is no body and no method.

use st_base::{OutOfMemory, Reason};
use std::alloc::AllocError;

/// Why no tree is answered.
#[derive(Clone, Copy, Debug, PartialEq, Eq)]
pub enum ParseStop {
    /// The first fault: its byte in the text, from 0, and its reason. Of a token that can't stand, an
    /// integer that is too large and an opening that is too deep this is the token's first byte, of a
    /// spoiled token the byte that the lexer names, and where more tokens are needed the text's length.
    Fault(u32, Reason),
    /// Memory was wanted and not there.
    OutOfMemory,
}

impl From<AllocError> for ParseStop {
    ghost use Rattle.std.specs.Prelude.{◌≡◌};
    ghost use Rattle.st_parser.specs.declared.stop.ParseStop.TheVariants.{OutOfMemory};

    ghost from_gives = { λ _ e. e ≡ OutOfMemory };

    fn from(_: AllocError) -> ParseStop {
        ParseStop::OutOfMemory
    }
}

impl From<OutOfMemory> for ParseStop {
    ghost use Rattle.std.specs.Prelude.{◌≡◌};
    ghost use Rattle.st_parser.specs.declared.stop.ParseStop.TheVariants as stop;

    ghost from_gives = { λ _ e. e ≡ stop.OutOfMemory };

    fn from(_: OutOfMemory) -> ParseStop {
        ParseStop::OutOfMemory
    }
}
