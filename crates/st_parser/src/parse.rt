// The tree of a method or a body, or the first fault of its text.

ghost use Rattle.std.specs.Prelude.{◌≡◌, ◌≤◌, length, IfOk, IfErr};
ghost use Rattle.st_base.specs.Lexed.{lexed_of};
ghost use Rattle.st_tree.specs.Grammar.{AMethod, ABody, MethodTree, BodyTree};
ghost use Rattle.st_parser.specs.Parsed.{Parses, StopsAt};

use crate::check::check;
use crate::scan_state::{Now, Owner};
use crate::stop::ParseStop;
use crate::trees::{body_tree, method_tree};
use st_lexer::Lexed;
use st_tree::tree::{Body, Method};
use std::alloc::Global;

/// The tree of a method (ANSI NCITS 319, 3.4.2), or the first fault of its text: a token that can't
/// stand, an integer that is too large, an opening past the 200th that is open, a token that is
/// spoiled, or the end of the text. The tokens are those that the lexer makes of the text.
pub fn method(alloc: Global, text: &[u8], lexed: &Lexed) -> Result<Method, ParseStop>
    requires small { length text.now ≤ 1048576 }
    requires tokens { lexed.now.tokens.items ≡ (lexed_of text.now).tokens }
    requires spoiled { lexed.now.fault ≡ (lexed_of text.now).fault }
    ensures tree { IfOk result (λ m. Parses AMethod text.now (MethodTree m)) }
    ensures fault { IfErr result (λ stop. StopsAt AMethod text.now stop) }
{
    let tokens = lexed.tokens.as_slice();
    match check(alloc, text, tokens, lexed.fault, Now::Pattern) {
        Ok(()) => Ok(method_tree(alloc, text, tokens)?),
        Err(stop) => Err(stop),
    }
}

/// The tree of a body, which is what an initializer has and a method behind its pattern (ANSI NCITS
/// 319, 3.4.2), or the first fault of its text, as in [`method`].
pub fn body(alloc: Global, text: &[u8], lexed: &Lexed) -> Result<Body, ParseStop>
    requires small { length text.now ≤ 1048576 }
    requires tokens { lexed.now.tokens.items ≡ (lexed_of text.now).tokens }
    requires spoiled { lexed.now.fault ≡ (lexed_of text.now).fault }
    ensures tree { IfOk result (λ b. Parses ABody text.now (BodyTree b)) }
    ensures fault { IfErr result (λ stop. StopsAt ABody text.now stop) }
{
    let tokens = lexed.tokens.as_slice();
    match check(alloc, text, tokens, lexed.fault, Now::Fresh(Owner::Text)) {
        Ok(()) => Ok(body_tree(alloc, text, tokens)?),
        Err(stop) => Err(stop),
    }
}
