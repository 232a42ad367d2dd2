// Laws of the tokens of a text.
ghost use Rattle.std.specs.Prelude.{◌≡◌, ◌↔◌, ◌<◌, ℕ, List, Option, All, IfSome, length};
ghost use Rattle.st_base.specs.Lexed.{lexed_of, Fits, AreInOrder};
ghost use Rattle.st_base.specs.Lexes.{Lexes};
ghost use Rattle.st_base.specs.declared.tokens.Token.{Token};
ghost use Rattle.st_base.specs.declared.tokens.LexFault.{LexFault};

/// Each text has exactly one list of tokens and at most one fault: those that are computed.
pub fn each_text_lexes_once()
    ensures { (text : List ℕ) (tokens : List Token) (fault : Option LexFault) → Lexes text tokens fault ↔ (lexed_of text ≡ record { tokens = tokens; fault = fault }) }
{}

/// The tokens of a text stand in it in order, and a fault is at one of its bytes.
pub fn tokens_stand_in_order()
    ensures order { (text : List ℕ) → AreInOrder 0 (length text) (lexed_of text).tokens }
    ensures spans { (text : List ℕ) → All (Fits text) (lexed_of text).tokens }
    ensures fault { (text : List ℕ) → IfSome (lexed_of text).fault (λ fault. fault.byte < length text) }
{}
