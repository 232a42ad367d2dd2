// Which symbols need no quotes.
ghost use Rattle.std.specs.Prelude.{◌≡◌};
ghost use Rattle.std.specs.List.{list_all};
ghost use Rattle.st_base.specs.TokenBytes.{is_operator_byte};
ghost use Rattle.st_base.specs.Lexes.{is_run};
ghost use Rattle.sif_export.specs.Words.{is_bare_symbol, goes_on_as_keywords, are_keywords};

use st_lexer::{is_identifier, is_letter, is_operator_byte, is_word_byte};

fn are_operators(text: &[u8]) -> bool
    ensures { result ≡ list_all is_operator_byte text.now }
{
    text.iter().all(|byte| is_operator_byte(*byte))
}

fn is_operator(text: &[u8]) -> bool
    ensures { result ≡ is_run is_operator_byte text.now }
{
    match text.split_first() {
        Some((first, rest)) => is_operator_byte(*first) && are_operators(rest),
        None => false,
    }
}

// Keywords from here on, where one has begun or not.
fn goes_on_as_keywords(begun: bool, text: &[u8]) -> bool
    ensures { result ≡ goes_on_as_keywords begun text.now }
{
    let mut begun = begun;
    for byte in text {
        if begun && *byte == b':' {
            begun = false;
        } else if begun {
            if !is_word_byte(*byte) {
                return false;
            }
        } else if is_letter(*byte) {
            begun = true;
        } else {
            return false;
        }
    }
    !begun
}

fn are_keywords(text: &[u8]) -> bool
    ensures { result ≡ are_keywords text.now }
{
    match text.split_first() {
        Some((first, rest)) => is_letter(*first) && goes_on_as_keywords(true, rest),
        None => false,
    }
}

/// Whether a symbol needs no quotes: an identifier, keywords, or operator characters.
#[tactic(auto, unfolding(crate::specs::Words::is_bare_symbol))]
pub(crate) fn is_bare(text: &[u8]) -> bool
    ensures { result ≡ is_bare_symbol text.now }
{
    is_identifier(text) || are_keywords(text) || is_operator(text)
}
