// The tokens of a method, an initializer or an interchange element (ANSI NCITS 319, 3.5): a text goes in, the tokens
// before its first lexical fault come out, and that fault.
#![tactic(auto)]

mod bytes;
mod front;
mod law;
mod numbers;
mod scan;
mod spans;

pub use bytes::{is_identifier, is_letter, is_operator_byte, is_word_byte};
pub use law::{each_text_lexes_once, tokens_stand_in_order};
pub use scan::{Lexed, tokens};
pub use st_base::{LexFault, Token, TokenKind};
