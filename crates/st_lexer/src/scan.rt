// A text from its first byte to its end or its first fault.
ghost use Rattle.std.specs.Prelude.{◌≡◌, ◌≤◌, IfOk, All, length};
ghost use Rattle.st_base.specs.Lexed.{lexed_of, Fits};

use crate::front::{Front, front_of};
use st_base::{LexFault, OutOfMemory, Token};
use std::alloc::Global;

/// The tokens of a text before its first lexical fault, and that fault.
#[derive(Drop)]
pub struct Lexed {
    pub tokens: Vec<Token>,
    pub fault: Option<LexFault>,
}

/// The tokens of a text of at most 1,048,576 bytes, each the longest that may stand there, and the first place where
/// the text breaks their rules (ANSI NCITS 319, 3.5).
pub fn tokens(alloc: Global, text: &[u8]) -> Result<Lexed, OutOfMemory>
    requires { length text.now ≤ 1048576 }
    ensures tokens { IfOk result (λ lexed. lexed.tokens.items ≡ (lexed_of text.now).tokens) }
    ensures fault { IfOk result (λ lexed. lexed.fault ≡ (lexed_of text.now).fault) }
    ensures spans { IfOk result (λ lexed. All (Fits text.now) lexed.tokens.items) }
{
    let mut tokens = Vec::new(alloc);
    let mut at = 0;
    while at < text.len() {
        match front_of(&text[at..]) {
            Front::Lexeme(kind, n) => {
                tokens.push(Token {
                    kind,
                    start: at as u32,
                    end: (at + n) as u32,
                })?;
                at += n;
            }
            Front::Gap(n) => at += n,
            Front::Spoiled(reason, n) => {
                let byte = (at + n) as u32;
                return Ok(Lexed {
                    tokens,
                    fault: Some(LexFault { byte, reason }),
                });
            }
        }
    }
    Ok(Lexed {
        tokens,
        fault: None,
    })
}
