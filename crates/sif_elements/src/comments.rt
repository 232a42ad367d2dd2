// The comments of an element that has nothing else.
ghost use Rattle.std.specs.Prelude.{◌≡◌, ℕ, List, ◌∷◌, ◌++◌, IfOk};
ghost use Rattle.st_tree.specs.Headers.{comments_in, comments_of};
ghost use Rattle.sif_elements.specs.Words.{if_open};

use sqlite_items::Items;
use st_base::{OutOfMemory, Text};
use std::alloc::Global;

// Takes a byte into the comment that is open, or opens or closes one where it is a quote, and says
// whether one is open behind it.
fn take_into_comments(
    alloc: Global,
    comments: &mut Items<Text>,
    comment: &mut Vec<u8>,
    is_open: bool,
    byte: u8,
) -> Result<bool, OutOfMemory>
    ensures { IfOk result (λ o. (more : List ℕ) → comments.new ++ if_open o comment.new.items (comments_in o more) ≡ comments.old ++ if_open is_open comment.old.items (comments_in is_open (byte ∷ more))) }
{
    if is_open {
        if byte == b'"' {
            comments.push(Text::from_bytes(alloc, comment.as_slice())?)?;
            return Ok(false);
        }
        comment.push(byte)?;
        return Ok(true);
    }
    if byte == b'"' {
        comment.clear();
        return Ok(true);
    }
    Ok(false)
}

/// The contents of the comments of a text that has nothing else but white space, in their order.
pub fn comments_of(alloc: Global, text: &[u8]) -> Result<Items<Text>, OutOfMemory>
    ensures { IfOk result (λ comments. comments ≡ comments_of text.now) }
{
    let mut comments = Items::new(alloc);
    let mut comment = Vec::new(alloc);
    let mut is_open = false;
    for byte in text {
        is_open = take_into_comments(alloc, &mut comments, &mut comment, is_open, *byte)?;
    }
    if is_open {
        comments.push(Text::from_bytes(alloc, comment.as_slice())?)?;
    }
    Ok(comments)
}
