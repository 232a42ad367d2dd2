// Words with the gaps before them.
ghost use Rattle.std.specs.Prelude.{◌≡◌, ◌++◌, ◌∷◌, [], if◌then◌else◌};
ghost use Rattle.st_base.specs.Streams.{HasCause};
ghost use Rattle.sif_export.specs.Words.{Word, Mark, Number, Symbol, Remark, Lays, IsSpelled, closes_sign, gap_bytes, quoted};

use crate::pieces::{piece, quoted_piece, two_pieces};
use crate::sign::{Gap, Sign};
use crate::symbols::is_bare;
use itoa::Buffer;
use st_base::{Failed, Sink};

// The bytes before a sign.
fn before(gap: Gap, sign: Sign) -> &'static [u8]
    ensures { result.now ≡ (if closes_sign sign then [] else gap_bytes gap) }
{
    if sign.closes() { b"" } else { gap.bytes() }
}

/// Writes a sign.
pub(crate) fn mark<K: Sink>(sink: &mut K, gap: Gap, sign: Sign) -> Result<Gap, Failed>
    ensures text { Lays gap (K.written sink.old) (K.written sink.new) result (Mark sign ∷ []) }
    ensures cause { HasCause (K.faults sink.old) (K.faults sink.new) result }
{
    two_pieces(sink, before(gap, sign), sign.spelling())?;
    Ok(sign.gap_behind())
}

/// Writes a word that is spelled so.
pub(crate) fn word<K: Sink>(sink: &mut K, gap: Gap, text: &[u8]) -> Result<Gap, Failed>
    ensures text { (w : Word) → IsSpelled w text.now → Lays gap (K.written sink.old) (K.written sink.new) result (w ∷ []) }
    ensures cause { HasCause (K.faults sink.old) (K.faults sink.new) result }
{
    two_pieces(sink, gap.bytes(), text)?;
    Ok(Gap::Blank)
}

/// Writes a word of two parts.
pub(crate) fn word_of_two<K: Sink>(
    sink: &mut K,
    gap: Gap,
    front: &[u8],
    text: &[u8],
) -> Result<Gap, Failed>
    ensures text { (w : Word) → IsSpelled w (front.now ++ text.now) → Lays gap (K.written sink.old) (K.written sink.new) result (w ∷ []) }
    ensures cause { HasCause (K.faults sink.old) (K.faults sink.new) result }
{
    two_pieces(sink, gap.bytes(), front)?;
    piece(sink, text)?;
    Ok(Gap::Blank)
}

/// Writes a word that ends in a text between quotes.
pub(crate) fn quoted_word<K: Sink>(
    sink: &mut K,
    gap: Gap,
    front: &[u8],
    text: &[u8],
) -> Result<Gap, Failed>
    ensures text { (w : Word) → IsSpelled w (front.now ++ quoted text.now) → Lays gap (K.written sink.old) (K.written sink.new) result (w ∷ []) }
    ensures cause { HasCause (K.faults sink.old) (K.faults sink.new) result }
{
    two_pieces(sink, gap.bytes(), front)?;
    quoted_piece(sink, text)?;
    Ok(Gap::Blank)
}

/// Writes an integer.
pub(crate) fn number<K: Sink>(sink: &mut K, gap: Gap, value: i128) -> Result<Gap, Failed>
    ensures text { Lays gap (K.written sink.old) (K.written sink.new) result (Number value ∷ []) }
    ensures cause { HasCause (K.faults sink.old) (K.faults sink.new) result }
{
    let mut buffer = Buffer::new();
    word(sink, gap, buffer.format(value).as_bytes())
}

/// Writes a symbol, in quotes where it needs them.
pub(crate) fn symbol<K: Sink>(sink: &mut K, gap: Gap, text: &[u8]) -> Result<Gap, Failed>
    ensures text { Lays gap (K.written sink.old) (K.written sink.new) result (Symbol text.now ∷ []) }
    ensures cause { HasCause (K.faults sink.old) (K.faults sink.new) result }
{
    if is_bare(text) {
        word_of_two(sink, gap, b"#", text)
    } else {
        quoted_word(sink, gap, b"#", text)
    }
}

/// Writes a comment.
pub(crate) fn remark<K: Sink>(sink: &mut K, gap: Gap, text: &[u8]) -> Result<Gap, Failed>
    ensures text { Lays gap (K.written sink.old) (K.written sink.new) result (Remark text.now ∷ []) }
    ensures cause { HasCause (K.faults sink.old) (K.faults sink.new) result }
{
    two_pieces(sink, gap.bytes(), b"\"")?;
    two_pieces(sink, text, b"\"")?;
    Ok(Gap::Blank)
}
