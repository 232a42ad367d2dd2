// The elements of a file: the text of each, and its end.
ghost use Rattle.std.specs.Prelude.{◌≡◌, ◌∷◌, [], map};
ghost use Rattle.st_base.specs.Streams.{HasCause};
ghost use Rattle.sif_chunks.specs.Writing.{closed};
ghost use Rattle.sif_export.specs.Words.{Str, Remark, Lays, Puts, Gains, Joined, quotes_doubled};
ghost use Rattle.sif_export.specs.TreeWords.{pattern_words};
ghost use Rattle.sif_export.specs.ExportText.{keyed, spaced, spaced_behind, way_name, list_words, class_words, annotation_words, string_text, pair_text, class_text, annotation_text, comment_text, body_text, method_text, is_empty_body};

use crate::pieces::{inner_piece, piece, two_pieces};
use crate::sign::Gap;
use crate::trees::{part_end, top};
use crate::words::{quoted_word, remark, symbol, word};
use sif_chunks::ChunkWriter;
use sqlite_items::Items;
use st_base::{Failed, Sink, Text};
use st_tree::tree::{Body, Method};
use st_tree::units::{Annotation, ClassUnit, Indexed};

// A keyword and a string.
fn key_and_string<K: Sink>(sink: &mut K, gap: Gap, key: &[u8], text: &[u8]) -> Result<Gap, Failed>
    ensures text { Lays gap (K.written sink.old) (K.written sink.new) result (keyed key.now text.now) }
    ensures cause { HasCause (K.faults sink.old) (K.faults sink.new) result }
{
    let gap = word(sink, gap, key)?;
    quoted_word(sink, gap, b"", text)
}

// The names, each behind a space.
fn names_behind<K: Sink>(sink: &mut K, names: &[Text]) -> Result<(), Failed>
    ensures text { Puts (K.written sink.old) (K.written sink.new) result (quotes_doubled (spaced_behind names.now)) }
    ensures cause { HasCause (K.faults sink.old) (K.faults sink.new) result }
{
    for name in names {
        piece(sink, b" ")?;
        inner_piece(sink, name.as_bytes())?;
    }
    Ok(())
}

// The names, with a space between two of them.
fn spaced_names<K: Sink>(sink: &mut K, names: &[Text]) -> Result<(), Failed>
    ensures text { Puts (K.written sink.old) (K.written sink.new) result (quotes_doubled (spaced names.now)) }
    ensures cause { HasCause (K.faults sink.old) (K.faults sink.new) result }
{
    match names.split_first() {
        Some((first, others)) => {
            inner_piece(sink, first.as_bytes())?;
            names_behind(sink, others)
        }
        None => Ok(()),
    }
}

// A string of names.
fn names_word<K: Sink>(sink: &mut K, gap: Gap, names: &Items<Text>) -> Result<Gap, Failed>
    ensures text { Lays gap (K.written sink.old) (K.written sink.new) result (Str (spaced names.now) ∷ []) }
    ensures cause { HasCause (K.faults sink.old) (K.faults sink.new) result }
{
    two_pieces(sink, gap.bytes(), b"'")?;
    spaced_names(sink, names.as_slice())?;
    piece(sink, b"'")?;
    Ok(Gap::Blank)
}

// A keyword and a string of names.
fn key_and_names<K: Sink>(
    sink: &mut K,
    gap: Gap,
    key: &[u8],
    names: &Items<Text>,
) -> Result<Gap, Failed>
    ensures text { Lays gap (K.written sink.old) (K.written sink.new) result (keyed key.now (spaced names.now)) }
    ensures cause { HasCause (K.faults sink.old) (K.faults sink.new) result }
{
    let gap = word(sink, gap, key)?;
    names_word(sink, gap, names)
}

fn way_name(way: Indexed) -> &'static [u8]
    ensures { result.now ≡ way_name way }
{
    match way {
        Indexed::None => b"none",
        Indexed::Object => b"object",
        Indexed::Byte => b"byte",
    }
}

// The lists of a class's names.
fn lists<K: Sink>(sink: &mut K, gap: Gap, class: &ClassUnit) -> Result<Gap, Failed>
    ensures text { Lays gap (K.written sink.old) (K.written sink.new) result (list_words class.now) }
    ensures cause { HasCause (K.faults sink.old) (K.faults sink.new) result }
{
    let gap = key_and_names(sink, gap, b"instanceVariableNames:", &class.instance_names)?;
    let gap = key_and_names(sink, gap, b"classVariableNames:", &class.class_names)?;
    let gap = key_and_names(sink, gap, b"sharedPools:", &class.pools)?;
    key_and_names(
        sink,
        gap,
        b"classInstanceVariableNames:",
        &class.class_instance_names,
    )
}

// The words of a class.
fn class_words<K: Sink>(sink: &mut K, class: &ClassUnit) -> Result<Gap, Failed>
    ensures text { Lays Joined (K.written sink.old) (K.written sink.new) result (class_words class.now) }
    ensures cause { HasCause (K.faults sink.old) (K.faults sink.new) result }
{
    let gap = word(sink, Gap::Joined, b"Class")?;
    let gap = key_and_string(sink, gap, b"named:", class.name.as_bytes())?;
    let gap = key_and_string(sink, gap, b"superclass:", class.superclass.as_bytes())?;
    let gap = word(sink, gap, b"indexedInstanceVariables:")?;
    let gap = symbol(sink, gap, way_name(class.indexed))?;
    lists(sink, gap, class)
}

// The words of an annotation.
fn annotation_words<K: Sink>(sink: &mut K, annotation: &Annotation) -> Result<Gap, Failed>
    ensures text { Lays Joined (K.written sink.old) (K.written sink.new) result (annotation_words annotation.now) }
    ensures cause { HasCause (K.faults sink.old) (K.faults sink.new) result }
{
    let gap = word(sink, Gap::Joined, b"Annotation")?;
    let gap = key_and_string(sink, gap, b"key:", annotation.key.as_bytes())?;
    key_and_string(sink, gap, b"value:", annotation.value.as_bytes())
}

// The comments of one element.
fn remarks<K: Sink>(sink: &mut K, comments: &Items<Text>) -> Result<Gap, Failed>
    ensures text { Lays Joined (K.written sink.old) (K.written sink.new) result (map Remark comments.now) }
    ensures cause { HasCause (K.faults sink.old) (K.faults sink.new) result }
{
    let mut gap = Gap::Joined;
    for comment in comments.as_slice() {
        gap = remark(sink, gap, comment.as_bytes())?;
    }
    Ok(gap)
}

// The pattern of a method.
fn pattern<K: Sink>(sink: &mut K, method: &Method) -> Result<Gap, Failed>
    ensures text { Lays Joined (K.written sink.old) (K.written sink.new) result (pattern_words method.now) }
    ensures cause { HasCause (K.faults sink.old) (K.faults sink.new) result }
{
    let selector = method.selector.as_bytes();
    if method.parameters.is_empty() {
        return word(sink, Gap::Joined, selector);
    }
    let mut gap = Gap::Joined;
    let mut at = 0;
    for parameter in method.parameters.as_slice() {
        let rest = &selector[at..];
        let end = part_end(rest);
        gap = word(sink, gap, &rest[..end])?;
        gap = word(sink, gap, parameter.text.as_bytes())?;
        at += end;
    }
    Ok(gap)
}

fn is_empty(body: &Body) -> bool
    ensures { result ≡ is_empty_body body.now }
{
    body.temporaries.is_empty() && body.statements.is_empty()
}

/// Writes an element that is an identifier, a keyword and a string.
pub(crate) fn string_element<K: Sink>(
    sink: &mut K,
    first: &[u8],
    key: &[u8],
    text: &[u8],
) -> Result<(), Failed>
    ensures text { Gains (K.written sink.old) (K.written sink.new) result (closed (string_text first.now key.now text.now)) }
    ensures cause { HasCause (K.faults sink.old) (K.faults sink.new) result }
{
    let gap = word(sink, Gap::Joined, first)?;
    key_and_string(sink, gap, key, text)?;
    ChunkWriter::close(sink)
}

/// Writes an element that is two identifiers.
pub(crate) fn pair_element<K: Sink>(sink: &mut K, first: &[u8], second: &[u8]) -> Result<(), Failed>
    ensures text { Gains (K.written sink.old) (K.written sink.new) result (closed (pair_text first.now second.now)) }
    ensures cause { HasCause (K.faults sink.old) (K.faults sink.new) result }
{
    let gap = word(sink, Gap::Joined, first)?;
    word(sink, gap, second)?;
    ChunkWriter::close(sink)
}

/// Writes the element of a class.
pub(crate) fn class_element<K: Sink>(sink: &mut K, class: &ClassUnit) -> Result<(), Failed>
    ensures text { Gains (K.written sink.old) (K.written sink.new) result (closed (class_text class.now)) }
    ensures cause { HasCause (K.faults sink.old) (K.faults sink.new) result }
{
    class_words(sink, class)?;
    ChunkWriter::close(sink)
}

/// Writes an annotation.
pub(crate) fn annotation_element<K: Sink>(
    sink: &mut K,
    annotation: &Annotation,
) -> Result<(), Failed>
    ensures text { Gains (K.written sink.old) (K.written sink.new) result (closed (annotation_text annotation.now)) }
    ensures cause { HasCause (K.faults sink.old) (K.faults sink.new) result }
{
    annotation_words(sink, annotation)?;
    ChunkWriter::close(sink)
}

/// Writes an element of comments.
pub(crate) fn comment_element<K: Sink>(sink: &mut K, comments: &Items<Text>) -> Result<(), Failed>
    ensures text { Gains (K.written sink.old) (K.written sink.new) result (closed (comment_text comments.now)) }
    ensures cause { HasCause (K.faults sink.old) (K.faults sink.new) result }
{
    remarks(sink, comments)?;
    ChunkWriter::close(sink)
}

/// Writes the text of an initializer.
pub(crate) fn body_element<K: Sink>(sink: &mut K, body: &Body) -> Result<(), Failed>
    ensures text { Gains (K.written sink.old) (K.written sink.new) result (closed (body_text body.now)) }
    ensures cause { HasCause (K.faults sink.old) (K.faults sink.new) result }
{
    if is_empty(body) {
        return ChunkWriter::put(sink, b"\"\" ");
    }
    top(sink, Gap::Joined, body)?;
    ChunkWriter::close(sink)
}

/// Writes the text of a method.
pub(crate) fn method_element<K: Sink>(sink: &mut K, method: &Method) -> Result<(), Failed>
    ensures text { Gains (K.written sink.old) (K.written sink.new) result (closed (method_text method.now)) }
    ensures cause { HasCause (K.faults sink.old) (K.faults sink.new) result }
{
    pattern(sink, method)?;
    top(sink, Gap::Line, &method.body)?;
    ChunkWriter::close(sink)
}
