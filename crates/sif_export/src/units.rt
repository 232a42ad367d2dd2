// Units and whole programs, element by element.
ghost use Rattle.std.specs.Prelude.{◌≡◌, map, OnOk, OnErr};
ghost use Rattle.std.specs.Io.KnownBytes.{append_known};
ghost use Rattle.st_base.specs.Streams.{HasCause, GainsPrefix};
ghost use Rattle.sif_chunks.specs.Writing.{all_closed};
ghost use Rattle.sif_export.specs.Words.{Gains};
ghost use Rattle.sif_export.specs.ExportText.{kind_texts, annotation_text, unit_texts, element_texts, export_text};

use crate::elements::{
    annotation_element, body_element, class_element, comment_element, method_element, pair_element,
    string_element,
};
use sqlite_items::Items;
use st_base::{Failed, Sink};
use st_tree::units::{Annotation, Definition, Unit, UnitKind};

// The elements of a unit, without its annotations.
fn kind<K: Sink>(sink: &mut K, kind: &UnitKind) -> Result<(), Failed>
    ensures text { Gains (K.written sink.old) (K.written sink.new) result (all_closed (kind_texts kind.now)) }
    ensures cause { HasCause (K.faults sink.old) (K.faults sink.new) result }
{
    match kind {
        UnitKind::Version(text) => {
            string_element(sink, b"Smalltalk", b"interchangeVersion:", text.as_bytes())
        }
        UnitKind::Class(class) => class_element(sink, class),
        UnitKind::GlobalVariable(name) => {
            string_element(sink, b"Global", b"variable:", name.as_bytes())
        }
        UnitKind::GlobalConstant(name) => {
            string_element(sink, b"Global", b"constant:", name.as_bytes())
        }
        UnitKind::Pool(name) => string_element(sink, b"Pool", b"named:", name.as_bytes()),
        UnitKind::PoolVariable { pool, name } => {
            string_element(sink, pool.as_bytes(), b"variable:", name.as_bytes())
        }
        UnitKind::PoolConstant { pool, name } => {
            string_element(sink, pool.as_bytes(), b"constant:", name.as_bytes())
        }
        UnitKind::Initializer { target, body } => {
            pair_element(sink, target.as_bytes(), b"initializer")?;
            body_element(sink, body)
        }
        UnitKind::PoolInitializer { pool, name, body } => {
            string_element(sink, pool.as_bytes(), b"initializerFor:", name.as_bytes())?;
            body_element(sink, body)
        }
        UnitKind::ProgramInitializer(body) => {
            pair_element(sink, b"Global", b"initializer")?;
            body_element(sink, body)
        }
        UnitKind::Method { class, method } => {
            pair_element(sink, class.as_bytes(), b"method")?;
            method_element(sink, method)
        }
        UnitKind::ClassMethod { class, method } => {
            pair_element(sink, class.as_bytes(), b"classMethod")?;
            method_element(sink, method)
        }
        UnitKind::Comment(comments) => comment_element(sink, comments),
    }
}

fn annotations<K: Sink>(sink: &mut K, annotations: &Items<Annotation>) -> Result<(), Failed>
    ensures text { Gains (K.written sink.old) (K.written sink.new) result (all_closed (map annotation_text annotations.now)) }
    ensures cause { HasCause (K.faults sink.old) (K.faults sink.new) result }
{
    for annotation in annotations.as_slice() {
        annotation_element(sink, annotation)?;
    }
    Ok(())
}

fn unit<K: Sink>(sink: &mut K, unit: &Unit) -> Result<(), Failed>
    ensures text { Gains (K.written sink.old) (K.written sink.new) result (all_closed (unit_texts unit.now)) }
    ensures cause { HasCause (K.faults sink.old) (K.faults sink.new) result }
{
    kind(sink, &unit.kind)?;
    annotations(sink, &unit.annotations)
}

fn units<K: Sink>(sink: &mut K, units: &[Unit]) -> Result<(), Failed>
    ensures text { Gains (K.written sink.old) (K.written sink.new) result (all_closed (element_texts units.now)) }
    ensures cause { HasCause (K.faults sink.old) (K.faults sink.new) result }
{
    for item in units {
        unit(sink, item)?;
    }
    Ok(())
}

/// Writes the canonical text of a program, piece by piece, and takes no memory for it. The texts of
/// two programs are equal exactly where the programs are the same. Where the sink fails, it gained
/// a prefix (ANSI NCITS 319, 4.1).
pub fn export<K: Sink>(definition: &Definition, sink: &mut K) -> Result<(), Failed>
    ensures all { OnOk result (K.written sink.new ≡ append_known (K.written sink.old) (export_text definition.now.units)) }
    ensures part { OnErr result (GainsPrefix (K.written sink.old) (K.written sink.new) (export_text definition.now.units)) }
    ensures cause { HasCause (K.faults sink.old) (K.faults sink.new) result }
{
    units(sink, definition.units.as_slice())
}
