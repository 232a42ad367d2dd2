// The lines that are generated, and the line of what came of them.
ghost use Rattle.std.specs.Prelude.{◌≡◌, ◌++◌, IfOk, OnOk, decimal};
ghost use Rattle.st_gen.specs.Generated.{gen_line, generated, lines_of, value_of};

use itoa::Buffer;
use st_base::OutOfMemory;
use std::alloc::Global;

const NAMED: &[u8] = b"Class named: 'G";

const CLASS: &[u8] =
    b"' superclass: 'Object' indexedInstanceVariables: #none instanceVariableNames: '' classVariableNames: '' sharedPools: '' classInstanceVariableNames: ''!\nG";

const METHOD: &[u8] =
    b" method!\nrun: n\n\t^[n > 50 ifTrue: [Warning signal]. n] on: Warning do: [:w | w return: 50]!\nGlobal initializer!\nTranscript show: (G";

// Adds a text and a number.
fn add(text: &mut Vec<u8>, before: &[u8], number: u32) -> Result<(), OutOfMemory>
    ensures { OnOk result (text.new.items ≡ text.old.items ++ (before.now ++ decimal number)) }
{
    let mut digits = Buffer::new();
    text.extend_from_slice(before)?;
    text.extend_from_slice(digits.format(number).as_bytes())?;
    Ok(())
}

// Adds the lines of the class with this number and value.
fn add_lines(text: &mut Vec<u8>, number: u32, value: u32) -> Result<(), OutOfMemory>
    ensures { OnOk result (text.new.items ≡ text.old.items ++ lines_of number value) }
{
    add(text, NAMED, number)?;
    add(text, CLASS, number)?;
    add(text, METHOD, number)?;
    add(text, b" new run: ", value)?;
    text.extend_from_slice(b") printString; cr!\n")?;
    Ok(())
}

// The value of the class with this number.
fn value_of(seed: u32, number: u32) -> u32
    ensures { result ≡ value_of seed number }
{
    ((u64::from(seed) + 7 * u64::from(number)) % 100) as u32
}

/// The lines of the classes with the numbers from 1 to the size.
pub fn generated(alloc: Global, seed: u32, size: u32) -> Result<Vec<u8>, OutOfMemory>
    ensures { IfOk result (λ text. text.items ≡ generated seed size) }
{
    let mut text = Vec::new(alloc);
    for before in 0..size {
        let number = before + 1;
        add_lines(&mut text, number, value_of(seed, number))?;
    }
    Ok(text)
}

/// What is written of a file of so many units and bytes, whose run wrote so many bytes in so many
/// steps.
pub fn gen_line(
    alloc: Global,
    units: usize,
    bytes: usize,
    transcript: usize,
    steps: u64,
) -> Result<Vec<u8>, OutOfMemory>
    ensures { IfOk result (λ line. line.items ≡ gen_line units bytes transcript steps) }
{
    let mut number = Buffer::new();
    let mut line = Vec::from_slice(alloc, b"gen units ")?;
    line.extend_from_slice(number.format(units).as_bytes())?;
    line.extend_from_slice(b" bytes ")?;
    line.extend_from_slice(number.format(bytes).as_bytes())?;
    line.extend_from_slice(b" transcript ")?;
    line.extend_from_slice(number.format(transcript).as_bytes())?;
    line.extend_from_slice(b" steps ")?;
    line.extend_from_slice(number.format(steps).as_bytes())?;
    line.extend_from_slice(b"\n")?;
    Ok(line)
}
