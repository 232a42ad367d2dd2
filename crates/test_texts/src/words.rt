// Names by number, words of a command line, and generated lines.

use crate::rows::Case;
use st_base::{OutOfMemory, put_all};
use st_gen::{Kept, gen_line, generated};
use st_names::Names;
use st_words::command_of;
use std::alloc::Global;
use std::fmt::Write;

// The number of a name, which is new or was there.
fn number_of(names: &mut Names, name: &[u8]) -> Result<u32, OutOfMemory> {
    if names.len() == u32::MAX {
        return Err(OutOfMemory);
    }
    names.intern(name)
}

/// The number that each name gets, and how many there are then.
pub fn numbered(alloc: Global, case: &Case) -> Result<String, OutOfMemory> {
    let mut names = Names::new(alloc);
    let mut out = format!(in alloc; "{} ", names.len())?;
    for part in &case.parts {
        write!(out, "{} ", number_of(&mut names, part.as_bytes())?)?;
    }
    write!(out, "{}", names.len())?;
    Ok(out)
}

/// The number of a name among these, and the last one's bytes.
pub fn found(alloc: Global, case: &Case) -> Result<String, OutOfMemory> {
    let mut names = Names::new(alloc);
    let mut last = None;
    for part in &case.parts {
        last = Some(number_of(&mut names, part.as_bytes())?);
    }
    let mut out = format!(in alloc; "{:?} ", names.find(case.text.as_bytes()))?;
    if let Some(number) = last {
        if number < names.len() {
            write!(
                out,
                "{}",
                String::from_utf8_lossy(alloc, names.text(number))?
            )?;
        }
    }
    Ok(out)
}

/// The command that the words are, if they are one.
pub fn command(alloc: Global, case: &Case) -> Result<String, OutOfMemory> {
    match command_of(alloc, &case.parts)? {
        Some(command) => Ok(format!(in alloc; "{command:?}")?),
        None => Ok(String::from_str(alloc, "none")?),
    }
}

/// The lines that a seed and a size give, and how many bytes of them are kept.
pub fn generated_lines(alloc: Global, case: &Case) -> Result<String, OutOfMemory> {
    let lines = generated(alloc, case.number(0), case.number(1))?;
    let mut kept = Kept::new(alloc);
    let put = put_all(&mut kept, &lines);
    let text = String::from_utf8_lossy(alloc, &lines)?;
    Ok(format!(in alloc; "{put:?} {} {text}", kept.count())?)
}

/// The line that `gen` writes of these numbers.
pub fn line(alloc: Global, case: &Case) -> Result<String, OutOfMemory> {
    let line = gen_line(
        alloc,
        case.number(0) as usize,
        case.number(1) as usize,
        case.number(2) as usize,
        case.number(3) as u64,
    )?;
    Ok(format!(in alloc; "{}", String::from_utf8_lossy(alloc, &line)?)?)
}
