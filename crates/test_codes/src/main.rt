// Programs and the codes that they compile to: reads a program a line, with the codes of its bodies by
// number, and prints for each its name and how many codes came out, or what differs.
#![tactic(auto)]

mod codes;

use anyhow::Result;
use codes::{code_text, facts_text, loaded};
use serde::Deserialize;
use st_compiler::Loaded;
use std::alloc::AllocError;
use std::io::{BufRead, BufReader};

// A program, and what it compiles to.
#[derive(Drop, Deserialize)]
#[serde(deny_unknown_fields)]
struct Program {
    // What the program shows.
    name: String,

    // The interchange file.
    text: String,

    // Each code: what it is the code of, its width and its instructions.
    codes: Vec<String>,

    // The numbers of the units' codes, and how many initializers and literals there are; nothing is
    // wanted of them where this is empty.
    #[serde(default)]
    facts: String,
}

fn print_difference(rt: &HostRuntime, name: &str, found: &str, wanted: &str) -> Result<()> {
    println!(rt; "{name} differs")?;
    println!(rt; "  answered {found:?}")?;
    println!(rt; "  wanted {wanted:?}")?;
    Ok(())
}

// The code with this number, or nothing where there is none.
fn text_at(rt: &HostRuntime, loaded: &Loaded, at: usize) -> Result<String> {
    match loaded.codes().get(at) {
        Some(code) => Ok(code_text(rt.alloc(), loaded.image(), code).map_err(|_| AllocError)?),
        None => Ok(String::new(rt.alloc())),
    }
}

// Compares each code that is wanted, and says how many differ.
fn differing_codes(rt: &HostRuntime, program: &Program, loaded: &Loaded) -> Result<u64> {
    let mut differing = 0u64;
    let mut at = 0usize;
    for wanted in &program.codes {
        let found = text_at(rt, loaded, at)?;
        if found.as_str() != wanted.as_str() {
            differing = differing.saturating_add(1);
            print_difference(rt, program.name.as_str(), found.as_str(), wanted.as_str())?;
        }
        at = at.saturating_add(1);
    }
    Ok(differing)
}

// Whether the numbers of the units' codes are those that are wanted.
fn has_facts(rt: &HostRuntime, program: &Program, loaded: &Loaded) -> Result<bool> {
    let found = facts_text(rt.alloc(), loaded).map_err(|_| AllocError)?;
    if program.facts.is_empty() || found.as_str() == program.facts.as_str() {
        return Ok(true);
    }
    print_difference(
        rt,
        program.name.as_str(),
        found.as_str(),
        program.facts.as_str(),
    )?;
    Ok(false)
}

// Prints how many codes of a compiled program differ, and whether all else is as wanted.
fn print_outcome(rt: &HostRuntime, program: &Program, loaded: &Loaded) -> Result<()> {
    let differing = differing_codes(rt, program, loaded)?;
    let known = has_facts(rt, program, loaded)?;
    let count = loaded.codes().len();
    let facts = if known { "as wanted" } else { "others" };
    println!(rt;
        "{}: {count} codes, {differing} differ, {facts}",
        program.name
    )?;
    Ok(())
}

// Compiles a program, and prints what comes of it.
fn try_program(rt: &HostRuntime, program: &Program) -> Result<()> {
    match loaded(rt.alloc(), program.text.as_bytes()) {
        Ok(Some(loaded)) => print_outcome(rt, program, &loaded),
        Ok(None) => {
            println!(rt; "{}: not read", program.name)?;
            Ok(())
        }
        Err(_) => Err(AllocError.into()),
    }
}

fn main(rt: HostRuntime) -> Result<()> {
    let alloc = rt.alloc();
    for line in BufReader::new(alloc, rt.reader())?.lines(alloc) {
        let program: Program = serde_json::from_str(alloc, line?.as_str())?;
        try_program(&rt, &program)?;
    }
    Ok(())
}
