// Worked programs: reads a program a line, with what each of its runs has to come to, runs it in
// memory, and prints a line for each program: its name, and how many runs came out, or what differs.
#![tactic(auto)]

mod trial;
mod wanted;

use anyhow::Result;
use std::alloc::AllocError;
use std::io::{BufRead, BufReader};
use trial::Outcome;
use wanted::{Program, Repeated, Run};

fn append(file: &mut Vec<u8>, part: &Repeated) -> Result<()> {
    for _ in 0..part.times {
        file.extend_from_slice(part.text.as_bytes())?;
    }
    Ok(())
}

// The whole file of a program.
fn file_of(rt: &HostRuntime, program: &Program) -> Result<Vec<u8>> {
    let mut file = Vec::from_slice(rt.alloc(), program.input.as_bytes())?;
    for part in &program.rest {
        append(&mut file, part)?;
    }
    Ok(file)
}

// Runs a program in each of its ways, and says how many came out otherwise than wanted.
fn try_runs(rt: &HostRuntime, program: &Program) -> Result<u64> {
    let file = file_of(rt, program)?;
    let mut differing = 0u64;
    for run in &program.runs {
        let found = Outcome::of(rt.alloc(), &file, run).map_err(|_| AllocError)?;
        if !found.is_wanted(run) {
            differing = differing.saturating_add(1);
            print_difference(rt, program, run, &found)?;
        }
    }
    Ok(differing)
}

fn print_difference(rt: &HostRuntime, program: &Program, run: &Run, found: &Outcome) -> Result<()> {
    println!(rt; "{}: {:?} differs", program.name, run.words)?;
    println!(rt; "  status {}, wanted {}", found.status, run.status)?;
    println!(rt; "  faults {}, wanted {}", found.faults, run.faults)?;
    let out = String::from_utf8_lossy(rt.alloc(), &found.out)?;
    println!(rt; "  out {:?}, wanted {:?}", out, run.out)?;
    let report = String::from_utf8_lossy(rt.alloc(), &found.report)?;
    println!(rt; "  report {:?}, wanted {:?}", report, run.report)?;
    Ok(())
}

fn main(rt: HostRuntime) -> Result<()> {
    let alloc = rt.alloc();
    for line in BufReader::new(alloc, rt.reader())?.lines(alloc) {
        let program: Program = serde_json::from_str(alloc, line?.as_str())?;
        let differing = try_runs(&rt, &program)?;
        println!(rt;
            "{}: {} runs, {} differ",
            program.name,
            program.runs.len(),
            differing
        )?;
    }
    Ok(())
}
