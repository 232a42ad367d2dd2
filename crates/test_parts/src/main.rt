// Calls of the lower crates with what each answers: reads a row a line, makes its calls one after the
// other, and prints for each row its name and how many answers came out, or which differ.
#![tactic(auto)]

mod call;
mod collections;
mod heaps;
mod images;
mod loops;
mod messages;
mod numbers;
mod part;
mod replies;
mod stacks;

use call::Call;
use collections::Collections;
use heaps::{Heaps, Literals};
use images::Program;
use numbers::Numbers;
use part::{Part, Row};
use replies::Replies;
use st_base::OutOfMemory;
use stacks::Stack;
use std::alloc::{AllocError, Global};
use std::io::{BufRead, BufReader};

// What a call answers.
fn answered<P: Part>(alloc: Global, part: &mut P, asked: &str) -> Result<String, OutOfMemory> {
    let call = Call::new(alloc, asked)?;
    part.answer(alloc, &call)
}

// Makes the calls of a row, and says how many answered otherwise than wanted.
fn try_calls<P: Part>(rt: &HostRuntime, row: &Row, part: &mut P) -> anyhow::Result<u64> {
    let mut differing = 0u64;
    for line in &row.calls {
        let (asked, wanted) = line.split_once(" => ").unwrap_or((line.as_str(), ""));
        let found = answered(rt.alloc(), part, asked).map_err(|_| AllocError)?;
        if found.as_str() != wanted {
            differing = differing.saturating_add(1);
            println!(rt;
                "{}: {asked} answers {found:?}, wanted {wanted:?}",
                row.name
            )?;
        }
    }
    Ok(differing)
}

// Makes the calls of a row to what was made for it.
fn try_part<P: Part + Drop>(
    rt: &HostRuntime,
    row: &Row,
    made: Result<P, OutOfMemory>,
) -> anyhow::Result<u64> {
    match made {
        Ok(mut part) => try_calls(rt, row, &mut part),
        Err(_) => Err(AllocError.into()),
    }
}

// Makes what the calls of a row are made to, and makes them.
fn try_row(rt: &HostRuntime, row: &Row) -> anyhow::Result<u64> {
    let alloc = rt.alloc();
    match row.part.as_str() {
        "heaps" => try_part(rt, row, Heaps::new(alloc, row)),
        "literals" => try_part(rt, row, Literals::new(alloc, row)),
        "stack" => try_part(rt, row, Stack::new(alloc, row)),
        "program" => try_part(rt, row, Program::new(alloc, row)),
        "numbers" => try_calls(rt, row, &mut Numbers),
        "collections" => try_part(rt, row, Collections::new(alloc, row)),
        _ => try_part(rt, row, Replies::new(alloc)),
    }
}

fn main(rt: HostRuntime) -> anyhow::Result<()> {
    let alloc = rt.alloc();
    for line in BufReader::new(alloc, rt.reader())?.lines(alloc) {
        let row: Row = serde_json::from_str(alloc, line?.as_str())?;
        let differing = try_row(&rt, &row)?;
        println!(rt;
            "{}: {} answers, {} differ",
            row.name,
            row.calls.len(),
            differing
        )?;
    }
    Ok(())
}
