// Texts, and what the crates that read and write them answer: reads a row a line, with its cases, and
// prints for each row its name and how many cases came out, or what differs.
#![tactic(auto)]

mod devices;
mod files;
mod rows;
mod texts;
mod words;

use anyhow::Result;
use rows::{Case, Row};
use st_base::OutOfMemory;
use std::alloc::{AllocError, Global};
use std::io::{BufRead, BufReader};

// What a call answers for a case. A call of another name answers nothing.
fn answer_of(alloc: Global, call: &str, case: &Case) -> Result<String, OutOfMemory> {
    match call {
        "tokens" => texts::lexed(alloc, &case.whole_text(alloc)?),
        "body" => texts::parsed_body(alloc, &case.whole_text(alloc)?),
        "method" => texts::parsed_method(alloc, &case.whole_text(alloc)?),
        "copy" => texts::copied(alloc, case.text.as_bytes()),
        "next" => files::elements(alloc, case),
        "read" => files::read(alloc, case),
        "places" => files::places(alloc, case),
        "take" => devices::taken(alloc, case),
        "put_all" => devices::put(alloc, case),
        "put" => devices::put_elements(alloc, case),
        "intern" => words::numbered(alloc, case),
        "find" => words::found(alloc, case),
        "command" => words::command(alloc, case),
        "generated" => words::generated_lines(alloc, case),
        "gen_line" => words::line(alloc, case),
        _ => Ok(String::new(alloc)),
    }
}

// Tries the cases of a row, and says how many came out otherwise than wanted.
fn try_cases(rt: &HostRuntime, row: &Row) -> Result<u64> {
    let mut differing = 0u64;
    for case in &row.cases {
        let found = answer_of(rt.alloc(), row.call.as_str(), case).map_err(|_| AllocError)?;
        if found.as_str() != case.wanted.as_str() {
            differing = differing.saturating_add(1);
            println!(rt; "{}: {:?}", row.name, case.text)?;
            println!(rt; "  answered {:?}, wanted {:?}", found, case.wanted)?;
        }
    }
    Ok(differing)
}

fn main(rt: HostRuntime) -> Result<()> {
    let alloc = rt.alloc();
    for line in BufReader::new(alloc, rt.reader())?.lines(alloc) {
        let row: Row = serde_json::from_str(alloc, line?.as_str())?;
        let differing = try_cases(&rt, &row)?;
        println!(rt;
            "{}: {} cases, {} differ",
            row.name,
            row.cases.len(),
            differing
        )?;
    }
    Ok(())
}
