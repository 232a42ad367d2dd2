// The program `stx` over standard input, output and error.
#![tactic(auto)]

mod devices;

use devices::{StdSink, StdSource};
use st_run::Status;
use std::process::ExitCode;
use std::rt::{Stderr, Stdout};
use std::{env, io};

// The arguments behind the program's name. One that is not UTF-8 makes them no command, as none do.
fn words(rt: &HostRuntime) -> io::Result<Vec<String>> {
    match env::args(rt) {
        Ok(words) => Ok(words.skip(1).collect(rt.alloc())?),
        Err(error) if error.kind() == io::ErrorKind::InvalidData => Ok(Vec::new(rt.alloc())),
        Err(error) => Err(error),
    }
}

// What is still gathered is written, the output before the report. Where one fails, nothing more is.
fn finished(out: &mut StdSink<Stdout>, report: &mut StdSink<Stderr>, status: Status) -> Status {
    match out.finish() {
        Ok(()) => reported(report, status),
        Err(_) => Status::WriteFault,
    }
}

fn reported(report: &mut StdSink<Stderr>, status: Status) -> Status {
    match report.finish() {
        Ok(()) => status,
        Err(_) => Status::WriteFault,
    }
}

fn main(rt: HostRuntime) -> ExitCode {
    let mut source = StdSource::new(rt.stdin());
    let mut report = StdSink::at_end(rt.alloc(), rt.stderr());
    let status = match (words(&rt), StdSink::in_blocks(rt.alloc(), rt.stdout())) {
        (Ok(words), Ok(mut out)) => {
            let status = st_run::stx(rt.alloc(), &words, &mut source, &mut out, &mut report);
            finished(&mut out, &mut report, status)
        }
        _ => {
            let status = st_run::report_want_of_memory(&mut report);
            reported(&mut report, status)
        }
    };
    ExitCode::from(status.code())
}
