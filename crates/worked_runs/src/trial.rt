// A run in memory, and whether it came out as wanted.
ghost use Rattle.std.specs.Prelude.{◌≡◌, ◌↔◌, IsTrue, string_bytes};

use crate::wanted::Run;
use st_base::{MemorySink, MemorySource, OutOfMemory};
use std::alloc::Global;

/// How many bytes a run may write to its output, and to its report.
const ROOM: usize = 100_000;

/// What came of a run: the status, what was written, and how often a device failed.
#[derive(Drop)]
pub struct Outcome {
    pub status: u8,
    pub out: Vec<u8>,
    pub report: Vec<u8>,
    pub faults: u64,
}

impl Outcome {
    /// Runs the program in memory.
    pub fn of(alloc: Global, file: &[u8], run: &Run) -> Result<Outcome, OutOfMemory> {
        let input = first_part(file, run);
        let cuts = cuts_of(alloc, input, run)?;
        let bytes = Vec::from_slice(alloc, input)?;
        let mut source = MemorySource::new(bytes, cuts, run.failing_reads.clone()?);
        let mut out = MemorySink::new(alloc, ROOM, run.failing_writes.clone()?)?;
        let mut report = MemorySink::new(alloc, ROOM, run.failing_reports.clone()?)?;
        let status = st_run::stx(alloc, &run.words, &mut source, &mut out, &mut report);
        let written = source.faults().saturating_add(out.faults());
        Ok(Outcome {
            status: status.code(),
            out: Vec::from_slice(alloc, out.written())?,
            report: Vec::from_slice(alloc, report.written())?,
            faults: written.saturating_add(report.faults()),
        })
    }

    /// Whether the run came out as wanted.
    pub fn is_wanted(&self, run: &Run) -> bool
        ensures { IsTrue result ↔ ((self.now.status ≡ run.now.status) × (self.now.out.items ≡ string_bytes run.now.out)
            × (self.now.report.items ≡ string_bytes run.now.report) × (self.now.faults ≡ run.now.faults)) }
    {
        self.status == run.status
            && self.out.as_slice() == run.out.as_bytes()
            && self.report.as_slice() == run.report.as_bytes()
            && self.faults == run.faults
    }
}

// The bytes of the file that there are.
fn first_part<'a>(file: &'a [u8], run: &Run) -> &'a [u8] {
    match file.get(..run.first) {
        Some(first) if run.first > 0 => first,
        _ => file,
    }
}

// How many bytes each call to the source gives at most.
fn cuts_of(alloc: Global, input: &[u8], run: &Run) -> Result<Vec<usize>, OutOfMemory> {
    let cuts = if run.piece == 0 {
        0
    } else {
        input.len() / run.piece
    };
    Ok(vec![in alloc; run.piece; cuts]?)
}
