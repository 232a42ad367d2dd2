// What is claimed of the output of `trace`.
ghost use Rattle.law_traces.specs.Traces.{TracesAreDisciplined};

/// For every file and all limits: where the status of `trace` is 0 or 3 to 7, what it writes is the
/// text of lines that are disciplined.
pub fn each_trace_is_disciplined()
    ensures { TracesAreDisciplined }
{}
