// A program, and what each of its runs has to come to.

use serde::Deserialize;

/// A program and its runs.
#[derive(Drop, Deserialize)]
#[serde(deny_unknown_fields)]
pub struct Program {
    /// What the program shows.
    pub name: String,

    /// The interchange file.
    pub input: String,

    /// What stands behind it, where a file is too long to be written out.
    #[serde(default)]
    pub rest: Vec<Repeated>,

    pub runs: Vec<Run>,
}

/// A text, so many times.
#[derive(Drop, Deserialize)]
#[serde(deny_unknown_fields)]
pub struct Repeated {
    pub text: String,
    pub times: u32,
}

/// How a program is run, and what comes of it.
#[derive(Drop, Deserialize)]
#[serde(deny_unknown_fields)]
pub struct Run {
    /// The words of the command line.
    pub words: Vec<String>,

    pub status: u8,

    #[serde(default)]
    pub out: String,

    #[serde(default)]
    pub report: String,

    /// How often a device fails.
    #[serde(default)]
    pub faults: u64,

    /// How many bytes of the file there are; 0 for all.
    #[serde(default)]
    pub first: usize,

    /// How many bytes the input gives at once; 0 sets no bound.
    #[serde(default)]
    pub piece: usize,

    /// The calls of each device that fail, counted from 0.
    #[serde(default)]
    pub failing_reads: Vec<u64>,

    #[serde(default)]
    pub failing_writes: Vec<u64>,

    #[serde(default)]
    pub failing_reports: Vec<u64>,
}
