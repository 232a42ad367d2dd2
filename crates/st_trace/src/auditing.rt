// The audit of a trace: its lines are judged as they come.
ghost use Rattle.std.specs.Prelude.{◌≡◌, ◌+◌, ◌-◌, ◌<◌, ◌≤◌, ◌++◌, ◌∷◌, ◌⊎◌, [], Some, None, true, IfOk, IfSome, OnErr, length, take, if◌then◌else◌};
ghost use Rattle.st_base.specs.Streams.{Rose};
ghost use Rattle.st_trace.specs.Automaton.{Auditor as Automaton, first_auditor, is_closed, may_stop};
ghost use Rattle.st_trace.specs.Audit.{next_of, at_end};
ghost use Rattle.st_trace.specs.Answering.{Judged, LeavesAuditOpen, IfDisciplined, IfFault, UnlessFault};
ghost use Rattle.st_trace.specs.Events.{line_of};
ghost use Rattle.st_trace.specs.Reading.{read_line};
ghost use Rattle.st_trace.specs.Opened.{kept, place, first_place, Judges, Answers, Turns, Concludes, Causes};

use crate::audited::Auditor;
use crate::line::{Line, StopWord};
use crate::start::LineStart;
use crate::words::read_line;
use memchr::memchr;
use st_base::{OutOfMemory, Source};
use std::alloc::Global;
use std::marker::Model;

// How many bytes a trace has at most.
const MAX_TRACE: usize = 16_777_216;

// How many bytes are taken at once.
const PIECE: usize = 65_536;

/// Why a trace is refused. A report names the reason by the variant's name.
#[derive(Clone, Copy, Debug, PartialEq, Eq)]
pub enum AuditReason {
    /// The line isn't one of a trace, its byte 10 included.
    Line,
    /// The line is one, and can't stand behind those before it.
    Order,
    /// The trace ends without a `stop`.
    Missing,
    /// The trace has more than 16,777,216 bytes.
    InputTooLong,
}

/// What an audit answers.
#[derive(Clone, Copy, Debug, PartialEq, Eq)]
pub enum AuditAnswer {
    /// The trace is disciplined, and has so many lines.
    Disciplined(u64),
    /// This line, counted from 1, is the first that can't stand.
    Refused(u64, AuditReason),
    /// The source failed.
    ReadFault,
    OutOfMemory,
}

/// An audit that has no answer yet. Contracts see it as a place in its input.
#[derive(Drop)]
struct OpenAudit {
    auditor: Auditor,
    has_stopped: bool,
    line: u64,
    room: usize,
    start: LineStart,
}

impl Model for OpenAudit {
    ghost use Rattle.std.specs.Prelude.{◌≤◌, ◌+◌};
    ghost use Rattle.st_trace.specs.Opened.{Place, place, standing_of};

    ghost Value = { Place };

    ghost view = { λ a. place (standing_of a.has_stopped a.auditor) a.line a.room a.start };

    ghost invariant = { λ a. (1 ≤ a.line) × (a.line + a.room ≤ 16777217) };
}

// Whether a run may stop so where nothing is open.
fn is_limit(word: StopWord) -> bool
    ensures { (a : Automaton) → may_stop word a ≡ (if result then true else is_closed a.open') }
{
    !matches!(word, StopWord::Done | StopWord::Unhandled)
}

impl OpenAudit {
    ghost use Rattle.std.specs.Prelude.{◌≡◌};

    fn new(alloc: Global) -> Result<OpenAudit, OutOfMemory>
        ensures { IfOk result (λ a. a ≡ first_place) }
    {
        Ok(OpenAudit {
            auditor: Auditor::new(alloc),
            has_stopped: false,
            line: 1,
            room: MAX_TRACE,
            start: LineStart::new(alloc)?,
        })
    }

    fn room(&self) -> usize
        ensures room { result ≡ self.now.room }
    {
        self.room
    }

    // Takes bytes of a line that isn't whole.
    fn keep(&mut self, bytes: &[u8])
        requires { length bytes.now ≤ self.old.room }
        ensures { self.new ≡ place self.old.standing self.old.line (self.old.room - length bytes.now) (kept (self.old.so_far ++ bytes.now)) }
    {
        self.room -= bytes.len();
        self.start.add(bytes);
    }

    // Judges a line that is read, and answers whether it stands.
    fn stands(&mut self, line: Line) -> Result<bool, OutOfMemory>
        ensures stands { IfOk result (λ taken. next_of self.old.standing (line_of line) ≡ (if taken then Some self.new.standing else None)) }
        ensures others { (self.new.line ≡ self.old.line) × (self.new.room ≡ self.old.room) × (self.new.so_far ≡ self.old.so_far) }
    {
        if self.has_stopped {
            return Ok(false);
        }
        match line {
            Line::Tells(event) => self.auditor.accept(event),
            Line::Stops(word) => {
                self.has_stopped = is_limit(word) || self.auditor.is_closed();
                Ok(self.has_stopped)
            }
        }
    }

    // Goes on behind a line that stands, and behind its byte 10.
    fn go_on(&mut self)
        requires { 0 < self.old.room }
        ensures { self.new ≡ place self.old.standing (self.old.line + 1) (self.old.room - 1) [] }
    {
        self.room -= 1;
        self.line += 1;
        self.start.clear();
    }

    // The number of the line that isn't whole, and its bytes.
    fn line(&self) -> u64
        ensures { result ≡ self.now.line }
    {
        self.line
    }

    fn so_far(&self) -> &[u8]
        ensures { result.now ≡ self.now.so_far }
    {
        self.start.bytes()
    }

    // The answer where the input is over.
    fn finish(&self) -> AuditAnswer
        ensures { result ≡ at_end self.now.standing self.now.line self.now.so_far }
    {
        if !self.start.bytes().is_empty() {
            return AuditAnswer::Refused(self.line, AuditReason::Line);
        }
        if self.has_stopped {
            return AuditAnswer::Disciplined(self.line - 1);
        }
        AuditAnswer::Refused(self.line, AuditReason::Missing)
    }
}

// Judges a line that is read, behind whose bytes its byte 10 comes.
fn judge_line(audit: &mut OpenAudit, line: Line) -> Option<AuditAnswer>
    requires room { 0 < audit.old.room }
    requires line { read_line audit.old.so_far ≡ Some (line_of line) }
    ensures judges { Judges audit.old (10 ∷ []) result audit.new }
    ensures room { result ≡ None → audit.new.room + 1 ≡ audit.old.room }
{
    let number = audit.line();
    match audit.stands(line) {
        Ok(true) => {
            audit.go_on();
            None
        }
        Ok(false) => Some(AuditAnswer::Refused(number, AuditReason::Order)),
        Err(_) => Some(AuditAnswer::OutOfMemory),
    }
}

// Judges the line that a byte 10 makes whole.
fn judge_whole(audit: &mut OpenAudit) -> Option<AuditAnswer>
    requires { 0 < audit.old.room }
    ensures judges { Judges audit.old (10 ∷ []) result audit.new }
    ensures room { result ≡ None → audit.new.room + 1 ≡ audit.old.room }
{
    match read_line(audit.so_far()) {
        None => Some(AuditAnswer::Refused(audit.line(), AuditReason::Line)),
        Some(line) => judge_line(audit, line),
    }
}

// The bytes up to the first byte 10, or all, and what came of them.
#[derive(Clone, Copy)]
struct Step {
    count: usize,
    answer: Option<AuditAnswer>,
}

fn judge_some(audit: &mut OpenAudit, bytes: &[u8]) -> Step
    requires some { 0 < length bytes.now }
    requires room { length bytes.now ≤ audit.old.room }
    ensures some { 0 < result.count }
    ensures within { result.count ≤ length bytes.now }
    ensures judges { Judges audit.old (take result.count bytes.now) result.answer audit.new }
    ensures room { result.answer ≡ None → audit.new.room + result.count ≡ audit.old.room }
{
    match memchr(b'\n', bytes) {
        None => {
            audit.keep(bytes);
            Step {
                count: bytes.len(),
                answer: None,
            }
        }
        Some(end) => {
            audit.keep(&bytes[..end]);
            Step {
                count: end + 1,
                answer: judge_whole(audit),
            }
        }
    }
}

// Judges the lines that end in these bytes, and keeps what stands behind them.
fn judge(audit: &mut OpenAudit, bytes: &[u8]) -> Option<AuditAnswer>
    requires { length bytes.now ≤ audit.old.room }
    ensures judges { Judges audit.old bytes.now result audit.new }
    ensures room { result ≡ None → audit.new.room + length bytes.now ≡ audit.old.room }
{
    let mut at = 0;
    while at < bytes.len() {
        let step = judge_some(audit, &bytes[at..]);
        if let Some(answer) = step.answer {
            return Some(answer);
        }
        at += step.count;
    }
    None
}

// Judges bytes that were taken, where more than may come are too many.
fn judge_taken(audit: &mut OpenAudit, bytes: &[u8]) -> Option<AuditAnswer>
    requires some { 0 < length bytes.now }
    requires room { (length bytes.now ≤ audit.old.room) ⊎ (audit.old.room ≡ 0) }
    ensures judges { Judges audit.old bytes.now result audit.new }
    ensures room { result ≡ None → audit.new.room < audit.old.room }
{
    if audit.room() == 0 {
        return Some(AuditAnswer::Refused(audit.line(), AuditReason::InputTooLong));
    }
    judge(audit, bytes)
}

// Takes more bytes, and judges them.
fn turn<S: Source>(audit: &mut OpenAudit, buffer: &mut [u8], source: &mut S) -> Option<AuditAnswer>
    requires { length buffer.old ≡ PIECE }
    ensures buffer { length buffer.new ≡ PIECE }
    ensures turns { Turns audit.old (S.left source.old) result audit.new (S.left source.new) }
    ensures cause { Causes result (S.faults source.old) (S.faults source.new) }
{
    let most = audit.room().min(PIECE).max(1);
    match source.take(&mut buffer[..most]) {
        Ok(0) => Some(audit.finish()),
        Ok(count) => judge_taken(audit, &buffer[..count]),
        Err(_) => Some(AuditAnswer::ReadFault),
    }
}

// Takes and judges all that comes.
fn run<S: Source>(audit: &mut OpenAudit, buffer: &mut [u8], source: &mut S) -> AuditAnswer
    requires { length buffer.old ≡ PIECE }
    ensures answers { Answers audit.old (S.left source.old) result audit.new (S.left source.new) }
    ensures cause { Causes (Some result) (S.faults source.old) (S.faults source.new) }
{
    loop {
        if let Some(answer) = turn(audit, buffer, source) {
            return answer;
        }
    }
}

// Audits what a source gives, by pieces.
fn audit_with<S: Source>(alloc: Global, source: &mut S) -> Result<AuditAnswer, OutOfMemory>
    ensures answers { IfOk result (λ answer. Concludes (S.left source.old) answer (S.left source.new)) }
    ensures cause { IfOk result (λ answer. Causes (Some answer) (S.faults source.old) (S.faults source.new)) }
    ensures failed { OnErr result (S.faults source.new ≡ S.faults source.old) }
{
    let mut audit = OpenAudit::new(alloc)?;
    let mut buffer = Vec::new(alloc);
    buffer.resize(PIECE, 0)?;
    Ok(run(&mut audit, &mut buffer, source))
}

/// Audits a trace: whether its lines are disciplined, or which is the first that can't stand. Each
/// line is judged before more input is taken. The input is taken by pieces of at most 65,536 bytes,
/// and memory is taken for one piece and for the numbers that are open.
pub fn audit<S: Source>(alloc: Global, source: &mut S) -> AuditAnswer
    ensures judged { IfSome (S.left source.old) (λ bytes. Judged bytes result) }
    ensures read_to_end { IfDisciplined result (IfSome (S.left source.new) (λ bytes. bytes ≡ [])) }
    ensures fault { IfFault result (IfSome (S.left source.old) (λ bytes. LeavesAuditOpen bytes (S.left source.new))) }
    ensures cause { IfFault result (Rose (S.faults source.old) (S.faults source.new)) }
    ensures kept { UnlessFault result (S.faults source.new ≡ S.faults source.old) }
{
    match audit_with(alloc, source) {
        Ok(answer) => answer,
        Err(_) => AuditAnswer::OutOfMemory,
    }
}
