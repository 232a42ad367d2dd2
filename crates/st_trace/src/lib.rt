// The lines of a trace, when they are disciplined, and the audit that judges them: a trace comes in
// as bytes, and whether it is disciplined, or its first line that can't stand and why, comes out.
#![tactic(auto)]

mod audited;
mod auditing;
mod auditor;
mod law;
mod line;
mod stack;
mod start;
mod words;

pub use auditing::{AuditAnswer, AuditReason, audit};
pub use law::{
    an_audit_answers_exactly, lines_are_read_as_printed, lines_stand_by_the_auditor,
    the_auditor_agrees,
};
pub use line::{Line, StopWord};
