// What is claimed of traces and of their audit.
ghost use Rattle.st_trace.specs.Auditing.{AuditorAgrees, StandsByAuditor};
ghost use Rattle.st_trace.specs.Audit.{AuditsEach, AuditsOnce};
ghost use Rattle.st_trace.specs.Reading.{ReadsLines};

/// The auditor, which keeps a stack, accepts exactly the disciplined lists.
pub fn the_auditor_agrees()
    ensures { AuditorAgrees }
{}

/// Some disciplined list begins with these lines exactly where the auditor has refused none of them.
pub fn lines_stand_by_the_auditor()
    ensures { StandsByAuditor }
{}

/// A line is read from its bytes exactly where they are printed of it.
pub fn lines_are_read_as_printed()
    ensures { ReadsLines }
{}

/// Each input has exactly one answer, and the audit byte by byte gives it.
pub fn an_audit_answers_exactly()
    ensures each { AuditsEach }
    ensures once { AuditsOnce }
{}
