// What is asked of a receiver and its arguments, as facts.
ghost use Rattle.st_messages.specs.Sent.{ReadyIsDone};

/// A send that finds a row of the table does it, where no Interval among its receiver and its first
/// argument has 2^127 elements or more and an OrderedCollection that it changes is no literal and
/// has room for its elements.
pub fn what_is_ready_is_done()
    ensures { ReadyIsDone }
{}
