// What a reader answers.
ghost use Rattle.std.specs.Prelude.{◌≡◌};
ghost use Rattle.sif_chunks.specs.Answers.{next_of, stop_of, is_element};

/// The answer of a reader. `End`, `Unfinished`, `TooLong` and `InputTooLong` are repeated by each
/// later call.
#[derive(Clone, Copy, Debug, PartialEq, Eq)]
pub enum Next {
    /// An element that has more than white space, and that ends with its bang.
    Element,
    /// The input ended, and behind the last bang stands white space alone.
    End,
    /// The input ended within an element.
    Unfinished,
    /// The text has more than 1,048,576 bytes.
    TooLong,
    /// A byte behind the first 16,777,216 is needed, and there is one.
    InputTooLong,
    /// The source failed. Nothing is lost, and a later call asks it again.
    ReadFault,
}

/// An answer that is repeated.
#[derive(Clone, Copy, Debug, PartialEq, Eq)]
pub(crate) enum Stop {
    End,
    Unfinished,
    TooLong,
    InputTooLong,
}

impl Stop {
    pub(crate) fn next(self) -> Next
        ensures { result ≡ next_of self }
    {
        match self {
            Stop::End => Next::End,
            Stop::Unfinished => Next::Unfinished,
            Stop::TooLong => Next::TooLong,
            Stop::InputTooLong => Next::InputTooLong,
        }
    }
}

impl Next {
    pub(crate) fn stop(self) -> Option<Stop>
        ensures { result ≡ stop_of self }
    {
        match self {
            Next::End => Some(Stop::End),
            Next::Unfinished => Some(Stop::Unfinished),
            Next::TooLong => Some(Stop::TooLong),
            Next::InputTooLong => Some(Stop::InputTooLong),
            Next::Element | Next::ReadFault => None,
        }
    }

    pub(crate) fn is_element(self) -> bool
        ensures { result ≡ is_element self }
    {
        matches!(self, Next::Element)
    }
}
