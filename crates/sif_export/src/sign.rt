// Signs, and the gaps between words.
ghost use Rattle.std.specs.Prelude.{◌≡◌};
ghost use Rattle.sif_export.specs.Words.{spell_sign, closes_sign, behind_sign, gap_bytes};

/// What stands before a word, unless the word closes something.
#[derive(Clone, Copy, Debug, PartialEq, Eq)]
pub(crate) enum Gap {
    /// Nothing.
    Joined,
    /// A space.
    Blank,
    /// A line's end and a tab.
    Line,
}

/// The signs of bodies.
#[derive(Clone, Copy, Debug, PartialEq, Eq)]
pub(crate) enum Sign {
    /// `(`
    ParenOpen,
    /// `)`
    ParenClose,
    /// `#(`
    ArrayOpen,
    /// `[`
    BlockOpen,
    /// `]`
    BlockClose,
    /// `:=`
    Assign,
    /// `^`
    Caret,
    /// `.`
    Period,
    /// `.`, behind which a line ends.
    PeriodLine,
    /// `;`
    Semicolon,
    /// One bar.
    Bar,
    /// One bar, behind which a line ends.
    BarLine,
}

impl Gap {
    /// Its bytes.
    pub(crate) fn bytes(self) -> &'static [u8]
        ensures { result.now ≡ gap_bytes self }
    {
        match self {
            Gap::Joined => b"",
            Gap::Blank => b" ",
            Gap::Line => b"\n\t",
        }
    }
}

impl Sign {
    /// Its bytes.
    pub(crate) fn spelling(self) -> &'static [u8]
        ensures { result.now ≡ spell_sign self }
    {
        match self {
            Sign::ParenOpen => b"(",
            Sign::ParenClose => b")",
            Sign::ArrayOpen => b"#(",
            Sign::BlockOpen => b"[",
            Sign::BlockClose => b"]",
            Sign::Assign => b":=",
            Sign::Caret => b"^",
            Sign::Period | Sign::PeriodLine => b".",
            Sign::Semicolon => b";",
            Sign::Bar | Sign::BarLine => b"|",
        }
    }

    /// Whether no gap stands before it.
    pub(crate) fn closes(self) -> bool
        ensures { result ≡ closes_sign self }
    {
        match self {
            Sign::ParenClose
            | Sign::BlockClose
            | Sign::Period
            | Sign::PeriodLine
            | Sign::Semicolon => true,
            Sign::ParenOpen
            | Sign::ArrayOpen
            | Sign::BlockOpen
            | Sign::Assign
            | Sign::Caret
            | Sign::Bar
            | Sign::BarLine => false,
        }
    }

    /// The gap that is due behind it.
    pub(crate) fn gap_behind(self) -> Gap
        ensures { result ≡ behind_sign self }
    {
        match self {
            Sign::ParenOpen | Sign::ArrayOpen | Sign::BlockOpen | Sign::Caret => Gap::Joined,
            Sign::PeriodLine | Sign::BarLine => Gap::Line,
            Sign::ParenClose
            | Sign::BlockClose
            | Sign::Assign
            | Sign::Period
            | Sign::Semicolon
            | Sign::Bar => Gap::Blank,
        }
    }
}
