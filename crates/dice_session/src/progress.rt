//! How far the present program is.
ghost use Rattle.std.specs.Prelude.{◌≡◌};
ghost use Rattle.dice_session.specs.Progress.{progress_after, is_over, is_halted};

/// How far the present program is.
#[derive(Clone, Copy, Debug, PartialEq, Eq)]
pub enum Progress {
    /// It was loaded, and not run.
    NotStarted,
    /// It is stopped at a statement.
    Halted,
    /// It has ended, or is in error.
    Over,
}

/// How far a program is behind a run, which has come to its end or to an error, or has not.
pub(crate) fn progress_after(over: bool) -> Progress
    ensures { result ≡ progress_after over }
{
    if over {
        Progress::Over
    } else {
        Progress::Halted
    }
}

impl Progress {
    /// Whether the program has ended, or is in error.
    pub(crate) fn is_over(self) -> bool
        ensures { result ≡ is_over self }
    {
        match self {
            Progress::Over => true,
            Progress::NotStarted | Progress::Halted => false,
        }
    }

    /// Whether the program is stopped at a statement.
    pub(crate) fn is_halted(self) -> bool
        ensures { result ≡ is_halted self }
    {
        match self {
            Progress::Halted => true,
            Progress::NotStarted | Progress::Over => false,
        }
    }
}
