// The verdict of lines, from what they add up to.
ghost use Rattle.std.specs.Prelude.{◌≡◌};
ghost use Rattle.report.specs.Verdict.{verdict_number, verdict_by};

use crate::tally::Tally;

#[derive(Clone, Copy)]
pub(crate) enum Verdict {
    Clear = 1,
    Flagged = 2,
    Unknown = 3,
}

impl Verdict {
    pub(crate) fn number(self) -> u8
        ensures { result ≡ verdict_number self }
    {
        self as u8
    }
}

// Flagged, otherwise Unknown, otherwise Clear.
pub(crate) fn verdict_of(tally: Tally) -> Verdict
    ensures { verdict_number result ≡ verdict_by tally.flagged tally.unknown }
{
    if tally.flagged {
        Verdict::Flagged
    } else if tally.unknown {
        Verdict::Unknown
    } else {
        Verdict::Clear
    }
}
