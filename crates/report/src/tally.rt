// What the lines of a report add up to, counted as they are made.
ghost use Rattle.std.specs.Prelude.{◌≡◌, ◌*◌, ◌≤◌};
ghost use Rattle.report.specs.Rows.{number_row_size};
ghost use Rattle.report.specs.Inner.{most_lines, weight, together};

use crate::line::Line;
use crate::row::{BARE_ROW, BYTE_ROW, CODE_ROW, NUMBER_ROW};

// Whether a line flags, whether one is Unknown, and how long the rows of all are.
#[derive(Clone, Copy, Default)]
pub struct Tally {
    pub flagged: bool,
    pub unknown: bool,
    pub size: usize,
}

// What one line adds.
#[tactic(auto, unfolding(crate::specs::Rows::row, crate::specs::Rows::big_endian))]
fn weight_of(line: Line) -> Tally
    ensures { result ≡ weight line }
{
    let (flagged, unknown, size) = match line {
        Line::Number { .. } => (false, false, NUMBER_ROW),
        Line::State(_) | Line::Bits(_) | Line::Text(_) | Line::Digits(_) => (
            false, false, CODE_ROW,
        ),
        Line::Invalid(_) => (true, false, CODE_ROW),
        Line::Short => (true, false, BARE_ROW),
        Line::Unknown(_) => (false, true, BYTE_ROW),
        Line::Left(n) => (n != 0, false, BYTE_ROW),
        Line::Answered(_) => (false, false, BYTE_ROW),
    };
    Tally {
        flagged,
        unknown,
        size,
    }
}

// The tally with one line more.
#[tactic(auto, using(crate::proofs::row::Laws::row_most))]
pub(crate) fn tallied(tally: Tally, line: Line) -> Tally
    requires { tally.size ≤ number_row_size * most_lines }
    ensures { result ≡ together tally (weight line) }
{
    let w = weight_of(line);
    Tally {
        flagged: tally.flagged || w.flagged,
        unknown: tally.unknown || w.unknown,
        size: tally.size + w.size,
    }
}
