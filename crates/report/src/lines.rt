// The lines of a report, in the order of their rows, and what they add up to.
ghost use Rattle.std.specs.Prelude.{◌≡◌, ◌*◌, ◌≤◌, ◌<◌, [], ◌∷◌, ◌++◌, length};
ghost use Rattle.report.specs.Rows.{number_row_size};
ghost use Rattle.report.specs.Inner.{most_lines, tally_of};

use crate::line::Line;
use crate::tally::{Tally, tallied};
use catalogue::kind::MOST_PRNS;
use std::marker::Model;

// A remainder and a response beside the item lines at the most.
const MOST_LINES: usize = MOST_PRNS + 2;

// The lines of a report: without a heap an array and how many of it count, seen as a list. They are added where they lie and lent for
// reading, so that the array is never copied. The places behind the count stay Short, so that the list gives all fields back.
#[derive(Clone, Copy)]
pub struct Lines {
    held: [Line; MOST_LINES],
    count: usize,
    tally: Tally,
}

impl Model for Lines {
    ghost use Rattle.std.specs.Prelude.{List, length, take};
    ghost use Rattle.report.specs.declared.line.Line.{Line};
    ghost use Rattle.report.specs.Inner.{in_places, LinesHeld, tally_of};

    ghost Value = { List Line };

    ghost view = { λ a. take a.count a.held };

    ghost invariant = { λ a. LinesHeld a.held a.count a.tally };

    ghost inverse = { λ ls. record { held = in_places ls; count = length ls; tally = tally_of ls } };

    ghost inverse_ok = { λ a h i. record { held = h.rest i; count = h.used i; tally = h.sum i } };
}

impl Lines {
    pub(crate) fn new() -> Self
        ensures { result ≡ [] }
    {
        Lines {
            held: [Line::Short; MOST_LINES],
            count: 0,
            tally: Tally::default(),
        }
    }

    #[tactic(auto, using(crate::proofs::lines::Laws::held_few))]
    pub(crate) fn push(&mut self, line: Line)
        requires { length self.old < most_lines }
        ensures { self.new ≡ self.old ++ line ∷ [] }
    {
        self.held[self.count] = line;
        self.count += 1;
        self.tally = tallied(self.tally, line);
    }

    pub(crate) fn as_slice(&self) -> &[Line]
        ensures { result.now ≡ self.now }
    {
        &self.held[..self.count]
    }

    // What the lines add up to, counted as they were added.
    #[tactic(auto, using(crate::proofs::lines::Laws::held_few))]
    pub(crate) fn tally(&self) -> Tally
        ensures sum { result ≡ tally_of self.now }
        ensures most { result.size ≤ number_row_size * most_lines }
    {
        self.tally
    }
}
