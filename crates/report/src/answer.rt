// The report of what was read of a frame, on any bus, as rows in lent memory.
ghost use Rattle.std.specs.Prelude.{◌≡◌, length};
ghost use Rattle.frame.specs.Frame.{handed, reading_of};
ghost use Rattle.report.specs.Rows.{report_bytes};
ghost use Rattle.report.specs.Answer.{under, fitted, report_answer, out_after, sized, reported_of};

use crate::lines::Lines;
use crate::message::add_message;
use crate::refusal::Refusal;
use crate::row::BYTE_ROW;
use crate::rows::put_report;
use catalogue::accept::{Supplement, accept};
use frame::frame::Parts;

// The length of the rows of an accepted frame, or that they do not fit.
fn parts_report(supplement: &Supplement, parts: Parts, out: &mut [u8]) -> Result<usize, Refusal>
    ensures told { reported_of result ≡ sized (fitted (length out.old) (report_bytes (under supplement.now.bytes.now (handed parts.entry)))) }
    ensures left { out.new ≡ out_after (fitted (length out.old) (report_bytes (under supplement.now.bytes.now (handed parts.entry)))) out.old }
{
    let mut lines = Lines::new();
    add_message(&mut lines, supplement, parts);
    let size = lines.tally().size + BYTE_ROW;
    if out.len() < size {
        return Err(Refusal::Frame(frame::refusal::Refusal::OutputShort));
    }
    put_report(&lines, out);
    Ok(size)
}

// Any supplement, what a reader of any bus gave, any lent memory: the rows at the start of `out`, and their length.
pub(crate) fn reading_report(
    supplement: &[u8],
    reading: Result<Parts, frame::refusal::Refusal>,
    out: &mut [u8],
) -> Result<usize, Refusal>
    ensures told { reported_of result ≡ sized (report_answer supplement.now (reading_of reading.entry) (length out.old)) }
    ensures left { out.new ≡ out_after (report_answer supplement.now (reading_of reading.entry) (length out.old)) out.old }
{
    let supplement = accept(supplement)?;
    parts_report(&supplement, reading?, out)
}
