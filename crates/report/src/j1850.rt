// The report of a J1850 frame under a supplement.
ghost use Rattle.std.specs.Prelude.{◌≡◌, length};
ghost use Rattle.report.specs.Answer.{j1850_answer, out_after, sized, reported_of};

use crate::answer::reading_report;
use crate::refusal::Refusal;
use frame::reader::read_frame;

// Any supplement, any two runs, any lent memory: the rows at the start of `out`, and their length.
// Beside the one of iso.rt under its own name, which README and docs/ have; what both do is `reading_report`.
pub fn report(
    supplement: &[u8],
    first: &[u8],
    response: &[u8],
    out: &mut [u8],
) -> Result<usize, Refusal>
    ensures told { reported_of result ≡ sized (j1850_answer supplement.now first.now response.now (length out.old)) }
    ensures left { out.new ≡ out_after (j1850_answer supplement.now first.now response.now (length out.old)) out.old }
{
    reading_report(supplement, read_frame(first, response), out)
}
