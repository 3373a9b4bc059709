// The report of an ISO 9141-2 message under a supplement.
ghost use Rattle.std.specs.Prelude.{◌≡◌, length};
ghost use Rattle.report.specs.Answer.{iso_answer, out_after, sized, reported_of};

use crate::answer::reading_report;
use crate::refusal::Refusal;
use frame::iso::read_iso;

// Any supplement, any run, any lent memory: the rows at the start of `out`, and their length.
// Beside the one of j1850.rt under its own name, which README and docs/ have; what both do is `reading_report`.
pub fn report(supplement: &[u8], run: &[u8], out: &mut [u8]) -> Result<usize, Refusal>
    ensures told { reported_of result ≡ sized (iso_answer supplement.now run.now (length out.old)) }
    ensures left { out.new ≡ out_after (iso_answer supplement.now run.now (length out.old)) out.old }
{
    reading_report(supplement, read_iso(run), out)
}
