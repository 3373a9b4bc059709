// The rows of a report in lent memory.
ghost use Rattle.std.specs.Prelude.{◌≡◌, ◌++◌, ◌+◌, ◌≤◌, length};
ghost use Rattle.frame.specs.Bytes.{placed};
ghost use Rattle.report.specs.Verdict.{verdict_of};
ghost use Rattle.report.specs.Rows.{byte_row_size, rows_of, verdict_row};
ghost use Rattle.report.specs.Inner.{AllHold};

use crate::line::Line;
use crate::lines::Lines;
use crate::row::{RowKind, put_body, put_row};
use crate::verdict::verdict_of;

// The rows of lines at the start of lent memory, one behind the other; how long they are.
#[tactic(auto, using(crate::proofs::rows::Laws::laying))]
fn put_lines(lines: &[Line], out: &mut [u8]) -> usize
    requires { AllHold lines.now × (length (rows_of lines.now) ≤ length out.old) }
    ensures placed { out.new ≡ placed out.old 0 (rows_of lines.now) }
    ensures size { result ≡ length (rows_of lines.now) }
{
    let mut end: usize = 0;
    for &line in lines {
        end += put_row(line, &mut out[end..]);
    }
    end
}

// The rows of a report at the start of lent memory, the verdict's last.
pub(crate) fn put_report(lines: &Lines, out: &mut [u8])
    requires { AllHold lines.now × (length (rows_of lines.now) + byte_row_size ≤ length out.old) }
    ensures { out.new ≡ placed out.old 0 (rows_of lines.now ++ verdict_row (verdict_of lines.now)) }
{
    let end = put_lines(lines.as_slice(), out);
    let verdict = verdict_of(lines.tally());
    put_body(RowKind::Verdict, &[verdict.number()], &mut out[end..]);
}
