// The lines of a group: the items of a layout's PRNs in a window of bits, and what they leave.
ghost use Rattle.std.specs.Prelude.{◌≡◌, Some, [], ◌∷◌, ◌++◌, ◌+◌, ◌≤◌, ◌<◌, length};
ghost use Rattle.catalogue.specs.Record.{most_prns};
ghost use Rattle.catalogue.specs.Lookup.{catalogue};
ghost use Rattle.report.specs.Report.{remainder_at, group_of, group_lines};
ghost use Rattle.report.specs.Inner.{most_lines};
ghost use Rattle.report.specs.Window.{part_in};

use crate::items::item_line;
use crate::line::{Line, Reason};
use crate::lines::Lines;
use crate::spots::{Cursor, Place};
use crate::window::Window;
use catalogue::accept::Supplement;
use catalogue::layout::Layout;

#[tactic(auto, unfolding(crate::specs::Report::remainder_at))]
fn remainder_line(cursor: Cursor) -> Line
    ensures { result ≡ remainder_at cursor.to cursor.place }
{
    match cursor.place {
        Place::Bit(at) => Line::Left(cursor.to - at),
        Place::Lost => Line::Unknown(Reason::PlaceLost),
        Place::Past => Line::Short,
    }
}

// The lines of a layout's items, and of what they leave.
fn add_items(lines: &mut Lines, supplement: &Supplement, window: Window, prns: &[u16])
    requires { length lines.old + length prns.now < most_lines }
    ensures { lines.new ≡ lines.old
        ++ group_lines (group_of (catalogue supplement.now.bytes.now) (Some (record { prns = prns.now })) (part_in window.entry) ∷ []) }
{
    let mut cursor = window.start();
    for &prn in prns {
        let spot = cursor.spot_of(supplement, prn);
        lines.push(item_line(supplement, window, spot));
        cursor = cursor.behind(spot);
    }
    lines.push(remainder_line(cursor));
}

// The lines of one group more. Without a layout one line says so.
#[tactic(auto, unfolding(crate::specs::Report::group_of, crate::specs::Report::group_lines))]
pub(crate) fn add_group(
    lines: &mut Lines,
    supplement: &Supplement,
    window: Window,
    layout: Option<Layout>,
)
    requires { length lines.old + most_prns < most_lines }
    ensures { lines.new ≡ lines.old ++ group_lines (group_of (catalogue supplement.now.bytes.now) layout (part_in window.entry) ∷ []) }
{
    match layout {
        Some(layout) => add_items(lines, supplement, window, layout.prns()),
        None => lines.push(Line::Unknown(Reason::NoLayout)),
    }
}
