// The line of an item, from where it lies and its SLOT.
ghost use Rattle.std.specs.Prelude.{◌≡◌, ◌≤◌};
ghost use Rattle.catalogue.specs.Lookup.{catalogue};
ghost use Rattle.report.specs.Bits.{cut};
ghost use Rattle.report.specs.Scaling.{form_line};
ghost use Rattle.report.specs.Items.{slot_line, item_line};
ghost use Rattle.report.specs.Inner.{Lying};

use crate::bits::cut_bits;
use crate::line::{Line, Reason};
use crate::scaling::{Item, WIDEST_SHOWN};
use crate::spots::Spot;
use crate::window::Window;
use catalogue::accept::Supplement;
use catalogue::rows::{BMM, PrnRow, SlotRow};

// The line of an item whose SLOT was found.
#[tactic(auto, using(crate::proofs::bits::Laws::cut_lt, crate::proofs::scaling::Laws::form_high, crate::proofs::scaling::Laws::form_wide))]
fn known_line(slot: SlotRow, bytes: &[u8], at: u8) -> Line
    requires { 1 ≤ slot.width }
    ensures { result ≡ form_line slot.form slot.width slot (cut bytes.now at slot.width) }
{
    if BMM <= slot.form {
        return Line::Unknown(Reason::NotShown);
    }
    if WIDEST_SHOWN < slot.width {
        return Line::Unknown(Reason::TooWide);
    }
    let raw = cut_bits(bytes, at, slot.width);
    let item = Item { slot, raw };
    item.line()
}

// The line of an item that lies from a bit on.
fn slot_line(supplement: &Supplement, bytes: &[u8], row: PrnRow, at: u8) -> Line
    requires { 1 ≤ row.width }
    ensures { result ≡ slot_line ((catalogue supplement.now.bytes.now).slot row.form row.width row.slot) row bytes.now at }
{
    match supplement.slot(row.form, row.width, row.slot) {
        Some(slot) => known_line(slot, bytes, at),
        None => Line::Unknown(Reason::NoSlot),
    }
}

// The line of an item by its spot.
#[tactic(auto, unfolding(crate::specs::Items::item_line))]
pub(crate) fn item_line(supplement: &Supplement, window: Window, spot: Spot) -> Line
    requires { Lying window.to spot }
    ensures { result ≡ item_line (catalogue supplement.now.bytes.now).slot window.entry.bytes.now spot }
{
    match spot {
        Spot::Astray => Line::Unknown(Reason::PlaceLost),
        Spot::Beyond => Line::Short,
        Spot::Rowless => Line::Unknown(Reason::NoPrn),
        Spot::Over => Line::Short,
        Spot::Lies(row, at) => slot_line(supplement, window.bytes, row, at),
    }
}
