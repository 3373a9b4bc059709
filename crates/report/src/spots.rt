// Where the items of a layout lie, from the rows of its PRNs alone.
ghost use Rattle.std.specs.Prelude.{◌≡◌, ◌≤◌, Some};
ghost use Rattle.catalogue.specs.Lookup.{catalogue};
ghost use Rattle.report.specs.Spots.{spot_at, spot_of, behind};
ghost use Rattle.report.specs.Inner.{Inside, Inside-prop, Lying};

use catalogue::accept::Supplement;
use catalogue::rows::PrnRow;

// Where the next item starts: at a bit; nowhere, as an earlier PRN was missing; or past the data. As Results, this and Spot would only say
// `Err` before all cases but one: each case has a line and a place behind it of its own, and no caller wants that one alone.
#[derive(Clone, Copy)]
pub enum Place {
    Bit(u8),
    Lost,
    Past,
}

// Where an item lies: nowhere, as the place is lost; behind one that was cut; its PRN has no row; it ends past the data; or from a bit on.
#[derive(Clone, Copy)]
pub enum Spot {
    Astray,
    Beyond,
    Rowless,
    Over,
    Lies(PrnRow, u8),
}

// A place in a window whose items end at a bit.
#[derive(Clone, Copy)]
pub(crate) struct Cursor {
    pub place: Place,
    pub to: u8,
    ghost inside: { Inside to place } by { Inside-prop to place },
}

// An item whose PRN was found.
#[tactic(auto, using(crate::proofs::spots::Laws::spot_over, crate::proofs::spots::Laws::spot_lies))]
fn spot_at(row: PrnRow, to: u8, at: u8) -> Spot
    requires { at ≤ to }
    ensures { result ≡ spot_at (Some row) to at }
{
    if to - at < row.width {
        return Spot::Over;
    }
    Spot::Lies(row, at)
}

impl Cursor {
    // The item of a PRN that starts here.
    #[tactic(auto, unfolding(crate::specs::Spots::spot_of, crate::specs::Spots::spot_at))]
    pub(crate) fn spot_of(self, supplement: &Supplement, prn: u16) -> Spot
        ensures { result ≡ spot_of (catalogue supplement.now.bytes.now).prn self.to self.place prn }
    {
        match self.place {
            Place::Lost => Spot::Astray,
            Place::Past => Spot::Beyond,
            Place::Bit(at) => match supplement.prn(prn) {
                Some(row) => spot_at(row, self.to, at),
                None => Spot::Rowless,
            },
        }
    }

    // The place behind an item.
    pub(crate) fn behind(self, spot: Spot) -> Cursor
        requires { Lying self.to spot }
        ensures place { result.place ≡ behind spot }
        ensures to { result.to ≡ self.to }
    {
        let place = match spot {
            Spot::Astray => Place::Lost,
            Spot::Beyond => Place::Past,
            Spot::Rowless => Place::Lost,
            Spot::Over => Place::Past,
            Spot::Lies(row, at) => Place::Bit(at + row.width),
        };
        Cursor { place, to: self.to }
    }
}
