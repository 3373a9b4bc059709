// A window of bits in data, from which a group of lines is read.
ghost use Rattle.std.specs.Prelude.{◌≡◌, ◌≤◌};

use crate::spots::{Cursor, Place};

// Bytes, the bit where the items begin, and the bit where they end. A frame holds so few bits that a byte counts them.
#[derive(Clone, Copy)]
pub(crate) struct Window<'a> {
    pub bytes: &'a [u8],
    pub from: u8,
    pub to: u8,
    ghost within: { from ≤ to },
}

impl Window<'_> {
    // Where the first item starts.
    pub(crate) fn start(self) -> Cursor
        ensures place { result.place ≡ Place.Bit self.entry.from }
        ensures to { result.to ≡ self.entry.to }
    {
        Cursor {
            place: Place::Bit(self.from),
            to: self.to,
        }
    }
}
