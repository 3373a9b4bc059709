// A record of the adapter's stream.
ghost use Rattle.std.specs.Prelude.{◌≡◌, false, length, MatchOption};
ghost use Rattle.stream.specs.Record.{runs_fit, frame_record_size};
ghost use Rattle.stream.specs.Inner.{kind_at, size_of, LengthsOf};

use frame::bytes::{byte_at, is_zero};
use frame::frame::{MOST_BYTES, Runs};

pub(crate) const FRAME_RECORD: usize = 15;

pub(crate) const TICK_RECORD: usize = 5;

// Where the two lengths of a frame record stand, and where its runs begin.
const FIRST_LENGTH: usize = 1;

const SECOND_LENGTH: usize = 2;

pub(crate) const RUNS_AT: usize = 3;

// The kinds: "kind 1 with body 14 is a frame"; "kind 2 with body 4 is a tick". An unknown kind is one too, of one byte, and is told.
#[derive(Clone, Copy, PartialEq, Eq)]
pub(crate) enum Kind {
    Frame,
    Tick,
    Unknown,
}

// This and `size` are asked of each byte of a stream. They test in turn: a match becomes a table, and was a quarter slower.
impl From<u8> for Kind {
    ghost from_gives = { λ byte kind. kind ≡ kind_at byte };

    fn from(byte: u8) -> Kind {
        if byte == 1 {
            Kind::Frame
        } else if byte == 2 {
            Kind::Tick
        } else {
            Kind::Unknown
        }
    }
}

impl Kind {
    // How many bytes a record has; one of an unknown kind is one byte.
    pub(crate) fn size(self) -> usize
        ensures { result ≡ size_of self }
    {
        if self == Kind::Frame {
            FRAME_RECORD
        } else if self == Kind::Tick {
            TICK_RECORD
        } else {
            1
        }
    }
}

// The lengths of the two runs of a whole frame record, if they lie within twelve bytes and the unused ones are zero.
#[tactic(auto, using(crate::proofs::record::Laws::fit_over, crate::proofs::record::Laws::fit_unused, std::proofs::lemmas::List::take_rest))]
pub(crate) fn lengths_in(bytes: &[u8]) -> Option<Runs>
    requires { length bytes.now ≡ frame_record_size }
    ensures { MatchOption result (runs_fit bytes.now ≡ false) (λ runs. LengthsOf runs bytes.now) }
{
    let first = byte_at(bytes, FIRST_LENGTH) as usize;
    let response = byte_at(bytes, SECOND_LENGTH) as usize;
    let size = first + response;
    if MOST_BYTES < size {
        return None;
    }
    let unused = RUNS_AT + size;
    if !is_zero(&bytes[unused..]) {
        return None;
    }
    Some(Runs { first, response })
}
