// The state of the reader between calls: by value, and as the 24 bytes that a caller keeps.
ghost use Rattle.std.specs.Prelude.{◌≡◌, ◌≤◌, true, take, if◌then◌else◌};
ghost use Rattle.stream.specs.Reader.{position_of};
ghost use Rattle.stream.specs.Record.{kind_of, partial};
ghost use Rattle.stream.specs.State.{most_held, position_in, bytes_of};
ghost use Rattle.stream.specs.Inner.{is_open, kind_at, standing};

use crate::record::{FRAME_RECORD, Kind};

// Bytes 0 to 7 the place, byte 8 stopped, byte 9 the count, bytes 10 to 23 the bytes held.
pub const STATE_BYTES: usize = 24;

const STOPPED_AT: usize = 8;

const COUNT_AT: usize = 9;

const HELD_AT: usize = 10;

const MOST_HELD: usize = STATE_BYTES - HELD_AT;

// The place of the record begun, or of the next; whether reading has stopped; how many bytes of the record begun are held, and
// these, with room for a whole record: an array with its length beside it, since there is no heap and C's 24 bytes fix the room.
#[derive(Clone, Copy)]
pub struct StreamState {
    pub place: u64,
    pub stopped: bool,
    pub count: usize,
    pub held: [u8; FRAME_RECORD],
}

// A state between calls: what it holds of a record is not yet all of it.
#[derive(Clone, Copy)]
pub(crate) struct Sound {
    pub(crate) state: StreamState,
    ghost few: { state.count ≤ most_held },
    ghost open_record: { partial (take state.count state.held) ≡ true },
}

impl StreamState {
    // The kind of the record begun, by its first byte.
    pub(crate) fn kind(&self) -> Kind
        ensures { result ≡ kind_at (kind_of self.now.held) }
    {
        Kind::from(self.held[0])
    }

    // Whether the bytes held are not yet all of a record.
    #[tactic(auto, using(crate::proofs::record::Laws::size_kind))]
    pub(crate) fn is_partial(&self) -> bool
        ensures { result ≡ is_open self.now.count (kind_of self.now.held) }
    {
        self.count < self.kind().size()
    }

    // How many bytes are held once a whole record is left behind.
    pub(crate) fn count_behind(&self) -> usize
        ensures { result ≡ (if is_open self.now.count (kind_of self.now.held) then self.now.count else 0) }
    {
        if self.is_partial() { self.count } else { 0 }
    }

    // The state between calls that this stands for: a count that no partial record has is none.
    pub(crate) fn sound(self) -> Sound
        ensures { standing result.state ≡ position_of self }
    {
        let count = self.count_behind();
        Sound {
            state: StreamState { count, ..self },
        }
    }
}

// The state that 24 bytes are, whoever wrote them. A count of more than there are places counts as so many.
impl From<[u8; STATE_BYTES]> for StreamState {
    ghost from_gives = { λ bytes state. position_of state ≡ position_in bytes };

    fn from(bytes: [u8; STATE_BYTES]) -> StreamState {
        let [a, b, c, d, e, f, g, h, stopped, count, ..] = bytes;
        let mut held = [0u8; FRAME_RECORD];
        held[..MOST_HELD].copy_from_slice(&bytes[HELD_AT..]);
        StreamState {
            place: u64::from_be_bytes([a, b, c, d, e, f, g, h]),
            stopped: stopped != 0,
            count: (count as usize).min(MOST_HELD),
            held,
        }
    }
}

// The bytes of a state.
impl From<StreamState> for [u8; STATE_BYTES] {
    ghost from_gives = { λ state bytes. bytes ≡ bytes_of (position_of state) };

    fn from(state: StreamState) -> [u8; STATE_BYTES] {
        let begun = state.sound().state;
        let count = begun.count;
        let mut bytes = [0u8; STATE_BYTES];
        bytes[..STOPPED_AT].copy_from_slice(&begun.place.to_be_bytes());
        bytes[STOPPED_AT] = begun.stopped as u8;
        bytes[COUNT_AT] = count as u8;
        // All places are gone through: a copy of so many bytes is a call, and takes longer.
        for (i, &byte) in begun.held[..MOST_HELD].iter().enumerate() {
            if i < count {
                bytes[HELD_AT + i] = byte;
            }
        }
        bytes
    }
}
