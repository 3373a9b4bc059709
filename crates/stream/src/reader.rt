// The reader that is fed part after part.
ghost use Rattle.std.specs.Prelude.{◌≡◌, ◌≤◌, length, if◌then◌else◌};
ghost use Rattle.std.specs.Prelude.{Some, option_map};
ghost use Rattle.frame.specs.Refusal.{told_by};
ghost use Rattle.stream.specs.Refusal.{number_of};
ghost use Rattle.stream.specs.Record.{frame_record_size, kind_of, is_unknown_kind, tells};
ghost use Rattle.stream.specs.Stream.{place_behind};
ghost use Rattle.stream.specs.Reader.{position_of, passed, reach, taken, after, told_within};
ghost use Rattle.stream.specs.Reader.{within, runs_told, out_told, given_of, told_of, advanced_of, end_refusal};
ghost use Rattle.stream.specs.Inner.{is_open, is_to_tell, standing, WholeRecord};

use crate::record::{Kind, RUNS_AT, lengths_in};
use crate::refusal::Refusal;
use crate::state::{Sound, StreamState};
use frame::bytes::byte_at;
use frame::frame::Runs;

// What a call takes, and the state that it hands on.
#[derive(Clone, Copy)]
pub struct Advanced {
    pub taken: usize,
    pub state: StreamState,
}

// How far a call goes. As Advanced, but that the state there may hold all of a record, which `passed` leaves behind.
#[derive(Clone, Copy)]
struct Reached {
    taken: usize,
    state: StreamState,
    ghost within: { state.count ≤ frame_record_size },
}

impl StreamState {
    // Whether a frame or refusal stands there: a whole record that is no tick.
    fn is_telling(&self) -> bool
        ensures { result ≡ is_to_tell self.now.count (kind_of self.now.held) }
    {
        !self.is_partial() && self.kind() != Kind::Tick
    }

    // Behind a whole record: the place of the next, and whether reading stops.
    fn place_behind(&self) -> u64
        ensures { result ≡ (if is_open self.now.count (kind_of self.now.held) then self.now.place else place_behind self.now.place self.now.count) }
    {
        if self.is_partial() {
            self.place
        } else {
            self.place.wrapping_add(self.count as u64)
        }
    }

    fn stopped_behind(&self) -> bool
        ensures { result ≡ (if is_open self.now.count (kind_of self.now.held) then self.now.stopped else is_unknown_kind (kind_of self.now.held)) }
    {
        if self.is_partial() {
            self.stopped
        } else {
            self.kind() == Kind::Unknown
        }
    }
}

impl Reached {
    // Behind a whole record: the state at the next, stopped if the kind is unknown.
    fn passed(self) -> StreamState
        ensures { position_of result ≡ passed (standing self.state) }
    {
        let there = self.state;
        StreamState {
            place: there.place_behind(),
            stopped: there.stopped_behind(),
            count: there.count_behind(),
            ..there
        }
    }
}

// The part up to the end of the first record that is no tick, or all of it; none of it once reading has stopped. The loop is left by
// `break`, and `passed` is not called: where two ways meet, or a state is handed over, the array is copied.
fn reach(sound: Sound, part: &[u8]) -> Reached
    ensures taken { result.taken ≡ taken (standing sound.state) part.now }
    ensures position { standing result.state ≡ (reach (standing sound.state) part.now).position }
{
    let mut state = sound.state;
    let mut taken = if state.stopped { 0 } else { part.len() };
    for (i, &byte) in part[..taken].iter().enumerate() {
        state.held[state.count] = byte;
        state.count += 1;
        if state.is_telling() {
            taken = i + 1;
            break;
        }
        state.place = state.place_behind();
        state.count = state.count_behind();
    }
    Reached { taken, state }
}

// What a whole record other than a tick tells, with the runs of a frame in `out`.
fn give(bytes: &[u8], out: &mut [u8]) -> Result<Runs, Refusal>
    requires { WholeRecord bytes.now }
    ensures told { Some (given_of result) ≡ runs_told (option_map (within (length out.old)) (tells bytes.now)) }
    ensures left { out.new ≡ out_told (option_map (within (length out.old)) (tells bytes.now)) out.old }
{
    let Kind::Frame = Kind::from(byte_at(bytes, 0)) else {
        return Err(Refusal::KindUnknown);
    };
    let Some(runs) = lengths_in(bytes) else {
        return Err(Refusal::RecordWrong);
    };
    let size = runs.first + runs.response;
    if out.len() < size {
        return Err(Refusal::OutputShort);
    }
    out[..size].copy_from_slice(&bytes[RUNS_AT..RUNS_AT + size]);
    Ok(runs)
}

impl StreamState {
    // Tells what comes first in the part: the length of each run of a frame, or a refusal. The state is not moved.
    pub fn tell(self, part: &[u8], out: &mut [u8]) -> Result<Option<Runs>, Refusal>
        ensures told { told_of result ≡ runs_told (told_within (position_of self) part.now (length out.old)) }
        ensures left { out.new ≡ out_told (told_within (position_of self) part.now (length out.old)) out.old }
    {
        let there = reach(self.sound(), part).state;
        if !there.is_telling() {
            return Ok(None);
        }
        let runs = give(&there.held[..there.count], out)?;
        Ok(Some(runs))
    }

    // The bytes that the telling call takes, and the state behind them.
    pub fn advance(self, part: &[u8]) -> Advanced
        ensures { advanced_of result ≡ record { position = after (position_of self) part.now; taken = taken (position_of self) part.now } }
    {
        let reached = reach(self.sound(), part);
        Advanced {
            taken: reached.taken,
            state: reached.passed(),
        }
    }

    // The refusal of a stream that ends in this state.
    #[tactic(auto, using(crate::proofs::reader::Laws::end_none, crate::proofs::reader::Laws::end_begun))]
    pub fn end_refusal(self) -> Result<(), Refusal>
        ensures { told_by number_of result ≡ end_refusal (position_of self) }
    {
        let begun = self.sound().state;
        if begun.stopped || begun.count == 0 {
            Ok(())
        } else {
            Err(Refusal::Cut)
        }
    }
}
