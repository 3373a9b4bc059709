// The calls that c_api_c exports to C, each bus with names of its own: numbers and byte slices in, one number out. include/rakhubole.h says
// them in words.
#![tactic(auto)]

ghost use Rattle.std.specs.Prelude.{◌≡◌, ◌<◌, length};
ghost use Rattle.frame.specs.Frame.{sizes, reading_of, runs, writing_of, out_written};
ghost use Rattle.frame.specs.Reader.{read_frame};
ghost use Rattle.frame.specs.Writer.{write_frame};
ghost use Rattle.frame.specs.Iso.{read_iso, write_iso};
ghost use Rattle.catalogue.specs.Supplement.{check, checked_of};
ghost use Rattle.report.specs.Answer.{j1850_answer, iso_answer, sized, out_after, reported_of};
ghost use Rattle.stream.specs.Reader.{told_within, runs_told, out_told, told_of, taken, after, end_refusal};
ghost use Rattle.stream.specs.State.{position_in, bytes_of};
ghost use Rattle.c_api.specs.Words.{byte3, read_word, write_word, check_word, report_word, stream_word};
ghost use Rattle.c_api.specs.Inner.{SmallAnswer};

use catalogue::refusal::Fault;
use catalogue::supplement::check_supplement;
use frame::frame::{Parts, Runs};
use frame::iso::{read_iso, write_iso};
use frame::reader::read_frame;
use frame::refusal::Refusal;
use frame::writer::write_frame;
use stream::state::{STATE_BYTES, StreamState};

// C takes one number for an answer: byte 0 is the refusal, and these are what one counts for in bytes 1 to 4. A place or a length of rows
// has more than one byte, so a word is a sum, as its definition is.
const BYTE_1: u64 = 0x100;

const BYTE_2: u64 = 0x1_0000;

const BYTE_3: u64 = 0x100_0000;

const BYTE_4: u64 = 0x1_0000_0000;

fn read_word(reading: Result<Parts, Refusal>) -> u64
    ensures { result ≡ read_word (sizes (reading_of reading.entry)) }
{
    match reading {
        Ok(parts) => {
            parts.header.len() as u64 * BYTE_1
                + parts.body.len() as u64 * BYTE_2
                + parts.kind.number() as u64 * BYTE_3
                + parts.response.len() as u64 * BYTE_4
        }
        Err(refusal) => refusal.number() as u64,
    }
}

fn write_word(writing: Result<Runs, Refusal>) -> u64
    ensures { result ≡ write_word (writing_of writing) }
{
    match writing {
        Ok(runs) => runs.first as u64 * BYTE_1 + runs.response as u64 * BYTE_2,
        Err(refusal) => refusal.number() as u64,
    }
}

fn check_word(checked: Result<(), Fault>) -> u64
    requires { (checked_of checked).place < byte3 }
    ensures { result ≡ check_word (checked_of checked) }
{
    match checked {
        Ok(()) => 0,
        Err(fault) => fault.refusal.number() as u64 + fault.place as u64 * BYTE_1,
    }
}

fn report_word(reported: Result<usize, report::refusal::Refusal>) -> u64
    requires { SmallAnswer (reported_of reported) }
    ensures { result ≡ report_word (reported_of reported) }
{
    match reported {
        Ok(size) => size as u64 * BYTE_1,
        Err(refusal) => refusal.number() as u64 + refusal.place() as u64 * BYTE_1,
    }
}

fn stream_word(told: Result<Option<Runs>, stream::refusal::Refusal>) -> u64
    ensures { result ≡ stream_word (told_of told) }
{
    match told {
        Ok(Some(runs)) => BYTE_1 + runs.first as u64 * BYTE_2 + runs.response as u64 * BYTE_3,
        Ok(None) => 0,
        Err(refusal) => refusal.number() as u64,
    }
}

// Reads a frame of J1850, given as its two runs.
pub fn rakhubole_j1850_read(first: &[u8], response: &[u8]) -> u64
    ensures { result ≡ read_word (sizes (read_frame first.now response.now)) }
{
    read_word(read_frame(first, response))
}

// Writes a frame of J1850 from its parts: the first run and then the response at the start of `out`.
pub fn rakhubole_j1850_write(header: &[u8], body: &[u8], response: &[u8], out: &mut [u8]) -> u64
    ensures told { result ≡ write_word (runs (write_frame header.now body.now response.now (length out.old))) }
    ensures left { out.new ≡ out_written (write_frame header.now body.now response.now (length out.old)) out.old }
{
    write_word(write_frame(header, body, response, out))
}

// Reads a message of ISO 9141-2, given as its run.
pub fn rakhubole_iso9141_read(run: &[u8]) -> u64
    ensures { result ≡ read_word (sizes (read_iso run.now)) }
{
    read_word(read_iso(run))
}

// Writes a message of ISO 9141-2 from its parts, at the start of `out`.
pub fn rakhubole_iso9141_write(header: &[u8], body: &[u8], out: &mut [u8]) -> u64
    ensures told { result ≡ write_word (runs (write_iso header.now body.now (length out.old))) }
    ensures left { out.new ≡ out_written (write_iso header.now body.now (length out.old)) out.old }
{
    write_word(write_iso(header, body, out))
}

// Tests a supplement.
pub fn rakhubole_supplement_check(supplement: &[u8]) -> u64
    ensures { result ≡ check_word (check supplement.now) }
{
    check_word(check_supplement(supplement))
}

// Reports a frame of J1850 under a supplement: the rows at the start of `out`.
pub fn rakhubole_j1850_report(
    supplement: &[u8],
    first: &[u8],
    response: &[u8],
    out: &mut [u8],
) -> u64
    ensures told { result ≡ report_word (sized (j1850_answer supplement.now first.now response.now (length out.old))) }
    ensures left { out.new ≡ out_after (j1850_answer supplement.now first.now response.now (length out.old)) out.old }
{
    report_word(report::j1850::report(supplement, first, response, out))
}

// Reports a message of ISO 9141-2 under a supplement: the rows at the start of `out`.
pub fn rakhubole_iso9141_report(supplement: &[u8], run: &[u8], out: &mut [u8]) -> u64
    ensures told { result ≡ report_word (sized (iso_answer supplement.now run.now (length out.old))) }
    ensures left { out.new ≡ out_after (iso_answer supplement.now run.now (length out.old)) out.old }
{
    report_word(report::iso::report(supplement, run, out))
}

// Tells what comes first in the next part of an adapter's stream, with the runs of a frame at the start of `out`.
pub fn rakhubole_stream_read(state: &[u8; STATE_BYTES], part: &[u8], out: &mut [u8]) -> u64
    ensures told { result ≡ stream_word (runs_told (told_within (position_in state.now) part.now (length out.old))) }
    ensures left { out.new ≡ out_told (told_within (position_in state.now) part.now (length out.old)) out.old }
{
    stream_word(StreamState::from(*state).tell(part, out))
}

// Advances the state over the bytes that the telling call takes.
pub fn rakhubole_stream_advance(state: &mut [u8; STATE_BYTES], part: &[u8]) -> u64
    ensures told { result ≡ taken (position_in state.old) part.now }
    ensures left { state.new ≡ bytes_of (after (position_in state.old) part.now) }
{
    let advanced = StreamState::from(*state).advance(part);
    *state = advanced.state.into();
    advanced.taken as u64
}

// The refusal of a stream that ends in this state.
pub fn rakhubole_stream_end(state: &[u8; STATE_BYTES]) -> u64
    ensures { result ≡ end_refusal (position_in state.now) }
{
    match StreamState::from(*state).end_refusal() {
        Ok(()) => 0,
        Err(refusal) => refusal.number() as u64,
    }
}

// The place of the record begun, or of the next.
pub fn rakhubole_stream_place(state: &[u8; STATE_BYTES]) -> u64
    ensures { result ≡ (position_in state.now).place }
{
    StreamState::from(*state).place
}
