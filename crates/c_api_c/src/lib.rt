// The calls of c_api under their names in C, which has these names and words, so each is one call. include/rakhubole.h says them in words.
#![tactic(auto)]

ghost use Rattle.std.specs.Prelude.{◌≡◌, length};
ghost use Rattle.frame.specs.Frame.{sizes, runs, out_written};
ghost use Rattle.frame.specs.Reader.{read_frame};
ghost use Rattle.frame.specs.Writer.{write_frame};
ghost use Rattle.frame.specs.Iso.{read_iso, write_iso};
ghost use Rattle.catalogue.specs.Supplement.{check};
ghost use Rattle.report.specs.Answer.{j1850_answer, iso_answer, sized, out_after};
ghost use Rattle.stream.specs.Reader.{told_within, runs_told, out_told, taken, after, end_refusal};
ghost use Rattle.stream.specs.State.{position_in, bytes_of};
ghost use Rattle.c_api.specs.Words.{read_word, write_word, check_word, report_word, stream_word};

use stream::state::STATE_BYTES;

// Reads a frame of J1850, given as its two runs.
#[unsafe(no_mangle)]
pub extern "C" fn rakhubole_j1850_read(first: &[u8], response: &[u8]) -> u64
    ensures { result ≡ read_word (sizes (read_frame first.now response.now)) }
{
    c_api::rakhubole_j1850_read(first, response)
}

// Writes a frame of J1850 from its parts: the first run and then the response at the start of `out`.
#[unsafe(no_mangle)]
pub extern "C" fn rakhubole_j1850_write(
    header: &[u8],
    body: &[u8],
    response: &[u8],
    out: &mut [u8],
) -> u64
    ensures told { result ≡ write_word (runs (write_frame header.now body.now response.now (length out.old))) }
    ensures left { out.new ≡ out_written (write_frame header.now body.now response.now (length out.old)) out.old }
{
    c_api::rakhubole_j1850_write(header, body, response, out)
}

// Reads a message of ISO 9141-2, given as its run.
#[unsafe(no_mangle)]
pub extern "C" fn rakhubole_iso9141_read(run: &[u8]) -> u64
    ensures { result ≡ read_word (sizes (read_iso run.now)) }
{
    c_api::rakhubole_iso9141_read(run)
}

// Writes a message of ISO 9141-2 from its parts, at the start of `out`.
#[unsafe(no_mangle)]
pub extern "C" fn rakhubole_iso9141_write(header: &[u8], body: &[u8], out: &mut [u8]) -> u64
    ensures told { result ≡ write_word (runs (write_iso header.now body.now (length out.old))) }
    ensures left { out.new ≡ out_written (write_iso header.now body.now (length out.old)) out.old }
{
    c_api::rakhubole_iso9141_write(header, body, out)
}

// Tests a supplement.
#[unsafe(no_mangle)]
pub extern "C" fn rakhubole_supplement_check(supplement: &[u8]) -> u64
    ensures { result ≡ check_word (check supplement.now) }
{
    c_api::rakhubole_supplement_check(supplement)
}

// Reports a frame of J1850 under a supplement: the rows at the start of `out`.
#[unsafe(no_mangle)]
pub extern "C" fn rakhubole_j1850_report(
    supplement: &[u8],
    first: &[u8],
    response: &[u8],
    out: &mut [u8],
) -> u64
    ensures told { result ≡ report_word (sized (j1850_answer supplement.now first.now response.now (length out.old))) }
    ensures left { out.new ≡ out_after (j1850_answer supplement.now first.now response.now (length out.old)) out.old }
{
    c_api::rakhubole_j1850_report(supplement, first, response, out)
}

// Reports a message of ISO 9141-2 under a supplement: the rows at the start of `out`.
#[unsafe(no_mangle)]
pub extern "C" fn rakhubole_iso9141_report(supplement: &[u8], run: &[u8], out: &mut [u8]) -> u64
    ensures told { result ≡ report_word (sized (iso_answer supplement.now run.now (length out.old))) }
    ensures left { out.new ≡ out_after (iso_answer supplement.now run.now (length out.old)) out.old }
{
    c_api::rakhubole_iso9141_report(supplement, run, out)
}

// Tells what comes first in the next part of an adapter's stream, with the runs of a frame at the start of `out`.
#[unsafe(no_mangle)]
pub extern "C" fn rakhubole_stream_read(
    state: &[u8; STATE_BYTES],
    part: &[u8],
    out: &mut [u8],
) -> u64
    ensures told { result ≡ stream_word (runs_told (told_within (position_in state.now) part.now (length out.old))) }
    ensures left { out.new ≡ out_told (told_within (position_in state.now) part.now (length out.old)) out.old }
{
    c_api::rakhubole_stream_read(state, part, out)
}

// Advances the state over the bytes that the telling call takes.
#[unsafe(no_mangle)]
pub extern "C" fn rakhubole_stream_advance(state: &mut [u8; STATE_BYTES], part: &[u8]) -> u64
    ensures told { result ≡ taken (position_in state.old) part.now }
    ensures left { state.new ≡ bytes_of (after (position_in state.old) part.now) }
{
    c_api::rakhubole_stream_advance(state, part)
}

// The refusal of a stream that ends in this state.
#[unsafe(no_mangle)]
pub extern "C" fn rakhubole_stream_end(state: &[u8; STATE_BYTES]) -> u64
    ensures { result ≡ end_refusal (position_in state.now) }
{
    c_api::rakhubole_stream_end(state)
}

// The place of the record begun, or of the next.
#[unsafe(no_mangle)]
pub extern "C" fn rakhubole_stream_place(state: &[u8; STATE_BYTES]) -> u64
    ensures { result ≡ (position_in state.now).place }
{
    c_api::rakhubole_stream_place(state)
}
