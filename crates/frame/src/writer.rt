// Writing a frame of J1850: parts without check bytes to two byte runs in lent memory.
ghost use Rattle.std.specs.Prelude.{◌≡◌, ◌+◌, ◌≤◌, length};
ghost use Rattle.frame.specs.Bytes.{placed};
ghost use Rattle.frame.specs.Refusal.{number_of, told_by};
ghost use Rattle.frame.specs.Response.{sent};
ghost use Rattle.frame.specs.Frame.{frame_size, runs, writing_of, out_written, most_bytes};
ghost use Rattle.frame.specs.Writer.{frame_of, write_refusal, write_frame};

use crate::bytes::put;
use crate::check_byte::Crc;
use crate::count::{DATA_GIVEN, accept_count};
use crate::frame::{MOST_BYTES, Runs};
use crate::header::{header_size, kind_asked};
use crate::refusal::Refusal;
use crate::response::ResponseKind;
use crate::seal::{put_sealed, seal};

// How many bytes the parts make with their check bytes. Here and below the parts are parameters of their own, as C has them: a struct
// would serve two functions.
#[tactic(auto, unfolding(crate::specs::Writer::frame_of, crate::specs::Response::sent, crate::specs::CheckByte::sealed, crate::specs::Seal::sealed_by))]
fn frame_size(header: &[u8], body: &[u8], response: &[u8]) -> usize
    requires { (length header.now ≤ most_bytes) × (length body.now ≤ most_bytes) × (length response.now ≤ most_bytes) }
    ensures { result ≡ frame_size (frame_of header.now body.now response.now) }
{
    let n = header.len() + body.len() + 1 + response.len();
    if kind_asked(header) == ResponseKind::Data {
        n + 1
    } else {
        n
    }
}

// The first of the refusals 7, 4, 50, 51, 53, 1, 8 that applies.
#[tactic(auto, unfolding(crate::specs::Writer::write_refusal, crate::specs::Writer::write_rules, crate::specs::Writer::write_rules_with, crate::specs::Refusal::first_broken, crate::specs::Count::count_refusal, crate::specs::Count::count_rules))]
fn accept_parts(header: &[u8], body: &[u8], response: &[u8], room: usize) -> Result<(), Refusal>
    ensures { told_by number_of result ≡ write_refusal header.now body.now response.now room }
{
    if header.len() != header_size(header) {
        return Err(Refusal::HeaderWrong);
    }
    let kind = kind_asked(header);
    if kind == ResponseKind::Unassigned {
        return Err(Refusal::TypeUnassigned);
    }
    accept_count(kind, DATA_GIVEN, response.len())?;
    // each length by itself first, so that their sum fits
    if MOST_BYTES < body.len() {
        return Err(Refusal::TooLong);
    }
    if MOST_BYTES < response.len() {
        return Err(Refusal::TooLong);
    }
    let size = frame_size(header, body, response);
    if MOST_BYTES < size {
        return Err(Refusal::TooLong);
    }
    if room < size {
        return Err(Refusal::OutputShort);
    }
    Ok(())
}

// The response from a place on, with a check byte over its data alone if its kind has one. A place and no part of out, as in `seal`.
fn put_response(kind: ResponseKind, response: &[u8], out: &mut [u8], at: usize) -> usize
    requires { at + length (sent kind response.now) ≤ length out.old }
    ensures placed { out.new ≡ placed out.old at (sent kind response.now) }
    ensures size { result ≡ length (sent kind response.now) }
{
    put(response, &mut out[at..]);
    let n = response.len();
    if kind == ResponseKind::Data {
        seal::<Crc>(out, at, at + n);
        n + 1
    } else {
        n
    }
}

// Writes any parts: refused with `out` untouched, or the first run and then the response in `out`.
pub fn write_frame(
    header: &[u8],
    body: &[u8],
    response: &[u8],
    out: &mut [u8],
) -> Result<Runs, Refusal>
    ensures told { writing_of result ≡ runs (write_frame header.now body.now response.now (length out.old)) }
    ensures left { out.new ≡ out_written (write_frame header.now body.now response.now (length out.old)) out.old }
{
    accept_parts(header, body, response, out.len())?;
    let first = put_sealed::<Crc>(header, body, out);
    let behind = put_response(kind_asked(header), response, out, first);
    Ok(Runs {
        first,
        response: behind,
    })
}
