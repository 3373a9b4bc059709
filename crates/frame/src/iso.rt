// Messages of ISO 9141-2: the sum byte, reading a run to its parts, writing parts to a run in lent memory.
ghost use Rattle.std.specs.Prelude.{◌≡◌, length};
ghost use Rattle.frame.specs.Refusal.{number_of, told_by};
ghost use Rattle.frame.specs.Frame.{reading_of, runs, writing_of, out_written};
ghost use Rattle.frame.specs.Iso.{sum_byte, wrong_first, iso_read_refusal, read_iso, iso_write_refusal, write_iso};

use crate::bytes::byte_at;
use crate::frame::{MOST_BYTES, Parts, Runs};
use crate::header::{H_PLACE, K_PLACE, THREE_BYTE_FORM, bit};
use crate::refusal::Refusal;
use crate::response::ResponseKind;
use crate::seal::{Check, is_sealed, put_sealed};

// The least that a message has: its header and its check byte.
const LEAST_BYTES: usize = THREE_BYTE_FORM + 1;

// The check byte of ISO 9141-2.
pub(crate) struct Sum;

impl Check for Sum {
    ghost check = { sum_byte };

    fn check(run: &[u8]) -> u8 {
        sum_byte(run)
    }
}

// The sum of a run's bytes modulo 256.
#[tactic(auto, using(crate::proofs::iso::Laws::sum_byte_fold))]
pub(crate) fn sum_byte(run: &[u8]) -> u8
    ensures { result ≡ sum_byte run.now }
{
    run.iter().fold(0, |sum, &b| sum.wrapping_add(b))
}

// Whether a run's first byte has H = 1 or K = 0.
#[tactic(auto, unfolding(crate::specs::Iso::wrong_first))]
fn wrong_first(run: &[u8]) -> bool
    ensures { result ≡ wrong_first run.now }
{
    let b = byte_at(run, 0);
    bit(b, H_PLACE) == 1 || bit(b, K_PLACE) == 0
}

// The first of the refusals 1, 2, 3, 9 that applies.
#[tactic(auto, unfolding(crate::specs::Iso::iso_read_refusal, crate::specs::Iso::iso_read_rules, crate::specs::Refusal::first_broken))]
fn accept_run(run: &[u8]) -> Result<(), Refusal>
    ensures { told_by number_of result ≡ iso_read_refusal run.now }
{
    if MOST_BYTES < run.len() {
        return Err(Refusal::TooLong);
    }
    if run.len() < LEAST_BYTES {
        return Err(Refusal::TooShort);
    }
    if !is_sealed::<Sum>(run) {
        return Err(Refusal::CheckWrong);
    }
    if wrong_first(run) {
        return Err(Refusal::FirstByteWrong);
    }
    Ok(())
}

// Reads any run: refused, or the parts of an accepted message.
pub fn read_iso<'a>(run: &'a [u8]) -> Result<Parts<'a>, Refusal>
    ensures { reading_of result ≡ read_iso run.now }
{
    accept_run(run)?;
    Ok(Parts::at(THREE_BYTE_FORM, run, ResponseKind::Empty, &[]))
}

// The first of the refusals 7, 9, 1, 8 that applies.
#[tactic(auto, using(crate::proofs::iso::Laws::frame_size_lem), unfolding(crate::specs::Iso::iso_write_refusal, crate::specs::Iso::iso_write_rules, crate::specs::Refusal::first_broken))]
fn accept_parts(header: &[u8], body: &[u8], room: usize) -> Result<(), Refusal>
    ensures { told_by number_of result ≡ iso_write_refusal header.now body.now room }
{
    if header.len() != THREE_BYTE_FORM {
        return Err(Refusal::HeaderWrong);
    }
    if wrong_first(header) {
        return Err(Refusal::FirstByteWrong);
    }
    // what is left for data, so that no sum is formed of lengths that could be too large
    if MOST_BYTES - LEAST_BYTES < body.len() {
        return Err(Refusal::TooLong);
    }
    if room < LEAST_BYTES + body.len() {
        return Err(Refusal::OutputShort);
    }
    Ok(())
}

// Writes any parts: refused with `out` untouched, or the message at the start of `out`.
pub fn write_iso(header: &[u8], body: &[u8], out: &mut [u8]) -> Result<Runs, Refusal>
    ensures told { writing_of result ≡ runs (write_iso header.now body.now (length out.old)) }
    ensures left { out.new ≡ out_written (write_iso header.now body.now (length out.old)) out.old }
{
    accept_parts(header, body, out.len())?;
    let first = put_sealed::<Sum>(header, body, out);
    Ok(Runs { first, response: 0 })
}
