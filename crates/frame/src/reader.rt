// Reading a frame of J1850: two byte runs to its parts.
ghost use Rattle.std.specs.Prelude.{◌≡◌};
ghost use Rattle.frame.specs.Refusal.{number_of, told_by};
ghost use Rattle.frame.specs.Frame.{reading_of};
ghost use Rattle.frame.specs.Reader.{read_refusal, read_frame};

use crate::check_byte::Crc;
use crate::count::{DATA_SENT, accept_count};
use crate::frame::{MOST_BYTES, Parts};
use crate::header::{header_size, kind_asked};
use crate::refusal::Refusal;
use crate::response::ResponseKind;
use crate::seal::is_sealed;

// The first of the refusals 1, 2, 3, 4, 50, 51, 52, 53, 6 that applies. The two runs are parameters of their own, as C has
// them.
#[tactic(auto, using(crate::proofs::header::Laws::header_range), unfolding(crate::specs::Reader::read_refusal, crate::specs::Reader::read_rules, crate::specs::Reader::read_rules_with, crate::specs::Refusal::first_broken, crate::specs::Count::count_refusal, crate::specs::Count::count_rules))]
fn accept_runs(first: &[u8], response: &[u8]) -> Result<(), Refusal>
    ensures { told_by number_of result ≡ read_refusal first.now response.now }
{
    let n = first.len();
    let m = response.len();
    if MOST_BYTES < n + m {
        return Err(Refusal::TooLong);
    }
    if n < header_size(first) + 1 {
        return Err(Refusal::TooShort);
    }
    if !is_sealed::<Crc>(first) {
        return Err(Refusal::CheckWrong);
    }
    let kind = kind_asked(first);
    if kind == ResponseKind::Unassigned {
        return Err(Refusal::TypeUnassigned);
    }
    accept_count(kind, DATA_SENT, m)?;
    if kind == ResponseKind::Data && !is_sealed::<Crc>(response) {
        return Err(Refusal::ResponseCheckWrong);
    }
    Ok(())
}

// Reads any two runs: refused, or the parts of an accepted frame.
pub fn read_frame<'a>(first: &'a [u8], response: &'a [u8]) -> Result<Parts<'a>, Refusal>
    ensures { reading_of result ≡ read_frame first.now response.now }
{
    accept_runs(first, response)?;
    let kind = kind_asked(first);
    let size = kind.response_size(response.len());
    Ok(Parts::at(header_size(first), first, kind, &response[..size]))
}
