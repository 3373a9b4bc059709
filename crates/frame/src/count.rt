// How many bytes a response may have, for reader and writer.
ghost use Rattle.std.specs.Prelude.{◌≡◌};
ghost use Rattle.frame.specs.Refusal.{number_of, told_by};
ghost use Rattle.frame.specs.Count.{bytes_needed, count_refusal};

use crate::refusal::Refusal;
use crate::response::ResponseKind;

// "kind 3 needs two bytes": the reader counts its check byte.
pub(crate) const DATA_SENT: usize = 2;

// "kind 3 needs one byte": the writer adds its check byte.
pub(crate) const DATA_GIVEN: usize = 1;

// The least that a kind needs; of_data is what kind 3 needs.
fn bytes_needed(kind: ResponseKind, of_data: usize) -> usize
    ensures { result ≡ bytes_needed kind of_data }
{
    match kind {
        ResponseKind::Empty | ResponseKind::Unassigned => 0,
        ResponseKind::Single | ResponseKind::Several => 1,
        ResponseKind::Data => of_data,
    }
}

// The first of the refusals 50 to 53 that applies to a response of n bytes.
#[tactic(auto, unfolding(crate::specs::Count::count_refusal, crate::specs::Count::count_rules, crate::specs::Refusal::first_broken))]
pub(crate) fn accept_count(kind: ResponseKind, of_data: usize, n: usize) -> Result<(), Refusal>
    ensures { told_by number_of result ≡ count_refusal kind of_data n }
{
    let needed = bytes_needed(kind, of_data);
    if kind == ResponseKind::Empty && 0 < n {
        return Err(Refusal::ResponseForbidden);
    }
    if 0 < needed && n == 0 {
        return Err(Refusal::ResponseMissing);
    }
    if 0 < n && n < needed {
        return Err(Refusal::ResponseTooFew);
    }
    if kind == ResponseKind::Single && 1 < n {
        return Err(Refusal::ResponseTooMany);
    }
    Ok(())
}
