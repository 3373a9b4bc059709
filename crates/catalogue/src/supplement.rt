// A supplement as a run of records: the search for a key, and the test.
ghost use Rattle.std.specs.Prelude.{◌≡◌, ℕ, List, [], ◌∷◌, ◌++◌, ◌≤◌, length, is_some, option_copied, OnOk};
ghost use Rattle.frame.specs.Refusal.{told_by};
ghost use Rattle.catalogue.specs.Refusal.{number_of};
ghost use Rattle.catalogue.specs.Record.{key_of, record_with, FullKey, fault};
ghost use Rattle.catalogue.specs.Supplement.{records_of, largest_supplement, check, checked_of};
ghost use Rattle.catalogue.specs.Inner.{Covers, filter_bits};

use crate::filter::mark;
use crate::kind::Kind;
use crate::record::{has_key, in_range, in_sae};
use crate::records::Records;
use crate::refusal::{Fault, Refusal};
use frame::bytes::byte_at;

// The most bytes of a supplement.
const LARGEST: usize = 16384;

// Words of the filter: of a small supplement, of a middling one and of any.
const SMALL: usize = 256;

const SMALL_FILTER: usize = 8;

const MIDDLING: usize = 2048;

const MIDDLING_FILTER: usize = 128;

const FILTER: usize = 1024;

// The first record with that kind and key.
pub(crate) fn find_record<'a>(s: &'a [u8], key: &[u8]) -> Option<&'a [u8]>
    ensures { option_copied result ≡ record_with key.now (records_of s.now) }
{
    Records::of(s).find(|record| has_key(key, record))
}

// Whether a key is that of a record seen, searched only where the filter of those seen can't say that it is new. The filter then has
// the key too.
fn repeats(seen: &[u8], key: &[u8], filter: &mut [u64]) -> bool
    requires full { FullKey key.now }
    requires covered { Covers filter.old (records_of seen.now) }
    ensures found { result ≡ is_some (record_with key.now (records_of seen.now)) }
    ensures covered { (r : List ℕ) → key_of r ≡ key.now → Covers filter.new (records_of seen.now ++ r ∷ []) }
{
    mark(filter, key) && find_record(seen, key).is_some()
}

// The lowest refusal that applies to a record after those seen.
fn fault_of(seen: &[u8], bytes: &[u8], filter: &mut [u64]) -> Result<(), Refusal>
    requires { Covers filter.old (records_of seen.now) }
    ensures told { told_by number_of result ≡ fault (records_of seen.now) bytes.now }
    ensures covered { OnOk result (Covers filter.new (records_of seen.now ++ bytes.now ∷ [])) }
{
    let kind = Kind::try_from(byte_at(bytes, 0))?;
    if bytes.len() < kind.size() {
        return Err(Refusal::CutByEnd);
    }
    if !in_range(kind, bytes) {
        return Err(Refusal::OutsideRange);
    }
    if repeats(seen, &bytes[..kind.key_size()], filter) {
        return Err(Refusal::KeyRepeated);
    }
    if in_sae(kind, bytes) {
        return Err(Refusal::KeyInSae);
    }
    Ok(())
}

// The test of records with any filter, whatever its length and its bits.
fn check_records(s: &[u8], filter: &mut [u64]) -> Result<(), Fault>
    requires { length s.now ≤ largest_supplement }
    ensures { checked_of result ≡ check s.now }
{
    let mut at: usize = 0;
    for record in Records::of(s) {
        if let Err(refusal) = fault_of(&s[..at], record, filter) {
            return Err(Fault { refusal, place: at });
        }
        at += record.len();
    }
    Ok(())
}

// The same with a filter of so many words.
fn check_with<const WORDS: usize>(s: &[u8]) -> Result<(), Fault>
    requires words { WORDS ≤ filter_bits }
    requires size { length s.now ≤ largest_supplement }
    ensures { checked_of result ≡ check s.now }
{
    let mut filter = [0u64; WORDS];
    check_records(s, &mut filter)
}

// Tests any bytes: accepted, or the refusal and the place of the first record with a fault. Inlined, since its answer comes back through
// memory, and to copy it once more takes half as long as to test no records.
#[inline(always)]
pub fn check_supplement(s: &[u8]) -> Result<(), Fault>
    ensures { checked_of result ≡ check s.now }
{
    if LARGEST < s.len() {
        return Err(Fault {
            refusal: Refusal::TooLong,
            place: 0,
        });
    }
    // The filter's zeros take time too: it grows with the supplement.
    if s.len() <= SMALL {
        check_with::<SMALL_FILTER>(s)
    } else if s.len() <= MIDDLING {
        check_with::<MIDDLING_FILTER>(s)
    } else {
        check_with::<FILTER>(s)
    }
}
