// A filter of keys: a key whose bit is not set is surely new.
ghost use Rattle.std.specs.Prelude.{◌≡◌};
ghost use Rattle.catalogue.specs.Inner.{bit_of, Marks};

use crate::record::two_at;
use frame::bytes::byte_at;

// The bits of a filter, and what spreads kinds and keys over them.
const FILTER_BITS: usize = 65536;

const KIND_STEP: usize = 21845;

const KEY_STEP: usize = 40503;

const LAST_STEP: usize = 256;

const WORD_BITS: usize = 64;

// The place of a key's bit. Two PRNs never share a bit, nor do two SLOTs of one form and width, nor two layouts of one header and
// selector length.
fn bit_of(key: &[u8]) -> usize
    ensures { result ≡ bit_of key.now }
{
    let kind = byte_at(key, 0);
    let near = two_at(key, 1);
    let far = two_at(key, 3);
    let last = byte_at(key, 5);
    (kind as usize * KIND_STEP
        + near as usize * KEY_STEP
        + far as usize
        + last as usize * LAST_STEP)
        % FILTER_BITS
}

// Sets the bit of a key, and tells whether it was set. Where the filter has fewer words than bits need, its words, a power of two,
// serve several times over; a filter of no words counts as full.
pub(crate) fn mark(filter: &mut [u64], key: &[u8]) -> bool
    ensures { Marks filter.old filter.new key.now result }
{
    if filter.len() == 0 {
        return true;
    }
    let bit = bit_of(key);
    let at = (bit / WORD_BITS) & (filter.len() - 1);
    let place = bit % WORD_BITS;
    let word = filter[at];
    filter[at] = word | (1 << place);
    (word >> place) & 1 == 1
}
