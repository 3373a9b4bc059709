// A record of a supplement: its key and its fields.
ghost use Rattle.std.specs.Prelude.{◌≡◌, ◌<◌, drop};
ghost use Rattle.catalogue.specs.Kind.{kind_number};
ghost use Rattle.catalogue.specs.Record.{record_kind, has_key, two, four, slot_row, prn_row};
ghost use Rattle.frame.specs.Bytes.{all_zero};
ghost use Rattle.catalogue.specs.Record.{header_fits, selector_length, selector_bytes, selector_fits, layout_fits, in_range, in_sae};

use crate::kind::{Kind, MOST_PRNS};
use crate::rows::{PrnRow, SlotRow, prn_fits, slot_fits};
use crate::sae;
use frame::bytes::byte_at;

// Where the fields of a SLOT's key and of a PRN's stand.
const SLOT_FORM: usize = 1;

const SLOT_WIDTH: usize = 2;

const SLOT_NUMBER: usize = 3;

const PRN_NUMBER: usize = 1;

// Where the selector's length stands in a layout and in a selector record; behind it a layout has its selector, of at most so many
// bytes.
pub(crate) const SELECTOR_LENGTH: usize = 3;

const LAYOUT_SELECTOR: usize = 4;

const MOST_SELECTOR: usize = 2;

// Where a layout's count stands, and where its PRNs begin.
pub(crate) const LAYOUT_COUNT: usize = 6;

pub(crate) const LAYOUT_PRNS: usize = 7;

// Two bytes, of which one test serves both but at the end.
#[tactic(auto, unfolding(crate::specs::Record::two))]
pub(crate) fn two_at(bytes: &[u8], i: usize) -> u16
    requires { i < 64 }
    ensures { result ≡ two bytes.now i }
{
    if i + 1 < bytes.len() {
        u16::from_be_bytes([bytes[i], bytes[i + 1]])
    } else {
        byte_at(bytes, i) as u16 * 256
    }
}

// Four bytes, as two numbers of two: any of them may lie past the end, so there is no array to convert.
#[tactic(auto, unfolding(crate::specs::Record::four))]
pub(crate) fn four_at(bytes: &[u8], i: usize) -> u32
    requires { i < 60 }
    ensures { result ≡ four bytes.now i }
{
    let high = two_at(bytes, i);
    let low = two_at(bytes, i + 2);
    high as u32 * 65536 + low as u32
}

#[tactic(auto, unfolding(crate::specs::Record::slot_row))]
pub(crate) fn slot_of(bytes: &[u8]) -> SlotRow
    ensures { result ≡ slot_row bytes.now }
{
    SlotRow {
        form: byte_at(bytes, SLOT_FORM),
        width: byte_at(bytes, SLOT_WIDTH),
        number: two_at(bytes, SLOT_NUMBER),
        multiplier: two_at(bytes, 5),
        divisor: two_at(bytes, 7),
        offset: four_at(bytes, 9),
        lowest: four_at(bytes, 13),
        highest: four_at(bytes, 17),
    }
}

#[tactic(auto, unfolding(crate::specs::Record::prn_row))]
pub(crate) fn prn_of(bytes: &[u8]) -> PrnRow
    ensures { result ≡ prn_row bytes.now }
{
    PrnRow {
        prn: two_at(bytes, PRN_NUMBER),
        form: byte_at(bytes, 3),
        width: byte_at(bytes, 4),
        slot: two_at(bytes, 5),
    }
}

// Whether a record starts with that kind and key. The last byte goes first: there keys differ most often.
pub(crate) fn has_key(key: &[u8], bytes: &[u8]) -> bool
    ensures { result ≡ has_key key.now bytes.now }
{
    let [front @ .., last] = key else {
        return true;
    };
    if bytes.len() <= front.len() {
        return false;
    }
    if bytes[front.len()] != *last {
        return false;
    }
    bytes.starts_with(front)
}

// Whether every byte is zero. All are read: frame's `is_zero`, which stops at the first that isn't, takes longer.
#[tactic(auto, using(crate::proofs::record::Laws::none_joined))]
fn all_zero(bytes: &[u8]) -> bool
    ensures { result ≡ all_zero bytes.now }
{
    bytes.iter().fold(0, |any, &b| any | b) == 0
}

// The same from a place on.
fn zero_from(bytes: &[u8], from: usize) -> bool
    ensures { result ≡ all_zero (drop from bytes.now) }
{
    bytes.get(from..).is_none_or(|rest| all_zero(rest))
}

#[tactic(auto, unfolding(crate::specs::Record::header_fits))]
fn header_fits(first: u8, target: u8) -> bool
    ensures { result ≡ header_fits first target }
{
    if (first >> 4) & 1 == 0 {
        first >> 5 == 0
    } else {
        target == 0
    }
}

// The header and the selector's length, of a layout too.
#[tactic(auto, unfolding(crate::specs::Record::selector_fits))]
fn selector_fits(bytes: &[u8]) -> bool
    ensures { result ≡ selector_fits bytes.now }
{
    header_fits(byte_at(bytes, 1), byte_at(bytes, 2))
        && byte_at(bytes, SELECTOR_LENGTH) as usize <= MOST_SELECTOR
}

// Whether the selector bytes of a layout that its length leaves unused are zero.
fn unused_zero(bytes: &[u8]) -> bool
    ensures { result ≡ all_zero (drop (selector_length bytes.now) (selector_bytes bytes.now)) }
{
    let selector = [
        byte_at(bytes, LAYOUT_SELECTOR),
        byte_at(bytes, LAYOUT_SELECTOR + 1),
    ];
    zero_from(&selector, byte_at(bytes, SELECTOR_LENGTH) as usize)
}

#[tactic(auto, unfolding(crate::specs::Record::layout_fits))]
fn layout_fits(bytes: &[u8]) -> bool
    ensures { result ≡ layout_fits bytes.now }
{
    let count = byte_at(bytes, LAYOUT_COUNT) as usize;
    selector_fits(bytes)
        && unused_zero(bytes)
        && count <= MOST_PRNS
        && zero_from(bytes, LAYOUT_PRNS + count * 2)
}

// Whether every field of a record of that kind is in its range.
#[tactic(auto, unfolding(crate::specs::Record::in_range))]
pub(crate) fn in_range(kind: Kind, bytes: &[u8]) -> bool
    requires { kind_number kind ≡ record_kind bytes.now }
    ensures { result ≡ in_range bytes.now }
{
    match kind {
        Kind::Slot => slot_fits(slot_of(bytes)),
        Kind::Prn => prn_fits(prn_of(bytes)),
        Kind::Layout => layout_fits(bytes),
        Kind::Selector => selector_fits(bytes),
    }
}

// Whether the key is in the SAE tables, which have SLOTs and PRNs. Only the key is read: to read the whole row takes longer.
#[tactic(auto, unfolding(crate::specs::Record::in_sae, crate::specs::Record::slot_row, crate::specs::Record::prn_row))]
pub(crate) fn in_sae(kind: Kind, bytes: &[u8]) -> bool
    requires { kind_number kind ≡ record_kind bytes.now }
    ensures { result ≡ in_sae bytes.now }
{
    match kind {
        Kind::Slot => {
            let form = byte_at(bytes, SLOT_FORM);
            let width = byte_at(bytes, SLOT_WIDTH);
            sae::slot_row(form, width, two_at(bytes, SLOT_NUMBER)).is_some()
        }
        Kind::Prn => sae::prn_row(two_at(bytes, PRN_NUMBER)).is_some(),
        Kind::Layout => false,
        Kind::Selector => false,
    }
}
