// What the SAE tables and a supplement hold together: by PRN, by form, width and number, by header, and by layout key.
ghost use Rattle.std.specs.Prelude.{◌≡◌};
ghost use Rattle.catalogue.specs.Lookup.{catalogue, length_for};

use crate::kind::Kind;
use crate::layout::Layout;
use crate::record::{SELECTOR_LENGTH, prn_of, slot_of};
use crate::rows::{PrnRow, SlotRow};
use crate::sae::{prn_row, slot_row};
use crate::supplement::find_record;
use frame::bytes::byte_at;

// The selector's length where a supplement has none for the header.
const USUAL_LENGTH: u8 = 1;

// The row of a PRN, whatever the supplement: the SAE row if there is one, else the supplement's. Docs name this and `find_slot`, which
// differs in key and row alone; what they share is `or_else` and `map`.
#[tactic(auto, unfolding(crate::specs::Lookup::catalogue_of))]
pub fn find_prn(s: &[u8], prn: u16) -> Option<PrnRow>
    ensures { result ≡ (catalogue s.now).prn prn }
{
    prn_row(prn).or_else(|| {
        let [high, low] = prn.to_be_bytes();
        let key = [Kind::Prn as u8, high, low];
        find_record(s, &key).map(|record| prn_of(record))
    })
}

// The SLOT of a form, width and number, parameters of their own as docs have them, whatever the supplement. A form is a number here, as in
// a row: this answers for every byte.
#[tactic(auto, unfolding(crate::specs::Lookup::catalogue_of))]
pub fn find_slot(s: &[u8], form: u8, width: u8, number: u16) -> Option<SlotRow>
    ensures { result ≡ (catalogue s.now).slot form width number }
{
    slot_row(form, width, number).or_else(|| {
        let [high, low] = number.to_be_bytes();
        let key = [Kind::Slot as u8, form, width, high, low];
        find_record(s, &key).map(|record| slot_of(record))
    })
}

// The selector's length for a header, given as its first byte and target, as a record has them, whatever the supplement.
#[tactic(auto, unfolding(crate::specs::Lookup::catalogue_of, crate::specs::Lookup::length_for))]
pub fn find_length(s: &[u8], first: u8, target: u8) -> u8
    ensures { result ≡ length_for (catalogue s.now) first target }
{
    let key = [Kind::Selector as u8, first, target];
    find_record(s, &key).map_or(USUAL_LENGTH, |record| byte_at(record, SELECTOR_LENGTH))
}

// The layout of a kind and key, whatever the supplement.
#[tactic(auto, unfolding(crate::specs::Lookup::catalogue_of))]
pub fn find_layout(s: &[u8], key: &[u8]) -> Option<Layout>
    ensures { result ≡ (catalogue s.now).layout key.now }
{
    find_record(s, key).map(|record| Layout::of(record))
}
