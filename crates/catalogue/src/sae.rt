// The SAE rows by PRN, and by form, width and number.
ghost use Rattle.std.specs.Prelude.{◌≡◌};
ghost use Rattle.catalogue.specs.Sae.{prn_row_key, slot_row_key, packed, sae_prn, sae_slot};
ghost use Rattle.catalogue.specs.Tables.{prn_rows, slot_rows};

use crate::rows::{BMM, PrnRow, SlotRow};
use crate::search::{Row, row_with};
use crate::tables::{PRN_ROWS, SLOT_ROWS};

// SAE numbers its SLOTs no higher, so a higher number is not sought; nor is a form from BMM on, of which no SLOT is in the table.
const HIGHEST_NUMBER: u16 = 255;

impl Row for PrnRow {
    ghost key = { prn_row_key };

    fn key(&self) -> u32 {
        self.prn as u32
    }
}

impl Row for SlotRow {
    ghost key = { slot_row_key };

    fn key(&self) -> u32 {
        packed(self.form, self.width, self.number)
    }
}

// A SLOT's key as one number: form, then width, then number, as a sum, as the definition has it.
fn packed(form: u8, width: u8, number: u16) -> u32
    ensures { result ≡ packed form width number }
{
    (form as u32) * 0x100_0000 + (width as u32) * 0x1_0000 + number as u32
}

#[tactic(auto, unfolding(crate::specs::Tables::prn_rows))]
fn prn_rows() -> &'static [PrnRow]
    ensures { result.now ≡ prn_rows }
{
    &PRN_ROWS
}

#[tactic(auto, unfolding(crate::specs::Tables::slot_rows))]
fn slot_rows() -> &'static [SlotRow]
    ensures { result.now ≡ slot_rows }
{
    &SLOT_ROWS
}

// The SAE row of a PRN.
pub(crate) fn prn_row(prn: u16) -> Option<PrnRow>
    ensures { result ≡ sae_prn prn }
{
    row_with(prn_rows(), prn as u32)
}

// The SAE row of a SLOT. The form may be any byte: `find_slot` hands it on.
pub(crate) fn slot_row(form: u8, width: u8, number: u16) -> Option<SlotRow>
    ensures { result ≡ sae_slot form width number }
{
    if HIGHEST_NUMBER < number {
        return None;
    }
    if BMM <= form {
        return None;
    }
    row_with(slot_rows(), packed(form, width, number))
}
