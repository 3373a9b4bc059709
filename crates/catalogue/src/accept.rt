// A supplement that passed the test, and what it holds together with the SAE tables.
ghost use Rattle.std.specs.Prelude.{◌≡◌, IfOk};
ghost use Rattle.frame.specs.Bytes.{Bytes};
ghost use Rattle.catalogue.specs.Supplement.{check, checked_of, Accepted};
ghost use Rattle.catalogue.specs.Lookup.{catalogue, length_for};

use crate::layout::Layout;
use crate::lookup::{find_layout, find_length, find_prn, find_slot};
use crate::refusal::Fault;
use crate::rows::{PrnRow, SlotRow};
use crate::supplement::check_supplement;

// Accepted bytes, which nobody has to test again.
#[derive(Clone, Copy)]
pub struct Supplement<'a> {
    pub bytes: &'a [u8],
    pub ghost accepted: { Accepted bytes.now },
    pub ghost fit: { Bytes bytes.now },
}

// Tests any bytes: these as a supplement, or the refusal and the place of the first record with a fault.
#[tactic(auto, using(crate::proofs::Accepted::checked_accepted))]
pub fn accept<'a>(bytes: &'a [u8]) -> Result<Supplement<'a>, Fault>
    ensures told { checked_of result ≡ check bytes.now }
    ensures same { IfOk result (λ s. s.bytes.now ≡ bytes.now) }
{
    check_supplement(bytes)?;
    Ok(Supplement { bytes })
}

impl<'a> Supplement<'a> {
    pub fn prn(&self, prn: u16) -> Option<PrnRow>
        ensures { result ≡ (catalogue self.now.bytes.now).prn prn }
    {
        find_prn(self.bytes, prn)
    }

    pub fn slot(&self, form: u8, width: u8, number: u16) -> Option<SlotRow>
        ensures { result ≡ (catalogue self.now.bytes.now).slot form width number }
    {
        find_slot(self.bytes, form, width, number)
    }

    // The layout of a kind and key.
    pub fn layout(&self, key: &[u8]) -> Option<Layout>
        ensures { result ≡ (catalogue self.now.bytes.now).layout key.now }
    {
        find_layout(self.bytes, key)
    }

    // The selector's length for a header, given as its first byte and target.
    pub fn selector_length(&self, first: u8, target: u8) -> u8
        ensures { result ≡ length_for (catalogue self.now.bytes.now) first target }
    {
        find_length(self.bytes, first, target)
    }
}
