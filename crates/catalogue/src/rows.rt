// Rows of PRNs and SLOTs, of tables and records alike, and the ranges of their fields: document 01, "The supplement".
ghost use Rattle.std.specs.Prelude.{◌≡◌, ◌+◌, ◌%◌, ◌^◌};
ghost use Rattle.catalogue.specs.Rows.{key_fits, in_order, prn_fits, slot_fits};

// The forms. A row has its form as a number, since a supplement that nobody tested may have any byte there, and find_prn and find_slot
// promise that byte.
pub const UNM: u8 = 1;

pub const SNM: u8 = 2;

pub const SED: u8 = 3;

pub const BMP: u8 = 4;

pub const ASC: u8 = 5;

pub const BCD: u8 = 6;

pub const BMM: u8 = 7;

pub const SFP: u8 = 8;

pub const PKT: u8 = 9;

// The most bits of an item.
const WIDEST: u8 = 64;

// A PRN with the form, width and number of its SLOT.
#[derive(Clone, Copy)]
pub struct PrnRow {
    pub prn: u16,
    pub form: u8,
    pub width: u8,
    pub slot: u16,
}

// A SLOT: key, scaling and raw limits. The offset is a 32-bit pattern in two's complement, and so are the limits of SNM. The key stands
// from its low end on, so that a search loads it at once.
#[derive(Clone, Copy)]
pub struct SlotRow {
    pub number: u16,
    pub width: u8,
    pub form: u8,
    pub multiplier: u16,
    pub divisor: u16,
    pub offset: u32,
    pub lowest: u32,
    pub highest: u32,
}

// Whether form and width are in range.
#[tactic(auto, unfolding(crate::specs::Rows::key_fits))]
fn key_fits(form: u8, width: u8) -> bool
    ensures { result ≡ key_fits form width }
{
    (UNM..=PKT).contains(&form) && (1..=WIDEST).contains(&width)
}

// A pattern moved up by half of its range, so that signed order is the order of numbers, as the definition `in_order` has it:
// `cast_signed` would need a law that both orders agree.
fn raised(pattern: u32) -> u32
    ensures { result ≡ (pattern + 2 ^ 31) % 2 ^ 32 }
{
    pattern.wrapping_add(0x8000_0000)
}

// Whether the lowest raw number is not above the highest, as signed for SNM.
#[tactic(auto, unfolding(crate::specs::Rows::in_order))]
pub fn in_order(form: u8, lowest: u32, highest: u32) -> bool
    ensures { result ≡ in_order form lowest highest }
{
    if form == SNM {
        raised(lowest) <= raised(highest)
    } else {
        lowest <= highest
    }
}

#[tactic(auto, unfolding(crate::specs::Rows::prn_fits))]
pub(crate) fn prn_fits(row: PrnRow) -> bool
    ensures { result ≡ prn_fits row }
{
    key_fits(row.form, row.width)
}

#[tactic(auto, unfolding(crate::specs::Rows::slot_fits))]
pub(crate) fn slot_fits(row: SlotRow) -> bool
    ensures { result ≡ slot_fits row }
{
    key_fits(row.form, row.width) && 1 <= row.divisor && in_order(row.form, row.lowest, row.highest)
}
