// The header's fields, by shift and mask, and the decision over the sixteen message types.
ghost use Rattle.std.specs.Prelude.{◌≡◌, ◌/◌, ◌%◌, ◌^◌, ◌<◌};
ghost use Rattle.frame.specs.Header.{message_type, header_size, response_kind, kind_asked};

use crate::bytes::byte_at;
use crate::response::ResponseKind;

// "H = 0: three header bytes (type, target, source)."
pub const THREE_BYTE_FORM: usize = 3;

// "H = 1: one, with the same bits"
pub const ONE_BYTE_FORM: usize = 1;

// "bit 4 H"
pub(crate) const H_PLACE: u8 = 4;

// "bit 3 K"
pub(crate) const K_PLACE: u8 = 3;

// Bits 3 to 0, KYZZ.
const TYPE_BITS: u8 = 0x0F;

pub(crate) fn bit(b: u8, place: u8) -> u8
    requires { place < 8 }
    ensures { result ≡ b / 2 ^ place % 2 }
{
    (b >> place) & 1
}

pub(crate) fn message_type(b: u8) -> u8
    ensures { result ≡ message_type b }
{
    b & TYPE_BITS
}

// How many header bytes H asks for.
#[tactic(auto, unfolding(crate::specs::Header::header_size))]
pub fn header_size(run: &[u8]) -> usize
    ensures { result ≡ header_size run.now }
{
    if bit(byte_at(run, 0), H_PLACE) == 0 {
        THREE_BYTE_FORM
    } else {
        ONE_BYTE_FORM
    }
}

// All sixteen types, one by one; no other number is a type.
#[tactic(auto, unfolding(crate::specs::Header::response_kind, crate::specs::Header::type_table))]
pub(crate) fn response_kind(t: u8) -> ResponseKind
    ensures { result ≡ response_kind t }
{
    match t {
        0 => ResponseKind::Several,
        1 => ResponseKind::Single,
        2 => ResponseKind::Several,
        3 => ResponseKind::Data,
        4 => ResponseKind::Single,
        5 => ResponseKind::Unassigned,
        6 => ResponseKind::Unassigned,
        7 => ResponseKind::Unassigned,
        8 => ResponseKind::Empty,
        9 => ResponseKind::Empty,
        10 => ResponseKind::Empty,
        11 => ResponseKind::Empty,
        12 => ResponseKind::Empty,
        13 => ResponseKind::Empty,
        14 => ResponseKind::Empty,
        15 => ResponseKind::Empty,
        _ => ResponseKind::Unassigned,
    }
}

// The response kind that a run's first byte asks for.
#[tactic(auto, unfolding(crate::specs::Header::kind_asked))]
pub(crate) fn kind_asked(run: &[u8]) -> ResponseKind
    ensures { result ≡ kind_asked run.now }
{
    response_kind(message_type(byte_at(run, 0)))
}
