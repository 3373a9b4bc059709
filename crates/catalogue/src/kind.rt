// The kinds of records: document 01, "The supplement"; document 02, K5.
ghost use Rattle.std.specs.Prelude.{◌≡◌};
ghost use Rattle.catalogue.specs.Kind.{kind_number, Decodes, record_size, key_size};

use crate::refusal::Refusal;

// The PRNs that a layout has room for.
pub const MOST_PRNS: usize = 16;

#[derive(Clone, Copy, Debug, PartialEq, Eq)]
pub enum Kind {
    Slot = 1,
    Prn = 2,
    Layout = 3,
    // For a header, how many data bytes are its selector.
    Selector = 4,
}

#[tactic(auto, using(crate::proofs::kind::Laws::unlisted_told))]
impl TryFrom<u8> for Kind {
    type Error = Refusal;

    ghost try_from_gives = { Decodes };

    fn try_from(byte: u8) -> Result<Kind, Refusal> {
        match byte {
            1 => Ok(Kind::Slot),
            2 => Ok(Kind::Prn),
            3 => Ok(Kind::Layout),
            4 => Ok(Kind::Selector),
            _ => Err(Refusal::UnknownKind),
        }
    }
}

impl Kind {
    // Bytes of a record; those of its key stand below, since one table of both would give pairs that every caller takes apart.
    #[tactic(auto, using(crate::proofs::kind::Laws::record_sizes))]
    pub fn size(self) -> usize
        ensures { result ≡ record_size (kind_number self) }
    {
        match self {
            Kind::Slot => 21,
            Kind::Prn => 7,
            Kind::Layout => 39,
            Kind::Selector => 4,
        }
    }

    // Bytes of kind and key together.
    #[tactic(auto, using(crate::proofs::kind::Laws::key_sizes))]
    pub fn key_size(self) -> usize
        ensures { result ≡ key_size (kind_number self) }
    {
        match self {
            Kind::Slot => 5,
            Kind::Prn => 3,
            Kind::Layout => 6,
            Kind::Selector => 3,
        }
    }
}

// Bytes of a record by its first; an unknown kind is one byte.
#[tactic(auto, using(crate::proofs::kind::Laws::size_unknown))]
pub(crate) fn record_size(byte: u8) -> usize
    ensures { result ≡ record_size byte }
{
    Kind::try_from(byte).map_or(1, |kind| kind.size())
}
