// Why a report is refused.
ghost use Rattle.std.specs.Prelude.{◌≡◌};
ghost use Rattle.report.specs.Refusal.{number_of, place_of};
ghost use Rattle.report.specs.declared.refusal.Refusal.TheVariants.{Supplement, Frame};

use catalogue::refusal::Fault;

// A fault of the supplement, or what the reader of a frame refuses; lent output that is too short is refused with the frame's number.
#[derive(Clone, Copy, Debug, PartialEq, Eq)]
pub enum Refusal {
    Supplement(Fault),
    Frame(frame::refusal::Refusal),
}

impl From<Fault> for Refusal {
    ghost from_gives = { λ f e. e ≡ Supplement f };

    fn from(found: Fault) -> Refusal {
        Refusal::Supplement(found)
    }
}

impl From<frame::refusal::Refusal> for Refusal {
    ghost from_gives = { λ r e. e ≡ Frame r };

    fn from(refused: frame::refusal::Refusal) -> Refusal {
        Refusal::Frame(refused)
    }
}

impl Refusal {
    pub fn number(self) -> u8
        ensures { result ≡ number_of self }
    {
        match self {
            Refusal::Supplement(fault) => fault.refusal.number(),
            Refusal::Frame(refusal) => refusal.number(),
        }
    }

    // The place of the record with the fault; 0 for a frame, which the definition `place_of` and the word for C have so.
    pub fn place(self) -> usize
        ensures { result ≡ place_of self }
    {
        match self {
            Refusal::Supplement(fault) => fault.place,
            Refusal::Frame(_) => 0,
        }
    }
}
