// The refusals of the adapter's stream by their numbers: document 02, K4.
ghost use Rattle.std.specs.Prelude.{◌≡◌};
ghost use Rattle.stream.specs.Refusal.{number_of};

#[derive(Clone, Copy, Debug, PartialEq, Eq)]
pub enum Refusal {
    // "lent output shorter than the result": document 01's
    OutputShort = 8,
    // "unknown kind (that byte is taken)"
    KindUnknown = 60,
    // "lengths over 12 together or unused bytes not zero"
    RecordWrong = 61,
    // "stream ended inside a record"
    Cut = 62,
}

impl Refusal {
    pub fn number(self) -> u8
        ensures { result ≡ number_of self }
    {
        self as u8
    }
}
