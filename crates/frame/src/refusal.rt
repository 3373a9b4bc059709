// The refusals of frames: document 01, "Refusal numbers".
ghost use Rattle.std.specs.Prelude.{◌≡◌};
ghost use Rattle.frame.specs.Refusal.{number_of};

// Each with the number that document 01 gives it.
#[derive(Clone, Copy, Debug, PartialEq, Eq)]
pub enum Refusal {
    // "more than 12 bytes in all"
    TooLong = 1,
    // "first run shorter than its header and check byte, or empty"
    TooShort = 2,
    // "check byte wrong"
    CheckWrong = 3,
    // "K = 0 type unassigned"
    TypeUnassigned = 4,
    // "check byte of a kind 3 response wrong"
    ResponseCheckWrong = 6,
    // "writer: header not 1 or 3 bytes, or not the length H says"
    HeaderWrong = 7,
    // "lent output shorter than the result"
    OutputShort = 8,
    // "a first byte with H = 1 or K = 0", on ISO 9141-2
    FirstByteWrong = 9,
    // "bytes where K = 1 forbids them"
    ResponseForbidden = 50,
    // "nothing where K = 0 requires something"
    ResponseMissing = 51,
    // "some but too few"
    ResponseTooFew = 52,
    // "too many for kind 1"
    ResponseTooMany = 53,
}

impl Refusal {
    pub fn number(self) -> u8
        ensures { result ≡ number_of self }
    {
        self as u8
    }
}
