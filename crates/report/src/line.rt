// The lines of a report, and why a line is Unknown.
ghost use Rattle.std.specs.Prelude.{◌≡◌};
ghost use Rattle.report.specs.Line.{reason_number};

// Why a line is Unknown.
#[derive(Clone, Copy, Debug, PartialEq, Eq)]
pub enum Reason {
    // The PRN is in neither table.
    NoPrn = 1,
    // An earlier PRN was in neither, so the place is lost.
    PlaceLost = 2,
    // There is no SLOT of the PRN's form, width and number.
    NoSlot = 3,
    // A form or width that has no value to show.
    NotShown = 4,
    // A SED code without a state.
    NoState = 5,
    TooWide = 6,
    // Response data are not read.
    DataResponse = 7,
    NoLayout = 8,
}

impl Reason {
    // A cast, as of a verdict and of a row's kind: a trait of numbers would have no code that they share, and `From` would say no more.
    pub(crate) fn number(self) -> u8
        ensures { result ≡ reason_number self }
    {
        self as u8
    }
}

// A Number, a code, or why nothing can be shown; Left and Answered are those of remainder and response. A Number carries the whole number
// above the line and the divisor, unreduced, and the double that they give. That these belong together is no ghost field, since the
// definition `number_line` makes a Number of every SLOT. Answered carries a number, since the definition `response_line` takes any.
#[derive(Clone, Copy)]
pub enum Line {
    Number {
        value: f64,
        above: i64,
        divisor: u16,
    },
    State(u32),
    Bits(u32),
    Text(u32),
    Digits(u32),
    Invalid(u32),
    Short,
    Unknown(Reason),
    Left(u8),
    Answered(u8),
}
