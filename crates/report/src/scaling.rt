// The line of an item whose SLOT is known.
ghost use Rattle.std.specs.Prelude.{◌≡◌, ◌/◌, ◌%◌, ◌≤◌, ◌<◌, ◌^◌, ◌&&◌, cond, eqb, leb};
ghost use Rattle.catalogue.specs.Rows.{bmm};
ghost use Rattle.report.specs.Line.{not_shown_reason};
ghost use Rattle.report.specs.Scaling.{widest_shown, signed, pattern, raw_number, above, number_line, within_limits, digits_pass, form_line};

use crate::line::{Line, Reason};
use catalogue::rows::{ASC, BMP, SED, SNM, SlotRow, in_order};

// The widest item that is shown.
pub(crate) const WIDEST_SHOWN: u8 = 32;

// The number of a 32-bit pattern in two's complement.
#[tactic(auto, using(crate::proofs::scaling::Laws::reads, crate::proofs::scaling::Laws::signed_is))]
fn signed_of(p: u32) -> i64
    ensures { result ≡ signed p }
{
    p.cast_signed() as i64
}

// Digits of so many bits each, from a lowest to a highest.
#[derive(Clone, Copy)]
struct Digits {
    size: u8,
    low: u32,
    high: u32,
    ghost some: { 1 ≤ size },
    ghost fit: { size ≤ 8 },
}

const PRINTABLE: Digits = Digits {
    size: 8,
    low: 0x20,
    high: 0x7E,
};

const DECIMAL: Digits = Digits {
    size: 4,
    low: 0,
    high: 9,
};

impl Digits {
    // Whether each of n digits of a number is one of these.
    fn pass(self, n: u8, raw: u32) -> bool
        ensures { result ≡ digits_pass (λ d. leb self.low d && leb d self.high) self.size n raw }
    {
        let mut rest = raw;
        for _ in 0..n {
            let digit = rest % (1 << self.size);
            if digit < self.low || self.high < digit {
                return false;
            }
            rest >>= self.size;
        }
        true
    }
}

// A raw number and its SLOT, of a form that shows it and of at most 32 bits. The form is a number here too, as the SLOT's row has it.
#[derive(Clone, Copy)]
pub(crate) struct Item {
    pub slot: SlotRow,
    pub raw: u32,
    ghost form: { slot.form < bmm },
    ghost some: { 1 ≤ slot.width },
    ghost shown: { slot.width ≤ widest_shown },
    ghost small: { raw < 2 ^ slot.width },
}

impl Item {
    // The raw number as a 32-bit pattern: for SNM the sign bit fills the bits before it, which no method of the library does at any width.
    #[tactic(auto, using(crate::proofs::scaling::Laws::size_of), unfolding(crate::specs::Scaling::pattern))]
    fn pattern(self) -> u32
        ensures { result ≡ pattern self.slot.form self.slot.width self.raw }
    {
        if self.slot.form == SNM {
            let size = 1u64 << self.slot.width;
            if size / 2 <= self.raw as u64 {
                return (self.raw as u64 + (0x1_0000_0000 - size)) as u32;
            }
        }
        self.raw
    }

    // N of document 01.
    #[tactic(auto, using(crate::proofs::scaling::Laws::reads), unfolding(crate::specs::Scaling::raw_number))]
    fn number(self) -> i64
        ensures { result ≡ raw_number self.slot.form self.slot.width self.raw }
    {
        if self.slot.form == SNM {
            signed_of(self.pattern())
        } else {
            self.raw as i64
        }
    }

    // The whole number above the line.
    #[tactic(auto, using(crate::proofs::scaling::Laws::reads, crate::proofs::scaling::Laws::sums), unfolding(crate::specs::Scaling::above))]
    fn above(self) -> i64
        ensures { result ≡ above self.slot self.raw }
    {
        self.number() * self.slot.multiplier as i64 + signed_of(self.slot.offset)
    }

    // The Number of a raw number: the one place where a fraction and its double are made.
    #[tactic(auto, using(crate::proofs::scaling::Laws::exact), unfolding(crate::specs::Scaling::number_line, crate::specs::Scaling::quotient))]
    fn number_line(self) -> Line
        ensures { result ≡ number_line self.slot self.raw }
    {
        let above = self.above();
        let value = above as f64 / self.slot.divisor as f64;
        Line::Number {
            value,
            above,
            divisor: self.slot.divisor,
        }
    }

    // Whether the raw number is within the SLOT's limits, as signed for SNM.
    #[tactic(auto, unfolding(crate::specs::Scaling::within_limits))]
    fn is_within_limits(self) -> bool
        ensures { result ≡ within_limits self.slot self.raw }
    {
        let slot = self.slot;
        let p = self.pattern();
        in_order(slot.form, slot.lowest, p) && in_order(slot.form, p, slot.highest)
    }

    // ASC and BCD: whole digits, all of them such.
    fn digits_line(self, digits: Digits, shown: Line) -> Line
        ensures { result ≡ cond (eqb (self.slot.width % digits.size) 0)
            (cond (digits_pass (λ d. leb digits.low d && leb d digits.high) digits.size (self.slot.width / digits.size) self.raw) shown (Line.Invalid self.raw))
            (Line.Unknown not_shown_reason) }
    {
        if self.slot.width % digits.size != 0 {
            return Line::Unknown(Reason::NotShown);
        }
        if digits.pass(self.slot.width / digits.size, self.raw) {
            shown
        } else {
            Line::Invalid(self.raw)
        }
    }

    // The line by the SLOT's form. UNM and SNM: the Number, or Invalid out of the limits. SED: the State, or Unknown out of them.
    #[tactic(auto, using(crate::proofs::scaling::Laws::form_lines), unfolding(crate::specs::Scaling::text_line))]
    pub(crate) fn line(self) -> Line
        ensures { result ≡ form_line self.slot.form self.slot.width self.slot self.raw }
    {
        let raw = self.raw;
        match self.slot.form {
            ..=SNM => {
                if self.is_within_limits() {
                    self.number_line()
                } else {
                    Line::Invalid(raw)
                }
            }
            SED => {
                if self.is_within_limits() {
                    Line::State(raw)
                } else {
                    Line::Unknown(Reason::NoState)
                }
            }
            BMP => Line::Bits(raw),
            ASC => self.digits_line(PRINTABLE, Line::Text(raw)),
            _ => self.digits_line(DECIMAL, Line::Digits(raw)),
        }
    }
}
