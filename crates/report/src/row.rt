// The row of a line as bytes in lent memory.
ghost use Rattle.std.specs.Prelude.{◌≡◌, ◌∷◌, ◌+◌, ◌<◌, ◌≤◌, length};
ghost use Rattle.frame.specs.Bytes.{placed};
ghost use Rattle.report.specs.Rows.{number_row_size, kind_of_row, row};
ghost use Rattle.report.specs.Fraction.{IsFraction};
ghost use Rattle.report.specs.Inner.{HoldsFraction};

use crate::line::Line;

// The kind of a row, its first byte.
#[derive(Clone, Copy)]
pub(crate) enum RowKind {
    Number = 1,
    State = 2,
    Bits = 3,
    Text = 4,
    Digits = 5,
    Invalid = 6,
    Short = 7,
    Unknown = 8,
    Left = 9,
    Answered = 10,
    Verdict = 11,
}

impl RowKind {
    fn number(self) -> u8
        ensures { result ≡ kind_of_row self }
    {
        self as u8
    }
}

// Behind its kind a row has a body: a Number's double, whole number and divisor, a code, a byte, or nothing.
const DOUBLE_BYTES: usize = 8;

const WHOLE_BYTES: usize = 8;

const DIVISOR_BYTES: usize = 2;

const CODE_BYTES: usize = 4;

const WHOLE_AT: usize = 1 + DOUBLE_BYTES;

const DIVISOR_AT: usize = WHOLE_AT + WHOLE_BYTES;

pub(crate) const NUMBER_ROW: usize = DIVISOR_AT + DIVISOR_BYTES;

pub(crate) const CODE_ROW: usize = 1 + CODE_BYTES;

pub(crate) const BYTE_ROW: usize = 1 + 1;

pub(crate) const BARE_ROW: usize = 1;

// A kind and a body at the start of out; how long both are.
#[tactic(auto, using(crate::proofs::row::Laws::kind_behind))]
pub(crate) fn put_body(kind: RowKind, body: &[u8], out: &mut [u8]) -> usize
    requires { length body.now < length out.old }
    ensures placed { out.new ≡ placed out.old 0 (kind_of_row kind ∷ body.now) }
    ensures size { result ≡ 1 + length body.now }
{
    let size = 1 + body.len();
    out[0] = kind.number();
    out[1..size].copy_from_slice(body);
    size
}

// A Number: the double, the whole number above the line, the divisor.
#[tactic(auto, using(crate::proofs::scaling::Finite::fraction_number))]
fn put_fraction(value: f64, above: i64, divisor: u16, out: &mut [u8]) -> usize
    requires { IsFraction value above divisor × (number_row_size ≤ length out.old) }
    ensures placed { out.new ≡ placed out.old 0 (row (Line.Number value above divisor)) }
    ensures size { result ≡ number_row_size }
{
    put_body(RowKind::Number, &value.to_bits().to_be_bytes(), out);
    out[WHOLE_AT..DIVISOR_AT].copy_from_slice(&above.to_be_bytes());
    out[DIVISOR_AT..NUMBER_ROW].copy_from_slice(&divisor.to_be_bytes());
    NUMBER_ROW
}

// The row of a line at the start of out; how long it is.
#[tactic(auto, unfolding(crate::specs::Rows::row, crate::specs::Rows::big_endian))]
pub(crate) fn put_row(line: Line, out: &mut [u8]) -> usize
    requires { HoldsFraction line × (length (row line) ≤ length out.old) }
    ensures placed { out.new ≡ placed out.old 0 (row line) }
    ensures size { result ≡ length (row line) }
{
    match line {
        Line::Number {
            value,
            above,
            divisor,
        } => put_fraction(value, above, divisor, out),
        Line::State(code) => put_body(RowKind::State, &code.to_be_bytes(), out),
        Line::Bits(code) => put_body(RowKind::Bits, &code.to_be_bytes(), out),
        Line::Text(code) => put_body(RowKind::Text, &code.to_be_bytes(), out),
        Line::Digits(code) => put_body(RowKind::Digits, &code.to_be_bytes(), out),
        Line::Invalid(code) => put_body(RowKind::Invalid, &code.to_be_bytes(), out),
        Line::Short => put_body(RowKind::Short, &[], out),
        Line::Unknown(reason) => put_body(RowKind::Unknown, &[reason.number()], out),
        Line::Left(bits) => put_body(RowKind::Left, &[bits], out),
        Line::Answered(kind) => put_body(RowKind::Answered, &[kind], out),
    }
}
