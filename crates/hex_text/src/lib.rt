// Hexadecimal text to bytes and back, and the first bytes of a buffer, for the programs that run vector files.
#![tactic(auto)]

ghost use Rattle.std.specs.Prelude.{◌≡◌, ◌/◌, ◌<◌, min, get_or, length, take};
ghost use Rattle.hex_text.specs.Digits.{digit_value, byte_from, bytes_from, run_in};
ghost use Rattle.hex_text.specs.Digits.{byte_digits, last_digit, text_of, text_length, text_over};

// Sixteen digits, of which ten are decimal and the others letters; two to a byte.
const BASE: u8 = 16;

const DECIMALS: u8 = 10;

const BYTE_DIGITS: usize = 2;

// How far behind its length a run starts.
const TO_RUN: usize = 3;

// A digit's value; 0 for any other character, small letters too, of which `to_digit` would give a value.
#[tactic(auto, using(std::proofs::lemmas::Bool::Decides::nat_tests), unfolding(crate::specs::Digits::digit_value))]
pub fn digit_value(c: u8) -> u8
    ensures { result ≡ digit_value c }
{
    match c {
        b'0'..=b'9' => c - b'0',
        b'A'..=b'F' => c - b'A' + DECIMALS,
        _ => 0,
    }
}

// The byte whose two digits stand at a place, of any characters: `from_str_radix` would refuse most.
#[tactic(auto, using(crate::proofs::digits::Laws::small, crate::proofs::digits::Laws::beyond), unfolding(crate::specs::Digits::byte_from))]
pub fn byte_from(text: &[u8], at: usize) -> u8
    ensures { result ≡ byte_from text.now at }
{
    let Some(&high) = text.get(at) else {
        return 0;
    };
    let low = text.get(at + 1).copied().unwrap_or(0);
    digit_value(high) * BASE + digit_value(low)
}

// Fills `out` with the bytes that a text starts with; what the text lacks is zero.
#[tactic(auto, using(crate::proofs::digits::Put::put_next, crate::proofs::digits::Laws::byte_by_byte))]
pub fn fill(text: &[u8], out: &mut [u8])
    ensures { out.new ≡ bytes_from text.now (length out.old) 0 }
{
    for (i, byte) in out.iter_mut().enumerate() {
        *byte = byte_from(text, i * BYTE_DIGITS);
    }
}

// The run that a text starts with, put into a buffer of which it is handed out: two digits of its length, a space, its bytes.
pub fn run_in<'a>(text: &[u8], run: &'a mut [u8]) -> &'a [u8]
    ensures { result.now ≡ run_in text.now (length run.old) }
{
    let n = byte_from(text, 0);
    fill(&text[TO_RUN.min(text.len())..], run);
    counted(run, usize::from(n))
}

// The last digit of a number, in lower case; `from_digit` gives an Option of a char, and is no plainer.
#[tactic(auto, using(std::proofs::lemmas::Bool::Decides::nat_tests), unfolding(crate::specs::Digits::last_digit))]
fn last_digit(n: u8) -> u8
    ensures { result ≡ last_digit n }
{
    let value = n % BASE;
    if value < DECIMALS {
        b'0' + value
    } else {
        b'a' - DECIMALS + value
    }
}

// The character at a place of the text of bytes.
fn text_at(bytes: &[u8], at: usize) -> u8
    requires { at / byte_digits < length bytes.now }
    ensures { result ≡ get_or (text_of bytes.now) at 0 }
{
    let byte = bytes[at / BYTE_DIGITS];
    if at % BYTE_DIGITS == 0 {
        last_digit(byte / BASE)
    } else {
        last_digit(byte)
    }
}

// Writes the text of bytes to the start of `out`, as far as there is room, and answers how many characters that is. It may stop within a
// byte, which `write!` would not.
#[tactic(auto, using(crate::proofs::digits::Text::length_text))]
pub fn write_text(bytes: &[u8], out: &mut [u8]) -> usize
    ensures answer { result ≡ text_length bytes.now (length out.old) }
    ensures lent { out.new ≡ text_over bytes.now out.old }
{
    let n = out.len().min(bytes.len() * BYTE_DIGITS);
    let part = &mut out[..n];
    for (at, place) in part.iter_mut().enumerate() {
        *place = text_at(bytes, at);
    }
    n
}

// The first n of the bytes, or all where they are fewer.
pub fn counted(bytes: &[u8], n: usize) -> &[u8]
    ensures { result.now ≡ take n bytes.now }
{
    &bytes[..n.min(bytes.len())]
}

// The fewer of two counts: how much of a buffer there is of so many bytes. It is `min` under a name that docs/CONTRACTS.md promises.
pub fn fewer(n: usize, most: usize) -> usize
    ensures { result ≡ min n most }
{
    n.min(most)
}
