// The SAE J1850 check byte, one bit of the register at a time.
ghost use Rattle.std.specs.Prelude.{◌≡◌};
ghost use Rattle.frame.specs.CheckByte.{step, feed, check_byte};

use crate::seal::Check;

// "polynomial x^8+x^4+x^3+x^2+1": its terms below x^8.
const POLYNOMIAL: u8 = 0x1D;

// "register starts all ones"
const ALL_ONES: u8 = 0xFF;

// The register's most significant bit.
const TOP_BIT: u8 = 0x80;

const BYTE_BITS: usize = 8;

// The check byte of J1850.
pub(crate) struct Crc;

impl Check for Crc {
    ghost check = { check_byte };

    fn check(run: &[u8]) -> u8 {
        check_byte(run)
    }
}

#[tactic(auto, using(crate::proofs::check_byte::Laws::step_zero, crate::proofs::check_byte::Laws::step_one))]
fn step(r: u8) -> u8
    ensures { result ≡ step r }
{
    let moved = r << 1;
    if r & TOP_BIT == 0 {
        moved
    } else {
        moved ^ POLYNOMIAL
    }
}

fn feed(r: u8, b: u8) -> u8
    ensures { result ≡ feed r b }
{
    let mut s = r ^ b;
    for _ in 0..BYTE_BITS {
        s = step(s);
    }
    s
}

// The check byte of a run: the complement of the register that started all ones.
#[tactic(auto, using(crate::proofs::check_byte::Laws::register_fold), unfolding(crate::specs::CheckByte::check_byte))]
pub fn check_byte(run: &[u8]) -> u8
    ensures { result ≡ check_byte run.now }
{
    !run.iter().fold(ALL_ONES, |r, &b| feed(r, b))
}
