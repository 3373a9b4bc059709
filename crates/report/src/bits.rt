// The bits of an item, cut out of the data at any bit by shift and mask.
ghost use Rattle.std.specs.Prelude.{◌≡◌, ◌≤◌};
ghost use Rattle.report.specs.Bits.{cut};
ghost use Rattle.report.specs.Scaling.{widest_shown};

use frame::bytes::byte_at;

// The number that so many bits from a place on make: the bytes that hold them, without the bits behind and before them.
#[tactic(auto, using(crate::proofs::bits::Laws::cuts), unfolding(crate::specs::Bits::cut))]
pub(crate) fn cut_bits(s: &[u8], at: u8, width: u8) -> u32
    requires { width ≤ widest_shown }
    ensures { result ≡ cut s.now at width }
{
    let first = at as usize / 8;
    let end = at as usize + width as usize;
    let last = end.div_ceil(8);
    let mut bytes: u64 = 0;
    for i in first..last {
        bytes = bytes * 256 + byte_at(s, i) as u64;
    }
    let bits = bytes >> (8 * last - end);
    (bits % (1 << width)) as u32
}
