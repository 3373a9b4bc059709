// A run and its check byte, whichever check byte the bus has.
ghost use Rattle.std.specs.Prelude.{◌≡◌, ◌∷◌, [], ◌++◌, ◌+◌, ◌-◌, ◌≤◌, ◌<◌, ℕ, List, length, take, drop};
ghost use Rattle.frame.specs.Bytes.{placed};
ghost use Rattle.frame.specs.Seal.{sealed_by, is_sealed_by};

use crate::bytes::put_both;

// The check byte of a bus.
pub(crate) trait Check {
    ghost check: { List ℕ → ℕ };

    fn check(run: &[u8]) -> u8
        ensures { result ≡ check run.now };
}

// Whether a run ends in the check byte of what stands before it.
#[tactic(auto, unfolding(crate::specs::Seal::is_sealed_by))]
pub(crate) fn is_sealed<C: Check>(run: &[u8]) -> bool
    ensures { result ≡ is_sealed_by C.check run.now }
{
    match run {
        [front @ .., last] => *last == C::check(front),
        [] => false,
    }
}

// Puts the check byte of what stands between two places of out at the second. Places and no part of out, so that a check byte over the
// wrong part is one operand away, and refused for that.
#[tactic(auto, using(crate::proofs::bytes::Placed::stored))]
pub(crate) fn seal<C: Check>(out: &mut [u8], from: usize, end: usize)
    requires { (from ≤ end) × (end < length out.old) }
    ensures { out.new ≡ placed out.old end (C.check (take (end - from) (drop from out.old)) ∷ []) }
{
    out[end] = C::check(&out[from..end]);
}

// A run at the start of out: header, data, check byte.
pub(crate) fn put_sealed<C: Check>(header: &[u8], body: &[u8], out: &mut [u8]) -> usize
    requires { length header.now + length body.now < length out.old }
    ensures placed { out.new ≡ placed out.old 0 (sealed_by C.check (header.now ++ body.now)) }
    ensures size { result ≡ length (sealed_by C.check (header.now ++ body.now)) }
{
    let end = put_both(header, body, out);
    seal::<C>(out, 0, end);
    end + 1
}
