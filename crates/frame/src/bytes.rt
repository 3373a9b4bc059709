// Bytes of a run, and a run copied into lent memory.
ghost use Rattle.std.specs.Prelude.{◌≡◌, ◌++◌, ◌+◌, ◌≤◌, length, get_or};
ghost use Rattle.frame.specs.Bytes.{placed, all_zero};

// A byte of a run; 0 past its end.
pub fn byte_at(run: &[u8], i: usize) -> u8
    ensures { result ≡ get_or run.now i 0 }
{
    run.get(i).copied().unwrap_or(0)
}

// Whether every byte of a run is zero.
pub fn is_zero(run: &[u8]) -> bool
    ensures { result ≡ all_zero run.now }
{
    run.iter().all(|&b| b == 0)
}

// Copies a run to the start of out. A loop and no `copy_from_slice`, which would here be a call of C's memmove: the archive calls memset
// and memcpy alone.
pub(crate) fn put(run: &[u8], out: &mut [u8])
    requires { length run.now ≤ length out.old }
    ensures { out.new ≡ placed out.old 0 run.now }
{
    for (i, &b) in run.iter().enumerate() {
        out[i] = b;
    }
}

// Two runs, one behind the other, at the start of out; how long both are.
pub(crate) fn put_both(front: &[u8], back: &[u8], out: &mut [u8]) -> usize
    requires { length front.now + length back.now ≤ length out.old }
    ensures placed { out.new ≡ placed out.old 0 (front.now ++ back.now) }
    ensures size { result ≡ length (front.now ++ back.now) }
{
    let n = front.len();
    put(front, out);
    put(back, &mut out[n..]);
    n + back.len()
}
