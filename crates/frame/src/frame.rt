// What is handed over of a frame, on any bus.
ghost use Rattle.std.specs.Prelude.{◌≡◌, ◌+◌, ◌≤◌, length};
ghost use Rattle.frame.specs.declared.frame.TheConstants.{MOST_BYTES};

use crate::response::ResponseKind;

// "All bytes of both runs together number at most 12."
pub const MOST_BYTES: usize = 12;

// The parts of a frame that was read, without check bytes, where they stand in its runs.
#[derive(Clone, Copy)]
pub struct Parts<'a> {
    pub header: &'a [u8],
    pub body: &'a [u8],
    pub kind: ResponseKind,
    pub response: &'a [u8],
    ghost short: { length header.now + length body.now + length response.now ≤ MOST_BYTES },
}

// The length of each run of a frame that was written.
#[derive(Clone, Copy)]
pub struct Runs {
    pub first: usize,
    pub response: usize,
    ghost short: { first + response ≤ MOST_BYTES },
}

impl<'a> Parts<'a> {
    ghost use Rattle.frame.specs.Frame.{parts_at, handed};

    // The parts of a run whose header has n bytes.
    #[tactic(auto, unfolding(crate::specs::Frame::parts_at))]
    pub(crate) fn at(n: usize, run: &'a [u8], kind: ResponseKind, response: &'a [u8]) -> Self
        requires long { n + 1 ≤ length run.now }
        requires short { length run.now + length response.now ≤ MOST_BYTES }
        ensures { handed result ≡ parts_at n run.now kind response.now }
    {
        Parts {
            header: &run[..n],
            body: &run[n..run.len() - 1],
            kind,
            response,
        }
    }
}
