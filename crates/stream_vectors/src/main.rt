// Runs the steps of streams through the exported calls and prints what each answers.
//
// A line of standard input is one step, by columns: 0 the letter S; then in hexadecimal the 24 bytes of the state at 2, the length of
// the part at 51, its bytes at 54, and at 183 how many bytes are lent of a buffer. A part has 64 bytes at most; behind it stand dots.
// A step stands alone: its line has the whole state. The telling call's answer is shown with the whole buffer, the advancing call's
// with the state that it leaves; then, of the state in the line, the answers of the end and of the place.
#![tactic(auto)]

use hex_text::{byte_from, fewer, fill, run_in};
use std::io::{self, Read, Write};
use vector_io::{print_bytes, print_word, read_full, run_cases};

const LINE: usize = 186;

// The columns. The part's bytes stand behind its length.
const STATE_AT: usize = 2;

const PART_AT: usize = 51;

const ROOM_AT: usize = 183;

// How many bytes the state, the longest part and the buffer have.
const STATE: usize = 24;

const PART: usize = 64;

const BUFFER: usize = 16;

const FILLING: u8 = 0xA5;

// A state, the part behind it, and how many bytes are lent of a buffer.
#[derive(Clone, Copy)]
struct Step<'a> {
    state: &'a [u8; STATE],
    part: &'a [u8],
    room: usize,
}

impl Step<'_> {
    // The telling call, lent so many bytes of a buffer and no more than it has.
    fn read_into(&self, buffer: &mut [u8]) -> u64 {
        let lent = fewer(self.room, buffer.len());
        c_api::rakhubole_stream_read(self.state, self.part, &mut buffer[..lent])
    }

    fn show_read<W: Write>(&self, out: &mut W) -> io::Result<()> {
        let mut buffer = [FILLING; BUFFER];
        print_word(out, self.read_into(&mut buffer))?;
        write!(out, " ")?;
        print_bytes(out, &buffer)
    }

    // The advancing call, on a copy, since the calls behind it take the given state.
    fn show_advance<W: Write>(&self, out: &mut W) -> io::Result<()> {
        let mut after = *self.state;
        print_word(out, c_api::rakhubole_stream_advance(&mut after, self.part))?;
        write!(out, " ")?;
        print_bytes(out, &after)
    }

    fn run<W: Write>(&self, out: &mut W) -> io::Result<()> {
        self.show_read(out)?;
        write!(out, " ")?;
        self.show_advance(out)?;
        write!(out, " ")?;
        print_word(out, c_api::rakhubole_stream_end(self.state))?;
        write!(out, " ")?;
        print_word(out, c_api::rakhubole_stream_place(self.state))?;
        writeln!(out)
    }
}

// Reads a line, runs its step and answers whether there may be another.
fn next_step<R: Read, W: Write>(input: &mut R, out: &mut W) -> io::Result<bool> {
    let mut line = [0u8; LINE];
    if read_full(input, &mut line)? < LINE {
        return Ok(false);
    }
    let mut state = [0u8; STATE];
    fill(&line[STATE_AT..], &mut state);
    let mut part = [0u8; PART];
    let step = Step {
        state: &state,
        part: run_in(&line[PART_AT..], &mut part),
        room: usize::from(byte_from(&line, ROOM_AT)),
    };
    step.run(out)?;
    Ok(true)
}

fn main(rt: HostRuntime) -> io::Result<()> {
    let mut input = rt.reader();
    let mut out = io::writer(&rt);
    run_cases(|| next_step(&mut input, &mut out))
}
