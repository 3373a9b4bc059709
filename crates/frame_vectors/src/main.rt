// Runs the frame vectors through the exported calls and prints what each answers.
//
// A line of standard input is one case, by columns: 0 the call; then four lengths at 2, 38, 74 and 110, and three runs of sixteen
// bytes at 5, 41 and 77, all in hexadecimal. R reads the first two runs as a frame of J1850, r the first as a message of ISO 9141-2.
// W writes a header, data and response, w a header and data, into as many bytes as the last length says, of a buffer that is shown
// whole.
#![tactic(auto)]

use hex_text::{byte_from, fewer, run_in};
use std::io::{self, Read, Write};
use vector_io::{print_bytes, print_word, read_full, run_cases};

const LINE: usize = 113;

// The columns of the lengths. A run stands behind each but the last.
const FIRST: usize = 2;

const SECOND: usize = 38;

const THIRD: usize = 74;

const ROOM: usize = 110;

const RUN: usize = 16;

const BUFFER: usize = 32;

const FILLING: u8 = 0xA5;

#[derive(Clone, Copy)]
enum Call {
    J1850Read,
    Iso9141Read,
    J1850Write,
    Iso9141Write,
}

impl From<u8> for Call {
    fn from(letter: u8) -> Call {
        match letter {
            b'R' => Call::J1850Read,
            b'r' => Call::Iso9141Read,
            b'W' => Call::J1850Write,
            _ => Call::Iso9141Write,
        }
    }
}

impl Call {
    fn writes(&self) -> bool {
        matches!(self, Call::J1850Write | Call::Iso9141Write)
    }
}

// A call with its runs, and how many bytes it is lent of a buffer.
#[derive(Clone, Copy)]
struct Case<'a> {
    call: Call,
    first: &'a [u8],
    second: &'a [u8],
    third: &'a [u8],
    room: usize,
}

impl Case<'_> {
    fn answer(&self, buffer: &mut [u8]) -> u64 {
        let lent = fewer(self.room, buffer.len());
        let out = &mut buffer[..lent];
        match self.call {
            Call::J1850Read => c_api::rakhubole_j1850_read(self.first, self.second),
            Call::Iso9141Read => c_api::rakhubole_iso9141_read(self.first),
            Call::J1850Write => {
                c_api::rakhubole_j1850_write(self.first, self.second, self.third, out)
            }
            Call::Iso9141Write => c_api::rakhubole_iso9141_write(self.first, self.second, out),
        }
    }

    fn run<W: Write>(&self, out: &mut W) -> io::Result<()> {
        let mut buffer = [FILLING; BUFFER];
        print_word(out, self.answer(&mut buffer))?;
        if self.call.writes() {
            write!(out, " ")?;
            print_bytes(out, &buffer)?;
        }
        writeln!(out)
    }
}

// Reads a line, runs its case and answers whether there may be another.
fn next_case<R: Read, W: Write>(input: &mut R, out: &mut W) -> io::Result<bool> {
    let mut line = [0u8; LINE];
    if read_full(input, &mut line)? < LINE {
        return Ok(false);
    }
    let mut first = [0u8; RUN];
    let mut second = [0u8; RUN];
    let mut third = [0u8; RUN];
    let case = Case {
        call: Call::from(line[0]),
        first: run_in(&line[FIRST..], &mut first),
        second: run_in(&line[SECOND..], &mut second),
        third: run_in(&line[THIRD..], &mut third),
        room: usize::from(byte_from(&line, ROOM)),
    };
    case.run(out)?;
    Ok(true)
}

fn main(rt: HostRuntime) -> io::Result<()> {
    let mut input = rt.reader();
    let mut out = io::writer(&rt);
    run_cases(|| next_case(&mut input, &mut out))
}
