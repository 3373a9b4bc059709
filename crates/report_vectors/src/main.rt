// Runs document 01's bench cases and the report vectors through the exported call and prints what each answers.
//
// A line of standard input is one case: the bus, J for J1850 or I for ISO 9141-2, and a space; in hexadecimal the supplement, the
// first run and the response, each as four digits of its length, a space, its bytes and a space; then four digits of how much is lent
// of a buffer. The answer is shown with the lent bytes and the two behind them. The bench cases stand first, and the file `names`
// beside `stdin` names each; P1 to P13 and those of ISO 9141-2 are proved of the definitions in proofs/BenchLaws.antt.
#![tactic(auto)]

use hex_text::{counted, fewer};
use std::io::{self, Read, Write};
use vector_io::{print_bytes, print_word, read_full, read_number, read_run, run_cases, zeros};

const SUPPLEMENT: usize = 16400;

const RUN: usize = 16;

const BUFFER: usize = 320;

// How many bytes behind the lent ones are shown.
const BEHIND: usize = 2;

const FILLING: u8 = 0xA5;

// The letter of a bus and the space behind it.
const BUS: usize = 2;

#[derive(Clone, Copy)]
enum Bus {
    J1850,
    Iso9141,
}

impl From<u8> for Bus {
    fn from(letter: u8) -> Bus {
        match letter {
            b'J' => Bus::J1850,
            _ => Bus::Iso9141,
        }
    }
}

// A frame on a bus, the supplement to report it under, and how many bytes are lent of a buffer.
#[derive(Clone, Copy)]
struct Case<'a> {
    bus: Bus,
    supplement: &'a [u8],
    first: &'a [u8],
    response: &'a [u8],
    room: u16,
}

impl Case<'_> {
    fn report_into(&self, buffer: &mut [u8]) -> u64 {
        let lent = fewer(usize::from(self.room), buffer.len());
        let out = &mut buffer[..lent];
        match self.bus {
            Bus::J1850 => {
                c_api::rakhubole_j1850_report(self.supplement, self.first, self.response, out)
            }
            Bus::Iso9141 => c_api::rakhubole_iso9141_report(self.supplement, self.first, out),
        }
    }

    fn run<W: Write>(&self, out: &mut W) -> io::Result<()> {
        let mut buffer = [FILLING; BUFFER];
        print_word(out, self.report_into(&mut buffer))?;
        write!(out, " ")?;
        print_bytes(out, counted(&buffer, usize::from(self.room) + BEHIND))?;
        writeln!(out)
    }
}

// Reads a run behind its length; none where the input ends before or the buffer has no room for it.
fn next_run<'a, R: Read>(input: &mut R, run: &'a mut [u8]) -> io::Result<Option<&'a [u8]>> {
    let Some(n) = read_number(input)? else {
        return Ok(None);
    };
    read_run(input, n, run)
}

// Reads a line, runs its case and answers whether there may be another.
fn next_case<R: Read, W: Write>(input: &mut R, out: &mut W) -> io::Result<bool> {
    let mut supplement = zeros::<SUPPLEMENT>();
    let mut first = [0u8; RUN];
    let mut response = [0u8; RUN];
    let mut bus = [0u8; BUS];
    read_full(input, &mut bus)?;
    let supplement = next_run(input, &mut supplement)?;
    let first = next_run(input, &mut first)?;
    let response = next_run(input, &mut response)?;
    let room = read_number(input)?;
    let (Some(supplement), Some(first), Some(response), Some(room)) = (
        supplement, first, response, room,
    ) else {
        return Ok(false);
    };
    let case = Case {
        bus: Bus::from(bus[0]),
        supplement,
        first,
        response,
        room,
    };
    case.run(out)?;
    Ok(true)
}

fn main(rt: HostRuntime) -> io::Result<()> {
    let mut input = rt.reader();
    let mut out = io::writer(&rt);
    run_cases(|| next_case(&mut input, &mut out))
}
