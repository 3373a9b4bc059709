// Runs the supplement vectors through the exported test and prints what each answers.
//
// A line of standard input is one case in hexadecimal: four digits of its length, a space, its bytes.
#![tactic(auto)]

use std::io::{self, Read, Write};
use vector_io::{print_word, read_number, read_run, run_cases, zeros};

const MOST: usize = 16400;

// Reads a line, runs its case and answers whether there may be another.
fn next_case<R: Read, W: Write>(input: &mut R, out: &mut W) -> io::Result<bool> {
    let Some(n) = read_number(input)? else {
        return Ok(false);
    };
    if MOST < usize::from(n) {
        return Ok(false);
    }
    let mut bytes = zeros::<MOST>();
    let Some(supplement) = read_run(input, n, &mut bytes)? else {
        return Ok(false);
    };
    print_word(out, c_api::rakhubole_supplement_check(supplement))?;
    writeln!(out)?;
    Ok(true)
}

fn main(rt: HostRuntime) -> io::Result<()> {
    let mut input = rt.reader();
    let mut out = io::writer(&rt);
    run_cases(|| next_case(&mut input, &mut out))
}
