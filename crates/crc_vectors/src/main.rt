// The published vectors of CRC-8/SAE-J1850: prints the check byte of each run, one a line.
#![tactic(auto)]

use frame::check_byte::check_byte;
use std::io::{self, Write};
use vector_io::print_hex;

const BYTE_DIGITS: usize = 2;

fn main(rt: HostRuntime) -> io::Result<()> {
    let runs: [&[u8]; 8] = [
        b"123456789",
        &[0x00, 0x00, 0x00, 0x00],
        &[0xF2, 0x01, 0x83],
        &[0x0F, 0xAA, 0x00, 0x55],
        &[0x00, 0xFF, 0x55, 0x11],
        &[0x33, 0x22, 0x55, 0xAA, 0xBB, 0xCC, 0xDD, 0xEE, 0xFF],
        &[0x92, 0x6B, 0x55],
        &[0xFF, 0xFF, 0xFF, 0xFF],
    ];
    let mut out = io::writer(&rt);
    for run in runs {
        print_hex(&mut out, u64::from(check_byte(run)), BYTE_DIGITS)?;
        writeln!(out)?;
    }
    Ok(())
}
