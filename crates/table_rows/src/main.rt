// Prints every row of the SAE tables as the lookups find it under the empty supplement: PRN rows by PRN, then SLOT rows by form, width
// and number.
#![tactic(auto)]

use catalogue::lookup::{find_prn, find_slot};
use std::io::{self, Write};
use vector_io::print_hex;

// SLOT numbers of document 003 are far below this.
const NUMBERS_END: u16 = 1024;

// Forms run from 1 to 9 and widths from 1 to 64; numbers, as `find_slot` takes them.
const FORMS_END: u8 = 10;

const WIDTHS_END: u8 = 65;

const LAST_PRN: u16 = 0xFFFF;

// How many digits a field of one, two and four bytes is shown with.
const BYTE: usize = 2;

const PAIR: usize = 4;

const FOUR: usize = 8;

fn show<W: Write>(out: &mut W, number: u64, digits: usize) -> io::Result<()> {
    write!(out, " ")?;
    print_hex(out, number, digits)
}

fn show_prn<W: Write>(out: &mut W, prn: u16) -> io::Result<()> {
    let Some(row) = find_prn(b"", prn) else {
        return Ok(());
    };
    write!(out, "P")?;
    show(out, u64::from(row.prn), PAIR)?;
    show(out, u64::from(row.form), BYTE)?;
    show(out, u64::from(row.width), BYTE)?;
    show(out, u64::from(row.slot), PAIR)?;
    writeln!(out)
}

fn show_slot<W: Write>(out: &mut W, form: u8, width: u8, number: u16) -> io::Result<()> {
    let Some(row) = find_slot(b"", form, width, number) else {
        return Ok(());
    };
    write!(out, "S")?;
    show(out, u64::from(row.form), BYTE)?;
    show(out, u64::from(row.width), BYTE)?;
    show(out, u64::from(row.number), PAIR)?;
    show(out, u64::from(row.multiplier), PAIR)?;
    show(out, u64::from(row.divisor), PAIR)?;
    show(out, u64::from(row.offset), FOUR)?;
    show(out, u64::from(row.lowest), FOUR)?;
    show(out, u64::from(row.highest), FOUR)?;
    writeln!(out)
}

// The three loops stand in functions of their own, by the project's rule of one loop a function.
fn show_numbers<W: Write>(out: &mut W, form: u8, width: u8) -> io::Result<()> {
    for number in 0..NUMBERS_END {
        show_slot(out, form, width, number)?;
    }
    Ok(())
}

fn show_widths<W: Write>(out: &mut W, form: u8) -> io::Result<()> {
    for width in 1..WIDTHS_END {
        show_numbers(out, form, width)?;
    }
    Ok(())
}

fn show_prns<W: Write>(out: &mut W) -> io::Result<()> {
    for prn in 0..=LAST_PRN {
        show_prn(out, prn)?;
    }
    Ok(())
}

fn main(rt: HostRuntime) -> io::Result<()> {
    let mut out = io::writer(&rt);
    show_prns(&mut out)?;
    for form in 1..FORMS_END {
        show_widths(&mut out, form)?;
    }
    Ok(())
}
