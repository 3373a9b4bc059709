// Reading and printing hexadecimal text and running case after case, for the programs that run vector files.
#![tactic(auto)]

ghost use Rattle.std.specs.Prelude.{◌≡◌, ◌*◌, ◌<◌, ◌≤◌, min, length, replicate, take, IfOk, IfSome, IsNone, OnErr, OnOk};
ghost use Rattle.std.specs.Io.{ReadsAtMost};
ghost use Rattle.std.specs.Io.KnownBytes.{Appends, Consumes, IsAtEnd};
ghost use Rattle.hex_text.specs.Digits.{text_of};
ghost use Rattle.vector_io.specs.Digits.{hex_digits, wide};
ghost use Rattle.vector_io.specs.Taken.{LeavesTaken, TakesSome, ReadsNumber, ReadsRun};
ghost use Rattle.vector_io.specs.Cases.{RunsOut};

use hex_text::{byte_from, counted, fill, write_text};
use std::io::{self, Read, Write};

const BYTE_DIGITS: usize = 2;

// Four digits and the character behind them.
const NUMBER: usize = 5;

// Room for the text of a run.
const TEXT: usize = 65536;

const WORD_DIGITS: usize = 16;

// Room for the longest text that is printed, of 320 bytes.
const LINE: usize = 640;

// Reads until `buf` is full or the input ends, and answers how many bytes it put at the start of `buf`. An error is the reader's own;
// what was read before it stands in `buf`. No `for` goes over it, since each turn moves by what the read gave.
pub fn read_full<R: Read>(input: &mut R, buf: &mut [u8]) -> io::Result<usize>
    ensures within { ReadsAtMost result buf.new }
    ensures bytes { IfOk result (λ n. Consumes (R.remaining input.old) (R.remaining input.new) (take n buf.new)) }
    ensures end { IfOk result (λ n. n < length buf.old → IsAtEnd (R.remaining input.new)) }
    ensures err { OnErr result (LeavesTaken (R.remaining input.old) (R.remaining input.new) buf.new) }
{
    let mut done = 0;
    while done < buf.len() {
        let n = input.read(&mut buf[done..])?;
        if n == 0 {
            break;
        }
        done += n;
    }
    Ok(done)
}

// So many characters, as far as there is room.
pub fn read_text<R: Read>(input: &mut R, text: &mut [u8], size: usize) -> io::Result<usize>
    ensures within { ReadsAtMost result text.new }
    ensures part { IfOk result (λ n. n ≤ size) }
    ensures bytes { IfOk result (λ n. Consumes (R.remaining input.old) (R.remaining input.new) (take n text.new)) }
    ensures end { IfOk result (λ n. n < min size (length text.old) → IsAtEnd (R.remaining input.new)) }
    ensures err { OnErr result (LeavesTaken (R.remaining input.old) (R.remaining input.new) text.new) }
{
    let part = size.min(text.len());
    read_full(input, &mut text[..part])
}

// A buffer of so many zeros. Its length is said, since lending it as a slice rests on that.
pub fn zeros<const N: usize>() -> [u8; N]
    ensures size { N ≡ length result }
    ensures zero { result ≡ replicate N 0 }
{
    [0; N]
}

// Runs case after case, until one answers that there is no other or fails. The turns are counted, since a proved loop has to end and
// nothing says that the input does. A program's `main` is left with its reader, its writer and its case.
pub fn run_cases<F: FnMut() -> io::Result<bool>>(mut next_case: F) -> io::Result<()>
    requires { F.IsAlwaysCallable next_case }
    ensures { RunsOut (λ f r g. F.step f r g) next_case result }
{
    for _turn in 0..u64::MAX {
        if !next_case()? {
            break;
        }
    }
    Ok(())
}

// Reads a number: four digits and the character behind them; none where the input ends before.
pub fn read_number<R: Read>(input: &mut R) -> io::Result<Option<u16>>
    ensures number { IfOk result (λ o. IfSome o (ReadsNumber (R.remaining input.old) (R.remaining input.new))) }
    ensures end { IfOk result (λ o. IsNone o → IsAtEnd (R.remaining input.new)) }
    ensures err { OnErr result (TakesSome (R.remaining input.old) (R.remaining input.new)) }
{
    let mut text = [0u8; NUMBER];
    if read_full(input, &mut text)? < NUMBER {
        return Ok(None);
    }
    let high = byte_from(&text, 0);
    let low = byte_from(&text, BYTE_DIGITS);
    Ok(Some(u16::from_be_bytes([high, low])))
}

// Reads so many bytes, two digits each, and the character behind them, into a buffer of which they are handed out; none where the input
// ends before or there is no room for them or for their text.
pub fn read_run<'a, R: Read>(
    input: &mut R,
    n: u16,
    run: &'a mut [u8],
) -> io::Result<Option<&'a [u8]>>
    ensures bytes { IfOk result (λ o. IfSome o (λ r. ReadsRun (R.remaining input.old) (R.remaining input.new) n r.now)) }
    ensures end { IfOk result (λ o. IsNone o → n ≤ length run.old → n * BYTE_DIGITS < TEXT → IsAtEnd (R.remaining input.new)) }
    ensures err { OnErr result (TakesSome (R.remaining input.old) (R.remaining input.new)) }
{
    let n = usize::from(n);
    let size = n * BYTE_DIGITS + 1;
    let mut text = zeros::<TEXT>();
    let got = read_text(input, &mut text, size)?;
    fill(&text, run);
    if got < size || run.len() < n {
        return Ok(None);
    }
    Ok(Some(counted(run, n)))
}

// A number in hexadecimal digits, in lower case, with zeros before it up to so many digits.
pub fn print_hex<W: Write>(out: &mut W, n: u64, width: usize) -> io::Result<()>
    ensures { OnOk result (Appends (W.contents out.old) (W.contents out.new) (wide width (hex_digits n))) }
{
    write!(out, "{n:0width$x}")
}

// The word that an exported call answers, sixteen digits.
pub fn print_word<W: Write>(out: &mut W, word: u64) -> io::Result<()>
    ensures { OnOk result (Appends (W.contents out.old) (W.contents out.new) (wide WORD_DIGITS (hex_digits word))) }
{
    print_hex(out, word, WORD_DIGITS)
}

// The text of bytes, as far as a buffer has room for it.
pub fn print_bytes<W: Write>(out: &mut W, bytes: &[u8]) -> io::Result<()>
    ensures { OnOk result (Appends (W.contents out.old) (W.contents out.new) (take LINE (text_of bytes.now))) }
{
    let mut text = [0u8; LINE];
    let n = write_text(bytes, &mut text);
    out.write_all(counted(&text, n))
}

#[cfg(test)]
mod tests {
    use super::*;
    use std::test::Fail;

    // Gives three bytes at a time at the most, and behind the last one ends or fails.
    #[derive(Drop)]
    struct Pieces<'a> {
        rest: &'a [u8],
        fails: bool,
    }

    impl Read for Pieces<'_> {
        fn read(&mut self, buf: &mut [u8]) -> io::Result<usize> {
            let n = self.rest.len().min(buf.len()).min(3);
            if n == 0 && self.fails {
                return Err(io::Error::other("cut"));
            }
            buf[..n].copy_from_slice(&self.rest[..n]);
            self.rest = &self.rest[n..];
            Ok(n)
        }
    }

    #[test]
    fn reads_in_pieces_to_the_end(rt: HostRuntime) -> Result<(), Fail> {
        let mut input = Pieces {
            rest: b"abcdefg",
            fails: false,
        };
        let mut buf = [b'.'; 8];
        assert_eq!(rt; read_text(&mut input, &mut buf, 5)?, 5);
        assert_eq!(rt; buf, *b"abcde...");
        assert_eq!(rt; read_full(&mut input, &mut buf)?, 2);
        assert_eq!(rt; buf, *b"fgcde...");
        assert_eq!(rt; read_full(&mut input, &mut buf)?, 0);
        Ok(())
    }

    #[test]
    fn runs_cases_to_the_last(rt: HostRuntime) -> Result<(), Fail> {
        let mut input = Pieces {
            rest: b"0002 0A0B 0001 0C 0003 0D",
            fails: false,
        };
        let mut run = [0u8; 2];
        let mut seen = 0usize;
        run_cases(|| {
            let Some(n) = read_number(&mut input)? else {
                return Ok(false);
            };
            let Some(bytes) = read_run(&mut input, n, &mut run)? else {
                return Ok(false);
            };
            seen = seen.wrapping_add(bytes.len());
            Ok(true)
        })?;
        assert_eq!(rt; seen, 3);
        assert_eq!(rt; run, [0x0D, 0]);
        Ok(())
    }

    #[test]
    fn fails_with_the_input(rt: HostRuntime) {
        let mut input = Pieces {
            rest: b"abcd",
            fails: true,
        };
        let mut buf = [b'.'; 8];
        assert!(rt; read_full(&mut input, &mut buf).is_err());
        assert!(rt; read_full(&mut input, &mut buf).is_err());
    }
}
