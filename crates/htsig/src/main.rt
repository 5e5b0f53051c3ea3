// Reads MCS, width and length line by line from standard input and lists symbol counts and HT-SIG bytes.
// The decisions, the lines and the rows are the library's; this program only reads and writes.
#![tactic(auto)]

ghost use Rattle.std.specs.Prelude.{◌<◌, length, take, IfOk, OnOk, IfSome};
ghost use Rattle.std.specs.Io.{ReadsAtMost};
ghost use Rattle.std.specs.Io.KnownBytes.{Appends, Consumes, IsAtEnd};
ghost use Rattle.lines.specs.Lines.{lines_of};
ghost use Rattle.listing.specs.Listing.{listing_of, rows_of};

use lines::lines::{next_line, too_long};
use listing::rows;
use std::io::{self, Read, Write};
use text::printing;

// Reads until the buffer is full or the input ends, and returns how many bytes it put at the buffer's start.
fn read_full<R: Read>(input: &mut R, buffer: &mut [u8]) -> io::Result<usize>
    ensures within { ReadsAtMost result buffer.new }
    ensures bytes { IfOk result (λ n. Consumes (R.remaining input.old) (R.remaining input.new) (take n buffer.new)) }
    ensures end { IfOk result (λ n. n < length buffer.old → IsAtEnd (R.remaining input.new)) }
{
    let mut done = 0;
    while done < buffer.len() {
        let n = input.read(&mut buffer[done..])?;
        if n == 0 {
            break;
        }
        done += n;
    }
    Ok(done)
}

// A row for each line.
fn print_lines<W: Write>(out: &mut W, input: &[u8]) -> io::Result<()>
    ensures { OnOk result (Appends (W.contents out.old) (W.contents out.new) (rows_of (lines_of input.now))) }
{
    let mut at = 0;
    while let Some(line) = next_line(input, at) {
        let row = rows::row(&input[line.start..line.end]);
        out.write_all(row.as_slice())?;
        at = line.next;
    }
    Ok(())
}

// The header, and a row for each line or that the input is too long.
fn print_listing<W: Write>(out: &mut W, input: &[u8]) -> io::Result<()>
    ensures { OnOk result (Appends (W.contents out.old) (W.contents out.new) (listing_of input.now)) }
{
    out.write_all(&printing::header())?;
    if too_long(input) {
        return out.write_all(&printing::too_long_text());
    }
    print_lines(out, input)
}

// Reads the whole input, or one byte more than is listed, so that a longer input shows, and writes its listing.
fn list<R: Read, W: Write>(input: &mut R, out: &mut W) -> io::Result<()>
    ensures { OnOk result (IfSome (R.remaining input.old) (λ bytes. Appends (W.contents out.old) (W.contents out.new) (listing_of bytes))) }
{
    let mut space = [0u8; 65537];
    let count = read_full(input, &mut space)?;
    print_listing(out, &space[..count])
}

fn main(rt: HostRuntime) -> io::Result<()> {
    list(&mut rt.stdin(), &mut rt.stdout())
}
