// The published values of IEEE 802.11 that the coding chain reaches, printed one a line: the scrambler's period from seed 127, and of Annex G's
// message (100 bytes, seed 93, 16-QAM at rate 3/4) the first 48 encoder inputs and the first 192 coded bits.
#![tactic(auto)]

ghost use Rattle.std.specs.Prelude.{◌+◌, ◌%◌, [], ◌∷◌, ◌++◌, map, OnOk};
ghost use Rattle.std.specs.Io.KnownBytes.{Appends};

use chain::plan::MOST_CODED;
use inputs::line::coder_inputs;
use puncturing::coded::coded_bits;
use scrambler::outputs::scrambler_outputs;
use std::io::{self, Write};

const MESSAGE: [u8; 100] = [
    4, 2, 0, 46, 0, 96, 8, 205, 55, 166, 0, 32, 214, 1, 60, 241, 0, 96, 8, 173, 59, 175, 0, 0, 74,
    111, 121, 44, 32, 98, 114, 105, 103, 104, 116, 32, 115, 112, 97, 114, 107, 32, 111, 102, 32,
    100, 105, 118, 105, 110, 105, 116, 121, 44, 10, 68, 97, 117, 103, 104, 116, 101, 114, 32, 111,
    102, 32, 69, 108, 121, 115, 105, 117, 109, 44, 10, 70, 105, 114, 101, 45, 105, 110, 115, 105,
    114, 101, 100, 32, 119, 101, 32, 116, 114, 101, 97, 103, 51, 33, 182,
];

// Bits as digits, ended by a line feed.
fn print_bits<W: Write>(out: &mut W, bits: &[u8]) -> io::Result<()>
    ensures { OnOk result (Appends (W.contents out.old) (W.contents out.new) (map (λ b. 48 + b % 2) bits.now ++ 10 ∷ [])) }
{
    for &bit in bits {
        out.write_all(&[48 + bit % 2])?;
    }
    out.write_all(b"\n")
}

fn main(rt: HostRuntime) -> io::Result<()> {
    let mut out = rt.stdout();
    let mut outputs = [0u8; 127];
    scrambler_outputs(&mut outputs, 127);
    print_bits(&mut out, &outputs)?;
    let mut line = [0u8; 162];
    coder_inputs(&mut line, &MESSAGE, 1, 93, 0);
    print_bits(&mut out, &line[6..54])?;
    let mut coded = [0u8; MOST_CODED];
    coded_bits(&mut coded, &line, 1, 4, 52);
    print_bits(&mut out, &coded[..192])
}
