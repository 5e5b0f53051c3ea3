// The numbers that a width, an MCS and a number of encoders give: document 01, 'Settings'.
ghost use Rattle.std.specs.Prelude.{◌≡◌};
ghost use Rattle.chain.specs.Parser.{axis_bits};
ghost use Rattle.chain.specs.Plan.{carriers_of, plan_of, Planned};

#[derive(Clone, Copy)]
pub struct Plan {
    // Channel width in MHz.
    pub width: usize,
    // Spatial streams, N_SS.
    pub streams: usize,
    // Coded bits per data carrier, N_BPSC.
    pub bits: usize,
    // Coded bits that puncturing keeps of `kept - 1` encoder steps: the rate is (kept - 1) / kept.
    pub kept: usize,
    // Encoders, N_ES.
    pub encoders: usize,
    // Data carriers, N_SD.
    pub carriers: usize,
    // Coded bits per stream and symbol, N_CBPSS.
    pub block: usize,
    // Coded bits per symbol, N_CBPS.
    pub coded: usize,
    // Data bits per symbol, N_DBPS.
    pub dbps: usize,
}

// The most that a symbol has, with four streams of 64-QAM at 40 MHz: coded bits of a stream (N_CBPSS), coded bits (N_CBPS), and at
// rate 5/6 data bits (N_DBPS).
pub const MOST_BLOCK: usize = 648;

pub const MOST_CODED: usize = 2592;

pub const MOST_DATA: usize = 2160;

// As many data bits with the last six steps of two encoders before them.
pub const MOST_LINE: usize = 2172;

// Half labels, two a carrier.
pub const MOST_HALVES: usize = 864;

// By the MCS modulo 8: coded bits per data carrier, and the rate as encoder steps and coded bits kept of them.
// A static, of which a read takes one row: the array of a const would be built for each.
static SCHEMES: [(usize, usize, usize); 8] = [
    (1, 1, 2),
    (2, 1, 2),
    (2, 3, 4),
    (4, 1, 2),
    (4, 3, 4),
    (6, 2, 3),
    (6, 3, 4),
    (6, 5, 6),
];

fn carriers_of(width: usize) -> usize
    ensures { result ≡ carriers_of width }
{
    if width == 40 { 108 } else { 52 }
}

pub fn plan_for(width: usize, mcs: usize, encoders: usize) -> Plan
    requires { Planned width mcs encoders }
    ensures { result ≡ plan_of width mcs encoders }
{
    let streams = mcs / 8 + 1;
    let (bits, steps, kept) = SCHEMES[mcs % 8];
    let carriers = carriers_of(width);
    let block = carriers * bits;
    let coded = block * streams;
    let dbps = coded * steps / kept;
    Plan {
        width,
        streams,
        bits,
        kept,
        encoders,
        carriers,
        block,
        coded,
        dbps,
    }
}

// Bits of one axis of a constellation point.
#[tactic(auto, unfolding(crate::specs::Parser::axis_bits))]
pub fn axis_bits(bits: usize) -> usize
    ensures { result ≡ axis_bits bits }
{
    (bits / 2).max(1)
}
