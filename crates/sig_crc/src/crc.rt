// The CRC of HT-SIG as numbers: the register over the first 34 bits, and the field that is sent of it.
// Crate `signal` says that this is the register by its stages.
ghost use Rattle.std.specs.Prelude.{◌≡◌, ◌<◌, ◌≤◌, ◌-◌, ◌%◌};
ghost use Rattle.sig_crc.specs.Crc.{crc_shift, crc_run, crc_field};

// One shift of the CRC register, stage 0 its low bit: stage 7 and the bit feed stages 0, 1 and 2.
fn crc_shift(r: u64, b: u64) -> u64
    requires r_bound { r < 256 }
    requires b_bound { b < 2 }
    ensures { (result ≡ crc_shift r b) × (result < 256) }
{
    let f = (r / 128 + b) % 2;
    f + 2 * ((r + f) % 2) + 4 * ((r / 2 + f) % 2) + 8 * (r / 4 % 32)
}

// The register after the 34 low bits of a number.
pub fn crc(head: u64) -> u64
    ensures { (result ≡ crc_run 34 255 head) × (result < 256) }
{
    let mut r: u64 = 255;
    let mut w = head;
    for i in 0u64..34 {
        r = crc_shift(r, w % 2);
        w = w / 2;
    }
    r
}

// The low bit of a number, complemented.
fn off(x: u64) -> u64
    ensures { (result ≡ 1 - x % 2) × (result ≤ 1) }
{
    1 - x % 2
}

// The register complemented, stage 7 as the low bit: it is sent first.
pub fn crc_field(r: u64) -> u64
    ensures { (result ≡ crc_field r) × (result < 256) }
{
    let low = off(r / 128) + 2 * off(r / 64) + 4 * off(r / 32) + 8 * off(r / 16);
    let high = off(r / 8) + 2 * off(r / 4) + 4 * off(r / 2) + 8 * off(r);
    low + 16 * high
}
