// The HT-SIG field as a number: its fields, its CRC, its six bytes. Crate `signal` says that this is the field by its bits.
ghost use Rattle.std.specs.Prelude.{◌≡◌, ◌++◌, ◌<◌, ◌≤◌, ◌%◌, length, drop};
ghost use Rattle.sig_words.specs.Words.{SigFits, head_word, sig_word, six_of, word_in, word_crc_wrong, word_form_wrong, fields_in_word};

use sig_crc::crc::{crc, crc_field};

// What the field says of the settings.
#[derive(Clone, Copy)]
pub struct SigFields {
    pub width: u64,
    pub mcs: u64,
    pub length: u64,
    pub smoothing: bool,
    pub not_sounding: bool,
    pub aggregation: bool,
    pub short_guard: bool,
}

// Bits 0 to 33.
fn head_word(g: SigFields) -> u64
    requires { SigFits g }
    ensures { (result ≡ head_word g) × (result < 17179869184) }
{
    let wide = g.width == 40;
    let flags = u64::from(g.smoothing)
        + 2 * u64::from(g.not_sounding)
        + 4
        + 8 * u64::from(g.aggregation)
        + 128 * u64::from(g.short_guard);
    g.mcs + 128 * u64::from(wide) + 256 * g.length + 16777216 * flags
}

// All 48 bits.
pub fn sig_word(g: SigFields) -> u64
    requires { SigFits g }
    ensures { (result ≡ sig_word g) × (result < 4398046511104) }
{
    let head = head_word(g);
    head + 17179869184 * crc_field(crc(head))
}

// Writes the low six bytes of a number, low byte first.
pub fn put_six(w: u64, out: &mut [u8])
    requires { 6 ≤ length out.old }
    ensures { out.new ≡ six_of w ++ drop 6 out.old }
{
    out[..6].copy_from_slice(&w.to_le_bytes()[..6]);
}

// The number that six bytes are, low byte first.
pub fn word_in(sig: &[u8]) -> u64
    requires { length sig.now ≡ 6 }
    ensures { result ≡ word_in sig.now }
{
    let mut bytes = [0; 8];
    bytes[..6].copy_from_slice(sig);
    u64::from_le_bytes(bytes)
}

pub fn crc_wrong(w: u64) -> bool
    ensures { result ≡ word_crc_wrong w }
{
    let sent = w / 17179869184 % 256;
    sent != crc_field(crc(w % 17179869184))
}

// MCS, length, reserved bit, STBC, coding, extension streams, tail.
pub fn form_wrong(w: u64) -> bool
    ensures { result ≡ word_form_wrong w }
{
    (w % 128 > 31)
        | (w / 256 % 65536 == 0)
        | (w / 67108864 % 2 != 1)
        | (w / 268435456 % 4 != 0)
        | (w / 1073741824 % 2 != 0)
        | (w / 4294967296 % 4 != 0)
        | (w / 4398046511104 % 64 != 0)
}

pub fn fields_in(w: u64) -> SigFields
    ensures { result ≡ fields_in_word w }
{
    SigFields {
        width: if w / 128 % 2 == 1 { 40 } else { 20 },
        mcs: w % 128,
        length: w / 256 % 65536,
        smoothing: w / 16777216 % 2 == 1,
        not_sounding: w / 33554432 % 2 == 1,
        aggregation: w / 134217728 % 2 == 1,
        short_guard: w / 2147483648 % 2 == 1,
    }
}
