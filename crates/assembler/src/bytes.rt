// The payload's bytes that a symbol completes, and the part of a byte that it leaves.
ghost use Rattle.std.specs.Prelude.{◌≡◌, ◌+◌, ◌-◌, ◌*◌, ◌/◌, ◌≤◌, length, get_or};
ghost use Rattle.laws.specs.Filled.{Filled};
ghost use Rattle.assembler.specs.Assembled.{payload_before, bits_number, byte_of, part_of, known_bit, PayloadAsked};
ghost use Rattle.assembler.specs.Asked.{PackAsked, BytesAsked};

use data_bits::bits::put_byte;

// The payload bits before a data bit.
pub fn payload_before(bytes: usize, d: usize) -> usize
    requires { bytes ≤ 65535 }
    ensures { result ≡ payload_before bytes d }
{
    d.saturating_sub(16).min(8 * bytes)
}

// Eight bits of a line as a byte, low bit first.
fn pack(line: &[u8], at: usize) -> u8
    requires { PackAsked line.now at }
    ensures { result ≡ bits_number (λ k. get_or line.now k 0) at 8 }
{
    let mut byte = 0;
    for k in 0..8 {
        byte += line[at + k] << k;
    }
    byte
}

// Whole bytes of a line.
fn put_bytes(bytes: &mut [u8], line: &[u8])
    requires { BytesAsked bytes.old line.now }
    ensures { Filled 0 0 (λ k. bits_number (λ j. get_or line.now j 0) (8 * k) 8) (length bytes.old) bytes.old bytes.new }
{
    for k in 0..bytes.len() {
        bytes[k] = pack(line, 8 * k);
    }
}

// Puts the bytes that are now complete, each at its own index, and returns the part of a byte that is left.
pub fn put_payload(
    payload: &mut [u8],
    plain: &[u8],
    part: u8,
    bytes: usize,
    start: usize,
    count: usize,
) -> u8
    requires { PayloadAsked payload.old plain.now part bytes start count }
    ensures filled { Filled 0 (payload_before bytes start / 8) (λ k. byte_of (known_bit bytes start part (λ d. get_or plain.now d 0)) (payload_before bytes start / 8 + k)) (payload_before bytes (start + count) / 8 - payload_before bytes start / 8) payload.old payload.new }
    ensures value { result ≡ part_of (known_bit bytes start part (λ d. get_or plain.now d 0)) (payload_before bytes (start + count)) }
{
    let before = payload_before(bytes, start);
    let after = payload_before(bytes, start + count);
    // The known payload bits from the first of the byte in which the symbol begins: the part's, and after them the symbol's.
    let mut line = [0u8; 2176];
    put_byte(&mut line, 0, part);
    if before < after {
        let to = before % 8;
        let from = 16 + before - start;
        let bits = after - before;
        line[to..to + bits].copy_from_slice(&plain[from..from + bits]);
    }
    put_bytes(&mut payload[before / 8..after / 8], &line);
    pack(&line, 8 * (after / 8 - before / 8))
}
