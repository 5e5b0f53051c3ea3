// The data bits before scrambling.
ghost use Rattle.std.specs.Prelude.{◌≡◌, ◌+◌, ◌-◌, ◌*◌, ◌/◌, ◌%◌, ◌≤◌, ◌^◌, min, length, get_or};
ghost use Rattle.std.specs.Int.Bits.{bit_xor};
ghost use Rattle.laws.specs.Filled.{Filled};
ghost use Rattle.chain.specs.DataBits.{payload_bit};
ghost use Rattle.data_bits.specs.Asked.{DataAsked, DataFilled};

// The bits of a byte, low bit first.
pub fn put_byte(raw: &mut [u8], at: usize, byte: u8)
    requires { (at + 8 ≤ length raw.old) × (at ≤ 2 ^ 27) }
    ensures { Filled 0 at (λ k. byte / 2 ^ k % 2) 8 raw.old raw.new }
{
    for k in 0..8 {
        raw[at + k] = (byte >> k) % 2;
    }
}

// Bytes as bits, one after the other.
fn put_bytes(raw: &mut [u8], bytes: &[u8])
    requires { (8 * length bytes.now ≤ length raw.old) × (length bytes.now ≤ 273) }
    ensures { Filled 0 0 (payload_bit bytes.now) (8 * length bytes.now) raw.old raw.new }
{
    for (m, &byte) in bytes.iter().enumerate() {
        put_byte(raw, 8 * m, byte);
    }
}

// Bits, and on each of them another.
pub fn add_bits(sums: &mut [u8], bits: &[u8], others: &[u8])
    requires { (length sums.old ≤ length bits.now) × (length sums.old ≤ length others.now) }
    ensures { Filled 0 0 (λ t. bit_xor (get_or bits.now t 0) (get_or others.now t 0)) (length sums.old) sums.old sums.new }
{
    for t in 0..sums.len() {
        sums[t] = bits[t] ^ others[t];
    }
}

// How many of `count` numbers from `start` on are below a mark.
pub fn below_mark(mark: usize, start: usize, count: usize) -> usize
    ensures { result ≡ min (mark - start) count }
{
    mark.saturating_sub(start).min(count)
}

// The data bits before scrambling, by whole bytes: two of service, the payload's, and zeros.
pub fn data_bits(raw: &mut [u8], payload: &[u8], from: usize, count: usize)
    requires { DataAsked raw.old payload.now from count }
    ensures { DataFilled payload.now (length payload.now) from count raw.old raw.new }
{
    let low = below_mark(2, from, count);
    let high = below_mark(payload.len() + 2, from, count);
    if low < high {
        put_bytes(
            &mut raw[8 * low..8 * high],
            &payload[from + low - 2..from + high - 2],
        );
    }
}
