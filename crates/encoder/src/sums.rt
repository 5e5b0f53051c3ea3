// Both sums of every encoder step, off a line that has the encoders' histories before the inputs. The line is shared by the encoders in turn,
// so that the taps stand NES times their distance apart.
ghost use Rattle.std.specs.Prelude.{◌≡◌, ◌+◌, ◌*◌, ◌<◌, ◌≤◌, length, get_or};
ghost use Rattle.laws.specs.Filled.{Filled};
ghost use Rattle.encoder.specs.Sums.{xor_of, SumsAsked, Sums};

// x(t) + x(t-K) + x(t-L) + x(t-M) + x(t-6), where the line has x(t-6) at j.
fn sum<const K: usize, const L: usize, const M: usize>(line: &[u8], encoders: usize, j: usize) -> u8
    requires { (j + 6 * encoders < length line.now) × (encoders ≤ 2) × (j < 2160) × (K ≤ 6) × (L ≤ 6) × (M ≤ 6) }
    ensures { result ≡ xor_of K L M (λ e. get_or line.now e 0) encoders j }
{
    line[j + 6 * encoders]
        ^ line[j + (6 - K) * encoders]
        ^ line[j + (6 - L) * encoders]
        ^ line[j + (6 - M) * encoders]
        ^ line[j]
}

// That sum of every input, from place TO on.
fn sums_from<const TO: usize, const K: usize, const L: usize, const M: usize>(
    sums: &mut [u8],
    line: &[u8],
    encoders: usize,
    count: usize,
)
    requires asked { SumsAsked sums.old line.now encoders count }
    requires inside { (TO ≤ 2160) × (K ≤ 6) × (L ≤ 6) × (M ≤ 6) }
    ensures { Filled 0 TO (λ j. xor_of K L M (λ e. get_or line.now e 0) encoders j) count sums.old sums.new }
{
    for j in 0..count {
        sums[TO + j] = sum::<K, L, M>(line, encoders, j);
    }
}

// Sum A of input j stands at j, sum B at 2160 + j.
pub fn both_sums(sums: &mut [u8], line: &[u8], encoders: usize, count: usize)
    requires { SumsAsked sums.old line.now encoders count }
    ensures { Sums (λ e. get_or line.now e 0) encoders count sums.old sums.new }
{
    sums_from::<0, 2, 3, 5>(sums, line, encoders, count);
    sums_from::<2160, 1, 2, 3>(sums, line, encoders, count);
}
