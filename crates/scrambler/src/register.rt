// The scrambler's register. Many steps at once by powers of two: with M for one step and + for xor, M^8 = M^4 + M, M^16 = M^4 + M^2 + M,
// M^32 = M^2 + M and M^64 = M^4 + M^2.
ghost use Rattle.std.specs.Prelude.{◌≡◌, ◌^◌, ◌<◌, ◌≤◌};
ghost use Rattle.chain.specs.Scrambler.{output, next, state_at};

pub fn output_of(state: u8) -> u8
    requires { state < 128 }
    ensures { result ≡ output state }
{
    (state / 64 + state / 8) % 2
}

pub(crate) fn step(state: u8) -> u8
    requires { state < 128 }
    ensures { result ≡ next state }
{
    state % 64 * 2 + output_of(state)
}

// N steps, of at most four: the stages move up by N, and the N outputs come in below.
fn steps<const N: u32>(state: u8) -> u8
    requires { (state < 128) × (N ≤ 4) }
    ensures { result ≡ state_at state N }
{
    (state << N) % 128 + (state >> (7 - N) ^ state >> (4 - N)) % (1 << N)
}

// 2^k steps.
fn leap(state: u8, k: u32) -> u8
    requires { (state < 128) × (k < 7) }
    ensures { result ≡ state_at state (2 ^ k) }
{
    let one = step(state);
    let two = steps::<2>(state);
    let four = steps::<4>(state);
    match k {
        0 => one,
        1 => two,
        2 => four,
        3 => four ^ one,
        4 => four ^ two ^ one,
        5 => two ^ one,
        _ => four ^ two,
    }
}

// The state n steps from a seed: only n modulo the period counts.
pub fn jump(seed: u8, n: usize) -> u8
    requires { seed < 128 }
    ensures { result ≡ state_at seed n }
{
    let m = (n % 127) as u8;
    let mut state = seed;
    for k in 0..7 {
        if (m >> k) % 2 == 1 {
            state = leap(state, k);
        }
    }
    state
}
