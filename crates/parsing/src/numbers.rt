// A line as three numbers: MCS, width, length.
ghost use Rattle.std.specs.Prelude.{◌≡◌, ◌+◌, ◌-◌, ◌≤◌, length, drop};
ghost use Rattle.std.specs.Bool.{then_some};
ghost use Rattle.laws.specs.Stretch.{stretch};
ghost use Rattle.parsing.specs.Parsing.{is_digit, one_to_five, separated_at, decimal_value, value_in, parsed_of, FiveDigits};

#[derive(Clone, Copy)]
pub struct Numbers {
    pub mcs: u64,
    pub width: u64,
    pub length: u64,
}

// How many digits a text begins with.
fn digits_len(text: &[u8]) -> usize
    ensures { (result ≡ stretch is_digit text.now) × (result ≤ length text.now) }
{
    text.iter()
        .position(|b| !b.is_ascii_digit())
        .unwrap_or(text.len())
}

// The first byte at `at` or later that is no digit, or the end of the line.
fn digits_end(line: &[u8], at: usize) -> usize
    requires { at ≤ length line.now }
    ensures { (result ≡ at + stretch is_digit (drop at line.now)) × (result ≤ length line.now) }
{
    at + digits_len(&line[at..])
}

// The number that bytes are in decimal.
fn decimal_value(digits: &[u8]) -> u64
    requires { length digits.now ≤ 5 }
    ensures { result ≡ decimal_value digits.now }
{
    let mut value = 0;
    for &b in digits {
        value = 10 * value + u64::from(b.saturating_sub(48));
    }
    value
}

// The number of one to five digits from `from` up to `to`.
fn number(line: &[u8], from: usize, to: usize) -> Option<u64>
    requires { (from ≤ to) × (to ≤ length line.now) }
    ensures { result ≡ then_some (one_to_five (to - from)) (value_in line.now from to) }
{
    if !(1..=5).contains(&(to - from)) {
        return None;
    }
    Some(decimal_value(&line[from..to]))
}

// The same, with a space after it.
fn separated(line: &[u8], from: usize, to: usize) -> Option<u64>
    requires { (from ≤ to) × (to ≤ length line.now) }
    ensures { result ≡ then_some (separated_at line.now from to) (value_in line.now from to) }
{
    if to == line.len() || line[to] != 32 {
        return None;
    }
    number(line, from, to)
}

// The public parse: three numbers of one to five digits with one space between, or malformed.
pub fn parse(line: &[u8]) -> Option<Numbers>
    ensures { (result ≡ parsed_of line.now) × FiveDigits result }
{
    let a = digits_end(line, 0);
    let mcs = separated(line, 0, a)?;
    let b = digits_end(line, a + 1);
    let width = separated(line, a + 1, b)?;
    let c = digits_end(line, b + 1);
    if c != line.len() {
        return None;
    }
    let length = number(line, b + 1, c)?;
    Some(Numbers { mcs, width, length })
}
