// Text in a fixed row of 40 bytes.
ghost use Rattle.std.specs.Prelude.{◌≡◌, [], ◌∷◌, ◌++◌, ◌+◌, ◌*◌, ◌<◌, ◌≤◌, length};
ghost use Rattle.text.specs.Printing.{header_text, too_long_text, empty_row, text_of, ZerosBehind, pushed, pushed_all};
ghost use Rattle.text.specs.Printing.{hex_digit, hex_bytes, digit_if, decimal};

const HEADER: [u8; 31] = *b"mcs width length symbols htsig\n";

const TOO_LONG: [u8; 9] = *b"too long\n";

pub fn header() -> [u8; 31]
    ensures { result ≡ header_text }
{
    HEADER
}

pub fn too_long_text() -> [u8; 9]
    ensures { result ≡ too_long_text }
{
    TOO_LONG
}

// The text is the first `len` bytes. A push leaves what stands behind it: zeros in a row that began as `new`.
#[derive(Clone, Copy)]
pub struct Row {
    pub bytes: [u8; 40],
    pub len: usize,
}

impl Row {
    pub fn new() -> Self
        ensures { result ≡ empty_row }
    {
        Row {
            bytes: [0; 40],
            len: 0,
        }
    }

    // All 40 bytes where `len` says more.
    pub fn as_slice(&self) -> &[u8]
        ensures { result.now ≡ text_of self.now }
    {
        &self.bytes[..self.len.min(40)]
    }

    pub fn push(&mut self, b: u8)
        requires { self.old.len < 40 }
        ensures row { self.new ≡ pushed self.old b }
        ensures text { text_of self.new ≡ text_of self.old ++ b ∷ [] }
        ensures zeros { ZerosBehind self.old → ZerosBehind self.new }
    {
        self.bytes[self.len] = b;
        self.len += 1;
    }

    pub fn push_text(&mut self, text: &[u8])
        requires { self.old.len + length text.now ≤ 40 }
        ensures row { (self.new ≡ pushed_all self.old text.now) × (self.new.len ≡ self.old.len + length text.now) }
        ensures text { text_of self.new ≡ text_of self.old ++ text.now }
        ensures zeros { ZerosBehind self.old → ZerosBehind self.new }
    {
        for &b in text {
            self.push(b);
        }
    }

    // Each byte as two capital hexadecimal digits.
    pub fn push_hex(&mut self, bytes: &[u8])
        requires { self.old.len + 2 * length bytes.now ≤ 40 }
        ensures row { (self.new ≡ pushed_all self.old (hex_bytes bytes.now)) × (self.new.len ≡ self.old.len + 2 * length bytes.now) }
        ensures text { text_of self.new ≡ text_of self.old ++ hex_bytes bytes.now }
        ensures zeros { ZerosBehind self.old → ZerosBehind self.new }
    {
        for &b in bytes {
            self.push(hex_digit(b / 16));
            self.push(hex_digit(b % 16));
        }
    }

    fn push_digit_if(&mut self, shown: bool, n: u64)
        requires { (self.old.len < 40) × (n < 10) }
        ensures row { (self.new ≡ pushed_all self.old (digit_if shown n)) × (self.new.len ≤ self.old.len + 1) }
        ensures text { text_of self.new ≡ text_of self.old ++ digit_if shown n }
        ensures zeros { ZerosBehind self.old → ZerosBehind self.new }
    {
        if shown {
            self.push((48 + n) as u8);
        }
    }

    // A number of at most five digits, without leading zeros.
    pub fn push_decimal(&mut self, n: u64)
        requires { (self.old.len + 5 ≤ 40) × (n < 100000) }
        ensures row { (self.new ≡ pushed_all self.old (decimal n)) × (self.new.len ≤ self.old.len + 5) }
        ensures text { text_of self.new ≡ text_of self.old ++ decimal n }
        ensures zeros { ZerosBehind self.old → ZerosBehind self.new }
    {
        self.push_digit_if(n >= 10000, n / 10000 % 10);
        self.push_digit_if(n >= 1000, n / 1000 % 10);
        self.push_digit_if(n >= 100, n / 100 % 10);
        self.push_digit_if(n >= 10, n / 10 % 10);
        self.push((48 + n % 10) as u8);
    }
}

fn hex_digit(n: u8) -> u8
    requires { n < 16 }
    ensures { result ≡ hex_digit n }
{
    if n < 10 { 48 + n } else { 55 + n }
}
