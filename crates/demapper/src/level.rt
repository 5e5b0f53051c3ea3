// A level's label from its float, by bits alone: a NaN, an infinity and -0 are no level.
ghost use Rattle.std.specs.Prelude.{◌≡◌, ◌<◌, T};
ghost use Rattle.std.specs.Float.{binary32};
ghost use Rattle.std.specs.Float.Ieee.{to_bits};
ghost use Rattle.laws.specs.Test.{among};
ghost use Rattle.chain.specs.Plan.{axis_counts};
ghost use Rattle.demapper.specs.Demapped.{level_label, negated_label};
ghost use Rattle.demapper.specs.Asked.{key_of, level_keys, label_keys, Tables, flipped};

// The bits of a float. A machine's NaN has one of many patterns: here it is one, which no level has.
pub fn bits_of(x: f32) -> u32
    ensures { result ≡ to_bits binary32 x }
{
    if x != x {
        return 0x7fc00000;
    }
    x.to_bits()
}

// The bit patterns of 1, 3, 5, 7 and of their negatives, each at its key; 0 at the others.
const LEVEL_KEYS: [u32; 32] = [
    0, 0, 0x40400000, 0, 0, 0x40a00000, 0, 0x40e00000, 0, 0, 0, 0, 0x3f800000, 0, 0, 0, 0, 0,
    0xc0400000, 0, 0, 0xc0a00000, 0, 0xc0e00000, 0, 0, 0, 0, 0xbf800000, 0, 0, 0,
];

// The levels' bit patterns by their keys.
pub fn level_keys() -> [u32; 32]
    ensures { result ≡ level_keys }
{
    LEVEL_KEYS
}

// The labels of one bit, of two and of three, each at its level's key; the number of labels at the others.
const ONE_BIT_KEYS: [u8; 32] = [
    2, 2, 2, 2, 2, 2, 2, 2, 2, 2, 2, 2, 1, 2, 2, 2, 2, 2, 2, 2, 2, 2, 2, 2, 2, 2, 2, 2, 0, 2, 2, 2,
];

const TWO_BIT_KEYS: [u8; 32] = [
    4, 4, 2, 4, 4, 4, 4, 4, 4, 4, 4, 4, 3, 4, 4, 4, 4, 4, 0, 4, 4, 4, 4, 4, 4, 4, 4, 4, 1, 4, 4, 4,
];

const THREE_BIT_KEYS: [u8; 32] = [
    8, 8, 7, 8, 8, 5, 8, 4, 8, 8, 8, 8, 6, 8, 8, 8, 8, 8, 3, 8, 8, 1, 8, 0, 8, 8, 8, 8, 2, 8, 8, 8,
];

// The labels of s bits, each at its level's key.
#[tactic(auto, unfolding(crate::specs::Asked::label_keys))]
pub fn label_keys(s: usize) -> [u8; 32]
    ensures { result ≡ label_keys s }
{
    match s {
        3 => THREE_BIT_KEYS,
        2 => TWO_BIT_KEYS,
        _ => ONE_BIT_KEYS,
    }
}

// Where in the tables a bit pattern is looked up.
fn key_of(pattern: u32) -> usize
    ensures { (result ≡ key_of pattern) × (result < 32) }
{
    (pattern / 0x200000 % 16 + 16 * (pattern / 0x80000000)) as usize
}

// The label of s bits whose level is x; 2^s where none is. No branch goes by the data.
#[tactic(auto, using(crate::proofs::LabelLaws::keys_sized))]
pub fn level_label(levels: &[u32], labels: &[u8], s: usize, x: f32) -> u8
    requires { Tables s levels.now labels.now }
    ensures { result ≡ level_label s x }
{
    let pattern = bits_of(x);
    let k = key_of(pattern);
    if pattern == levels[k] {
        labels[k]
    } else {
        labels[0]
    }
}

// The label of s bits whose level is the negative of x; 2^s where none is.
#[tactic(auto, using(crate::proofs::LabelLaws::flip_label))]
pub fn negated_label(levels: &[u32], labels: &[u8], s: usize, x: f32) -> u8
    requires { Tables s levels.now labels.now }
    ensures { result ≡ negated_label s x }
{
    flip(labels, s, level_label(levels, labels, s, x))
}

// A label with its first bit flipped.
#[tactic(auto, using(crate::proofs::LabelLaws::flip_steps), unfolding(crate::specs::Asked::flipped))]
fn flip(labels: &[u8], s: usize, label: u8) -> u8
    requires { T (among axis_counts s) × (labels.now ≡ label_keys s) }
    ensures { result ≡ flipped s label }
{
    let all = labels[0];
    let half = all / 2;
    if label < half {
        label + half
    } else if label < all {
        label - half
    } else {
        all
    }
}
