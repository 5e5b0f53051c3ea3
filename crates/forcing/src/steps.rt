// The inputs that the coded bits of one encoder force, step by step and group by group, in one pass: no search.
ghost use Rattle.std.specs.Prelude.{◌≡◌, ◌+◌, ◌-◌, ◌<◌, get_or};
ghost use Rattle.chain.specs.Decoder.{history_with, sum_after};
ghost use Rattle.forcing.specs.Asked.{StepAsked, StepDone, Part, GroupAsked, EncoderAsked, EncoderDone};

// The sum at place m of a pattern, after a history, with b for the input.
#[tactic(auto, unfolding(chain::specs::Decoder::sum_after))]
fn sum_after(m: usize, history: u8, b: u8) -> u8
    requires { (history < 64) × (b < 2) }
    ensures value { result ≡ sum_after m history b }
    ensures bit { result < 2 }
{
    if m % 2 == 0 {
        (history / 2 + history / 4 + (history / 16 + history / 32) + b) % 2
    } else {
        (history + history / 2 + (history / 4 + history / 32) + b) % 2
    }
}

// The history after one input more.
fn push(history: u8, b: u8) -> u8
    requires { (history < 64) × (b < 2) }
    ensures { (result ≡ history_with history b) × (result < 64) }
{
    (2 * history + b) % 64
}

// A step: the input that coded bit i, at place m of a pattern, forces, put at `to`; the history after it.
fn step(inputs: &mut [u8], coded: &[u8], history: u8, m: usize, to: usize, i: usize) -> u8
    requires { StepAsked inputs.old coded.now history to i }
    ensures { StepDone m history (get_or coded.now i 0) to result inputs.old inputs.new }
{
    let b = sum_after(m, history, coded[i]);
    inputs[to] = b;
    push(history, b)
}

// A group of a pattern: its coded bits stand from i on, the first of them not looked at.
fn group<const KEPT: usize>(
    inputs: &mut [u8],
    coded: &[u8],
    history: u8,
    encoders: usize,
    to: usize,
    i: usize,
) -> u8
    requires { GroupAsked inputs.old coded.now history KEPT encoders to i }
    ensures { Part history (λ k. get_or coded.now (i + k) 0) KEPT encoders to (KEPT - 1) result inputs.old inputs.new }
{
    let mut h = history;
    for t in 0..KEPT - 1 {
        h = step(inputs, coded, h, t + 1, encoders * t + to, i + (t + 1));
    }
    h
}

// An encoder's history after a symbol, and how many groups' first bits are not those of the forced inputs.
#[derive(Clone, Copy)]
pub struct Forced {
    pub history: u8,
    pub wrong: usize,
}

// An encoder's groups of KEPT bits, one after the other.
fn decode_groups<const KEPT: usize>(
    inputs: &mut [u8],
    coded: &[u8],
    history: u8,
    groups: usize,
    base: usize,
    encoders: usize,
    j: usize,
) -> Forced
    requires { EncoderAsked inputs.old coded.now history KEPT groups base encoders j }
    ensures { EncoderDone history (λ i. get_or coded.now (base + i) 0) KEPT groups encoders j result.history result.wrong
        inputs.old inputs.new }
{
    let mut h = history;
    let mut wrong: usize = 0;
    for g in 0..groups {
        let i = base + KEPT * g;
        let to = encoders * ((KEPT - 1) * g) + j;
        let b = sum_after(1, h, coded[i + 1]);
        let a = sum_after(0, h, b);
        wrong += usize::from(coded[i] != a);
        h = group::<KEPT>(inputs, coded, h, encoders, to, i);
    }
    Forced { history: h, wrong }
}

// Encoder j: the inputs that its coded bits, from `base` on, force after a history; input t goes to encoders·t + j.
pub fn decode_encoder(
    inputs: &mut [u8],
    coded: &[u8],
    history: u8,
    kept: usize,
    groups: usize,
    base: usize,
    encoders: usize,
    j: usize,
) -> Forced
    requires { EncoderAsked inputs.old coded.now history kept groups base encoders j }
    ensures { EncoderDone history (λ i. get_or coded.now (base + i) 0) kept groups encoders j result.history result.wrong inputs.old inputs.new }
{
    match kept {
        2 => decode_groups::<2>(inputs, coded, history, groups, base, encoders, j),
        3 => decode_groups::<3>(inputs, coded, history, groups, base, encoders, j),
        4 => decode_groups::<4>(inputs, coded, history, groups, base, encoders, j),
        _ => decode_groups::<6>(inputs, coded, history, groups, base, encoders, j),
    }
}
