// Decimals of an f64: its exact value with 0 to 4 places, to the nearest, a tie to the even one, as whole numbers. Document 01,
// "Writing".
#![tactic(auto)]

ghost use Rattle.std.specs.Prelude.{◌≡◌, ◌+◌, ◌*◌, ◌/◌, ◌%◌, ◌^◌, ◌<◌, ◌≤◌};
ghost use Rattle.std.specs.Float.Ieee.Nearest.{closest};
ghost use Rattle.fixed.specs.Cuts.{cut_at};

// A number of 10^d: its whole part, and what is left.
#[derive(Clone, Copy)]
pub struct Cut {
    pub whole: u64,
    pub part: u64,
}

// m / 2^t, rounded down.
fn above(m: u64, t: u64) -> u64
    ensures { result ≡ m / 2 ^ t }
{
    if t < 64 { m >> t } else { 0 }
}

// What m / 2^t leaves.
fn under(m: u64, t: u64) -> u64
    ensures { result ≡ m % 2 ^ t }
{
    if t < 64 { m - ((m >> t) << t) } else { m }
}

// m * 10^d / 2^t to the nearest whole number, a tie to the even one. m * 10^d can have 67 binary digits, so it is kept as
// a number p of 2^31 and a rest l.
fn scaled_far(m: u64, t: u64, d: u64) -> u64
    requires { (m < 2 ^ 54) × (32 ≤ t) × (d ≤ 4) }
    ensures { result ≡ closest (m * 10 ^ d) (2 ^ t) }
{
    let ten = rounding::pow10(d);
    let low = m % 0x8000_0000 * ten;
    let p = m / 0x8000_0000 * ten + low / 0x8000_0000;
    let l = low % 0x8000_0000;
    let u = t - 32;
    rounding::rounded_half(above(p, u), under(p, u) + l)
}

// The same at any t, where m is below 2^(t + 1).
fn scaled(m: u64, t: u64, d: u64) -> u64
    requires { (m < 2 ^ 54) × (m < 2 ^ (t + 1)) × (d ≤ 4) }
    ensures { result ≡ closest (m * 10 ^ d) (2 ^ t) }
{
    if t < 32 {
        scaled_far(m << (32 - t), 32, d)
    } else {
        scaled_far(m, t, d)
    }
}

// m / 2^t with d decimals: the even part of its whole number apart, which no rounding changes.
fn fixed(m: u64, t: u64, d: u64) -> Cut
    requires { (m < 2 ^ 54) × (t < 2000) × (d ≤ 4) }
    ensures { result ≡ cut_at d (closest (m * 10 ^ d) (2 ^ t)) }
{
    let halves = above(m, t + 1);
    let p = scaled(under(m, t + 1), t, d);
    let ten = rounding::pow10(d);
    Cut {
        whole: halves * 2 + p / ten,
        part: p % ten,
    }
}

// x's size with d decimals, a tie to the even one.
pub fn fixed_of(digits: u64, exponent: u64, d: u64) -> Cut
    requires { (digits < 2 ^ 53) × (exponent ≤ 1075) × (d ≤ 4) }
    ensures { result ≡ cut_at d (closest (digits * 2 ^ exponent * 10 ^ d) (2 ^ 1074)) }
{
    if exponent <= 1074 {
        fixed(digits, 1074 - exponent, d)
    } else {
        fixed(digits * 2, 0, d)
    }
}
