// Nearest values: the f64 nearest to a fraction of whole numbers, a tie to the even one; and powers of ten.
#![tactic(auto)]

ghost use Rattle.std.specs.Prelude.{◌≡◌, ◌*◌, ◌^◌, ◌<◌, ◌≤◌, false};
ghost use Rattle.std.specs.Float.Ieee as Ieee;
ghost use Rattle.std.specs.Float.{binary64};
ghost use Rattle.rounding.specs.Nearest.{Divided, rounded_half};

// 10^k.
pub fn pow10(k: u64) -> u64
    requires { k ≤ 18 }
    ensures { result ≡ 10 ^ k }
{
    match k {
        0 => 1,
        1 => 10,
        2 => 100,
        3 => 1000,
        4 => 10_000,
        5 => 100_000,
        6 => 1_000_000,
        7 => 10_000_000,
        8 => 100_000_000,
        9 => 1_000_000_000,
        10 => 10_000_000_000,
        11 => 100_000_000_000,
        12 => 1_000_000_000_000,
        13 => 10_000_000_000_000,
        14 => 100_000_000_000_000,
        15 => 1_000_000_000_000_000,
        16 => 10_000_000_000_000_000,
        17 => 100_000_000_000_000_000,
        18 => 1_000_000_000_000_000_000,
        _ => 0,
    }
}

// A long division: the quotient, what is left, and how often the dividend was doubled.
#[derive(Clone, Copy)]
pub struct Quotient {
    pub q: u64,
    pub rest: u64,
    pub steps: u64,
}

// n * 2^steps divided by e, with the number of steps at which the quotient has 54 binary digits.
fn divide(n: u64, e: u64) -> Quotient
    requires { (0 < n) × (0 < e) × (e < 2 ^ 60) × (n < 2 ^ 54 * e) }
    ensures { Divided n e result }
{
    let mut q = n / e;
    let mut rest = n % e;
    let mut steps: u64 = 0;
    while q < 0x20_0000_0000_0000 {
        let twice = rest * 2;
        if twice < e {
            q = q * 2;
            rest = twice;
        } else {
            q = q * 2 + 1;
            rest = twice - e;
        }
        steps += 1;
    }
    Quotient { q, rest, steps }
}

// Half of q and the rest after it, rounded to the nearest, a tie to the even one.
pub fn rounded_half(q: u64, rest: u64) -> u64
    requires { q < 2 ^ 54 }
    ensures { result ≡ rounded_half q rest }
{
    let h = q / 2;
    if q % 2 == 0 {
        h
    } else {
        if rest == 0 { h + h % 2 } else { h + 1 }
    }
}

// The f64 nearest to n * 2^up / e.
pub fn nearest_scaled(n: u64, e: u64, up: u64) -> f64
    requires { (0 < n) × (0 < e) × (e < 2 ^ 60) × (n < 2 ^ 54 * e) × (up < 7) }
    ensures { result ≡ Ieee.round binary64 false (n * 2 ^ up) e }
{
    let d = divide(n, e);
    let m = rounded_half(d.q, d.rest);
    let field = 1075 + up - d.steps;
    f64::from_bits(field * 0x10_0000_0000_0000 + m)
}

// The f64 nearest to p * 2^(n - 1086).
pub fn nearest_power(p: u64, n: u64) -> f64
    requires digits { (2 ^ 62 ≤ p) × (p < 2 ^ 63) }
    requires exponent { (124 ≤ n) × (n ≤ 1924) }
    ensures { result ≡ Ieee.round binary64 false (p * 2 ^ n) (2 ^ 1086) }
{
    std::num::nearest_u64_to_f64(p) * f64::from_bits((n - 63) << 52)
}

// The f64 nearest to n / 2^52.
pub fn nearest_ratio(n: u64) -> f64
    ensures { result ≡ Ieee.round binary64 false n (2 ^ 52) }
{
    std::num::nearest_u64_to_f64(n) * 2.220446049250313e-16
}
