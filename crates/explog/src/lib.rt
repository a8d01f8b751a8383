// E and L: the power of two and its logarithm, by whole numbers, the same on every machine. Document 01, "Logarithm and power".
#![tactic(auto)]

mod exp_near;
mod log_near;

ghost use Rattle.std.specs.Prelude.{◌≡◌, ◌+◌, ◌-◌, ◌*◌, ◌/◌, ◌^◌, ◌<◌, ◌≤◌, true, nat_le};
ghost use Rattle.std.specs.Float.Ieee.{neg};
ghost use Rattle.base.specs.Said.{pick, gives, outcome};
ghost use Rattle.explog.specs.Rules.{E, L, in_powers};

use base::{Reason, Refusal};

// 2^62: E's f is moved up by so many parts of 2^52.
const MOVED: u64 = 0x4000_0000_0000_0000;

// 2^52: f and V count in parts of it.
const PARTS: u64 = 0x10_0000_0000_0000;

// 1022 * 2^52: the exponent of 1.0 among those that count from 2^-1074, in parts.
const PARTS_OF_ONE: u64 = 0x3fe0_0000_0000_0000;

// The s lowest bits, set below zero alone: what rounds a quotient by 2^s up.
fn rounding_up(negative: bool, s: u64) -> u64
    requires { s < 64 }
    ensures { result ≡ pick negative (2 ^ s - 1) 0 }
{
    if negative { (1u64 << s) - 1 } else { 0 }
}

// 2^62 + w, or below zero 2^62 - w.
fn moved_up(negative: bool, w: u64) -> u64
    requires { w ≤ 2 ^ 62 }
    ensures { result ≡ pick negative (2 ^ 62 - w) (2 ^ 62 + w) }
{
    if negative { MOVED - w } else { MOVED + w }
}

// The whole part of 2^62 + v or 2^62 - v, for v = d * 2^(k - 1022), at most 2^62: E's f, moved up to be above zero.
fn floor_sum(negative: bool, d: u64, k: u64) -> u64
    requires few_digits { d < 2 ^ 53 }
    requires within { d * 2 ^ k ≤ 2 ^ 1084 }
    requires shift { k ≤ 1032 }
    ensures { result ≡ pick negative (2 ^ 1084 - d * 2 ^ k) (2 ^ 1084 + d * 2 ^ k) / 2 ^ 1022 }
{
    if k <= 968 {
        if negative {
            if d == 0 { MOVED } else { MOVED - 1 }
        } else {
            MOVED
        }
    } else {
        let s = 1032 - k;
        moved_up(negative, (d * 1024 + rounding_up(negative, s)) >> s)
    }
}

// Whether x lies in -900..900, where E is defined.
pub fn is_in_powers(x: f64) -> bool
    ensures { result ≡ in_powers x }
{
    let low = x >= -900.0;
    let high = x <= 900.0;
    low & high
}

// E(x), the power 2^x, for x in -900..900. A number and no answer, so that it comes back in a register.
pub fn power(x: f64) -> f64
    requires { in_powers x ≡ true }
    ensures { gives result ≡ E x }
{
    let parts = floats::unpack(x);
    let f = floor_sum(parts.negative, parts.digits, parts.exponent);
    exp_near::nearest_to_power(f % PARTS, f / PARTS)
}

// E(x), the power 2^x: 18 outside -900..900.
pub fn exp2(x: f64) -> Result<f64, Refusal>
    ensures { outcome result ≡ E x }
{
    if is_in_powers(x) {
        Ok(power(x))
    } else {
        Err(Refusal {
            reason: Reason::BeyondReach,
            detail: 0,
        })
    }
}

// How far a is from the exponent of 1.0, either way.
fn from_one(a: u64) -> u64
    ensures { result ≡ a - 1022 * 2 ^ 52 + (1022 * 2 ^ 52 - a) }
{
    if PARTS_OF_ONE <= a {
        a - PARTS_OF_ONE
    } else {
        PARTS_OF_ONE - a
    }
}

// x, or -x where a is below the exponent of 1.0.
fn on_side(a: u64, x: f64) -> f64
    ensures { result ≡ pick (nat_le (1022 * 2 ^ 52) a) x (neg x) }
{
    if PARTS_OF_ONE <= a { x } else { -x }
}

// L(x), the base 2 logarithm: 18 outside 2^-900..2^900.
pub fn log2(x: f64) -> Result<f64, Refusal>
    ensures { outcome result ≡ L x }
{
    if floats::is_in_reach(x) {
        let parts = floats::unpack(x);
        let bits = log_near::near_log_bits(parts.digits * 1024);
        let a = parts.exponent * PARTS + bits;
        Ok(on_side(a, rounding::nearest_ratio(from_one(a))))
    } else {
        Err(Refusal {
            reason: Reason::BeyondReach,
            detail: 0,
        })
    }
}
