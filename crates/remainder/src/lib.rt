// Rust's `%` on f64, by whole numbers: exact, and the same on every machine. The language's own would call C's `fmod`. On it,
// std's euclidean division.
#![tactic(auto)]

ghost use Rattle.std.specs.Prelude.{◌≡◌, ◌*◌, ◌%◌, ◌^◌, ◌<◌, ◌≤◌, T, false};
ghost use Rattle.std.specs.Float.Ieee as Ieee;
ghost use Rattle.std.specs.Float.{binary64};
ghost use Rattle.std.specs.Float.Ieee.Exact.{HasValue};
ghost use Rattle.std.specs.Float.Ieee.Scale.{finite};
ghost use Rattle.remainder.specs.Euclid.{rem_euclid, div_euclid};

use floats::Parts;

// Whether x is a number: no infinity, no NaN.
fn is_number(x: f64) -> bool
    ensures { result ≡ finite x }
{
    let infinity = 1.0 / 0.0;
    let low = -infinity < x;
    let high = x < infinity;
    low & high
}

// What is left of digits * 2^shift by another number: 11 bits at a time, so that nothing passes 64.
fn shifted_rem(digits: u64, shift: u64, by: u64) -> u64
    requires { (digits < 2 ^ 53) × (0 < by) × (by < 2 ^ 53) }
    ensures { result ≡ digits * 2 ^ shift % by }
{
    let mut rest = digits;
    let mut left = shift;
    while 11 < left {
        rest = (rest << 11) % by;
        left -= 11;
    }
    (rest << left) % by
}

// 2^(exponent - 1074).
fn power(exponent: u64) -> f64
    requires { exponent ≤ 2045 }
    ensures { HasValue result false (2 ^ exponent) (2 ^ 1074) }
{
    if exponent < 52 {
        f64::from_bits(1u64 << exponent)
    } else {
        f64::from_bits((exponent - 51) << 52)
    }
}

// digits * 2^(exponent - 1074).
fn size_of(digits: u64, exponent: u64) -> f64
    requires { (digits < 2 ^ 53) × (exponent ≤ 2045) }
    ensures { result ≡ Ieee.round binary64 false (digits * 2 ^ exponent) (2 ^ 1074) }
{
    if digits == 0 {
        0.0
    } else {
        (digits as f64) * power(exponent)
    }
}

// The parts put together: what `unpack` takes apart.
fn pack(parts: Parts) -> f64
    requires { (parts.digits < 2 ^ 53) × (parts.exponent ≤ 2045) }
    ensures { result ≡ Ieee.round binary64 parts.negative (parts.digits * 2 ^ parts.exponent) (2 ^ 1074) }
{
    let size = size_of(parts.digits, parts.exponent);
    if parts.negative { -size } else { size }
}

// The remainder of two numbers; a NaN for the divisor 0.
fn rem_of_numbers(a: f64, b: f64) -> f64
    requires { T (finite a) × T (finite b) }
    ensures { result ≡ Ieee.rem binary64 a b }
{
    let x = floats::unpack(a);
    let y = floats::unpack(b);
    if y.digits == 0 {
        return 0.0 / 0.0;
    }
    if x.exponent < y.exponent {
        return a;
    }
    pack(Parts {
        negative: x.negative,
        digits: shifted_rem(x.digits, x.exponent - y.exponent, y.digits),
        exponent: y.exponent,
    })
}

// The remainder, with a's sign: a itself by an infinity; else a NaN where a or b is no number.
pub fn rem_of(a: f64, b: f64) -> f64
    ensures { result ≡ Ieee.rem binary64 a b }
{
    if is_number(a) {
        if is_number(b) {
            rem_of_numbers(a, b)
        } else {
            if b == b { a } else { b }
        }
    } else {
        0.0 / 0.0
    }
}

// The remainder of a by b that is not below zero, as std's rem_euclid.
pub fn rem_euclid(a: f64, b: f64) -> f64
    ensures { result ≡ rem_euclid a b }
{
    let r = rem_of(a, b);
    if r < 0.0 { r + floats::abs_of(b) } else { r }
}

// The whole quotient that goes with that remainder, as std's div_euclid.
pub fn div_euclid(a: f64, b: f64) -> f64
    ensures { result ≡ div_euclid a b }
{
    let q = floats::trunc_of(a / b);
    if rem_of(a, b) < 0.0 {
        if b > 0.0 { q - 1.0 } else { q + 1.0 }
    } else {
        q
    }
}
