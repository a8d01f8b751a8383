// What the library does to an f64 besides adding, multiplying and dividing: whole parts as Rust's std has them, the ranges that
// document 01 names, and an f64 taken apart. Remainders are in the crate `remainder`, nearest values in `rounding`.
#![tactic(auto)]

ghost use Rattle.std.specs.Prelude.{◌≡◌, T};
ghost use Rattle.base.specs.Said.{outcome};
ghost use Rattle.std.specs.Float.Ieee.Scale.{finite};
ghost use Rattle.floats.specs.Floats.{abs, trunc, floor, count};
ghost use Rattle.floats.specs.Ranges.{within, in_reach, in_search, in_generator, in_pitch, negligible};
ghost use Rattle.floats.specs.Units.{Unpacked};

use base::{Reason, Refusal};

// The size of x: its sign cleared.
pub fn abs_of(x: f64) -> f64
    ensures { result ≡ abs x }
{
    if x < 0.0 {
        -x
    } else if x == 0.0 {
        0.0
    } else {
        x
    }
}

// 2^64, where u64 ends; 2^53, from where on every f64 is whole; 2^31, where i32 ends.
const U64_END: f64 = 18446744073709551616.0;

const WHOLE_FROM: f64 = 9007199254740992.0;

const I32_END: f64 = 2147483648.0;

// The whole part of x, its sign kept.
pub fn trunc_of(x: f64) -> f64
    ensures { result ≡ trunc x }
{
    if x > 0.0 {
        if x < U64_END {
            std::num::nearest_u64_to_f64(std::num::truncating_f64_to_u64(x))
        } else {
            x
        }
    } else {
        if x < 0.0 {
            if x > -U64_END {
                -std::num::nearest_u64_to_f64(std::num::truncating_f64_to_u64(-x))
            } else {
                x
            }
        } else {
            x
        }
    }
}

// The largest whole number that is not above x; a zero keeps its sign.
pub fn floor_of(x: f64) -> f64
    ensures { result ≡ floor x }
{
    if x < 0.0 {
        if x > -WHOLE_FROM {
            let n = std::num::truncating_f64_to_u64(-x);
            let t = std::num::nearest_u64_to_f64(n);
            if t < -x {
                -std::num::nearest_u64_to_f64(n + 1)
            } else {
                -t
            }
        } else {
            x
        }
    } else {
        trunc_of(x)
    }
}

// A whole q as an i32: 18 outside -2^31..2^31, the end left out, and for a NaN.
pub fn count_of(q: f64) -> Result<i32, Refusal>
    ensures { outcome result ≡ count q }
{
    if q >= -I32_END {
        if q < I32_END {
            Ok(std::num::truncating_f64_to_i64(q) as i32)
        } else {
            Err(Refusal {
                reason: Reason::BeyondReach,
                detail: 0,
            })
        }
    } else {
        Err(Refusal {
            reason: Reason::BeyondReach,
            detail: 0,
        })
    }
}

// The ends of 01's ranges: 2^-900 and 2^900, 2^-64 and 2^64, 2^-32 and 2^32, 2^-10 and 2^20.
pub const REACH_LOW: f64 = 1.1830521861667747e-271;

pub const REACH_HIGH: f64 = 8.452712498170644e270;

pub const SEARCH_LOW: f64 = 5.421010862427522e-20;

pub const SEARCH_HIGH: f64 = 18446744073709551616.0;

pub const GENERATOR_LOW: f64 = 2.3283064365386963e-10;

pub const GENERATOR_HIGH: f64 = 4294967296.0;

pub const PITCH_LOW: f64 = 0.0009765625;

pub const PITCH_HIGH: f64 = 1048576.0;

// Whether x lies in low..high, both ends in it.
pub fn is_within(low: f64, high: f64, x: f64) -> bool
    ensures { result ≡ within low high x }
{
    (low <= x) & (x <= high)
}

// Whether x lies in 2^-900..2^900: every pitch and ratio does.
pub fn is_in_reach(x: f64) -> bool
    ensures { result ≡ in_reach x }
{
    is_within(REACH_LOW, REACH_HIGH, x)
}

// Whether x lies in 2^-64..2^64: searched ratios do.
pub fn is_in_search(x: f64) -> bool
    ensures { result ≡ in_search x }
{
    is_within(SEARCH_LOW, SEARCH_HIGH, x)
}

// Whether x lies in 2^-32..2^32: generators and periods of rank-2 scales do.
pub fn is_in_generator(x: f64) -> bool
    ensures { result ≡ in_generator x }
{
    is_within(GENERATOR_LOW, GENERATOR_HIGH, x)
}

// Whether x lies in 2^-10..2^20: reference pitches and searched pitches in Hz do.
pub fn is_in_pitch(x: f64) -> bool
    ensures { result ≡ in_pitch x }
{
    is_within(PITCH_LOW, PITCH_HIGH, x)
}

// Whether x lies in [0.999999, 1.000001): a ratio that is as good as 1.
pub fn is_negligible(x: f64) -> bool
    ensures { result ≡ negligible x }
{
    (x >= 0.999999) & (x < 1.000001)
}

// A finite f64 taken apart: digits * 2^(exponent - 1074), with the sign.
#[derive(Clone, Copy)]
pub struct Parts {
    pub negative: bool,
    pub digits: u64,
    pub exponent: u64,
}

// The parts of x.
pub fn unpack(x: f64) -> Parts
    requires { T (finite x) }
    ensures { Unpacked x result.negative result.digits result.exponent }
{
    let bits: u64 = f64::to_bits(x);
    let negative = 0x8000_0000_0000_0000 <= bits;
    let field = (bits & 0x7fff_ffff_ffff_ffff) >> 52;
    let digits = bits & 0xf_ffff_ffff_ffff;
    if field == 0 {
        Parts {
            negative,
            digits,
            exponent: 0,
        }
    } else {
        Parts {
            negative,
            digits: digits + 0x10_0000_0000_0000,
            exponent: field - 1,
        }
    }
}
