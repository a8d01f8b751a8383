// Pitches in Hz and ratios of two of them: numbers that stay apart. The Rust's pitch.rs; document 01, "Logarithm and power".
// A given pitch or ratio outside 2^-900..2^900 is refused by 10, a computed one by 18 at its step.
#![tactic(auto)]

mod measures;
mod pitches;
mod ratios;

ghost use Rattle.std.specs.Prelude.{◌≡◌, ◌&&◌};
ghost use Rattle.floats.specs.Ranges.{in_reach};
ghost use Rattle.pitch.specs.Answers.{says_ratio, says_pitch};
ghost use Rattle.base.specs.Said.{gives, outcome};
ghost use Rattle.pitch.specs.Given.{given, computed};
ghost use Rattle.pitch.specs.Ratios.{upward};

use base::{Reason, Refusal};

// How far two frequencies are apart, as their quotient.
#[derive(Clone, Copy)]
pub struct Ratio(pub f64);

// A frequency in Hz.
#[derive(Clone, Copy)]
pub struct Pitch(pub f64);

// 10: a given number is outside 2^-900..2^900.
const NOT_USABLE: Refusal = Refusal {
    reason: Reason::Unusable,
    detail: 0,
};

// 18: a computed number is outside 2^-900..2^900.
const OUT_OF_REACH: Refusal = Refusal {
    reason: Reason::BeyondReach,
    detail: 0,
};

// Whether both lie in 2^-900..2^900.
fn are_in_reach(x: f64, y: f64) -> bool
    ensures { result ≡ (in_reach x && in_reach y) }
{
    floats::is_in_reach(x) && floats::is_in_reach(y)
}

// A given number; 10 outside the range.
fn given(x: f64) -> Result<f64, Refusal>
    ensures { outcome result ≡ given x (gives x) }
{
    if floats::is_in_reach(x) {
        Ok(x)
    } else {
        Err(NOT_USABLE)
    }
}

// A computed number; 18 outside the range.
fn computed(x: f64) -> Result<f64, Refusal>
    ensures { outcome result ≡ computed x }
{
    if floats::is_in_reach(x) {
        Ok(x)
    } else {
        Err(OUT_OF_REACH)
    }
}

// A computed ratio; 18 outside the range.
pub fn checked_ratio(x: f64) -> Result<Ratio, Refusal>
    ensures { says_ratio result ≡ computed x }
{
    Ok(Ratio(computed(x)?))
}

// A computed pitch; 18 outside the range.
pub fn checked_pitch(x: f64) -> Result<Pitch, Refusal>
    ensures { says_pitch result ≡ computed x }
{
    Ok(Pitch(computed(x)?))
}

// A ratio below 1 turned over, any other as it is.
pub fn upwards(x: f64) -> f64
    ensures { result ≡ upward x }
{
    if x > -1.0 {
        if x < 1.0 {
            return 1.0 / x;
        }
    }
    x
}
