// The nearest fraction within an odd limit, as the Rust's walk finds it: not the best of all. Document 01, "Scales and searches".
#![tactic(auto)]

ghost use Rattle.std.specs.Prelude.{◌≡◌, ◌+◌};
ghost use Rattle.base.specs.Said.{outcome};
ghost use Rattle.fraction.specs.NearestFraction.{float_of, both_over, both_within, improved, passed, turn_at, turn_of, widest, turns, walked, best_for, without_octaves, reduced_nearest, nearest_fraction};

use base::{Reason, Refusal};
use pitch::Ratio;
use std::ops::ControlFlow;

#[derive(Clone, Copy)]
pub struct Fraction {
    pub numer: u16,
    pub denom: u16,
}

// A fraction near a ratio that is less than an octave: how far the ratio is from it, and the octaves that were taken off.
#[derive(Clone, Copy)]
pub struct NearestFraction {
    pub numer: u16,
    pub denom: u16,
    pub deviation: Ratio,
    pub num_octaves: i32,
}

// Where the walk is: between a fraction below and one above, with the best so far and the ratio's deviation from it.
#[derive(Clone, Copy)]
pub struct Walk {
    pub low: Fraction,
    pub high: Fraction,
    pub best: Fraction,
    pub deviation: f64,
}

// The fraction as a float.
fn quotient(f: Fraction) -> f64
    ensures { result ≡ float_of f }
{
    f64::from(f.numer) / f64::from(f.denom)
}

// Whether both odd parts are over the limit.
#[tactic(auto, unfolding(crate::specs::NearestFraction::both_over))]
fn are_over(f: Fraction, limit: u16) -> bool
    ensures { result ≡ both_over f limit }
{
    limit < math::odd_factors_u16(f.numer) && limit < math::odd_factors_u16(f.denom)
}

// Whether both odd parts are within the limit.
#[tactic(auto, unfolding(crate::specs::NearestFraction::both_within))]
fn are_within(f: Fraction, limit: u16) -> bool
    ensures { result ≡ both_within f limit }
{
    math::odd_factors_u16(f.numer) <= limit && math::odd_factors_u16(f.denom) <= limit
}

// The walk with the fraction in the middle as its best, where it is within the limit and nearer.
#[tactic(auto, unfolding(crate::specs::NearestFraction::improved))]
fn improve(w: Walk, mid: Fraction, deviation: f64, limit: u16) -> Walk
    ensures { result ≡ improved w mid deviation limit }
{
    if are_within(mid, limit) && pitch::upwards(deviation) < pitch::upwards(w.deviation) {
        return Walk {
            best: mid,
            deviation,
            ..w
        };
    }
    w
}

// Past the fraction in the middle, below it or above it; or the end, where it is met.
#[tactic(auto, unfolding(crate::specs::NearestFraction::passed))]
fn pass(w: Walk, mid: Fraction, target: f64) -> ControlFlow<Walk, Walk>
    ensures { result ≡ passed w mid target }
{
    let ratio = quotient(mid);
    if target < ratio {
        return ControlFlow::Continue(Walk { high: mid, ..w });
    }
    if ratio < target {
        return ControlFlow::Continue(Walk { low: mid, ..w });
    }
    ControlFlow::Break(w)
}

// One turn at the fraction in the middle; the end, where both its odd parts are over the limit.
#[tactic(auto, unfolding(crate::specs::NearestFraction::turn_at))]
fn turn_at(w: Walk, mid: Fraction, target: f64, limit: u16) -> ControlFlow<Walk, Walk>
    ensures { result ≡ turn_at w mid target limit }
{
    if are_over(mid, limit) {
        return ControlFlow::Break(w);
    }
    let deviation = target / quotient(mid);
    pass(improve(w, mid, deviation, limit), mid, target)
}

// One turn; the end, where the fraction in the middle does not fit 16 bits.
#[tactic(auto, unfolding(crate::specs::NearestFraction::turn_of))]
fn turn(w: Walk, target: f64, limit: u16) -> ControlFlow<Walk, Walk>
    ensures { result ≡ turn_of w target limit }
{
    let Some(numer) = w.low.numer.checked_add(w.high.numer) else {
        return ControlFlow::Break(w);
    };
    let Some(denom) = w.low.denom.checked_add(w.high.denom) else {
        return ControlFlow::Break(w);
    };
    turn_at(w, Fraction { numer, denom }, target, limit)
}

// Turns to the end: the best of the walk towards a target.
fn walk_to_end(target: f64, limit: u16) -> Walk
    ensures { result ≡ walked turns widest target limit }
{
    let mut w = Walk {
        low: Fraction { numer: 0, denom: 1 },
        high: Fraction { numer: 1, denom: 0 },
        best: Fraction { numer: 0, denom: 0 },
        deviation: 1.0 / 0.0,
    };
    // A `loop`: the steps vary.
    loop {
        match turn(w, target, limit) {
            ControlFlow::Continue(next) => {
                w = next;
            }
            ControlFlow::Break(last) => {
                return last;
            }
        }
    }
}

// What the walk finds for a ratio whose octaves were taken off.
#[tactic(auto, unfolding(crate::specs::NearestFraction::best_for))]
fn best_for(target: f64, octaves: i32, limit: u16) -> NearestFraction
    ensures { result ≡ best_for target octaves limit }
{
    let w = walk_to_end(target, limit);
    NearestFraction {
        numer: w.best.numer,
        denom: w.best.denom,
        deviation: Ratio(w.deviation),
        num_octaves: octaves,
    }
}

// The ratio without so many octaves, and the best fraction for what is left.
#[tactic(auto, unfolding(crate::specs::NearestFraction::without_octaves))]
fn without(ratio: f64, octaves: i32, limit: u16) -> Result<NearestFraction, Refusal>
    ensures { outcome result ≡ without_octaves ratio limit octaves }
{
    let power = Ratio::from_octaves(f64::from(octaves))?;
    let target = pitch::checked_ratio(ratio / power.0)?;
    Ok(best_for(target.0, octaves, limit))
}

// The ratio without its whole octaves, and the best fraction for what is left.
#[tactic(auto, unfolding(crate::specs::NearestFraction::reduced_nearest))]
fn reduced(ratio: f64, limit: u16) -> Result<NearestFraction, Refusal>
    ensures { outcome result ≡ reduced_nearest ratio limit }
{
    let octaves = explog::log2(ratio)?;
    let whole = floats::count_of(floats::floor_of(octaves))?;
    without(ratio, whole, limit)
}

// The nearest fraction that the walk finds within the odd limit, octaves taken off; 10 outside 2^-64..2^64. The Rust's
// `Ratio::nearest_fraction`: a method would have to stand in the crate of `Ratio`.
#[tactic(auto, unfolding(crate::specs::NearestFraction::nearest_fraction))]
pub fn nearest_fraction(ratio: Ratio, limit: u16) -> Result<NearestFraction, Refusal>
    ensures { outcome result ≡ nearest_fraction ratio.0 limit }
{
    let value = ratio.0;
    if floats::is_in_search(value) {
        return reduced(value, limit);
    }
    Err(Refusal {
        reason: Reason::Unusable,
        detail: 0,
    })
}
