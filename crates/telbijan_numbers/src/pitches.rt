// pitch.rs for C: a ratio goes as its number, and a pitch as its number of Hz.
ghost use Rattle.std.specs.Prelude.{◌≡◌};
ghost use Rattle.pitch.specs.Pitches.{from_hz, pitch_times, pitch_over, between_pitches};
ghost use Rattle.pitch.specs.Ratios.{from_float, from_octaves, from_semitones, from_cents, as_octaves, as_semitones, as_cents};
ghost use Rattle.pitch.specs.Ratios.{stretched_by, deviation_from, repeated, divided_into, steps_of_size, inverse, absolute};
ghost use Rattle.pitch.specs.Ratios.{is_negligible, total_cmp};
ghost use Rattle.telbijan_answers.specs.Calls.{Stored, StoredPart};
ghost use Rattle.telbijan_numbers.specs.Calls.{RatioNearestFraction, RatioBestFraction};
ghost use Rattle.telbijan_numbers.specs.Orders.{order_number};

use pitch::{Pitch, Ratio};
use std::cmp::Ordering;

// The ratio of a number; 10 outside 2^-900..2^900.
pub fn telbijan_ratio_from_float(value: f64, ratio: &mut f64) -> u64
    ensures { Stored (from_float value) ratio.old result ratio.new }
{
    telbijan_answers::store_ratio(Ratio::from_float(value), ratio)
}

// The ratio of so many octaves; 18 outside -900..900.
pub fn telbijan_ratio_from_octaves(octaves: f64, ratio: &mut f64) -> u64
    ensures { Stored (from_octaves octaves) ratio.old result ratio.new }
{
    telbijan_answers::store_ratio(Ratio::from_octaves(octaves), ratio)
}

// The ratio of so many semitones; 18.
pub fn telbijan_ratio_from_semitones(semitones: f64, ratio: &mut f64) -> u64
    ensures { Stored (from_semitones semitones) ratio.old result ratio.new }
{
    telbijan_answers::store_ratio(Ratio::from_semitones(semitones), ratio)
}

// The ratio of so many cents; 18.
pub fn telbijan_ratio_from_cents(cents: f64, ratio: &mut f64) -> u64
    ensures { Stored (from_cents cents) ratio.old result ratio.new }
{
    telbijan_answers::store_ratio(Ratio::from_cents(cents), ratio)
}

// The ratio from the first pitch to the second; 10, 18.
pub fn telbijan_ratio_between_pitches(first: f64, second: f64, ratio: &mut f64) -> u64
    ensures { Stored (between_pitches first second) ratio.old result ratio.new }
{
    telbijan_answers::store_ratio(Ratio::between_pitches(Pitch(first), Pitch(second)), ratio)
}

// One ratio on top of another; 10, 18.
pub fn telbijan_ratio_stretched_by(value: f64, stretch: f64, ratio: &mut f64) -> u64
    ensures { Stored (stretched_by value stretch) ratio.old result ratio.new }
{
    telbijan_answers::store_ratio(Ratio(value).stretched_by(Ratio(stretch)), ratio)
}

// How far a ratio is from another; 10, 18.
pub fn telbijan_ratio_deviation_from(value: f64, reference: f64, ratio: &mut f64) -> u64
    ensures { Stored (deviation_from value reference) ratio.old result ratio.new }
{
    telbijan_answers::store_ratio(Ratio(value).deviation_from(Ratio(reference)), ratio)
}

// So many times the interval; 10, 18.
pub fn telbijan_ratio_repeated(value: f64, times: f64, ratio: &mut f64) -> u64
    ensures { Stored (repeated value times) ratio.old result ratio.new }
{
    telbijan_answers::store_ratio(Ratio(value).repeated(times), ratio)
}

// One of so many equal parts of the interval; 10, 18.
pub fn telbijan_ratio_divided_into_equal_steps(value: f64, steps: f64, ratio: &mut f64) -> u64
    ensures { Stored (divided_into value steps) ratio.old result ratio.new }
{
    telbijan_answers::store_ratio(Ratio(value).divided_into_equal_steps(steps), ratio)
}

// How many steps make the interval, infinite or a NaN for a step of 1.0; 10.
pub fn telbijan_ratio_num_equal_steps_of_size(value: f64, step: f64, count: &mut f64) -> u64
    ensures { Stored (steps_of_size value step) count.old result count.new }
{
    telbijan_answers::store(Ratio(value).num_equal_steps_of_size(Ratio(step)), count)
}

// The octaves of a ratio; 10.
pub fn telbijan_ratio_as_octaves(value: f64, octaves: &mut f64) -> u64
    ensures { Stored (as_octaves value) octaves.old result octaves.new }
{
    telbijan_answers::store(Ratio(value).as_octaves(), octaves)
}

// The semitones of a ratio; 10.
pub fn telbijan_ratio_as_semitones(value: f64, semitones: &mut f64) -> u64
    ensures { Stored (as_semitones value) semitones.old result semitones.new }
{
    telbijan_answers::store(Ratio(value).as_semitones(), semitones)
}

// The cents of a ratio; 10.
pub fn telbijan_ratio_as_cents(value: f64, cents: &mut f64) -> u64
    ensures { Stored (as_cents value) cents.old result cents.new }
{
    telbijan_answers::store(Ratio(value).as_cents(), cents)
}

// The interval turned over; 10.
pub fn telbijan_ratio_inv(value: f64, ratio: &mut f64) -> u64
    ensures { Stored (inverse value) ratio.old result ratio.new }
{
    telbijan_answers::store_ratio(Ratio(value).inv(), ratio)
}

// The interval upwards; 10.
pub fn telbijan_ratio_abs(value: f64, ratio: &mut f64) -> u64
    ensures { Stored (absolute value) ratio.old result ratio.new }
{
    telbijan_answers::store_ratio(Ratio(value).abs(), ratio)
}

// The pitch of a number in Hz; 10 outside 2^-900..2^900.
pub fn telbijan_pitch_from_hz(value: f64, hz: &mut f64) -> u64
    ensures { Stored (from_hz value) hz.old result hz.new }
{
    telbijan_answers::store_pitch(Pitch::from_hz(value), hz)
}

// The pitch that much higher; 10, 18.
pub fn telbijan_pitch_times_ratio(value: f64, ratio: f64, hz: &mut f64) -> u64
    ensures { Stored (pitch_times value ratio) hz.old result hz.new }
{
    telbijan_answers::store_pitch(Pitch(value).times(Ratio(ratio)), hz)
}

// The pitch that much lower; 10, 18.
pub fn telbijan_pitch_over_ratio(value: f64, ratio: f64, hz: &mut f64) -> u64
    ensures { Stored (pitch_over value ratio) hz.old result hz.new }
{
    telbijan_answers::store_pitch(Pitch(value).over(Ratio(ratio)), hz)
}

// Whether a ratio is as good as a unison; 10.
pub fn telbijan_ratio_is_negligible(value: f64, negligible: &mut bool) -> u64
    ensures { Stored (is_negligible value) negligible.old result negligible.new }
{
    telbijan_answers::store(Ratio(value).is_negligible(), negligible)
}

// -1, 0 or 1: a lower ratio, the same, or a higher one.
fn order_number(order: Ordering) -> i32
    ensures { result ≡ order_number order }
{
    match order {
        Ordering::Less => -1,
        Ordering::Equal => 0,
        Ordering::Greater => 1,
    }
}

// Whether a ratio is lower than another (-1), the same (0) or higher (1); 10.
pub fn telbijan_ratio_total_cmp(value: f64, other: f64, order: &mut i32) -> u64
    ensures { StoredPart order_number (total_cmp value other) order.old result order.new }
{
    telbijan_answers::store(
        Ratio(value).total_cmp(Ratio(other)).map(order_number),
        order,
    )
}

// The nearest fraction that the walk finds within the odd limit, octaves taken off: numer, denom, deviation and octaves are
// stored; 10 outside 2^-64..2^64.
pub fn telbijan_ratio_nearest_fraction(
    value: f64,
    limit: u16,
    numer: &mut u16,
    denom: &mut u16,
    deviation: &mut f64,
    octaves: &mut i32,
) -> u64
    ensures { RatioNearestFraction value limit
        numer.old denom.old deviation.old octaves.old result
        numer.new denom.new deviation.new octaves.new }
{
    match fraction::nearest_fraction(Ratio(value), limit) {
        Ok(answer) => {
            *numer = answer.numer;
            *denom = answer.denom;
            *deviation = answer.deviation.0;
            *octaves = answer.num_octaves;
            0
        }
        Err(refusal) => telbijan_answers::code_of(refusal),
    }
}

// The best fraction: of all n / d with n and d from 1 to 65535 whose odd parts are within the odd limit, the one nearest to the value, by
// the larger over the smaller; where two are as near, the smaller denominator, then the smaller numerator: it is in lowest terms. Octaves
// are not taken off. Stored are numer, denom and deviation, value / (numer / denom); 10 outside 2^-64..2^64, then 29 for limit 0. The time
// grows with the limit: about half a microsecond at 9, a quarter of a millisecond at 65535.
pub fn telbijan_ratio_best_fraction(
    value: f64,
    limit: u16,
    numer: &mut u16,
    denom: &mut u16,
    deviation: &mut f64,
) -> u64
    ensures { RatioBestFraction value limit
        numer.old denom.old deviation.old result
        numer.new denom.new deviation.new }
{
    match best::best_fraction(Ratio(value), limit) {
        Ok(found) => {
            *numer = found.numer;
            *denom = found.denom;
            *deviation = found.deviation.0;
            0
        }
        Err(refusal) => telbijan_answers::code_of(refusal),
    }
}
