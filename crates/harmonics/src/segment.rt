// The fractions of a segment of the harmonic series: the Rust's `create_harmonics_scale`, item by item. Document 01, "Scales and
// searches".
//
// An inner module: its fractions become items in lib.rt.
ghost use Rattle.std.specs.Prelude.{◌≡◌};
ghost use Rattle.base.specs.Said.{outcome};
ghost use Rattle.std.specs.Float.Ieee.{to_unsigned};
ghost use Rattle.harmonics.specs.Segment.{harmonic_of, whole_at, near_at, fraction_at, steps_of, segment_count};

use base::Refusal;
use pitch::Ratio;

// Which segment: `n:n+1:n+2:..`, or `n/(n:n-1:n-2:..)`.
#[derive(Clone, Copy)]
pub enum SegmentType {
    Otonal,
    Utonal,
}

#[derive(Clone, Copy)]
pub struct Fraction {
    pub numer: u32,
    pub denom: u32,
}

// 2^32, where u32 ends.
const U32_END: f64 = 4294967296.0;

// The Rust's `as u32`: the whole part, the nearest end outside the range, 0 for a NaN.
fn as_u32(x: f64) -> u32
    ensures { result ≡ to_unsigned 32 x }
{
    if x > 0.0 {
        if x < U32_END {
            std::num::truncating_f64_to_u64(x) as u32
        } else {
            4294967295
        }
    } else {
        0
    }
}

// The whole number near h: the one below it where that is nearer as a ratio, else the one above it.
fn harmonic_of(h: f64) -> u32
    ensures { result ≡ harmonic_of h }
{
    let low = floats::floor_of(h);
    let high = -floats::floor_of(-h);
    if h / low < high / h {
        as_u32(low)
    } else {
        as_u32(high)
    }
}

// The j-th harmonic after the segment's first, or before its last.
fn whole_at(segment_type: SegmentType, start: u16, size: u16, j: u16) -> Fraction
    ensures { result ≡ whole_at segment_type start size j }
{
    let first = start as u32;
    let end = first + (size as u32);
    let step = j as u32;
    match segment_type {
        SegmentType::Otonal => Fraction {
            numer: first + step,
            denom: first,
        },
        SegmentType::Utonal => Fraction {
            numer: end,
            denom: if step < end { end - step } else { 0 },
        },
    }
}

// The harmonic near a ratio above the segment's first, or below its last.
fn near_at(segment_type: SegmentType, start: u16, size: u16, ratio: f64) -> Fraction
    ensures { result ≡ near_at segment_type start size ratio }
{
    let first = start as u32;
    let end = first + (size as u32);
    match segment_type {
        SegmentType::Otonal => Fraction {
            numer: harmonic_of(ratio * (first as f64)),
            denom: first,
        },
        SegmentType::Utonal => Fraction {
            numer: end,
            denom: harmonic_of((end as f64) / ratio),
        },
    }
}

// The j-th fraction of a segment; 18 where its steps leave E's domain.
pub fn fraction_at(
    segment_type: SegmentType,
    start: u16,
    size: u16,
    steps: Option<f64>,
    j: u16,
) -> Result<Fraction, Refusal>
    ensures { outcome result ≡ fraction_at segment_type start size steps j }
{
    match steps {
        None => Ok(whole_at(segment_type, start, size, j)),
        Some(step) => {
            let ratio = Ratio(step).repeated(f64::from(j))?;
            Ok(near_at(segment_type, start, size, ratio.0))
        }
    }
}

// The steps of a segment: one equal step of its whole interval where it is divided, 18 for 0 divisions.
pub fn steps_of(start: u16, size: u16, divisions: Option<u16>) -> Result<Option<f64>, Refusal>
    ensures { outcome result ≡ steps_of start size divisions }
{
    match divisions {
        None => Ok(None),
        Some(number) => {
            let interval = (f64::from(start) + f64::from(size)) / f64::from(start);
            let step = Ratio::from_float(interval)?.divided_into_equal_steps(f64::from(number))?;
            Ok(Some(step.0))
        }
    }
}

// How many items a segment has: its size, or its divisions.
pub fn count_of(size: u16, divisions: Option<u16>) -> u16
    ensures { result ≡ segment_count size divisions }
{
    divisions.unwrap_or(size)
}
