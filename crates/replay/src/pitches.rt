// What is answered on pitches, ratios and fractions.
use best::BestFraction;
use fraction::NearestFraction;
use pitch::{Pitch, Ratio};
use std::cmp::Ordering;
use std::io;
use std::io::Write;

// A ratio's number.
pub fn say_ratio<W: Write>(sink: &mut W, ratio: Ratio) -> io::Result<()> {
    say::float(sink, ratio.0)
}

// A pitch's Hz.
pub fn say_pitch<W: Write>(sink: &mut W, pitch: Pitch) -> io::Result<()> {
    say::float(sink, pitch.0)
}

// 0 false, 1 true.
pub fn say_bool<W: Write>(sink: &mut W, yes: bool) -> io::Result<()> {
    say::natural(sink, u32::from(yes))
}

// -1 lower, 0 the same, 1 higher.
pub fn say_order<W: Write>(sink: &mut W, order: Ordering) -> io::Result<()> {
    let number = match order {
        Ordering::Less => -1,
        Ordering::Equal => 0,
        Ordering::Greater => 1,
    };
    say::int(sink, number)
}

// Numerator, denominator and deviation.
fn say_fraction<W: Write>(
    sink: &mut W,
    numer: u16,
    denom: u16,
    deviation: Ratio,
) -> io::Result<()> {
    say::natural(sink, u32::from(numer))?;
    say::natural(sink, u32::from(denom))?;
    say::float(sink, deviation.0)
}

// The nearest fraction that the walk finds: these and its octaves.
pub fn say_nearest<W: Write>(sink: &mut W, found: NearestFraction) -> io::Result<()> {
    say_fraction(sink, found.numer, found.denom, found.deviation)?;
    say::int(sink, found.num_octaves)
}

// The nearest fraction of all.
pub fn say_best<W: Write>(sink: &mut W, found: BestFraction) -> io::Result<()> {
    say_fraction(sink, found.numer, found.denom, found.deviation)
}
