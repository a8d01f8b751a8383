// The notes of a rank-2 temperament: so many generators up or down, within the period. The Rust's `create_rank2_temperament_scale`, note
// by note; document 01, "Scales and searches".
//
// An inner module: for generators and periods in 2^-32..2^32, whose period is not 1.0, no note is refused.
ghost use Rattle.std.specs.Prelude.{◌≡◌, true, ◌≤◌, length};
ghost use Rattle.std.specs.Float.Ieee.{lt};
ghost use Rattle.base.specs.Said.{gives, pick};
ghost use Rattle.floats.specs.Ranges.{in_generator};
ghost use Rattle.pitch.specs.Ratios.{as_cents};
ghost use Rattle.scl.specs.Items.{is_usable_cents};
ghost use Rattle.rank2.specs.Notes.{generation_at, note_at, pitch_at, ratios_from, highest_from};
ghost use Rattle.rank2.specs.Asked.{SomeCents};

use pitch::Ratio;

// The cents of a ratio in 2^-32..2^32: usable cents.
pub fn cents_of(ratio: f64) -> f64
    requires { in_generator ratio ≡ true }
    ensures { (gives result ≡ as_cents ratio) × (is_usable_cents result ≡ true) }
{
    Ratio(ratio).as_cents().unwrap_or(0.0)
}

// The i-th generation: 1, 2, .. up to the positive ones, then -1, -2, ..
fn generation_at(positive: u16, i: u16) -> f64
    ensures { result ≡ generation_at positive i }
{
    if i <= positive {
        i as f64
    } else {
        -((i - positive) as f64)
    }
}

// The i-th note, of a generator and a period in cents: it lies in 2^-32..2^32.
pub fn note_at(generator_cents: f64, period_cents: f64, positive: u16, i: u16) -> f64
    requires { (is_usable_cents generator_cents ≡ true) × SomeCents period_cents }
    ensures { (gives result ≡ note_at generator_cents period_cents positive i) × (in_generator result ≡ true) }
{
    let unbounded = generation_at(positive, i) * generator_cents;
    let bounded = remainder::rem_euclid(unbounded, period_cents);
    Ratio::from_cents(bounded).unwrap_or(Ratio(1.0)).0
}

// The higher one of two ratios; the first of equal ones.
fn higher(a: f64, b: f64) -> f64
    ensures { result ≡ pick (lt a b) b a }
{
    if a < b { b } else { a }
}

// The i-th pitch value: the period, then the notes. It lies in 2^-32..2^32.
fn pitch_at(period: f64, generator_cents: f64, period_cents: f64, positive: u16, i: u16) -> f64
    requires { (in_generator period ≡ true) × (is_usable_cents generator_cents ≡ true) × SomeCents period_cents }
    ensures { (gives result ≡ pitch_at period generator_cents period_cents positive i) × (in_generator result ≡ true) }
{
    if i == 0 {
        return period;
    }
    note_at(generator_cents, period_cents, positive, i)
}

// The highest one of the first n pitch values; 0.0 where there is none.
pub fn highest(period: f64, generator_cents: f64, period_cents: f64, positive: u16, n: u16) -> f64
    requires { (in_generator period ≡ true) × (is_usable_cents generator_cents ≡ true) × SomeCents period_cents }
    ensures { gives result ≡ highest_from (pitch_at period generator_cents period_cents positive) 0 n }
{
    let mut top = 0.0;
    // A `while`: from the last one down, as the definition goes.
    let mut i = n;
    while 0 < i {
        i -= 1;
        top = higher(
            top,
            pitch_at(period, generator_cents, period_cents, positive, i),
        );
    }
    top
}

// The pitch values in their order, as many as the column has places.
pub fn fill(ratio: &mut [f64], period: f64, generator_cents: f64, period_cents: f64, positive: u16)
    requires { (length ratio.old ≤ 65535) × (in_generator period ≡ true) × (is_usable_cents generator_cents ≡ true) × SomeCents period_cents }
    ensures { gives ratio.new ≡ ratios_from (pitch_at period generator_cents period_cents positive) 0 (length ratio.old) }
{
    for i in 0..ratio.len() {
        ratio[i] = pitch_at(period, generator_cents, period_cents, positive, i as u16);
    }
}
