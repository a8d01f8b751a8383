// The ratio of a usable item, and a ratio reduced by a scale's period, as the Rust's `SclBuilder::build` does it for each item and a
// search for its target. Document 01, "Scales and searches".
//
// An inner module: for what it is asked of, 18 never arises.
ghost use Rattle.std.specs.Prelude.{◌≡◌, true, ◌<◌, pos};
ghost use Rattle.std.specs.Float.{binary64};
ghost use Rattle.std.specs.Float.Ieee.{div, of_int};
ghost use Rattle.base.specs.Said.{gives};
ghost use Rattle.floats.specs.Floats.{count};
ghost use Rattle.floats.specs.Ranges.{in_reach};
ghost use Rattle.explog.specs.Rules.{L, in_powers};
ghost use Rattle.pitch.specs.Given.{computed};
ghost use Rattle.pitch.specs.Ratios.{from_cents, from_octaves};
ghost use Rattle.scl.specs.Items.{is_usable_cents, is_usable, ratio_of};
ghost use Rattle.scl_tables.specs.Reduce.{is_count, IsPeriod, reduced_by};

use pitch::Ratio;
use scl::Item;

// A period's ratio, and how many octaves it is.
#[derive(Clone, Copy)]
pub struct Period {
    pub ratio: f64,
    pub octaves: f64,
}

// A ratio brought within the period, and how many periods were taken off.
#[derive(Clone, Copy)]
pub struct Reduced {
    pub ratio: f64,
    pub wraps: i32,
}

// The ratio of usable cents.
fn cents_ratio(cents: f64) -> f64
    requires { is_usable_cents cents ≡ true }
    ensures { (gives result ≡ from_cents cents) × (in_reach result ≡ true) }
{
    Ratio::from_cents(cents).unwrap_or(Ratio(1.0)).0
}

// The ratio of a usable fraction.
fn fraction_ratio(numer: u32, denom: u32) -> f64
    requires { (0 < numer) × (0 < denom) }
    ensures { (gives result ≡ computed (div binary64 (of_int binary64 (pos numer)) (of_int binary64 (pos denom)))) × (in_reach result ≡ true) }
{
    f64::from(numer) / f64::from(denom)
}

// The ratio of a usable item.
pub fn ratio_of(item: Item) -> f64
    requires { is_usable item ≡ true }
    ensures { (gives result ≡ ratio_of item) × (in_reach result ≡ true) }
{
    match item {
        Item::Cents(cents) => cents_ratio(cents),
        Item::Fraction(numer, denom) => fraction_ratio(numer, scl::denom_of(denom)),
    }
}

// The octaves of a ratio in 2^-900..2^900.
fn octaves_of(ratio: f64) -> f64
    requires { in_reach ratio ≡ true }
    ensures { gives result ≡ L ratio }
{
    explog::log2(ratio).unwrap_or(0.0)
}

// The ratio of at most 900 octaves, up or down.
fn ratio_of_octaves(octaves: f64) -> f64
    requires { in_powers octaves ≡ true }
    ensures { gives result ≡ from_octaves octaves }
{
    Ratio::from_octaves(octaves).unwrap_or(Ratio(1.0)).0
}

// The whole part of a quotient that is an i32.
fn wraps_of(quotient: f64) -> i32
    requires { is_count quotient ≡ true }
    ensures { gives result ≡ count quotient }
{
    floats::count_of(quotient).unwrap_or(0)
}

// A ratio in 2^-900..2^900 as a period.
pub fn period_of(ratio: f64) -> Period
    requires { in_reach ratio ≡ true }
    ensures { (result.ratio ≡ ratio) × IsPeriod result }
{
    Period {
        ratio,
        octaves: octaves_of(ratio),
    }
}

// A ratio in 2^-900..2^900, reduced by a period: as it is where the period is negligible.
pub fn reduce(period: Period, ratio: f64) -> Reduced
    requires { IsPeriod period × (in_reach ratio ≡ true) }
    ensures { (gives result ≡ reduced_by period.ratio ratio) × (in_reach result.ratio ≡ true) }
{
    let by = period.ratio;
    let size = period.octaves;
    if floats::is_negligible(by) {
        return Reduced { ratio, wraps: 0 };
    }
    let octaves = octaves_of(ratio);
    let rest = ratio_of_octaves(remainder::rem_euclid(octaves, size));
    let wraps = wraps_of(remainder::div_euclid(octaves, size));
    Reduced { ratio: rest, wraps }
}
