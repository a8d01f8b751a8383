// What a search answers: the nearest degree or key, and the deviation from it. The Rust's `Approximation` and what its searches take
// from the one internal search; document 01, "Scales and searches".
ghost use Rattle.std.specs.Prelude.{◌≡◌, pos, ◌+ℤ◌, ◌-ℤ◌, ◌*ℤ◌};
ghost use Rattle.base.specs.Integers.{held};
ghost use Rattle.base.specs.Numbers.{number_of};
ghost use Rattle.base.specs.Said.{gives, and_then, said_by};
ghost use Rattle.searching.specs.Degrees.{approximation, declared_of, ascending_of, key_of};

use crate::Found;
use base::{AnyRefusal, Refusal, Refuses};
use kbm::KbmRoot;

// The nearest degree, or in a `NearestKey` the nearest key, and how far the target lies above it, a ratio.
#[derive(Clone, Copy)]
pub struct Approximation {
    pub approx_value: i32,
    pub deviation: f64,
}

// The nearest key: what is approximated is the number of a key, and no degree.
#[derive(Clone, Copy)]
pub struct NearestKey(pub Approximation);

// The exact declared degree of a place, so many periods up and so many wraparounds down.
fn declared_number(place: u32, periods: i32, wraps: i32, count: u16) -> i64
    ensures { result ≡ pos place +ℤ (periods -ℤ wraps) *ℤ pos count }
{
    i64::from(place) + (i64::from(periods) - i64::from(wraps)) * i64::from(count)
}

// The exact ascending degree of a place in the list, so many periods up.
fn ascending_number(index: u32, periods: i32, count: u16) -> i64
    ensures { result ≡ pos index +ℤ periods *ℤ pos count }
{
    i64::from(index) + i64::from(periods) * i64::from(count)
}

// A refusal that is handed on, and that can be one of the library's.
pub trait HandedOn: Refuses {
    // The library's refusal.
    fn of(refusal: Refusal) -> Self
        ensures { (Self.number result ≡ number_of refusal.reason) × (Self.detail result ≡ refusal.detail) };
}

impl HandedOn for Refusal {
    fn of(refusal: Refusal) -> Refusal {
        refusal
    }
}

impl HandedOn for AnyRefusal {
    fn of(refusal: Refusal) -> AnyRefusal {
        AnyRefusal {
            number: refusal.number(),
            detail: refusal.detail(),
        }
    }
}

// The answer of an exact number; 11 outside 32 bits.
fn answer<R: HandedOn>(number: i64, deviation: f64) -> Result<Approximation, R>
    ensures { said_by R.number R.detail (λ a. a) result ≡ and_then (held number) (λ z. gives (approximation deviation z)) }
{
    match integer_math::to_i32(number) {
        Ok(approx_value) => Ok(Approximation {
            approx_value,
            deviation,
        }),
        Err(refusal) => Err(R::of(refusal)),
    }
}

// The declared degree of what was found; 11 outside 32 bits.
pub fn declared<R: HandedOn>(found: Result<Found, R>, count: u16) -> Result<Approximation, R>
    ensures { said_by R.number R.detail (λ a. a) result ≡ and_then (said_by R.number R.detail (λ f. f) found) (declared_of count) }
{
    let found = found?;
    answer(
        declared_number(found.place, found.periods, found.wraps, count),
        found.deviation,
    )
}

// The ascending degree of what was found; 11 outside 32 bits.
pub fn ascending<R: HandedOn>(found: Result<Found, R>, count: u16) -> Result<Approximation, R>
    ensures { said_by R.number R.detail (λ a. a) result ≡ and_then (said_by R.number R.detail (λ f. f) found) (ascending_of count) }
{
    let found = found?;
    answer(
        ascending_number(found.index, found.periods, count),
        found.deviation,
    )
}

// The key of a degree found, counted from the reference key; 11 outside 32 bits.
pub fn key_from<R: HandedOn>(
    root: KbmRoot,
    found: Result<Approximation, R>,
) -> Result<NearestKey, R>
    ensures { said_by R.number R.detail (λ k. k.0) result ≡ and_then (said_by R.number R.detail (λ a. a) found) (key_of root) }
{
    let degree = found?;
    let key = answer(
        integer_math::sum(root.reference.0, degree.approx_value),
        degree.deviation,
    )?;
    Ok(NearestKey(key))
}
