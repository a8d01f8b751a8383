// Ratios as numbers: given, put on top of one another, turned over, compared. Document 01, "What is taken", 3.
ghost use Rattle.std.specs.Prelude.{◌≡◌};
ghost use Rattle.base.specs.Said.{outcome};
ghost use Rattle.floats.specs.Floats.{one_f};
ghost use Rattle.pitch.specs.Answers.{says_ratio};
ghost use Rattle.pitch.specs.Pitches.{between_pitches};
ghost use Rattle.pitch.specs.Ratios.{two_f, from_float, as_float, stretched_by, deviation_from, inverse, absolute, is_negligible, total_cmp};

use crate::{Pitch, Ratio};
use base::Refusal;
use std::cmp::Ordering;

impl Ratio {
    // The ratio of a number; 10 outside the range.
    pub fn from_float(value: f64) -> Result<Ratio, Refusal>
        ensures { says_ratio result ≡ from_float value }
    {
        Ok(Ratio(crate::given(value)?))
    }

    // An octave.
    pub fn octave() -> Ratio
        ensures { result ≡ record { 0 = two_f } }
    {
        Ratio(2.0)
    }

    // The unison, the Rust's default.
    pub fn unison() -> Ratio
        ensures { result ≡ record { 0 = one_f } }
    {
        Ratio(1.0)
    }

    // The ratio from the first pitch to the second; 10, 18.
    pub fn between_pitches(first: Pitch, second: Pitch) -> Result<Ratio, Refusal>
        ensures { says_ratio result ≡ between_pitches first.0 second.0 }
    {
        let from = first.0;
        let to = second.0;
        if crate::are_in_reach(from, to) {
            crate::checked_ratio(to / from)
        } else {
            Err(crate::NOT_USABLE)
        }
    }

    // One ratio on top of another; 10, 18.
    pub fn stretched_by(self, stretch: Ratio) -> Result<Ratio, Refusal>
        ensures { says_ratio result ≡ stretched_by self.0 stretch.0 }
    {
        let value = self.0;
        let by = stretch.0;
        if crate::are_in_reach(value, by) {
            crate::checked_ratio(value * by)
        } else {
            Err(crate::NOT_USABLE)
        }
    }

    // How far this ratio is from another; 10, 18.
    pub fn deviation_from(self, reference: Ratio) -> Result<Ratio, Refusal>
        ensures { says_ratio result ≡ deviation_from self.0 reference.0 }
    {
        let value = self.0;
        let from = reference.0;
        if crate::are_in_reach(value, from) {
            crate::checked_ratio(value / from)
        } else {
            Err(crate::NOT_USABLE)
        }
    }

    // Its number; 10 outside the range.
    pub fn as_float(self) -> Result<f64, Refusal>
        ensures { outcome result ≡ as_float self.0 }
    {
        crate::given(self.0)
    }

    // The interval turned over; 10.
    pub fn inv(self) -> Result<Ratio, Refusal>
        ensures { says_ratio result ≡ inverse self.0 }
    {
        crate::checked_ratio(1.0 / crate::given(self.0)?)
    }

    // The interval upwards; 10.
    pub fn abs(self) -> Result<Ratio, Refusal>
        ensures { says_ratio result ≡ absolute self.0 }
    {
        crate::checked_ratio(crate::upwards(crate::given(self.0)?))
    }

    // Whether it is as good as a unison; 10 outside the range.
    pub fn is_negligible(self) -> Result<bool, Refusal>
        ensures { outcome result ≡ is_negligible self.0 }
    {
        Ok(floats::is_negligible(crate::given(self.0)?))
    }

    // Whether it is lower than another ratio, the same or higher; 10 outside the range.
    pub fn total_cmp(self, other: Ratio) -> Result<Ordering, Refusal>
        ensures { outcome result ≡ total_cmp self.0 other.0 }
    {
        let value = self.0;
        let with = other.0;
        if crate::are_in_reach(value, with) {
            if value < with {
                return Ok(Ordering::Less);
            }
            if with < value {
                return Ok(Ordering::Greater);
            }
            return Ok(Ordering::Equal);
        }
        Err(crate::NOT_USABLE)
    }
}
