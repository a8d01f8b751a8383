// Ratios by E and L: in octaves, semitones and cents, so many times, in equal steps. Document 01, "Logarithm and power".
ghost use Rattle.std.specs.Prelude.{◌≡◌};
ghost use Rattle.base.specs.Said.{outcome};
ghost use Rattle.pitch.specs.Answers.{says_ratio};
ghost use Rattle.pitch.specs.Ratios.{from_octaves, from_semitones, from_cents, as_octaves, as_semitones, as_cents, repeated, divided_into, steps_of_size};

use crate::Ratio;
use base::Refusal;

impl Ratio {
    // The ratio of so many octaves; 18 outside -900..900.
    pub fn from_octaves(octaves: f64) -> Result<Ratio, Refusal>
        ensures { says_ratio result ≡ from_octaves octaves }
    {
        if explog::is_in_powers(octaves) {
            Ok(Ratio(explog::power(octaves)))
        } else {
            Err(crate::OUT_OF_REACH)
        }
    }

    // The ratio of so many semitones; 18.
    pub fn from_semitones(semitones: f64) -> Result<Ratio, Refusal>
        ensures { says_ratio result ≡ from_semitones semitones }
    {
        Ratio::from_octaves(semitones / 12.0)
    }

    // The ratio of so many cents; 18.
    pub fn from_cents(cents: f64) -> Result<Ratio, Refusal>
        ensures { says_ratio result ≡ from_cents cents }
    {
        Ratio::from_octaves(cents / 1200.0)
    }

    // Its octaves; 10 outside the range.
    pub fn as_octaves(self) -> Result<f64, Refusal>
        ensures { outcome result ≡ as_octaves self.0 }
    {
        explog::log2(crate::given(self.0)?)
    }

    // Its semitones; 10 outside the range.
    pub fn as_semitones(self) -> Result<f64, Refusal>
        ensures { outcome result ≡ as_semitones self.0 }
    {
        Ok(self.as_octaves()? * 12.0)
    }

    // Its cents; 10 outside the range.
    pub fn as_cents(self) -> Result<f64, Refusal>
        ensures { outcome result ≡ as_cents self.0 }
    {
        Ok(self.as_semitones()? * 100.0)
    }

    // So many times the interval; 10, 18.
    pub fn repeated(self, times: f64) -> Result<Ratio, Refusal>
        ensures { says_ratio result ≡ repeated self.0 times }
    {
        Ratio::from_octaves(self.as_octaves()? * times)
    }

    // One of so many equal parts of the interval; 10, 18.
    pub fn divided_into_equal_steps(self, steps: f64) -> Result<Ratio, Refusal>
        ensures { says_ratio result ≡ divided_into self.0 steps }
    {
        Ratio::from_octaves(self.as_octaves()? / steps)
    }

    // How many steps make the interval, infinite or a NaN for a step of 1.0; 10.
    pub fn num_equal_steps_of_size(self, step: Ratio) -> Result<f64, Refusal>
        ensures { outcome result ≡ steps_of_size self.0 step.0 }
    {
        Ok(self.as_octaves()? / step.as_octaves()?)
    }
}
