// Pitches: a number in Hz and back, and a pitch that a ratio moves. Document 01, "What is taken", 3.
ghost use Rattle.std.specs.Prelude.{◌≡◌};
ghost use Rattle.base.specs.Said.{outcome};
ghost use Rattle.pitch.specs.Answers.{says_pitch};
ghost use Rattle.pitch.specs.Pitches.{from_hz, as_hz, pitch_times, pitch_over};

use crate::{Pitch, Ratio};
use base::Refusal;

impl Pitch {
    // The pitch of a number in Hz; 10 outside the range.
    pub fn from_hz(hz: f64) -> Result<Pitch, Refusal>
        ensures { says_pitch result ≡ from_hz hz }
    {
        Ok(Pitch(crate::given(hz)?))
    }

    // Its number in Hz; 10 outside the range.
    pub fn as_hz(self) -> Result<f64, Refusal>
        ensures { outcome result ≡ as_hz self.0 }
    {
        crate::given(self.0)
    }

    // The pitch that much higher; 10, 18.
    pub fn times(self, ratio: Ratio) -> Result<Pitch, Refusal>
        ensures { says_pitch result ≡ pitch_times self.0 ratio.0 }
    {
        let hz = self.0;
        let factor = ratio.0;
        if crate::are_in_reach(hz, factor) {
            crate::checked_pitch(hz * factor)
        } else {
            Err(crate::NOT_USABLE)
        }
    }

    // The pitch that much lower; 10, 18.
    pub fn over(self, ratio: Ratio) -> Result<Pitch, Refusal>
        ensures { says_pitch result ≡ pitch_over self.0 ratio.0 }
    {
        let hz = self.0;
        let factor = ratio.0;
        if crate::are_in_reach(hz, factor) {
            crate::checked_pitch(hz / factor)
        } else {
            Err(crate::NOT_USABLE)
        }
    }
}
