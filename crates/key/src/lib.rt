// Keys of a keyboard, and degrees of a scale: numbers that stay apart. The Rust's key.rs; document 01, "What is taken", 2.
#![tactic(auto)]

ghost use Rattle.std.specs.Prelude.{◌≡◌};
ghost use Rattle.base.specs.Said.{outcome};
ghost use Rattle.key.specs.Keys.{key, key_after, steps_between, midi_of};

use base::{Reason, Refusal};

// A key of a real or virtual instrument, by its MIDI number, without any notion of a pitch.
#[derive(Clone, Copy)]
pub struct PianoKey(pub i32);

// A degree of a scale: 0 is the root, and it goes on in both directions.
#[derive(Clone, Copy)]
pub struct Degree(pub i32);

// 16: the key is outside 0..127.
const NO_MIDI_KEY: Refusal = Refusal {
    reason: Reason::KeyOutOfRange,
    detail: 0,
};

impl PianoKey {
    // The key with this MIDI number.
    pub fn from_midi_number(number: i32) -> PianoKey
        ensures { result ≡ key number }
    {
        PianoKey(number)
    }

    // The MIDI number of this key.
    pub fn midi_number(self) -> i32
        ensures { result ≡ self.0 }
    {
        self.0
    }

    // The MIDI number where it is one of 0..127; else 16.
    pub fn checked_midi_number(self) -> Result<u8, Refusal>
        ensures { outcome result ≡ midi_of self }
    {
        let number = self.0;
        if 0 <= number {
            if number <= 127 {
                return Ok(number as u8);
            }
        }
        Err(NO_MIDI_KEY)
    }

    // How many keys lie from this one up to `other`, less than 0 if it is below; 11 outside 32 bits.
    pub fn num_keys_before(self, other: PianoKey) -> Result<i32, Refusal>
        ensures { outcome result ≡ steps_between self other }
    {
        integer_math::to_i32(integer_math::difference(other.0, self.0))
    }

    // The key that many steps after this one; 11 outside 32 bits.
    pub fn plus_steps(self, steps: i32) -> Result<PianoKey, Refusal>
        ensures { outcome result ≡ key_after self steps }
    {
        let number = integer_math::to_i32(integer_math::sum(self.0, steps))?;
        Ok(PianoKey(number))
    }
}
