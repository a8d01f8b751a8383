// What a line of the program `keytable` is made of: numbers with three decimals, and how far a pitch lies above another in cents.
#![tactic(auto)]

ghost use Rattle.std.specs.Prelude.{◌≡◌, false, None};
ghost use Rattle.base.specs.Said.{pick, outcome};
ghost use Rattle.printing.specs.PrintText.{text_of, placed, written};
ghost use Rattle.keytable_lines.specs.Shown.{printable, cents_above};

use base::Refusal;
use pitch::{Pitch, Ratio};

// Whether a number is at most 2^53, as those are that are written with decimals.
fn is_printable(x: f64) -> bool
    ensures { result ≡ printable x }
{
    floats::abs_of(x) <= 9007199254740992.0
}

// x with three decimals at `at`. None where it does not fit or is above 2^53, and then nothing is written.
pub fn write_three(x: f64, out: &mut [u8], at: usize) -> Option<usize>
    ensures value { result ≡ pick (printable x) (placed out.old at (text_of 3 false x)) None }
    ensures out_after { out.new ≡ pick (printable x) (written out.old at (text_of 3 false x)) out.old }
{
    if is_printable(x) {
        return printing::write_fixed(x, 3, false, out, at);
    }
    None
}

// How many cents a pitch lies above the reference's; 10, 18.
pub fn cents_above(reference: Pitch, sound: Pitch) -> Result<f64, Refusal>
    ensures { outcome result ≡ cents_above reference.0 sound.0 }
{
    Ratio::between_pitches(reference, sound)?.as_cents()
}
