// What is answered on whole numbers and keys.
use key::PianoKey;
use math::Division;
use std::io;
use std::io::Write;

// Quotient and remainder.
pub fn say_division<W: Write>(sink: &mut W, found: Division) -> io::Result<()> {
    say::int(sink, found.quotient)?;
    say::natural(sink, found.remainder)
}

// A key's number.
pub fn say_key<W: Write>(sink: &mut W, key: PianoKey) -> io::Result<()> {
    say::int(sink, key.0)
}

// A MIDI number.
pub fn say_midi<W: Write>(sink: &mut W, number: u8) -> io::Result<()> {
    say::natural(sink, u32::from(number))
}
