// One line for each key.
use crate::tables::{Mapping, Sounds};
use base::{Reason, Refusal};
use kbm::{Counting, Kbm};
use key::{Degree, PianoKey};
use pitch::Pitch;
use std::io;
use std::io::Write;

// The most keys that are shown.
pub const MOST: usize = 1024;

// Prints a number with three decimals, or a word for one above 2^53.
fn print_three<W: Write>(out: &mut W, x: f64) -> io::Result<()> {
    let mut bytes = [0u8; 64];
    match keytable_lines::write_three(x, &mut bytes, 0) {
        Some(n) => out.write_all(crate::files::first(&bytes, n)),
        None => out.write_all(b"above-2^53"),
    }
}

// Prints a pitch in Hz, its cents above the reference pitch, and a line end.
fn print_pitch<W: Write>(out: &mut W, reference: Pitch, hz: f64) -> io::Result<()> {
    print_three(out, hz)?;
    out.write_all(b" ")?;
    match keytable_lines::cents_above(reference, Pitch(hz)) {
        Ok(cents) => {
            print_three(out, cents)?;
            out.write_all(b"\n")
        }
        Err(refusal) => print_words(out, refusal.reason.number()),
    }
}

// Prints why a call refused, and a line end.
fn print_words<W: Write>(out: &mut W, number: u32) -> io::Result<()> {
    let why = crate::reasons::sentence(number);
    write!(out, "{why}\n")
}

// Prints why a key has no pitch, and a line end.
fn print_reason<W: Write>(out: &mut W, number: u32) -> io::Result<()> {
    if number == Reason::UnmappedKey.number() {
        out.write_all(b"unmapped\n")
    } else {
        print_words(out, number)
    }
}

// The degree of a key in either counting.
fn degree_of(counting: Counting, kbm: Kbm, map: &[i32], key: PianoKey) -> Result<Degree, Refusal> {
    match counting {
        Counting::Reference => kbm::scale_degree_of(kbm, map, key),
        Counting::Middle => kbm::scale_degree_from_middle(kbm, map, key),
    }
}

// Prints the line of a key.
fn print_key<W: Write>(
    out: &mut W,
    counting: Counting,
    mapping: &Mapping<'_>,
    key: PianoKey,
    hz: f64,
    number: u32,
) -> io::Result<()> {
    let z = key.0;
    write!(out, "{z} ")?;
    if number != 0 {
        return print_reason(out, number);
    }
    let kbm = mapping.kbm;
    let Ok(degree) = degree_of(counting, kbm, mapping.map, key) else {
        return out.write_all(b"unmapped\n");
    };
    let z = degree.0;
    write!(out, "{z} ")?;
    print_pitch(out, kbm.root.pitch, hz)
}

// Prints how many keys lie from `first` up to, not including, `end`, if any.
fn print_left<W: Write>(out: &mut W, first: PianoKey, end: PianoKey) -> io::Result<()> {
    if end.0 <= first.0 {
        return Ok(());
    }
    match first.num_keys_before(end) {
        Ok(left) => write!(out, "{left} keys more\n"),
        Err(_) => out.write_all(b"over 2147483647 keys more\n"),
    }
}

// Prints the lines of the first keys of the range, and how many are left out.
pub fn print_keys<W: Write>(
    out: &mut W,
    counting: Counting,
    mapping: &Mapping<'_>,
    sounds: &Sounds,
) -> io::Result<()> {
    let end = mapping.kbm.end;
    let mut key = mapping.kbm.start;
    for i in 0..MOST {
        if end.0 <= key.0 {
            return Ok(());
        }
        print_key(out, counting, mapping, key, sounds.hz[i], sounds.numbers[i])?;
        let Ok(next) = key.plus_steps(1) else {
            return Ok(());
        };
        key = next;
    }
    print_left(out, key, end)
}
