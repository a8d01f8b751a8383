// Refusals in words.
use base::{Reason, Refusal};
use std::io;
use std::io::Write;

// Why a call refused, by its number: the sentences of the crate `base`, but that 12 says how much room this program has. No call that it
// makes says 29.
pub fn sentence(number: u32) -> &'static str {
    match number {
        1 => "a line is not UTF-8",
        2 => "a required line is missing",
        3 => "not an integer of its type",
        4 => "not a cents value",
        5 => "not a numerator",
        6 => "not a denominator",
        7 => "not a decimal",
        8 => "not a mapping entry",
        9 => "a numeral with an exponent, a word, or over 18 digits",
        10 => "a value, a state or a lent table that cannot be used",
        11 => "a number leaves its type",
        12 => "more than 8191 items or 8192 entries",
        13 => "over 65,535 entries",
        14 => "the text has another count of notes or entries than it says",
        15 => "entries and no formal octave",
        16 => "the key is outside the range",
        17 => "the key is unmapped",
        18 =>
            "beyond reach: a period of 1.0, 0 divisions, or a computed pitch or ratio outside its range",
        19 => "the reference key is unmapped, counted from the middle key",
        25 => "the last key is below the first",
        _ => "",
    }
}

// Writes on standard error which file is refused, at which line and why; `required` names its required lines.
pub fn refuse<E: Write>(
    err: &mut E,
    name: &[u8],
    required: &[&str],
    refusal: Refusal,
) -> io::Result<()> {
    err.write_all(name)?;
    let detail = refusal.detail;
    if refusal.reason == Reason::LineMissing {
        let line = required.get(detail.wrapping_sub(1)).unwrap_or(&"");
        return write!(err, ": {line} is missing\n");
    }
    if detail != 0 {
        write!(err, ":{detail}")?;
    }
    let why = sentence(refusal.reason.number());
    write!(err, ": {why}\n")
}
