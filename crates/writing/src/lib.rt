// Texts out, line by line, into lent bytes: what the exports of mappings and of scales share. Document 01, "Writing".
#![tactic(auto)]

ghost use Rattle.std.specs.Prelude.{◌≡◌, false, ◌+◌, ◌≤◌, ◌<◌, T, length, set, Some};
ghost use Rattle.std.proofs.lemmas.List.Edits.{sets};
ghost use Rattle.printing.specs.PrintText.{limited, text_of, whole_text};
ghost use Rattle.writing.specs.Lines.{line, number_text, place_reached};

use base::{Reason, Refusal};

// 10: what is to be written is unusable.
pub const NOT_USABLE: Refusal = Refusal {
    reason: Reason::Unusable,
    detail: 0,
};

// 12: the text is longer than the lent bytes.
pub const NO_ROOM: Refusal = Refusal {
    reason: Reason::NoRoom,
    detail: 0,
};

// Room for the line of any one number, or of two with a byte between them.
pub const LINE: usize = 40;

// The byte `end` at the place reached; the next place.
fn end_text(reached: Option<usize>, end: u8, out: &mut [u8]) -> usize
    requires { (reached ≡ Some (place_reached reached)) × (place_reached reached < length out.old) }
    ensures value { result ≡ place_reached reached + 1 }
    ensures out_after { out.new ≡ set out.old (place_reached reached) end }
{
    let Some(next) = reached else {
        return 0;
    };
    out[next] = end;
    next + 1
}

// n and the byte `end` at `at`; the next place.
pub fn write_number(n: u32, end: u8, out: &mut [u8], at: usize) -> usize
    requires { at + length (number_text n end) ≤ length out.old }
    ensures value { result ≡ at + length (number_text n end) }
    ensures out_after { out.new ≡ sets out.old at (number_text n end) }
{
    let reached = printing::write_u32(n, out, at);
    end_text(reached, end, out)
}

// z and LF at `at`; the next place.
pub fn write_line(z: i32, out: &mut [u8], at: usize) -> usize
    requires { at + length (line (whole_text z)) ≤ length out.old }
    ensures value { result ≡ at + length (line (whole_text z)) }
    ensures out_after { out.new ≡ sets out.old at (line (whole_text z)) }
{
    let reached = printing::write_i32(z, out, at);
    end_text(reached, b'\n', out)
}

// x with d decimals and LF at `at`; the next place.
pub fn write_decimal(x: f64, d: u64, out: &mut [u8], at: usize) -> usize
    requires { T (limited x) × (d ≤ 4) × (at + length (line (text_of d false x)) ≤ length out.old) }
    ensures value { result ≡ at + length (line (text_of d false x)) }
    ensures out_after { out.new ≡ sets out.old at (line (text_of d false x)) }
{
    let reached = printing::write_fixed(x, d, false, out, at);
    end_text(reached, b'\n', out)
}

// The bytes `text` as they are, and LF, at `at`; the next place.
pub fn write_text(text: &[u8], out: &mut [u8], at: usize) -> usize
    requires { at + length (line text.now) ≤ length out.old }
    ensures value { result ≡ at + length (line text.now) }
    ensures out_after { out.new ≡ sets out.old at (line text.now) }
{
    let mut i = 0;
    while i < text.len() {
        out[at + i] = text[i];
        i += 1;
    }
    out[at + i] = b'\n';
    at + i + 1
}

// How many bytes z and LF take.
pub fn line_length(z: i32) -> usize
    ensures { (result ≡ length (line (whole_text z))) × (result ≤ 32) }
{
    let mut scratch = [0u8; LINE];
    write_line(z, &mut scratch, 0)
}

// How many bytes x with d decimals and LF take.
pub fn decimal_length(x: f64, d: u64) -> usize
    requires { T (limited x) × (d ≤ 4) }
    ensures { (result ≡ length (line (text_of d false x))) × (result ≤ 32) }
{
    let mut scratch = [0u8; LINE];
    write_decimal(x, d, &mut scratch, 0)
}
