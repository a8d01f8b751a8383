// Keyboard mappings out: the text of a mapping, the Rust's `KbmExport`. Document 01, "Writing".
#![tactic(auto)]

ghost use Rattle.std.specs.Prelude.{◌≡◌, true, ◌+◌, ◌≤◌, length};
ghost use Rattle.base.specs.Said.{outcome};
ghost use Rattle.std.proofs.lemmas.List.Edits.{sets};
ghost use Rattle.base.specs.Tables.{after};
ghost use Rattle.floats.specs.Ranges.{in_pitch};
ghost use Rattle.kbm.specs.Table.{entry_of, entries_of};
ghost use Rattle.writing.specs.Fitted.{fitted, text_length};
ghost use Rattle.writing.specs.Lines.{line, lines_text};
ghost use Rattle.kbm_write.specs.Export.{key_texts, table_text, mapping_text, entry_text, held_text, export_of};

use base::Refusal;
use kbm::Kbm;
use writing::{decimal_length, line_length, write_decimal, write_line};

// The entry of the number z, and LF, at `at`; the next place.
fn write_entry(z: i32, out: &mut [u8], at: usize) -> usize
    requires { at + length (line (entry_text (entry_of z))) ≤ length out.old }
    ensures value { result ≡ at + length (line (entry_text (entry_of z))) }
    ensures out_after { out.new ≡ sets out.old at (line (entry_text (entry_of z))) }
{
    if z == kbm::UNMAPPED {
        out[at] = b'x';
        out[at + 1] = b'\n';
        return at + 2;
    }
    write_line(z, out, at)
}

// How many bytes the entry of the number z and LF take.
fn entry_length(z: i32) -> usize
    ensures { (result ≡ length (line (entry_text (entry_of z)))) × (result ≤ 32) }
{
    let mut scratch = [0u8; writing::LINE];
    write_entry(z, &mut scratch, 0)
}

// How many bytes the five lines before the pitch take.
fn keys_length(size: i32, first: i32, last: i32, middle: i32, reference: i32) -> usize
    ensures { (result ≡ length (lines_text (key_texts size first last middle reference))) × (result ≤ 160) }
{
    let three = line_length(size) + line_length(first) + line_length(last);
    three + line_length(middle) + line_length(reference)
}

// The five lines before the pitch, from the first byte on; the next place.
fn write_keys(
    size: i32,
    first: i32,
    last: i32,
    middle: i32,
    reference: i32,
    out: &mut [u8],
) -> usize
    requires { length (lines_text (key_texts size first last middle reference)) ≤ length out.old }
    ensures value { result ≡ length (lines_text (key_texts size first last middle reference)) }
    ensures out_after { out.new ≡ sets out.old 0 (lines_text (key_texts size first last middle reference)) }
{
    let a = write_line(size, out, 0);
    let b = write_line(first, out, a);
    let c = write_line(last, out, b);
    let d = write_line(middle, out, c);
    write_line(reference, out, d)
}

// How many bytes the entries take.
fn entries_length(map: &[i32]) -> usize
    requires { length map.now ≤ 65535 }
    ensures { (result ≡ length (table_text map.now)) × (result ≤ 2097120) }
{
    let mut total: usize = 0;
    for number in map {
        total += entry_length(*number);
    }
    total
}

// The entries from `at` on; the next place.
fn write_entries(map: &[i32], out: &mut [u8], at: usize) -> usize
    requires { (length map.now ≤ 65535) × (at + length (table_text map.now) ≤ length out.old) }
    ensures value { result ≡ at + length (table_text map.now) }
    ensures out_after { out.new ≡ sets out.old at (table_text map.now) }
{
    let mut next = at;
    for number in map {
        next = write_entry(*number, out, next);
    }
    next
}

// How many bytes the whole text takes.
fn mapping_length(
    size: i32,
    first: i32,
    last: i32,
    middle: i32,
    reference: i32,
    hz: f64,
    octave: i32,
    map: &[i32],
) -> usize
    requires { (in_pitch hz ≡ true) × (length map.now ≤ 65535) }
    ensures { result ≡ length (mapping_text size first last middle reference hz octave (entries_of map.now)) }
{
    let keys = keys_length(size, first, last, middle, reference);
    keys + decimal_length(hz, 3) + line_length(octave) + entries_length(map)
}

// The whole text from the first byte on, and how many bytes it takes; 12 where it is longer than the lent bytes.
fn write_mapping(
    size: i32,
    first: i32,
    last: i32,
    middle: i32,
    reference: i32,
    hz: f64,
    octave: i32,
    map: &[i32],
    out: &mut [u8],
) -> Result<usize, Refusal>
    requires { (in_pitch hz ≡ true) × (length map.now ≤ 65535) }
    ensures value { outcome result ≡ text_length (fitted (length out.old) (mapping_text size first last middle reference hz octave (entries_of map.now))) }
    ensures out_after { out.new ≡ after (fitted (length out.old) (mapping_text size first last middle reference hz octave (entries_of map.now))) (λ t. t) out.old }
{
    let total = mapping_length(size, first, last, middle, reference, hz, octave, map);
    if out.len() < total {
        return Err(writing::NO_ROOM);
    }
    let sound = write_keys(size, first, last, middle, reference, out);
    let formal = write_decimal(hz, 3, out, sound);
    let entries = write_line(octave, out, formal);
    Ok(write_entries(map, out, entries))
}

// The text of a mapping with these entries; 11 where its last or its middle key is outside 32 bits, then 12.
fn write_held(kbm: Kbm, entries: &[i32], out: &mut [u8]) -> Result<usize, Refusal>
    requires { (in_pitch kbm.root.pitch.0 ≡ true) × (length entries.now ≤ 65535) }
    ensures value { outcome result ≡ text_length (held_text kbm (entries_of entries.now) (length out.old)) }
    ensures out_after { out.new ≡ after (held_text kbm (entries_of entries.now) (length out.old)) (λ t. t) out.old }
{
    let size = kbm.count as i32;
    let octave = kbm.octave as i32;
    let first = kbm.start.0;
    let root = kbm.root;
    let reference = root.reference.0;
    let hz = root.pitch.0;
    let last = integer_math::to_i32(integer_math::difference(kbm.end.0, 1))?;
    let middle = integer_math::to_i32(integer_math::sum(reference, root.offset))?;
    write_mapping(
        size, first, last, middle, reference, hz, octave, entries, out,
    )
}

// The text of a mapping into the lent bytes, and how many it takes. 10 for an unusable table or pitch, 11 where the last or
// the middle key is outside 32 bits, 12 where the text is longer than the bytes; then nothing is written.
pub fn export_kbm(kbm: Kbm, map: &[i32], out: &mut [u8]) -> Result<usize, Refusal>
    ensures value { outcome result ≡ text_length (export_of kbm map.now (length out.old)) }
    ensures out_after { out.new ≡ after (export_of kbm map.now (length out.old)) (λ t. t) out.old }
{
    let count = kbm.count as usize;
    let root = kbm.root;
    if kbm::is_table(map, count) && floats::is_in_pitch(root.pitch.0) {
        return write_held(kbm, &map[..count], out);
    }
    Err(writing::NOT_USABLE)
}
