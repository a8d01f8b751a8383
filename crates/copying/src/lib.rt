// What the program `kbmcopy` does between reading and writing: a mapping's text to its export's, or to the line that refuses it.
// Document 01, "Writing".
#![tactic(auto)]

ghost use Rattle.std.specs.Prelude.{◌≡◌, ◌^◌, ◌≤◌, ◌<◌, length, take};
ghost use Rattle.std.proofs.lemmas.List.Edits.{sets};
ghost use Rattle.base.specs.Numbers.{number_of};
ghost use Rattle.base.specs.Said.{gives};
ghost use Rattle.base.specs.Tables.{over};
ghost use Rattle.kbm.specs.Table.{table_of};
ghost use Rattle.kbm_write.specs.Export.{export_of, export_text};
ghost use Rattle.copying.specs.Copy.{word_text, refused_text, copy_text, printed};

use base::Reason;
use kbm::Kbm;
use writing::write_number;

// The longest text that is read: "input over 65,536 bytes gives `refused 12 0`".
const LONGEST: usize = 65536;

// One byte more, so that a longer one is seen.
pub const INPUT: usize = 65537;

// "It has 8,192 entry places".
const PLACES: usize = 8192;

// The longest export of so many entries: 73 bytes and 7 for each.
pub const OUTPUT: usize = 57417;

// `refused ` from the first byte on; the next place.
fn write_word(out: &mut [u8]) -> usize
    requires { 8 ≤ length out.old }
    ensures value { result ≡ 8 }
    ensures out_after { out.new ≡ sets out.old 0 word_text }
{
    out[0] = b'r';
    out[1] = b'e';
    out[2] = b'f';
    out[3] = b'u';
    out[4] = b's';
    out[5] = b'e';
    out[6] = b'd';
    out[7] = b' ';
    8
}

// The line of a refusal from the first byte on; the next place.
fn write_refusal(reason: Reason, detail: usize, out: &mut [u8]) -> usize
    requires { (detail < 2 ^ 32) × (72 ≤ length out.old) }
    ensures value { result ≡ length (refused_text (number_of reason) detail) }
    ensures out_after { out.new ≡ over out.old (refused_text (number_of reason) detail) }
{
    let number_at = write_word(out);
    let detail_at = write_number(reason.number(), b' ', out, number_at);
    write_number(detail as u32, b'\n', out, detail_at)
}

// The export of a mapping that can be written, in bytes that hold it; how many it takes.
fn write_export(mapping: Kbm, map: &[i32], out: &mut [u8]) -> usize
    requires { export_of mapping map.now (length out.old) ≡ gives (export_text mapping (table_of mapping.count map.now)) }
    ensures value { result ≡ length (export_text mapping (table_of mapping.count map.now)) }
    ensures out_after { out.new ≡ over out.old (export_text mapping (table_of mapping.count map.now)) }
{
    match kbm_write::export_kbm(mapping, map, out) {
        Ok(n) => n,
        Err(_) => 0,
    }
}

// What is printed for a text that is read, from the first byte of `out` on, and how many bytes it takes; its entries pass through
// `map`.
fn print_text(text: &[u8], map: &mut [i32], out: &mut [u8]) -> usize
    requires { (length text.now ≤ 65537) × (length map.old ≡ 8192) × (length out.old ≡ 57417) }
    ensures value { (result ≡ length (copy_text text.now)) × (result ≤ 57417) }
    ensures out_after { out.new ≡ over out.old (copy_text text.now) }
{
    match kbm_read::read_kbm(text, map) {
        Ok(mapping) => write_export(mapping, map, out),
        Err(refusal) => write_refusal(refusal.reason, refusal.detail, out),
    }
}

// What is printed for the first n bytes of `input`, from the first byte of `out` on, and how many bytes it takes: the export of the
// mapping that they are, or the line of the refusal; 12 for more than 65,536.
pub fn print_copy(input: &[u8; INPUT], n: usize, out: &mut [u8; OUTPUT]) -> usize
    ensures value { (result ≡ length (printed (take n input.now))) × (result ≤ 57417) }
    ensures out_after { out.new ≡ over out.old (printed (take n input.now)) }
{
    let bytes: &[u8] = input;
    if LONGEST < n {
        return write_refusal(Reason::NoRoom, 0, out);
    }
    let mut map = [0i32; PLACES];
    print_text(&bytes[..n], &mut map, out)
}
