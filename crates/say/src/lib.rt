// Answers to frozen questions, as the programs that replay them write them to a writer; and a reader read whole, as these and the
// programs `kbmcopy` and `keytable` read. Each field is written after a space: integers in decimal, a float as 16 hex digits of its bits or
// `nan`, a refusal as `!NUMBER DETAIL`, bytes as hex digits or `-` for none.
#![tactic(auto)]

ghost use Rattle.std.specs.Prelude.{◌≡◌, ◌∷◌, [], ◌≤◌, pos, ◌<◌, take, length, IfErr, IfOk, OnOk, slice_index, slice_index_or};
ghost use Rattle.std.specs.Io.KnownBytes.{Appends, Consumes, IsAtEnd};
ghost use lib.Ieee.{nan};
ghost use Rattle.base.specs.Numbers.{number_of};
ghost use Rattle.text.specs.Cut.{lines};
ghost use Rattle.say.specs.Called.{CalledOnce, AnswersLines};
ghost use Rattle.say.specs.Said.{name_text, word_field, natural_field, int_field, refusal_field, float_field, two_digits, bytes_field, table_field, lent_item, item_fields, lent_entry, entry_fields, place_fields, places_fields};

use base::{Refusal, Refuses};
use std::io;
use std::io::{Read, Write};
use text::lines::next_line;

// Reads until the lent bytes are full or the reader ends, and how many bytes it read.
pub fn read_all<R: Read>(from: &mut R, bytes: &mut [u8]) -> io::Result<usize>
    ensures bound { IfOk result (λ n. n ≤ length bytes.new) }
    ensures bytes { IfOk result (λ n. Consumes (R.remaining from.old) (R.remaining from.new) (take n bytes.new)) }
    ensures end { IfOk result (λ n. n < length bytes.new → IsAtEnd (R.remaining from.new)) }
{
    let mut n = 0;
    // A read gives as many bytes as it has, so that the steps vary.
    while n < bytes.len() {
        let more = from.read(&mut bytes[n..])?;
        if more == 0 {
            break;
        }
        n += more;
    }
    Ok(n)
}

// The name that begins an answer: that of a call, or `?` where there is none.
pub fn name<W: Write>(out: &mut W, name: &[u8]) -> io::Result<()>
    ensures { OnOk result (Appends (W.contents out.old) (W.contents out.new) (name_text name.now)) }
{
    if name.len() == 0 {
        out.write_all(b"?")
    } else {
        out.write_all(name)
    }
}

// The end of an answer.
pub fn end<W: Write>(out: &mut W) -> io::Result<()>
    ensures { OnOk result (Appends (W.contents out.old) (W.contents out.new) (10 ∷ [])) }
{
    out.write_all(b"\n")
}

// A word.
pub fn word<W: Write>(out: &mut W, word: &[u8]) -> io::Result<()>
    ensures { OnOk result (Appends (W.contents out.old) (W.contents out.new) (word_field word.now)) }
{
    out.write_all(b" ")?;
    out.write_all(word)
}

// A number of things.
pub fn size<W: Write>(out: &mut W, n: usize) -> io::Result<()>
    ensures { OnOk result (Appends (W.contents out.old) (W.contents out.new) (natural_field n)) }
{
    write!(out, " {n}")
}

// A natural number.
pub fn natural<W: Write>(out: &mut W, n: u32) -> io::Result<()>
    ensures { OnOk result (Appends (W.contents out.old) (W.contents out.new) (natural_field n)) }
{
    size(out, n as usize)
}

// An integer.
pub fn int<W: Write>(out: &mut W, z: i32) -> io::Result<()>
    ensures { OnOk result (Appends (W.contents out.old) (W.contents out.new) (int_field z)) }
{
    write!(out, " {z}")
}

// A short integer.
pub fn short<W: Write>(out: &mut W, z: i16) -> io::Result<()>
    ensures { OnOk result (Appends (W.contents out.old) (W.contents out.new) (int_field z)) }
{
    int(out, i32::from(z))
}

// A float: 16 hex digits of its bits, or `nan`.
pub fn float<W: Write>(out: &mut W, x: f64) -> io::Result<()>
    ensures { OnOk result (Appends (W.contents out.old) (W.contents out.new) (float_field x)) }
{
    if x == x {
        let n = f64::to_bits(x);
        write!(out, " {n:016x}")
    } else {
        out.write_all(b" nan")
    }
}

// A refusal: its number after `!`, and its detail.
pub fn refusal<W: Write, R: Refuses>(out: &mut W, refusal: R) -> io::Result<()>
    ensures { OnOk result (Appends (W.contents out.old) (W.contents out.new) (refusal_field (R.number refusal) (R.detail refusal))) }
{
    let number = refusal.number();
    write!(out, " !{number}")?;
    size(out, refusal.detail())
}

// What was answered: a value, as `value` writes it, or the refusal.
pub fn answer<W: Write, T, F: FnOnce(&mut W, T) -> io::Result<()>>(
    out: &mut W,
    answer: Result<T, Refusal>,
    value: F,
) -> io::Result<()>
    requires { F.IsAlwaysCallable value }
    ensures value { IfOk answer (λ x. CalledOnce F.FnOnce value out.old x result out.new) }
    ensures refusal { IfErr answer (λ r. OnOk result
        (Appends (W.contents out.old) (W.contents out.new) (refusal_field (number_of r.reason) r.detail))) }
{
    match answer {
        Ok(x) => value(out, x),
        Err(reason) => refusal(out, reason),
    }
}

// The answer of each line of a list, as `answer` writes it, and a line end after each.
pub fn answers<W: Write, F: FnMut(&mut W, &[u8]) -> io::Result<()>>(
    out: &mut W,
    list: &[u8],
    mut answer: F,
) -> io::Result<()>
    requires { F.IsAlwaysCallable answer }
    ensures { OnOk result (AnswersLines F.FnMut W.contents answer out.old (lines list.now) out.new) }
{
    let mut at = 0;
    // A line has as many bytes as it has, so that the steps vary.
    while at < list.len() {
        let ends = next_line(list, at);
        answer(out, &list[at..ends.end])?;
        end(out)?;
        at = ends.next;
    }
    Ok(())
}

// The two hex digits of a byte.
fn digits<W: Write>(out: &mut W, b: u8) -> io::Result<()>
    ensures { OnOk result (Appends (W.contents out.old) (W.contents out.new) (two_digits b)) }
{
    write!(out, "{b:02x}")
}

// Bytes: two hex digits for each, or `-` for none.
pub fn bytes<W: Write>(out: &mut W, bytes: &[u8]) -> io::Result<()>
    ensures { OnOk result (Appends (W.contents out.old) (W.contents out.new) (bytes_field bytes.now)) }
{
    if bytes.len() == 0 {
        return out.write_all(b" -");
    }
    out.write_all(b" ")?;
    for b in bytes {
        digits(out, *b)?;
    }
    Ok(())
}

// The places of a table, after their number.
pub fn table<W: Write>(out: &mut W, map: &[i32]) -> io::Result<()>
    ensures { OnOk result (Appends (W.contents out.old) (W.contents out.new) (table_field map.now)) }
{
    size(out, map.len())?;
    for z in map {
        int(out, *z)?;
    }
    Ok(())
}

// Whether an item is as lent columns hold it.
fn is_lent_item(kind: u8, cents: f64, numer: u32, denom: u32) -> bool
    ensures { result ≡ lent_item kind cents numer denom }
{
    kind == 9 && cents == 2.0 && numer == 7 && denom == 7
}

// A scale's item; `.` where it is as lent.
fn item<W: Write>(out: &mut W, kind: u8, cents: f64, numer: u32, denom: u32) -> io::Result<()>
    ensures { OnOk result (Appends (W.contents out.old) (W.contents out.new) (item_fields kind cents numer denom)) }
{
    if is_lent_item(kind, cents, numer, denom) {
        word(out, b".")
    } else {
        natural(out, u32::from(kind))?;
        float(out, cents)?;
        natural(out, numer)?;
        natural(out, denom)
    }
}

// Whether an entry is as lent columns hold it.
fn is_lent_entry(place: u32, ratio: f64, wraps: i32) -> bool
    ensures { result ≡ lent_entry place ratio wraps }
{
    place == 8 && ratio == 0.5 && wraps == 8
}

// An entry of a sorted list; `.` where it is as lent.
pub fn entry<W: Write>(out: &mut W, place: u32, ratio: f64, wraps: i32) -> io::Result<()>
    ensures { OnOk result (Appends (W.contents out.old) (W.contents out.new) (entry_fields place ratio wraps)) }
{
    if is_lent_entry(place, ratio, wraps) {
        word(out, b".")
    } else {
        natural(out, place)?;
        float(out, ratio)?;
        int(out, wraps)
    }
}

// Seven lent columns of a scale, 16 places each: the four of its items, and the three of its sorted list.
#[derive(Clone, Copy)]
pub struct Columns {
    pub kind: [u8; 16],
    pub cents: [f64; 16],
    pub numer: [u32; 16],
    pub denom: [u32; 16],
    pub place: [u32; 16],
    pub ratio: [f64; 16],
    pub wraps: [i32; 16],
}

// The columns as they are lent to a call.
pub const LENT: Columns = Columns {
    kind: [9; 16],
    cents: [2.0; 16],
    numer: [7; 16],
    denom: [7; 16],
    place: [8; 16],
    ratio: [0.5; 16],
    wraps: [8; 16],
};

// All places of the columns: the item of each, and the entry.
pub fn places<W: Write>(out: &mut W, columns: &Columns) -> io::Result<()>
    ensures { OnOk result (Appends (W.contents out.old) (W.contents out.new)
        (places_fields columns.now.kind columns.now.cents columns.now.numer columns.now.denom
        columns.now.place columns.now.ratio columns.now.wraps 16)) }
{
    // By the place's number, which goes to seven columns.
    for k in 0..16 {
        place(out, columns, k)?;
    }
    Ok(())
}

// A place of the columns: the item, and the entry.
#[tactic(auto, unfolding(crate::specs::Said::place_fields))]
fn place<W: Write>(out: &mut W, columns: &Columns, k: usize) -> io::Result<()>
    requires { k < 16 }
    ensures { OnOk result (Appends (W.contents out.old) (W.contents out.new)
        (place_fields (slice_index columns.now.kind k) (slice_index_or columns.now.cents k nan) (slice_index columns.now.numer k)
        (slice_index columns.now.denom k) (slice_index columns.now.place k) (slice_index_or columns.now.ratio k nan)
        (slice_index_or columns.now.wraps k (pos 0)))) }
{
    item(
        out,
        columns.kind[k],
        columns.cents[k],
        columns.numer[k],
        columns.denom[k],
    )?;
    entry(out, columns.place[k], columns.ratio[k], columns.wraps[k])
}
