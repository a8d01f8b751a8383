// Keyboard mappings for C: a lent table of entries, and beside it the mapping's numbers. An entry is a degree from -32768 to 32767, or -2147483648 for none.
#![tactic(auto)]

ghost use Rattle.std.specs.Prelude.{◌≡◌, Some, None};
ghost use Rattle.base.specs.Said.{outcome};
ghost use Rattle.key.specs.Keys.{key};
ghost use Rattle.kbm.specs.Root.{root_of};
ghost use Rattle.telbijan_answers.specs.Calls.{Answered, StoredPart};
ghost use Rattle.telbijan_mappings.specs.Calls.{ScaleDegreeOf, ScaleDegreeFromMiddle, ExportKbm, PushKey, BuildKbm, ReadKbm};
ghost use Rattle.telbijan_mappings.specs.Mappings.{root_with, mapping_with, octave_with, builder_with, pushing_with};

use base::Refusal;
use kbm::{Kbm, KbmRoot};
use kbm_build::KbmBuilder;
use key::PianoKey;
use pitch::Pitch;

// The root of its numbers.
pub fn root_with(reference: i32, hz: f64, offset: i32) -> KbmRoot
    ensures { result ≡ root_with reference hz offset }
{
    KbmRoot {
        reference: PianoKey(reference),
        pitch: Pitch(hz),
        offset,
    }
}

// The mapping of its numbers.
pub fn mapping_with(
    count: u16,
    start: i32,
    end: i32,
    reference: i32,
    hz: f64,
    offset: i32,
    octave: i16,
) -> Kbm
    ensures { result ≡ mapping_with count start end reference hz offset octave }
{
    Kbm {
        root: root_with(reference, hz, offset),
        start: PianoKey(start),
        end: PianoKey(end),
        octave,
        count,
    }
}

// The degree of a key, stored: 10 for a table that cannot be used, 16 outside start..end (end is outside, and every key where end is
// not above start), 11 where the distance from the reference key passes 32 bits, 17 unmapped, 11 where the degree does. The pitch plays
// no part: any `hz` will do.
pub fn telbijan_scale_degree_of(
    map: &[i32],
    count: u16,
    start: i32,
    end: i32,
    reference: i32,
    hz: f64,
    offset: i32,
    octave: i16,
    number: i32,
    degree: &mut i32,
) -> u64
    ensures { ScaleDegreeOf map.now (mapping_with count start end reference hz offset octave) number
        degree.old result degree.new }
{
    let kbm = mapping_with(count, start, end, reference, hz, offset, octave);
    telbijan_answers::store_degree(kbm::scale_degree_of(kbm, map, PianoKey(number)), degree)
}

// The degree of a key counted from the middle key, as in Scala, stored. The middle key is the exact sum of reference and offset, which may
// lie outside 32 bits. 10 for a table that cannot be used, 16 outside start..end, 11 where the distance from the middle key passes 32 bits,
// 17 unmapped, 11 where the degree does. The pitch plays no part: any `hz` will do.
pub fn telbijan_scale_degree_from_middle(
    map: &[i32],
    count: u16,
    start: i32,
    end: i32,
    reference: i32,
    hz: f64,
    offset: i32,
    octave: i16,
    number: i32,
    degree: &mut i32,
) -> u64
    ensures { ScaleDegreeFromMiddle map.now (mapping_with count start end reference hz offset octave) number
        degree.old result degree.new }
{
    let kbm = mapping_with(count, start, end, reference, hz, offset, octave);
    telbijan_answers::store_degree(
        kbm::scale_degree_from_middle(kbm, map, PianoKey(number)),
        degree,
    )
}

// The text of a mapping, written into the lent bytes; the number of bytes is stored, and bytes behind it keep their values. 10 for
// a table or pitch that cannot be used, 11 where the last or the middle key passes 32 bits, 12 where the text is longer than
// the bytes. A mapping whose last key is below its first is written as any other; a read refuses that text (25).
pub fn telbijan_export_kbm(
    map: &[i32],
    count: u16,
    start: i32,
    end: i32,
    reference: i32,
    hz: f64,
    offset: i32,
    octave: i16,
    out: &mut [u8],
    written: &mut usize,
) -> u64
    ensures { ExportKbm map.now (mapping_with count start end reference hz offset octave)
        out.old written.old result out.new written.new }
{
    let kbm = mapping_with(count, start, end, reference, hz, offset, octave);
    telbijan_answers::store(kbm_write::export_kbm(kbm, map, out), written)
}

// Whether a mapping's root can be used: 10 for a pitch outside 2^-10..2^20.
pub fn telbijan_kbm_root(reference: i32, hz: f64, offset: i32) -> u64
    ensures { Answered (root_of (key reference) (record { 0 = hz }) offset) result }
{
    telbijan_answers::answered(KbmRoot::new(PianoKey(reference), Pitch(hz), offset))
}

// A builder that only pushes.
fn pushing(room: usize, count: usize) -> KbmBuilder
    ensures { result ≡ pushing_with room count }
{
    KbmBuilder {
        root: root_with(0, 1.0, 0),
        start: PianoKey(0),
        end: PianoKey(128),
        octave: None,
        room,
        count,
    }
}

// Stores the count of a builder.
fn store_count(answer: Result<KbmBuilder, Refusal>, after: &mut usize) -> u64
    ensures { StoredPart (λ b. b.count) (outcome answer) after.old result after.new }
{
    telbijan_answers::store(answer.map(|builder| builder.count), after)
}

// One mapped entry more, at place `count` of a table of `room` places; the new count is stored. 10 for a room or count that
// is not the table's, 12 with no place left.
pub fn telbijan_push_mapped_key(
    map: &mut [i32],
    room: usize,
    count: usize,
    degree: i16,
    after: &mut usize,
) -> u64
    ensures { PushKey (Some degree) map.old room count after.old result map.new after.new }
{
    store_count(pushing(room, count).push_mapped_key(map, degree), after)
}

// One unmapped entry more, in the same way.
pub fn telbijan_push_unmapped_key(
    map: &mut [i32],
    room: usize,
    count: usize,
    after: &mut usize,
) -> u64
    ensures { PushKey None map.old room count after.old result map.new after.new }
{
    store_count(pushing(room, count).push_unmapped_key(map), after)
}

// The mapping of the entries that were pushed: its count and its formal octave are stored. `given` says whether there is a formal
// octave, `octave`; with none and no entries 0 is stored. 10 for a state, table or pitch that cannot be used, 15 for entries
// and no formal octave, 25 where `end` is not above `start`, so that the last key is below the first, 13 over 65,535 entries.
pub fn telbijan_build_kbm(
    map: &[i32],
    room: usize,
    count: usize,
    start: i32,
    end: i32,
    reference: i32,
    hz: f64,
    offset: i32,
    given: bool,
    octave: i16,
    entries: &mut u16,
    formal: &mut i16,
) -> u64
    ensures { BuildKbm map.now (builder_with room count start end reference hz offset (octave_with given octave))
        entries.old formal.old result entries.new formal.new }
{
    let builder = KbmBuilder {
        root: root_with(reference, hz, offset),
        start: PianoKey(start),
        end: PianoKey(end),
        octave: given.then_some(octave),
        room,
        count,
    };
    match builder.build(map) {
        Ok(kbm) => {
            *entries = kbm.count;
            *formal = kbm.octave;
            0
        }
        Err(refusal) => telbijan_answers::code_of(refusal),
    }
}

// A mapping file, read: its entries go to the first places of the table, the places behind them keep their values, and its numbers
// are stored. The refusals are 1, 3, 7, 8, 9, 10, 11, 12 and 25 with their line; 2 with which required line is missing (1 size, 2
// first key, 3 last key, 4 middle key, 5 reference key, 6 pitch, 7 formal octave); 12, 13 and 14 with 0, after the last line. 25 is for
// a last key below the first, at the last key's line, after 3 and 11 there: what is read has at least one key in its range.
pub fn telbijan_read_kbm(
    text: &[u8],
    map: &mut [i32],
    count: &mut u16,
    start: &mut i32,
    end: &mut i32,
    reference: &mut i32,
    hz: &mut f64,
    offset: &mut i32,
    octave: &mut i16,
) -> u64
    ensures { ReadKbm text.now map.old
        (mapping_with count.old start.old end.old reference.old hz.old
        offset.old octave.old)
        result map.new
        (mapping_with count.new start.new end.new reference.new hz.new
        offset.new octave.new) }
{
    match kbm_read::read_kbm(text, map) {
        Ok(kbm) => {
            *count = kbm.count;
            *start = kbm.start.0;
            *end = kbm.end.0;
            *reference = kbm.root.reference.0;
            *hz = kbm.root.pitch.0;
            *offset = kbm.root.offset;
            *octave = kbm.octave;
            0
        }
        Err(refusal) => telbijan_answers::code_of(refusal),
    }
}
