// Keyboard mappings for C: a lent table of entries, and beside it the mapping's numbers. An entry is a degree from -32768 to 32767, or -2147483648 for none.
#![tactic(auto)]

ghost use Rattle.std.specs.Prelude.{Some, None};
ghost use Rattle.key.specs.Keys.{key};
ghost use Rattle.kbm.specs.Root.{root_of};
ghost use Rattle.telbijan_answers.specs.Calls.{Answered};
ghost use Rattle.telbijan_mappings.specs.Calls.{ScaleDegreeOf, ScaleDegreeFromMiddle, ExportKbm, PushKey, BuildKbm, ReadKbm};
ghost use Rattle.telbijan_mappings.specs.Mappings.{mapping_with, octave_with, builder_with};

// The degree of a key, stored: 10 for a table that cannot be used, 16 outside start..end (end is outside, and every key where end is
// not above start), 11 where the distance from the reference key passes 32 bits, 17 unmapped, 11 where the degree does. The pitch plays
// no part: any `hz` will do.
#[unsafe(no_mangle)]
pub extern "C" fn telbijan_scale_degree_of(
    map: &[i32],
    count: u16,
    start: i32,
    end: i32,
    reference: i32,
    hz: f64,
    offset: i32,
    octave: i16,
    number: i32,
    degree: &mut i32,
) -> u64
    ensures { ScaleDegreeOf map.now (mapping_with count start end reference hz offset octave) number
        degree.old result degree.new }
{
    telbijan_mappings::telbijan_scale_degree_of(
        map, count, start, end, reference, hz, offset, octave, number, degree,
    )
}

// The degree of a key counted from the middle key, as in Scala, stored. The middle key is the exact sum of reference and offset, which may
// lie outside 32 bits. 10 for a table that cannot be used, 16 outside start..end, 11 where the distance from the middle key passes 32 bits,
// 17 unmapped, 11 where the degree does. The pitch plays no part: any `hz` will do.
#[unsafe(no_mangle)]
pub extern "C" fn telbijan_scale_degree_from_middle(
    map: &[i32],
    count: u16,
    start: i32,
    end: i32,
    reference: i32,
    hz: f64,
    offset: i32,
    octave: i16,
    number: i32,
    degree: &mut i32,
) -> u64
    ensures { ScaleDegreeFromMiddle map.now (mapping_with count start end reference hz offset octave) number
        degree.old result degree.new }
{
    telbijan_mappings::telbijan_scale_degree_from_middle(
        map, count, start, end, reference, hz, offset, octave, number, degree,
    )
}

// The text of a mapping, written into the lent bytes; the number of bytes is stored, and bytes behind it keep their values. 10 for
// a table or pitch that cannot be used, 11 where the last or the middle key passes 32 bits, 12 where the text is longer than
// the bytes. A mapping whose last key is below its first is written as any other; a read refuses that text (25).
#[unsafe(no_mangle)]
pub extern "C" fn telbijan_export_kbm(
    map: &[i32],
    count: u16,
    start: i32,
    end: i32,
    reference: i32,
    hz: f64,
    offset: i32,
    octave: i16,
    out: &mut [u8],
    written: &mut usize,
) -> u64
    ensures { ExportKbm map.now (mapping_with count start end reference hz offset octave)
        out.old written.old result out.new written.new }
{
    telbijan_mappings::telbijan_export_kbm(
        map, count, start, end, reference, hz, offset, octave, out, written,
    )
}

// Whether a mapping's root can be used: 10 for a pitch outside 2^-10..2^20.
#[unsafe(no_mangle)]
pub extern "C" fn telbijan_kbm_root(reference: i32, hz: f64, offset: i32) -> u64
    ensures { Answered (root_of (key reference) (record { 0 = hz }) offset) result }
{
    telbijan_mappings::telbijan_kbm_root(reference, hz, offset)
}

// One mapped entry more, at place `count` of a table of `room` places; the new count is stored. 10 for a room or count that
// is not the table's, 12 with no place left.
#[unsafe(no_mangle)]
pub extern "C" fn telbijan_push_mapped_key(
    map: &mut [i32],
    room: usize,
    count: usize,
    degree: i16,
    after: &mut usize,
) -> u64
    ensures { PushKey (Some degree) map.old room count after.old result map.new after.new }
{
    telbijan_mappings::telbijan_push_mapped_key(map, room, count, degree, after)
}

// One unmapped entry more, in the same way.
#[unsafe(no_mangle)]
pub extern "C" fn telbijan_push_unmapped_key(
    map: &mut [i32],
    room: usize,
    count: usize,
    after: &mut usize,
) -> u64
    ensures { PushKey None map.old room count after.old result map.new after.new }
{
    telbijan_mappings::telbijan_push_unmapped_key(map, room, count, after)
}

// The mapping of the entries that were pushed: its count and its formal octave are stored. `given` says whether there is a formal
// octave, `octave`; with none and no entries 0 is stored. 10 for a state, table or pitch that cannot be used, 15 for entries
// and no formal octave, 25 where `end` is not above `start`, so that the last key is below the first, 13 over 65,535 entries.
#[unsafe(no_mangle)]
pub extern "C" fn telbijan_build_kbm(
    map: &[i32],
    room: usize,
    count: usize,
    start: i32,
    end: i32,
    reference: i32,
    hz: f64,
    offset: i32,
    given: bool,
    octave: i16,
    entries: &mut u16,
    formal: &mut i16,
) -> u64
    ensures { BuildKbm map.now (builder_with room count start end reference hz offset (octave_with given octave))
        entries.old formal.old result entries.new formal.new }
{
    telbijan_mappings::telbijan_build_kbm(
        map, room, count, start, end, reference, hz, offset, given, octave, entries, formal,
    )
}

// A mapping file, read: its entries go to the first places of the table, the places behind them keep their values, and its numbers
// are stored. The refusals are 1, 3, 7, 8, 9, 10, 11, 12 and 25 with their line; 2 with which required line is missing (1 size, 2
// first key, 3 last key, 4 middle key, 5 reference key, 6 pitch, 7 formal octave); 12, 13 and 14 with 0, after the last line. 25 is for
// a last key below the first, at the last key's line, after 3 and 11 there: what is read has at least one key in its range.
#[unsafe(no_mangle)]
pub extern "C" fn telbijan_read_kbm(
    text: &[u8],
    map: &mut [i32],
    count: &mut u16,
    start: &mut i32,
    end: &mut i32,
    reference: &mut i32,
    hz: &mut f64,
    offset: &mut i32,
    octave: &mut i16,
) -> u64
    ensures { ReadKbm text.now map.old
        (mapping_with count.old start.old end.old reference.old hz.old
        offset.old octave.old)
        result map.new
        (mapping_with count.new start.new end.new reference.new hz.new
        offset.new octave.new) }
{
    telbijan_mappings::telbijan_read_kbm(
        text, map, count, start, end, reference, hz, offset, octave,
    )
}
