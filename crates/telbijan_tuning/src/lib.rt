// Pitches for C: of degrees and keys, over a scale's lent columns, and a root or a mapping beside them.
#![tactic(auto)]

pub mod middle;
pub mod searches;

ghost use Rattle.key.specs.Keys.{key};
ghost use Rattle.telbijan_answers.specs.Calls.{Stored};
ghost use Rattle.telbijan_answers.specs.Lent.{columns_before, list_before};
ghost use Rattle.telbijan_mappings.specs.Mappings.{root_with, mapping_with};
ghost use Rattle.telbijan_tuning.specs.Calls.{PitchesOf};
ghost use Rattle.telbijan_tuning.specs.Tunings.{period_said, relative_said, sorted_relative_said, pitch_said, key_pitch_said};
ghost use Rattle.telbijan_tuning.specs.Tunings.{sorted_pitch_said, maybe_pitch_said, maybe_degree_pitch_said};

use key::{Degree, PianoKey};
use scl::{ItemColumns, Scl};
use sorted::ListColumns;

// The period of a scale, the ratio of its last item, stored; of a scale without items that of place 0. 10 for items that cannot be used.
pub fn telbijan_period(
    kind: &[u8],
    cents: &[f64],
    numer: &[u32],
    denom: &[u32],
    count: u16,
    period: &mut f64,
) -> u64
    ensures { Stored (period_said count (columns_before kind cents numer denom)) period.old result period.new }
{
    let items = ItemColumns::new(kind, cents, numer, denom);
    let scl = Scl { count };
    telbijan_answers::store_ratio(relative::period(scl, &items), period)
}

// The ratio of a degree to degree 0, stored: 10 for items that cannot be used, 18 where the ratio lies outside 2^-900..2^900.
pub fn telbijan_relative_pitch_of(
    kind: &[u8],
    cents: &[f64],
    numer: &[u32],
    denom: &[u32],
    count: u16,
    degree: i32,
    relative: &mut f64,
) -> u64
    ensures { Stored (relative_said count (columns_before kind cents numer denom) degree)
        relative.old result relative.new }
{
    let items = ItemColumns::new(kind, cents, numer, denom);
    let scl = Scl { count };
    telbijan_answers::store_ratio(
        relative::relative_pitch_of(scl, &items, Degree(degree)),
        relative,
    )
}

// The same of a degree in ascending order: 10 for items or a list that cannot be used, 18.
pub fn telbijan_sorted_relative_pitch_of(
    kind: &[u8],
    cents: &[f64],
    numer: &[u32],
    denom: &[u32],
    place: &[u32],
    ratio: &[f64],
    wraps: &[i32],
    count: u16,
    degree: i32,
    relative: &mut f64,
) -> u64
    ensures { Stored (sorted_relative_said count (columns_before kind cents numer denom) (list_before place ratio wraps) degree)
        relative.old result relative.new }
{
    let items = ItemColumns::new(kind, cents, numer, denom);
    let list = ListColumns::new(place, ratio, wraps);
    let scl = Scl { count };
    telbijan_answers::store_ratio(
        relative::sorted_relative_pitch_of(scl, &items, &list, Degree(degree)),
        relative,
    )
}

// The pitch of a degree in Hz, stored: 10 for items that cannot be used or a root's pitch outside 2^-10..2^20, 11 for the root offset
// -2147483648, 18 where a pitch or ratio lies outside 2^-900..2^900.
pub fn telbijan_pitch_of(
    kind: &[u8],
    cents: &[f64],
    numer: &[u32],
    denom: &[u32],
    count: u16,
    reference: i32,
    hz: f64,
    offset: i32,
    degree: i32,
    pitch: &mut f64,
) -> u64
    ensures { Stored (pitch_said count (columns_before kind cents numer denom) (root_with reference hz offset) degree)
        pitch.old result pitch.new }
{
    let items = ItemColumns::new(kind, cents, numer, denom);
    let scl = Scl { count };
    let root = telbijan_mappings::root_with(reference, hz, offset);
    telbijan_answers::store_pitch(tuning::pitch_of(scl, &items, root, Degree(degree)), pitch)
}

// The pitch of a key, whose degree is its distance from the reference key: 10, 11 where the distance passes 32 bits, 11 for the root
// offset -2147483648, 18.
pub fn telbijan_pitch_of_key(
    kind: &[u8],
    cents: &[f64],
    numer: &[u32],
    denom: &[u32],
    count: u16,
    reference: i32,
    hz: f64,
    offset: i32,
    number: i32,
    pitch: &mut f64,
) -> u64
    ensures { Stored (key_pitch_said count (columns_before kind cents numer denom) (root_with reference hz offset) (key number))
        pitch.old result pitch.new }
{
    let items = ItemColumns::new(kind, cents, numer, denom);
    let scl = Scl { count };
    let root = telbijan_mappings::root_with(reference, hz, offset);
    telbijan_answers::store_pitch(
        tuning::pitch_of_key(scl, &items, root, PianoKey(number)),
        pitch,
    )
}

// The pitch of a degree in ascending order: 10 for the list too, 11 for the root offset -2147483648, 18.
pub fn telbijan_sorted_pitch_of(
    kind: &[u8],
    cents: &[f64],
    numer: &[u32],
    denom: &[u32],
    place: &[u32],
    ratio: &[f64],
    wraps: &[i32],
    count: u16,
    reference: i32,
    hz: f64,
    offset: i32,
    degree: i32,
    pitch: &mut f64,
) -> u64
    ensures { Stored (sorted_pitch_said count (columns_before kind cents numer denom) (list_before place ratio wraps)
        (root_with reference hz offset) degree) pitch.old result pitch.new }
{
    let items = ItemColumns::new(kind, cents, numer, denom);
    let list = ListColumns::new(place, ratio, wraps);
    let scl = Scl { count };
    let root = telbijan_mappings::root_with(reference, hz, offset);
    telbijan_answers::store_pitch(
        tuning::sorted_pitch_of(scl, &items, &list, root, Degree(degree)),
        pitch,
    )
}

// The pitch of a key of a mapping, stored: 10 for tables or a root's pitch that cannot be used, 16 outside start..end, 11 where the
// distance from the reference key passes 32 bits, 17 unmapped, 11 where the degree does, 11 for the root offset -2147483648, 18.
pub fn telbijan_maybe_pitch_of(
    kind: &[u8],
    cents: &[f64],
    numer: &[u32],
    denom: &[u32],
    count: u16,
    map: &[i32],
    size: u16,
    start: i32,
    end: i32,
    reference: i32,
    hz: f64,
    offset: i32,
    octave: i16,
    number: i32,
    pitch: &mut f64,
) -> u64
    ensures { Stored (maybe_pitch_said count (columns_before kind cents numer denom)
        (mapping_with size start end reference hz offset octave) map.now (key number))
        pitch.old result pitch.new }
{
    let items = ItemColumns::new(kind, cents, numer, denom);
    let scl = Scl { count };
    let kbm = telbijan_mappings::mapping_with(size, start, end, reference, hz, offset, octave);
    telbijan_answers::store_pitch(
        tuning::maybe_pitch_of(scl, &items, kbm, map, PianoKey(number)),
        pitch,
    )
}

// The same of the key so many steps above the reference key: 11 where that key passes 32 bits, after 10.
pub fn telbijan_maybe_pitch_of_degree(
    kind: &[u8],
    cents: &[f64],
    numer: &[u32],
    denom: &[u32],
    count: u16,
    map: &[i32],
    size: u16,
    start: i32,
    end: i32,
    reference: i32,
    hz: f64,
    offset: i32,
    octave: i16,
    degree: i32,
    pitch: &mut f64,
) -> u64
    ensures { Stored (maybe_degree_pitch_said count (columns_before kind cents numer denom)
        (mapping_with size start end reference hz offset octave) map.now degree)
        pitch.old result pitch.new }
{
    let items = ItemColumns::new(kind, cents, numer, denom);
    let scl = Scl { count };
    let kbm = telbijan_mappings::mapping_with(size, start, end, reference, hz, offset, octave);
    telbijan_answers::store_pitch(
        tuning::maybe_pitch_of_degree(scl, &items, kbm, map, Degree(degree)),
        pitch,
    )
}

// The pitches of `keys` keys of a mapping, from key `first` on, and beside each its refusal's number, 0 for a pitch: 10 for tables or a
// root's pitch that cannot be used, 12 where a slice is shorter than the run. Else each key answers as telbijan_maybe_pitch_of does, and
// 11 where there is no such key; a refused key's pitch stays as it was, and so do the places behind the run. The tables are tested once.
pub fn telbijan_pitches_of(
    kind: &[u8],
    cents: &[f64],
    numer: &[u32],
    denom: &[u32],
    count: u16,
    map: &[i32],
    size: u16,
    start: i32,
    end: i32,
    reference: i32,
    hz: f64,
    offset: i32,
    octave: i16,
    first: i32,
    keys: u32,
    pitches: &mut [f64],
    numbers: &mut [u32],
) -> u64
    ensures { PitchesOf count (columns_before kind cents numer denom) (mapping_with size start end reference hz offset octave)
        map.now first keys pitches.old numbers.old result pitches.new numbers.new }
{
    let items = ItemColumns::new(kind, cents, numer, denom);
    let scl = Scl { count };
    let kbm = telbijan_mappings::mapping_with(size, start, end, reference, hz, offset, octave);
    let said = tuning::key_pitches::pitches_of(
        scl,
        &items,
        kbm,
        map,
        PianoKey(first),
        keys,
        pitches,
        numbers,
    );
    telbijan_answers::answered(said)
}
