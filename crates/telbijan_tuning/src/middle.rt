// Pitches for C, counted from the middle key as in Scala. The middle key is the exact sum of reference and offset.
ghost use Rattle.key.specs.Keys.{key};
ghost use Rattle.telbijan_answers.specs.Calls.{Stored};
ghost use Rattle.telbijan_answers.specs.Lent.{columns_before};
ghost use Rattle.telbijan_mappings.specs.Mappings.{mapping_with};
ghost use Rattle.telbijan_tuning.specs.Calls.{PitchesFromMiddle};
ghost use Rattle.telbijan_tuning.specs.Tunings.{maybe_pitch_from_middle_said};

use key::PianoKey;
use scl::{ItemColumns, Scl};

// The pitch of a key of a mapping counted from the middle key, stored: `hz` over the ratio of the reference key's own degree, times that of
// the key's degree. 10 for tables or a root's pitch that cannot be used; of the key 16 outside start..end, 11 where its distance from the
// middle key passes 32 bits, 17 unmapped, 11 where its degree does; of the reference key, which no range limits, 11 for its distance, 19
// unmapped, 11 for its degree; 18.
pub fn telbijan_maybe_pitch_from_middle(
    kind: &[u8],
    cents: &[f64],
    numer: &[u32],
    denom: &[u32],
    count: u16,
    map: &[i32],
    size: u16,
    start: i32,
    end: i32,
    reference: i32,
    hz: f64,
    offset: i32,
    octave: i16,
    number: i32,
    pitch: &mut f64,
) -> u64
    ensures { Stored (maybe_pitch_from_middle_said count (columns_before kind cents numer denom)
        (mapping_with size start end reference hz offset octave) map.now (key number))
        pitch.old result pitch.new }
{
    let items = ItemColumns::new(kind, cents, numer, denom);
    let scl = Scl { count };
    let kbm = telbijan_mappings::mapping_with(size, start, end, reference, hz, offset, octave);
    telbijan_answers::store_pitch(
        tuning::maybe_pitch_from_middle(scl, &items, kbm, map, PianoKey(number)),
        pitch,
    )
}

// The pitches of `keys` keys of a mapping counted from the middle key, from key `first` on, and beside each its refusal's number, 0 for a
// pitch: 10 for tables or a root's pitch that cannot be used, 12 where a slice is shorter than the run. Else each key answers as
// telbijan_maybe_pitch_from_middle does, and 11 where there is no such key; a refused key's pitch stays as it was, and so do the places
// behind the run. The tables are tested once.
pub fn telbijan_pitches_from_middle(
    kind: &[u8],
    cents: &[f64],
    numer: &[u32],
    denom: &[u32],
    count: u16,
    map: &[i32],
    size: u16,
    start: i32,
    end: i32,
    reference: i32,
    hz: f64,
    offset: i32,
    octave: i16,
    first: i32,
    keys: u32,
    pitches: &mut [f64],
    numbers: &mut [u32],
) -> u64
    ensures { PitchesFromMiddle count (columns_before kind cents numer denom) (mapping_with size start end reference hz offset octave)
        map.now first keys pitches.old numbers.old result pitches.new numbers.new }
{
    let items = ItemColumns::new(kind, cents, numer, denom);
    let scl = Scl { count };
    let kbm = telbijan_mappings::mapping_with(size, start, end, reference, hz, offset, octave);
    let said = tuning::key_pitches::pitches_from_middle(
        scl,
        &items,
        kbm,
        map,
        PianoKey(first),
        keys,
        pitches,
        numbers,
    );
    telbijan_answers::answered(said)
}
