// Keyboard mappings: which degree of a scale a key has. The Rust's `Kbm`; document 01, "Keys" and "What is taken", 5; document 02, W1.
//
// A mapping is a value, `Kbm`, and a lent table of `count` entries: in the table a number from -32768 to 32767 is a degree,
// `UNMAPPED` is no degree, and any other number is unusable (10).
#![tactic(auto)]

ghost use Rattle.std.specs.Prelude.{◌≡◌, true, ◌+ℤ◌, ◌-ℤ◌, ◌*ℤ◌};
ghost use Rattle.base.specs.Said.{outcome, refusal};
ghost use Rattle.base.specs.Integers.{held};
ghost use Rattle.kbm.specs.Answers.{says_degree};
ghost use Rattle.kbm.specs.Degree.{in_range, degree_at, degree_from, degree_of, scale_degree_of};
ghost use Rattle.kbm.specs.Middle.{middle_of, scale_degree_from_middle, of_reference, reference_degree, origin, counted};
ghost use Rattle.kbm.specs.Root.{root_of, is_root};
ghost use Rattle.kbm.specs.Table.{number_of, is_entry, entry_of, is_table, table_of};

use base::{Reason, Refusal};
use key::{Degree, PianoKey};
use pitch::Pitch;

// The number that stands for an unmapped entry in a lent table.
pub const UNMAPPED: i32 = -2147483648;

// Where a tuning is anchored: the reference key, its pitch, and how far the middle key lies above it.
#[derive(Clone, Copy)]
pub struct KbmRoot {
    pub reference: PianoKey,
    pub pitch: Pitch,
    pub offset: i32,
}

// A mapping, beside its table of `count` entries: keys from `start` up to, not including, `end`; `octave` degrees make a
// formal octave.
#[derive(Clone, Copy)]
pub struct Kbm {
    pub root: KbmRoot,
    pub start: PianoKey,
    pub end: PianoKey,
    pub octave: i16,
    pub count: u16,
}

// Which key the first entry is for: the reference key, as in the Rust, or the middle key, as in Scala.
#[derive(Clone, Copy)]
pub enum Counting {
    Reference,
    Middle,
}

// 10: a lent table, a state or a pitch cannot be used.
pub const NOT_USABLE: Refusal = Refusal {
    reason: Reason::Unusable,
    detail: 0,
};

// 16: the key is outside the mapping's range.
const OUT_OF_RANGE: Refusal = Refusal {
    reason: Reason::KeyOutOfRange,
    detail: 0,
};

// 17: the key is unmapped.
const NO_DEGREE: Refusal = Refusal {
    reason: Reason::UnmappedKey,
    detail: 0,
};

// Whether the pitch of a root lies in 2^-10..2^20.
pub fn is_root(root: KbmRoot) -> bool
    ensures { result ≡ is_root root }
{
    let pitch = root.pitch;
    floats::is_in_pitch(pitch.0)
}

impl KbmRoot {
    // The root of a reference key, its pitch and the steps up to the middle key; 10 for a pitch outside 2^-10..2^20.
    pub fn new(reference: PianoKey, pitch: Pitch, offset: i32) -> Result<KbmRoot, Refusal>
        ensures { outcome result ≡ root_of reference pitch offset }
    {
        if floats::is_in_pitch(pitch.0) {
            Ok(KbmRoot {
                reference,
                pitch,
                offset,
            })
        } else {
            Err(NOT_USABLE)
        }
    }
}

// Whether z is the number of an entry.
fn is_entry(z: i32) -> bool
    ensures { result ≡ is_entry z }
{
    (z == UNMAPPED) | ((-32768 <= z) & (z <= 32767))
}

// The number of an entry.
pub fn number_of(entry: Option<i16>) -> i32
    ensures { result ≡ number_of entry }
{
    match entry {
        Some(degree) => i32::from(degree),
        None => UNMAPPED,
    }
}

// The entry of its number.
fn entry_of(z: i32) -> Option<i16>
    requires { is_entry z ≡ true }
    ensures { result ≡ entry_of z }
{
    if z == UNMAPPED { None } else { Some(z as i16) }
}

// Whether the table has `count` places and each of them holds an entry. No branch is taken on an entry, so that the compiler can
// test several at a time.
pub fn is_table(map: &[i32], count: usize) -> bool
    ensures { result ≡ is_table count map.now }
{
    if map.len() < count {
        return false;
    }
    let mut all = true;
    for z in &map[..count] {
        all = all & is_entry(*z);
    }
    all
}

// Whether the key is in `start`..`end`.
fn is_in_range(start: PianoKey, end: PianoKey, key: PianoKey) -> bool
    ensures { result ≡ in_range start end key }
{
    start.0 <= key.0 && key.0 < end.0
}

// The exact degree q formal octaves above an entry.
fn shifted(entry: i16, q: i32, octave: i16) -> i64
    ensures { result ≡ entry +ℤ q *ℤ octave }
{
    i64::from(entry) + i64::from(q) * i64::from(octave)
}

// The degree of a number; 11 outside 32 bits.
fn checked_degree(z: i64) -> Result<Degree, Refusal>
    ensures { says_degree result ≡ held z }
{
    Ok(Degree(integer_math::to_i32(z)?))
}

// The degree at a distance d from the key that the table's first entry is for; 17, 11.
fn degree_at(d: i32, octave: i16, map: &[i32], count: u16) -> Result<Degree, Refusal>
    requires { is_table count map.now ≡ true }
    ensures { says_degree result ≡ degree_at d octave (table_of count map.now) }
{
    if count == 0 {
        return Ok(Degree(d));
    }
    let size = count as u32;
    let place = integer_math::remainder(d, size) as usize;
    match entry_of(map[place]) {
        Some(entry) => checked_degree(shifted(entry, integer_math::quotient(d, size), octave)),
        None => Err(NO_DEGREE),
    }
}

// How many keys a key lies above the middle key, exactly: the middle key itself may lie outside 32 bits.
fn steps_from_middle(number: i32, reference: i32, offset: i32) -> i64
    ensures { result ≡ number -ℤ (reference +ℤ offset) }
{
    i64::from(number) - integer_math::sum(reference, offset)
}

// The same where 32 bits hold it; else 11.
fn distance_from_middle(root: KbmRoot, key: PianoKey) -> Result<i32, Refusal>
    ensures { outcome result ≡ held (key.0 -ℤ middle_of root) }
{
    let reference = root.reference;
    integer_math::to_i32(steps_from_middle(key.0, reference.0, root.offset))
}

// How many keys a key lies above the one that is counted from; 11 outside 32 bits.
fn distance(counting: Counting, root: KbmRoot, key: PianoKey) -> Result<i32, Refusal>
    ensures { outcome result ≡ held (key.0 -ℤ (origin counting root).0) }
{
    let reference = root.reference;
    match counting {
        Counting::Reference => reference.num_keys_before(key),
        Counting::Middle => distance_from_middle(root, key),
    }
}

// The degree of a key, in range or not; 11 for the distance, 17, 11 for the degree.
fn degree_from(
    counting: Counting,
    root: KbmRoot,
    key: PianoKey,
    octave: i16,
    map: &[i32],
    count: u16,
) -> Result<Degree, Refusal>
    requires { is_table count map.now ≡ true }
    ensures { says_degree result ≡ degree_from (origin counting root) key octave (table_of count map.now) }
{
    let d = distance(counting, root, key)?;
    degree_at(d, octave, map, count)
}

// The degree of a key in a table that can be used: 16 outside the range, 11 for the distance, 17 unmapped, 11. For callers that have
// tested the table.
pub fn degree_in(
    counting: Counting,
    kbm: Kbm,
    map: &[i32],
    key: PianoKey,
) -> Result<Degree, Refusal>
    requires { is_table kbm.count map.now ≡ true }
    ensures { says_degree result ≡ degree_of (counted counting kbm) (table_of kbm.count map.now) key }
{
    if is_in_range(kbm.start, kbm.end, key) {
        return degree_from(counting, kbm.root, key, kbm.octave, map, kbm.count);
    }
    Err(OUT_OF_RANGE)
}

// The degree of a key in either counting: 10 for a table that cannot be used, 16, 11 for the distance, 17, 11.
fn tested_degree(
    counting: Counting,
    kbm: Kbm,
    map: &[i32],
    key: PianoKey,
) -> Result<Degree, Refusal>
    ensures { says_degree result ≡ scale_degree_of (counted counting kbm) map.now key }
{
    if is_table(map, kbm.count as usize) {
        return degree_in(counting, kbm, map, key);
    }
    Err(NOT_USABLE)
}

// The degree of a key: 10 for a table that cannot be used, 16 outside the range, 11 for the distance, 17 unmapped, 11.
// Entries 0, x, 2, octave 5, keys 0..127, reference 60: key 59 has degree -3, key 61 is 17, key 128 is 16.
pub fn scale_degree_of(kbm: Kbm, map: &[i32], key: PianoKey) -> Result<Degree, Refusal>
    ensures { says_degree result ≡ scale_degree_of kbm map.now key }
{
    tested_degree(Counting::Reference, kbm, map, key)
}

// The degree of a key, counted from the middle key, the exact sum of reference and offset: 10, 16, 11 for the distance, 17, 11.
// The same mapping with middle key 62: key 62 has degree 0, key 61 has -3, key 60 is 17.
pub fn scale_degree_from_middle(kbm: Kbm, map: &[i32], key: PianoKey) -> Result<Degree, Refusal>
    ensures { says_degree result ≡ scale_degree_from_middle kbm map.now key }
{
    tested_degree(Counting::Middle, kbm, map, key)
}

// 17 becomes 19: it is the reference key that is unmapped.
fn of_reference(why: Refusal) -> Refusal
    ensures { refusal result ≡ of_reference (refusal why) }
{
    match why.reason {
        Reason::UnmappedKey => Refusal {
            reason: Reason::ReferenceUnmapped,
            detail: why.detail,
        },
        _ => why,
    }
}

// The reference key's own degree in a table that can be used, counted from the middle key; no range limits it: 11 for the distance, 19, 11.
pub fn reference_degree_in(kbm: Kbm, map: &[i32]) -> Result<Degree, Refusal>
    requires { is_table kbm.count map.now ≡ true }
    ensures { says_degree result ≡ reference_degree kbm (table_of kbm.count map.now) }
{
    let root = kbm.root;
    degree_from(
        Counting::Middle,
        root,
        root.reference,
        kbm.octave,
        map,
        kbm.count,
    )
    .map_err(of_reference)
}
