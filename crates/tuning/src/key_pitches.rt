// The pitches of a run of keys, what an engine asks for when it loads a tuning: an addition to document 01's calls. The tables are tested
// once and the root's pitch is computed once; each key answers as `maybe_pitch_of` does, or as `maybe_pitch_from_middle`.
ghost use Rattle.std.specs.Prelude.{◌≡◌, true, ◌≤◌, ◌<◌, pos, ◌+ℤ◌, length, set};
ghost use Rattle.base.specs.Said.{outcome};
ghost use Rattle.kbm.specs.Middle.{counted};
ghost use Rattle.kbm.specs.Answers.{says_degree};
ghost use Rattle.kbm.specs.Table.{is_table, table_of};
ghost use Rattle.pitch.specs.Answers.{says_pitch};
ghost use Rattle.scl.specs.Table.{item_table, items_in, is_items};
ghost use Rattle.tuning.specs.Middle.{sounding_degree};
ghost use Rattle.tuning.specs.Run.{key_at, root_said, key_said, step_said, key_pitches, key_pitches_from_middle, counted_pitches};
ghost use Rattle.tuning.specs.Run.{sounded, number_beside, sounded_to, numbers_to, is_tuning, run_of, after_hz, after_numbers};

use base::{Reason, Refusal};
use kbm::{Counting, Kbm};
use key::{Degree, PianoKey};
use pitch::Pitch;
use scl::{ItemColumns, Scl};

// 12: a lent slice is shorter than the run.
const NO_PLACE: Refusal = Refusal {
    reason: Reason::NoRoom,
    detail: 0,
};

// The exact number of the key so many steps above a key.
fn number_at(first: i32, k: u32) -> i64
    ensures { result ≡ first +ℤ pos k }
{
    i64::from(first) + i64::from(k)
}

// The key so many steps above the first of the run; 11 outside 32 bits.
fn key_at(first: PianoKey, k: u32) -> Result<PianoKey, Refusal>
    ensures { outcome result ≡ key_at first k }
{
    Ok(PianoKey(integer_math::to_i32(number_at(first.0, k))?))
}

// The degree that sounds the root's pitch: the offset turned over (11), or the reference key's own (11 for the distance, 19, 11).
fn sounding_degree(counting: Counting, kbm: Kbm, map: &[i32]) -> Result<Degree, Refusal>
    requires { is_table kbm.count map.now ≡ true }
    ensures { says_degree result ≡ sounding_degree counting kbm (table_of kbm.count map.now) }
{
    match counting {
        Counting::Reference => Ok(Degree(relative::rooted::root_degree(kbm.root)?)),
        Counting::Middle => kbm::reference_degree_in(kbm, map),
    }
}

// The pitch of the scale's place 0; what refuses the degree that sounds the root's pitch, 18.
fn root_of(
    counting: Counting,
    items: &ItemColumns<'_>,
    count: u16,
    kbm: Kbm,
    map: &[i32],
) -> Result<Pitch, Refusal>
    requires { (is_items count items.now ≡ true) × (is_table kbm.count map.now ≡ true) }
    ensures { says_pitch result ≡ root_said counting (items_in count items.now) kbm map.now }
{
    let root = kbm.root;
    let at = sounding_degree(counting, kbm, map)?;
    relative::rooted::root_pitch(items, count, root.pitch, at.0)
}

// The pitch of a key of a mapping above an answered root: 16, 11 for the distance, 17, 11 for the degree, the root's refusals, 18.
fn pitch_above(
    counting: Counting,
    items: &ItemColumns<'_>,
    count: u16,
    kbm: Kbm,
    map: &[i32],
    first: Result<Pitch, Refusal>,
    key: PianoKey,
) -> Result<Pitch, Refusal>
    requires { (is_items count items.now ≡ true) × (is_table kbm.count map.now ≡ true) }
    ensures { says_pitch result ≡ key_said (items_in count items.now) (counted counting kbm) map.now
        (says_pitch first) key }
{
    let degree = kbm::degree_in(counting, kbm, map, key)?;
    first?.times(relative::relative_at(items, count, degree.0)?)
}

// The pitch of the key so many steps above the first of the run: 11 for the key, then as by key.
fn run_pitch(
    counting: Counting,
    items: &ItemColumns<'_>,
    count: u16,
    kbm: Kbm,
    map: &[i32],
    root: Result<Pitch, Refusal>,
    first: PianoKey,
    k: u32,
) -> Result<Pitch, Refusal>
    requires { (is_items count items.now ≡ true) × (is_table kbm.count map.now ≡ true) }
    ensures { says_pitch result ≡ step_said (items_in count items.now) (counted counting kbm) map.now
        (says_pitch root) first k }
{
    let key = key_at(first, k)?;
    pitch_above(counting, items, count, kbm, map, root, key)
}

// Stores what a key answered: its pitch and 0, or its refusal's number, with the pitch as it was.
fn store(answer: Result<Pitch, Refusal>, hz: &mut [f64], numbers: &mut [u32], k: usize)
    requires { (k < length hz.old) × (k < length numbers.old) }
    ensures { (hz.new ≡ sounded (says_pitch answer) k hz.old) × (numbers.new ≡ set numbers.old k (number_beside (says_pitch answer))) }
{
    match answer {
        Ok(pitch) => {
            hz[k] = pitch.0;
            numbers[k] = 0;
        }
        Err(refusal) => {
            numbers[k] = refusal.reason.number();
        }
    }
}

// The run, where all tables can be used and both slices have a place for each key.
fn fill(
    counting: Counting,
    items: &ItemColumns<'_>,
    count: u16,
    kbm: Kbm,
    map: &[i32],
    root: Result<Pitch, Refusal>,
    first: PianoKey,
    keys: u32,
    hz: &mut [f64],
    numbers: &mut [u32],
)
    requires { (is_items count items.now ≡ true) × (is_table kbm.count map.now ≡ true)
        × (keys ≤ length hz.old) × (keys ≤ length numbers.old) }
    ensures { (hz.new ≡ sounded_to (step_said (items_in count items.now) (counted counting kbm)
        map.now (says_pitch root) first) keys hz.old)
        × (numbers.new ≡ numbers_to (step_said (items_in count items.now) (counted counting kbm)
        map.now (says_pitch root) first) keys numbers.old) }
{
    for k in 0..keys {
        let answer = run_pitch(counting, items, count, kbm, map, root, first, k);
        store(answer, hz, numbers, k as usize);
    }
}

// Whether an item table, a root and a mapping's table can be used.
fn is_tuning(items: &ItemColumns<'_>, count: u16, kbm: Kbm, map: &[i32]) -> bool
    ensures { result ≡ is_tuning count items.now kbm map.now }
{
    items.holds(count as usize) && kbm::is_root(kbm.root) && kbm::is_table(map, kbm.count as usize)
}

// A run in either counting: 10 for tables or a root that cannot be used, 12 where a slice is shorter than the run; else each key for
// itself.
fn tested_run(
    counting: Counting,
    items: &ItemColumns<'_>,
    count: u16,
    kbm: Kbm,
    map: &[i32],
    first: PianoKey,
    keys: u32,
    hz: &mut [f64],
    numbers: &mut [u32],
) -> Result<(), Refusal>
    ensures value { outcome result ≡ run_of count items.now kbm map.now keys
        (length hz.old) (length numbers.old) }
    ensures hz_after { hz.new ≡ after_hz (run_of count items.now kbm map.now keys
        (length hz.old) (length numbers.old))
        (counted_pitches counting (items_in count items.now) kbm map.now first) keys
        hz.old }
    ensures numbers_after { numbers.new ≡ after_numbers (run_of count items.now kbm map.now keys
        (length hz.old) (length numbers.old))
        (counted_pitches counting (items_in count items.now) kbm map.now first) keys
        numbers.old }
{
    if is_tuning(items, count, kbm, map) {
        if (keys as usize) <= hz.len() {
            if (keys as usize) <= numbers.len() {
                let root = root_of(counting, items, count, kbm, map);
                fill(
                    counting, items, count, kbm, map, root, first, keys, hz, numbers,
                );
                return Ok(());
            }
        }
        return Err(NO_PLACE);
    }
    Err(scl::NOT_USABLE)
}

// The pitches of `keys` keys from `first` on, and beside each its refusal's number, 0 for a pitch. 10 for tables or a root that cannot be
// used, 12 where a slice is shorter than the run; else each key answers as `maybe_pitch_of`, and 11 where there is no such key. A
// refused key's pitch stays as it was, and so do the places behind the run.
pub fn pitches_of(
    scl: Scl,
    items: &ItemColumns<'_>,
    kbm: Kbm,
    map: &[i32],
    first: PianoKey,
    keys: u32,
    hz: &mut [f64],
    numbers: &mut [u32],
) -> Result<(), Refusal>
    ensures value { outcome result ≡ run_of scl.count items.now kbm map.now keys (length hz.old) (length numbers.old) }
    ensures hz_after { hz.new ≡ after_hz (run_of scl.count items.now kbm map.now keys (length hz.old) (length numbers.old)) (key_pitches (items_in scl.count items.now) kbm map.now first) keys hz.old }
    ensures numbers_after { numbers.new ≡ after_numbers (run_of scl.count items.now kbm map.now keys (length hz.old) (length numbers.old)) (key_pitches (items_in scl.count items.now) kbm map.now first) keys numbers.old }
{
    tested_run(
        Counting::Reference,
        items,
        scl.count,
        kbm,
        map,
        first,
        keys,
        hz,
        numbers,
    )
}

// The same counted from the middle key: 10, 12; else each key answers as `maybe_pitch_from_middle`, and 11 where there is no such key.
pub fn pitches_from_middle(
    scl: Scl,
    items: &ItemColumns<'_>,
    kbm: Kbm,
    map: &[i32],
    first: PianoKey,
    keys: u32,
    hz: &mut [f64],
    numbers: &mut [u32],
) -> Result<(), Refusal>
    ensures value { outcome result ≡ run_of scl.count items.now kbm map.now keys
        (length hz.old) (length numbers.old) }
    ensures hz_after { hz.new ≡ after_hz (run_of scl.count items.now kbm map.now keys
        (length hz.old) (length numbers.old))
        (key_pitches_from_middle (items_in scl.count items.now) kbm map.now first) keys
        hz.old }
    ensures numbers_after { numbers.new ≡ after_numbers (run_of scl.count items.now kbm map.now keys
        (length hz.old) (length numbers.old))
        (key_pitches_from_middle (items_in scl.count items.now) kbm map.now first) keys
        numbers.old }
{
    tested_run(
        Counting::Middle,
        items,
        scl.count,
        kbm,
        map,
        first,
        keys,
        hz,
        numbers,
    )
}
