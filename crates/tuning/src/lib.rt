// The tuning: pitches of degrees and keys. The Rust's `pitch_of`, `sorted_pitch_of` and `maybe_pitch_of`; document 01, "Scales and
// searches"; and `maybe_pitch_from_middle`, document 02, W1.
//
// Every call tests the tables lent to it and the root first (10); then come the key's refusals, 11 for the root offset (or those of the
// reference key), 18.
#![tactic(auto)]

pub mod key_pitches;

ghost use Rattle.std.specs.Prelude.{◌≡◌, true, ◌&&◌};
ghost use Rattle.kbm.specs.Root.{is_root};
ghost use Rattle.kbm.specs.Table.{is_table};
ghost use Rattle.pitch.specs.Answers.{says_pitch};
ghost use Rattle.sorted.specs.Lent.{list_table, list_in};
ghost use Rattle.scl.specs.Table.{item_table, items_in, is_items};
ghost use Rattle.relative.specs.Scales.{tested, is_scale};
ghost use Rattle.relative.specs.Pitches.{pitch_of, sorted_pitch_of};
ghost use Rattle.tuning.specs.Keys.{key_pitch_of, maybe_pitch_of, maybe_degree_pitch_of};
ghost use Rattle.tuning.specs.Middle.{maybe_pitch_from_middle};

use base::Refusal;
use kbm::{Counting, Kbm, KbmRoot};
use key::{Degree, PianoKey};
use pitch::Pitch;
use scl::{ItemColumns, Scl};
use sorted::ListColumns;

// Whether an item table and a root can be used.
fn is_rooted(items: &ItemColumns<'_>, count: u16, root: KbmRoot) -> bool
    ensures { result ≡ (is_items count items.now && is_root root) }
{
    items.holds(count as usize) && kbm::is_root(root)
}

// Whether all tables of a scale and a root can be used.
fn is_rooted_scale(
    items: &ItemColumns<'_>,
    list: &ListColumns<'_>,
    count: u16,
    root: KbmRoot,
) -> bool
    ensures { result ≡ (is_scale count items.now list.now && is_root root) }
{
    relative::is_scale(items, list, count) && kbm::is_root(root)
}

// The pitch of a degree: 10 for the item table or the root's pitch, 11 for the root offset, 18.
pub fn pitch_of(
    scl: Scl,
    items: &ItemColumns<'_>,
    root: KbmRoot,
    degree: Degree,
) -> Result<Pitch, Refusal>
    ensures { says_pitch result ≡ tested (is_items scl.count items.now && is_root root)
        (pitch_of (items_in scl.count items.now) root degree.0) }
{
    let count = scl.count;
    if is_rooted(items, count, root) {
        return relative::rooted::degree_pitch(items, count, root, degree.0);
    }
    Err(scl::NOT_USABLE)
}

// The pitch of a key, counted from the reference key: 10, 11 for the distance, 11 for the root offset, 18.
pub fn pitch_of_key(
    scl: Scl,
    items: &ItemColumns<'_>,
    root: KbmRoot,
    key: PianoKey,
) -> Result<Pitch, Refusal>
    ensures { says_pitch result ≡ tested (is_items scl.count items.now && is_root root)
        (key_pitch_of (items_in scl.count items.now) root key) }
{
    let count = scl.count;
    if is_rooted(items, count, root) {
        let degree = root.reference.num_keys_before(key)?;
        return relative::rooted::degree_pitch(items, count, root, degree);
    }
    Err(scl::NOT_USABLE)
}

// The pitch of an ascending degree: 10 for the tables or the root's pitch, 11 for the root offset, 18.
pub fn sorted_pitch_of(
    scl: Scl,
    items: &ItemColumns<'_>,
    list: &ListColumns<'_>,
    root: KbmRoot,
    degree: Degree,
) -> Result<Pitch, Refusal>
    ensures { says_pitch result ≡ tested (is_scale scl.count items.now list.now && is_root root)
        (sorted_pitch_of (items_in scl.count items.now) (list_in scl.count list.now) root degree.0) }
{
    let count = scl.count;
    if is_rooted_scale(items, list, count, root) {
        return relative::rooted::sorted_degree_pitch(items, list, count, root, degree.0);
    }
    Err(scl::NOT_USABLE)
}

// The pitch of a key of a mapping, where all tables can be used: 16, 11 for the distance, 17, 11 for the degree, 11 for the root
// offset, 18.
fn key_pitch(
    items: &ItemColumns<'_>,
    count: u16,
    kbm: Kbm,
    map: &[i32],
    key: PianoKey,
) -> Result<Pitch, Refusal>
    requires { (is_items count items.now ≡ true) × (is_table kbm.count map.now ≡ true) }
    ensures { says_pitch result ≡ maybe_pitch_of (items_in count items.now) kbm map.now key }
{
    let root = kbm.root;
    let degree = kbm::degree_in(Counting::Reference, kbm, map, key)?;
    relative::rooted::degree_pitch(items, count, root, degree.0)
}

// The pitch of a key of a mapping: 10, 16, 11 for the distance, 17, 11 for the degree, 11 for the root offset, 18.
pub fn maybe_pitch_of(
    scl: Scl,
    items: &ItemColumns<'_>,
    kbm: Kbm,
    map: &[i32],
    key: PianoKey,
) -> Result<Pitch, Refusal>
    ensures { says_pitch result ≡ tested (is_items scl.count items.now && is_root kbm.root)
        (tested (is_table kbm.count map.now) (maybe_pitch_of (items_in scl.count items.now) kbm map.now key)) }
{
    let count = scl.count;
    let root = kbm.root;
    if is_rooted(items, count, root) {
        if kbm::is_table(map, kbm.count as usize) {
            return key_pitch(items, count, kbm, map, key);
        }
    }
    Err(scl::NOT_USABLE)
}

// The same by mapping degree, counted from the reference key: 10, 11 for the key, then as by key.
pub fn maybe_pitch_of_degree(
    scl: Scl,
    items: &ItemColumns<'_>,
    kbm: Kbm,
    map: &[i32],
    degree: Degree,
) -> Result<Pitch, Refusal>
    ensures { says_pitch result ≡ tested (is_items scl.count items.now && is_root kbm.root)
        (tested (is_table kbm.count map.now) (maybe_degree_pitch_of (items_in scl.count items.now) kbm map.now degree.0)) }
{
    let count = scl.count;
    let root = kbm.root;
    if is_rooted(items, count, root) {
        if kbm::is_table(map, kbm.count as usize) {
            let at = root.reference.plus_steps(degree.0)?;
            return key_pitch(items, count, kbm, map, at);
        }
    }
    Err(scl::NOT_USABLE)
}

// The pitch of a key counted from the middle key, where all tables can be used: 16, 11 for the distance, 17, 11 for the degree; of the
// reference key 11 for the distance, 19, 11 for the degree; 18.
fn middle_pitch(
    items: &ItemColumns<'_>,
    count: u16,
    kbm: Kbm,
    map: &[i32],
    key: PianoKey,
) -> Result<Pitch, Refusal>
    requires { (is_items count items.now ≡ true) × (is_table kbm.count map.now ≡ true) }
    ensures { says_pitch result ≡ maybe_pitch_from_middle (items_in count items.now) kbm map.now key }
{
    let root = kbm.root;
    let degree = kbm::degree_in(Counting::Middle, kbm, map, key)?;
    let at = kbm::reference_degree_in(kbm, map)?;
    relative::rooted::pitch_at(items, count, root.pitch, at.0, degree.0)
}

// The pitch of a key of a mapping counted from the middle key: 10, 16, 11 for the distance, 17, 11 for the degree; of the reference key
// 11 for the distance, 19 unmapped, 11 for the degree; 18. `9/8`, `5/4`, `2/1`, entries 0 1 2, octave 3, middle key 62, reference key 69:
// key 69 sounds the root's pitch.
pub fn maybe_pitch_from_middle(
    scl: Scl,
    items: &ItemColumns<'_>,
    kbm: Kbm,
    map: &[i32],
    key: PianoKey,
) -> Result<Pitch, Refusal>
    ensures { says_pitch result ≡ tested (is_items scl.count items.now && is_root kbm.root)
        (tested (is_table kbm.count map.now)
        (maybe_pitch_from_middle (items_in scl.count items.now) kbm map.now key)) }
{
    let count = scl.count;
    let root = kbm.root;
    if is_rooted(items, count, root) {
        if kbm::is_table(map, kbm.count as usize) {
            return middle_pitch(items, count, kbm, map, key);
        }
    }
    Err(scl::NOT_USABLE)
}
