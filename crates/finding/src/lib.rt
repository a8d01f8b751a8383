// Searches: which degree or key comes nearest to a ratio or a pitch. The Rust's `find_by_relative_pitch`, `find_by_pitch` and their
// sorted sisters, all from the one search; document 01, "Scales and searches".
//
// Every call tests the tables lent to it, the root and the ratio or pitch first (10); then come 11 for the root offset, 18, 11 for
// the degree, 11 for the key.
#![tactic(auto)]

ghost use Rattle.std.specs.Prelude.{◌≡◌, true, ◌&&◌};
ghost use Rattle.base.specs.Said.{and_then, outcome};
ghost use Rattle.floats.specs.Ranges.{in_search, in_pitch};
ghost use Rattle.kbm.specs.Root.{is_root};
ghost use Rattle.sorted.specs.Lent.{list_table, list_in, is_list};
ghost use Rattle.scl.specs.Table.{item_table, items_in, is_items};
ghost use Rattle.relative.specs.Scales.{tested, is_scale};
ghost use Rattle.searching.specs.Search.{search_of};
ghost use Rattle.searching.specs.Degrees.{declared_of, ascending_of, key_of, says_key_search};
ghost use Rattle.finding.specs.Find.{computed_search, pitch_search_from, pitch_search_of};

use base::Refusal;
use kbm::KbmRoot;
use pitch::{Pitch, Ratio};
use scl::{ItemColumns, Scl};
use searching::Found;
use searching::approximation::{Approximation, NearestKey};
use sorted::ListColumns;

// The search of a computed ratio: 18 outside 2^-64..2^64.
fn search_computed(
    items: &ItemColumns<'_>,
    list: &ListColumns<'_>,
    count: u16,
    target: f64,
) -> Result<Found, Refusal>
    requires { (is_items count items.now ≡ true) × (is_list count list.now ≡ true) }
    ensures { outcome result ≡ computed_search (items_in count items.now) (list_in count list.now) target }
{
    if floats::is_in_search(target) {
        return searching::search(items, list, count, target);
    }
    Err(searching::OUT_OF_REACH)
}

// The search of a pitch, where the degree `root` sounds the reference pitch: 18.
#[tactic(auto, unfolding(crate::specs::Find::pitch_search_from))]
fn search_pitch(
    items: &ItemColumns<'_>,
    list: &ListColumns<'_>,
    count: u16,
    reference: Pitch,
    root: i32,
    pitch: Pitch,
) -> Result<Found, Refusal>
    requires { (is_items count items.now ≡ true) × (is_list count list.now ≡ true) }
    ensures { outcome result ≡ pitch_search_from (items_in count items.now) (list_in count list.now) reference.0 root pitch.0 }
{
    let first = relative::rooted::root_pitch(items, count, reference, root)?;
    let by = Ratio::between_pitches(first, pitch)?;
    search_computed(items, list, count, by.0)
}

// The search of a pitch above a root counted from its reference key: 11 for the root offset, 18.
#[tactic(auto, unfolding(crate::specs::Find::pitch_search_of))]
fn search_rooted(
    items: &ItemColumns<'_>,
    list: &ListColumns<'_>,
    count: u16,
    root: KbmRoot,
    pitch: Pitch,
) -> Result<Found, Refusal>
    requires { (is_items count items.now ≡ true) × (is_list count list.now ≡ true) }
    ensures { outcome result ≡ pitch_search_of (items_in count items.now) (list_in count list.now) root pitch.0 }
{
    let at = relative::rooted::root_degree(root)?;
    search_pitch(items, list, count, root.pitch, at, pitch)
}

// Whether all tables, a root and a searched pitch can be used.
fn is_searchable(
    items: &ItemColumns<'_>,
    list: &ListColumns<'_>,
    count: u16,
    root: KbmRoot,
    pitch: Pitch,
) -> bool
    ensures { result ≡ (is_scale count items.now list.now && (is_root root && in_pitch pitch.0)) }
{
    relative::is_scale(items, list, count) && kbm::is_root(root) && floats::is_in_pitch(pitch.0)
}

// What comes nearest to a ratio: 10 for the tables or a ratio outside 2^-64..2^64, 18.
fn found_by_ratio(
    items: &ItemColumns<'_>,
    list: &ListColumns<'_>,
    count: u16,
    target: f64,
) -> Result<Found, Refusal>
    ensures { outcome result ≡ tested (is_scale count items.now
        list.now && in_search target)
        (search_of (items_in count items.now)
        (list_in count list.now) target) }
{
    if relative::is_scale(items, list, count) {
        if floats::is_in_search(target) {
            return searching::search(items, list, count, target);
        }
    }
    Err(scl::NOT_USABLE)
}

// What comes nearest to a pitch: 10 for the tables, the root's pitch or a pitch outside 2^-10..2^20, 11 for the root offset, 18.
fn found_by_pitch(
    items: &ItemColumns<'_>,
    list: &ListColumns<'_>,
    count: u16,
    root: KbmRoot,
    pitch: Pitch,
) -> Result<Found, Refusal>
    ensures { outcome result ≡ tested (is_scale count items.now
        list.now && (is_root root && in_pitch pitch.0))
        (pitch_search_of (items_in count items.now)
        (list_in count list.now) root pitch.0) }
{
    if is_searchable(items, list, count, root, pitch) {
        return search_rooted(items, list, count, root, pitch);
    }
    Err(scl::NOT_USABLE)
}

// The degree whose relative pitch comes nearest to a ratio: 10 for the tables or a ratio outside 2^-64..2^64, 18, 11.
// Only item 2/1: ratio 3.0 gives degree 2.
pub fn find_by_relative_pitch(
    scl: Scl,
    items: &ItemColumns<'_>,
    list: &ListColumns<'_>,
    target: Ratio,
) -> Result<Approximation, Refusal>
    ensures { outcome result ≡ tested (is_scale scl.count items.now list.now && in_search target.0)
        (and_then (search_of (items_in scl.count items.now) (list_in scl.count list.now) target.0) (declared_of scl.count)) }
{
    let found = found_by_ratio(items, list, scl.count, target.0);
    searching::approximation::declared(found, scl.count)
}

// The ascending degree that comes nearest to a ratio: 10, 18, 11.
pub fn find_by_relative_pitch_sorted(
    scl: Scl,
    items: &ItemColumns<'_>,
    list: &ListColumns<'_>,
    target: Ratio,
) -> Result<Approximation, Refusal>
    ensures { outcome result ≡ tested (is_scale scl.count items.now list.now && in_search target.0)
        (and_then (search_of (items_in scl.count items.now) (list_in scl.count list.now) target.0) (ascending_of scl.count)) }
{
    let found = found_by_ratio(items, list, scl.count, target.0);
    searching::approximation::ascending(found, scl.count)
}

// The degree whose pitch comes nearest: 10 for the tables, the root's pitch or a pitch outside 2^-10..2^20, 11 for the root
// offset, 18, 11 for the degree.
pub fn find_by_pitch(
    scl: Scl,
    items: &ItemColumns<'_>,
    list: &ListColumns<'_>,
    root: KbmRoot,
    pitch: Pitch,
) -> Result<Approximation, Refusal>
    ensures { outcome result ≡ tested (is_scale scl.count items.now list.now && (is_root root && in_pitch pitch.0))
        (and_then (pitch_search_of (items_in scl.count items.now) (list_in scl.count list.now) root pitch.0) (declared_of scl.count)) }
{
    let found = found_by_pitch(items, list, scl.count, root, pitch);
    searching::approximation::declared(found, scl.count)
}

// The ascending degree whose pitch comes nearest: 10, 11 for the root offset, 18, 11 for the degree.
pub fn find_by_pitch_sorted(
    scl: Scl,
    items: &ItemColumns<'_>,
    list: &ListColumns<'_>,
    root: KbmRoot,
    pitch: Pitch,
) -> Result<Approximation, Refusal>
    ensures { outcome result ≡ tested (is_scale scl.count items.now list.now && (is_root root && in_pitch pitch.0))
        (and_then (pitch_search_of (items_in scl.count items.now) (list_in scl.count list.now) root pitch.0) (ascending_of scl.count)) }
{
    let found = found_by_pitch(items, list, scl.count, root, pitch);
    searching::approximation::ascending(found, scl.count)
}

// The key whose pitch comes nearest: 10, 11 for the root offset, 18, 11 for the degree, 11 for the key.
pub fn find_key_by_pitch(
    scl: Scl,
    items: &ItemColumns<'_>,
    list: &ListColumns<'_>,
    root: KbmRoot,
    pitch: Pitch,
) -> Result<NearestKey, Refusal>
    ensures { says_key_search result ≡ and_then (tested (is_scale scl.count items.now list.now && (is_root root && in_pitch pitch.0))
        (and_then (pitch_search_of (items_in scl.count items.now) (list_in scl.count list.now) root pitch.0) (declared_of scl.count))) (key_of root) }
{
    let degree = find_by_pitch(scl, items, list, root, pitch);
    searching::approximation::key_from(root, degree)
}
