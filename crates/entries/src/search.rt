// A search in the sorted list as a lent slice of structs: what `find_by_relative_pitch` and its sorted sister answer on columns.
// Document 01, "Scales and searches".
//
// Every call on lent tables goes over the whole list to test it, so the one pass that tests also keeps the target's neighbours.
ghost use Rattle.std.specs.Prelude.{◌≡◌, true, ◌&&◌, ◌≤◌, ◌<◌, leb, ltb, length};
ghost use Rattle.base.specs.Said.{outcome};
ghost use Rattle.floats.specs.Ranges.{in_reach, in_search};
ghost use Rattle.sorted.specs.Lent.{may_follow};
ghost use Rattle.scl.specs.Table.{item_table, items_in, is_items};
ghost use Rattle.searching.specs.Search.{found_at};
ghost use Rattle.entries.specs.Entries.{as_entry, columns_in};
ghost use Rattle.entries.specs.Columns.{column_search};
ghost use Rattle.entries.specs.Scans.{Aims, Starts, Comparable, Ready, begun_of, goes_up, scan_step, scan_places, nearest_by, found_by, answer_of};

use crate::SortedEntry;
use base::Refusal;
use pitch::Ratio;
use scl::{ItemColumns, Scl};
use searching::Found;
use searching::approximation::Approximation;

// What a search looks for: the ratio without its periods, how many these are, and whether there is nothing to find (18).
#[derive(Clone, Copy)]
pub struct Aim {
    pub beyond: bool,
    pub periods: i32,
    pub target: f64,
}

// How far the pass has come: whether all so far can be used, the last ratio, and the two neighbours of the target so far, the upper one
// at the place `at`.
#[derive(Clone, Copy)]
pub struct Scan {
    pub usable: bool,
    pub count: u16,
    pub aim: Aim,
    pub last: f64,
    pub at: usize,
    pub lower: SortedEntry,
    pub upper: SortedEntry,
}

// Before the first entry.
fn begun(count: u16, usable: bool, aim: Aim) -> Scan
    ensures { result ≡ begun_of count usable aim }
{
    let none = SortedEntry {
        place: 0,
        ratio: 0.0,
        wraps: 0,
    };
    Scan {
        usable,
        count,
        aim,
        last: 0.0,
        at: 0,
        lower: none,
        upper: none,
    }
}

// What the search of a ratio in usable items looks for.
fn aim_of(items: &ItemColumns<'_>, count: u16, x: f64) -> Aim
    requires { (is_items count items.now ≡ true) × (0 < count) × (in_reach x ≡ true) }
    ensures { Aims (items_in count items.now) x result }
{
    let last = relative::ratio_at(items, count, count as usize);
    let period = scl_tables::reduction::period_of(last);
    let size = period.octaves;
    let single = count == 1;
    let none = size == 0.0;
    let reduced = scl_tables::reduction::reduce(period, x);
    Aim {
        beyond: single & none,
        periods: reduced.wraps,
        target: reduced.ratio,
    }
}

// Whether the items can be used, the ratio is searched, and a list has a place for each entry.
fn is_aimable(items: &ItemColumns<'_>, count: u16, places: usize, x: f64) -> bool
    ensures { result ≡ ((is_items count items.now && in_search x) && ltb count places) }
{
    items.holds(count as usize) && floats::is_in_search(x) && (count as usize) < places
}

// The start of a pass over a list of so many places.
fn start<'i>(scl: Scl, items: &ItemColumns<'_>, places: usize, target: Ratio) -> Scan
    ensures { Starts scl.count items.now places target.0 result }
{
    let count = scl.count;
    let x = target.0;
    let whole = Aim {
        beyond: false,
        periods: 0,
        target: x,
    };
    if is_aimable(items, count, places, x) {
        if count == 0 {
            return begun(count, true, whole);
        }
        return begun(count, true, aim_of(items, count, x));
    }
    begun(count, false, whole)
}

// How many entries the pass goes over.
fn places_of(s: Scan) -> usize
    ensures { result ≡ scan_places s }
{
    if s.usable { s.count as usize + 1 } else { 0 }
}

// Whether an entry may stand after the ratio `last`: in the range, not below it, with a place within the count.
fn is_next(last: f64, count: u16, e: SortedEntry) -> bool
    ensures { result ≡ (may_follow last e.ratio && leb e.place count) }
{
    let ratio = e.ratio;
    let reached = floats::is_in_reach(ratio);
    let falls = ratio < last;
    let within = e.place <= count as u32;
    (reached & !falls) & within
}

// Whether the entry at the place i becomes the upper neighbour: the first two do, and those after an upper one below the target.
fn goes_up(upper: f64, target: f64, i: usize) -> bool
    ensures { result ≡ goes_up upper target i }
{
    i < 2 || upper < target
}

// One entry more.
fn step(s: Scan, e: SortedEntry, i: usize) -> Scan
    ensures { result ≡ scan_step s e i }
{
    let aim = s.aim;
    let lower = s.lower;
    let upper = s.upper;
    let next = is_next(s.last, s.count, e);
    let usable = s.usable & next;
    let last = e.ratio;
    if goes_up(upper.ratio, aim.target, i) {
        return Scan {
            usable,
            count: s.count,
            aim,
            last,
            at: i,
            lower: upper,
            upper: e,
        };
    }
    Scan {
        usable,
        count: s.count,
        aim,
        last,
        at: s.at,
        lower,
        upper,
    }
}

// An entry as what was found.
fn found_of(e: SortedEntry, index: usize, periods: i32, deviation: f64) -> Found
    requires { index ≤ 65535 }
    ensures { result ≡ found_at (as_entry e) index periods deviation }
{
    Found {
        place: e.place,
        wraps: e.wraps,
        index: index as u32,
        periods,
        deviation,
    }
}

// The neighbour that comes nearer to the target; 18.
fn nearest(s: Scan) -> Result<Found, Refusal>
    requires { Comparable s }
    ensures { outcome result ≡ nearest_by s }
{
    let aim = s.aim;
    let lower = s.lower;
    let upper = s.upper;
    let choice = searching::choose(lower.ratio, upper.ratio, aim.target)?;
    let found = if choice.upper {
        found_of(upper, s.at, aim.periods, choice.deviation)
    } else {
        found_of(lower, s.at - 1, aim.periods, choice.deviation)
    };
    Ok(found)
}

// What a pass over a usable list found; 18.
fn found_in(s: Scan) -> Result<Found, Refusal>
    requires { (s.usable ≡ true) × Ready s }
    ensures { outcome result ≡ found_by s }
{
    let aim = s.aim;
    let first = s.upper;
    if s.count == 0 {
        return Ok(found_of(first, 0, 0, aim.target));
    }
    if aim.beyond {
        return Err(searching::OUT_OF_REACH);
    }
    nearest(s)
}

// The answer: 10, 18, 11.
fn finish(s: Scan, sorted: bool) -> Result<Approximation, Refusal>
    requires { Ready s }
    ensures { outcome result ≡ answer_of s sorted }
{
    if !s.usable {
        return Err(scl::NOT_USABLE);
    }
    let found = found_in(s);
    if sorted {
        searching::approximation::ascending(found, s.count)
    } else {
        searching::approximation::declared(found, s.count)
    }
}

// The degree whose relative pitch comes nearest to a ratio, the ascending one where `sorted`: 10 for the items, the list or a ratio
// outside 2^-64..2^64, 18, 11.
pub fn find_in_entries<'i>(
    scl: Scl,
    items: &ItemColumns<'_>,
    list: &[SortedEntry],
    target: Ratio,
    sorted: bool,
) -> Result<Approximation, Refusal>
    ensures { outcome result ≡ column_search sorted scl.count items.now (columns_in list.now) target.0 }
{
    let mut s = start(scl, items, list.len(), target);
    let n = places_of(s);
    for i in 0..n {
        s = step(s, list[i], i);
    }
    finish(s, sorted)
}
