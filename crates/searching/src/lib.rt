// THE search of a ratio in a scale, from which every public search takes its answer: the Rust's `find_by_relative_pitch_internal`.
// Document 01, "Scales and searches".
//
// An inner crate: its callers have tested the lent tables and the ratio.
#![tactic(auto)]

pub mod approximation;

ghost use Rattle.std.specs.Prelude.{◌≡◌, true, ◌&&◌, ◌≤◌, ◌<◌, get_or};
ghost use Rattle.base.specs.Said.{outcome};
ghost use Rattle.floats.specs.Ranges.{in_reach};
ghost use Rattle.sorted.specs.Lent.{list_table, list_in, is_list};
ghost use Rattle.scl.specs.Table.{item_table, items_in, is_items};
ghost use Rattle.relative.specs.Scales.{no_entry};
ghost use Rattle.searching.specs.Search.{chosen_of, clamped, upper_of, index_of, found_at, nearest_of, search_of};

use base::{Reason, Refusal};
use pitch::Ratio;
use scl::ItemColumns;
use sorted::ListColumns;

// Of two neighbours the chosen one, and the deviation from it.
#[derive(Clone, Copy)]
pub struct Choice {
    pub upper: bool,
    pub deviation: f64,
}

// The entry that a search found: its place and wraparounds, where it stands in the list, the periods below it, and the deviation from
// it.
#[derive(Clone, Copy)]
pub struct Found {
    pub place: u32,
    pub wraps: i32,
    pub index: u32,
    pub periods: i32,
    pub deviation: f64,
}

// 18: a computed ratio leaves its range.
pub const OUT_OF_REACH: Refusal = Refusal {
    reason: Reason::BeyondReach,
    detail: 0,
};

// "the 0.999999 tolerance": of two deviations that are equal within it the lower neighbour's is preferred.
const TOLERANCE: f64 = 0.999999;

// Whether three computed ratios lie in the range.
fn are_in_reach(x: f64, y: f64, z: f64) -> bool
    ensures { result ≡ ((in_reach x && in_reach y) && in_reach z) }
{
    floats::is_in_reach(x) && floats::is_in_reach(y) && floats::is_in_reach(z)
}

// Which of two neighbours comes nearer to the target, the lower one where both do within the tolerance; 18.
pub fn choose(lower: f64, upper: f64, target: f64) -> Result<Choice, Refusal>
    requires { (in_reach lower ≡ true) × (in_reach upper ≡ true) × (in_reach target ≡ true) }
    ensures { outcome result ≡ chosen_of lower upper target }
{
    let up = upper / target;
    let down = target / lower;
    let bound = down * TOLERANCE;
    if !are_in_reach(up, down, bound) {
        return Err(OUT_OF_REACH);
    }
    if bound < up {
        return Ok(Choice {
            upper: false,
            deviation: down,
        });
    }
    let turned = Ratio(up).inv()?;
    Ok(Choice {
        upper: true,
        deviation: turned.0,
    })
}

// n, at least 1 and at most `last`.
fn clamp(last: usize, n: usize) -> usize
    requires { 0 < last }
    ensures { (result ≡ clamped last n) × (0 < result) × (result ≤ last) }
{
    n.max(1).min(last)
}

// The place of the upper neighbour, from 1 to `count`: the first entry not below the target.
fn upper_at(list: &ListColumns<'_>, count: u16, target: f64) -> usize
    requires { (is_list count list.now ≡ true) × (0 < count) × (in_reach target ≡ true) }
    ensures { (result ≡ upper_of (list_in count list.now) target) × (0 < result) × (result ≤ count) }
{
    let last = count as usize;
    clamp(last, list.first_not_below(last + 1, target))
}

// The place of the chosen neighbour.
fn index_of(at: usize, upper: bool) -> usize
    requires { 0 < at }
    ensures { (result ≡ index_of at upper) × (result ≤ at) }
{
    if upper { at } else { at - 1 }
}

// The entry at a place of the list, so many periods up, and the deviation from it.
fn found_at(list: &ListColumns<'_>, count: u16, index: usize, periods: i32, deviation: f64) -> Found
    requires { (is_list count list.now ≡ true) × (index ≤ count) }
    ensures { result ≡ found_at (get_or (list_in count list.now) index no_entry) index periods deviation }
{
    Found {
        place: list.place(index),
        wraps: list.wraps(index),
        index: index as u32,
        periods,
        deviation,
    }
}

// The entry that comes nearest to a reduced target; 18.
fn nearest_entry(
    list: &ListColumns<'_>,
    count: u16,
    periods: i32,
    target: f64,
) -> Result<Found, Refusal>
    requires { (is_list count list.now ≡ true) × (0 < count) × (in_reach target ≡ true) }
    ensures { outcome result ≡ nearest_of (list_in count list.now) periods target }
{
    let at = upper_at(list, count, target);
    let choice = choose(list.ratio(at - 1), list.ratio(at), target)?;
    let index = index_of(at, choice.upper);
    Ok(found_at(list, count, index, periods, choice.deviation))
}

// THE search, in a usable scale, of a ratio in the range: 18.
pub fn search(
    items: &ItemColumns<'_>,
    list: &ListColumns<'_>,
    count: u16,
    target: f64,
) -> Result<Found, Refusal>
    requires { (is_items count items.now ≡ true) × (is_list count list.now ≡ true) × (in_reach target ≡ true) }
    ensures { outcome result ≡ search_of (items_in count items.now) (list_in count list.now) target }
{
    if count == 0 {
        return Ok(found_at(list, count, 0, 0, target));
    }
    let last = relative::ratio_at(items, count, count as usize);
    let period = scl_tables::reduction::period_of(last);
    let single = count == 1;
    let none = period.octaves == 0.0;
    if single & none {
        return Err(OUT_OF_REACH);
    }
    let reduced = scl_tables::reduction::reduce(period, target);
    nearest_entry(list, count, reduced.wraps, reduced.ratio)
}
