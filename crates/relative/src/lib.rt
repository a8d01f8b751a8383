// Relative pitches of degrees: the Rust's `relative_pitch_of`, `sorted_relative_pitch_of` and `period`. Document 01, "Scales and
// searches".
//
// A scale is lent as columns: items (`kind`, `cents`, `numer`, `denom`) and the sorted list (`place`, `ratio`, `wraps`), beside an `Scl`
// with the count of its items, place 0 not among them. A call tests all tables lent to it first (10).
#![tactic(auto)]

pub mod rooted;

ghost use Rattle.std.specs.Prelude.{◌≡◌, true, ◌≤◌, get_or};
ghost use Rattle.base.specs.Said.{gives};
ghost use Rattle.floats.specs.Ranges.{in_reach};
ghost use Rattle.pitch.specs.Answers.{says_ratio};
ghost use Rattle.sorted.specs.Lent.{list_table, list_in, is_list};
ghost use Rattle.scl.specs.Items.{ratio_of};
ghost use Rattle.scl.specs.Table.{no_item, item_table, items_in, is_items};
ghost use Rattle.scl_tables.specs.Build.{last_of};
ghost use Rattle.relative.specs.Relative.{periods_of, place_of, stretched, relative_pitch_of, sorted_relative_pitch_of};
ghost use Rattle.relative.specs.Scales.{tested, is_scale};

use base::Refusal;
use key::Degree;
use pitch::Ratio;
use scl::{ItemColumns, Scl};
use sorted::ListColumns;

// The ratio of the item at a place of a usable table.
pub fn ratio_at(items: &ItemColumns<'_>, count: u16, i: usize) -> f64
    requires { (is_items count items.now ≡ true) × (i ≤ count) }
    ensures { (gives result ≡ ratio_of (get_or (items_in count items.now) i no_item)) × (in_reach result ≡ true) }
{
    scl_tables::reduction::ratio_of(items.item(i))
}

// How many whole periods a degree lies above place 0.
fn periods_of(count: u16, degree: i32) -> i32
    ensures { result ≡ periods_of count degree }
{
    if count == 0 {
        return 0;
    }
    integer_math::quotient(degree, u32::from(count))
}

// Which place within the period it has.
fn place_of(count: u16, degree: i32) -> usize
    ensures { (result ≡ place_of count degree) × (result ≤ count) }
{
    if count == 0 {
        return 0;
    }
    integer_math::remainder(degree, u32::from(count)) as usize
}

// A ratio so many periods up; 18.
fn stretch(period: f64, periods: i32, ratio: f64) -> Result<Ratio, Refusal>
    ensures { says_ratio result ≡ stretched period periods ratio }
{
    Ratio(period)
        .repeated(f64::from(periods))?
        .stretched_by(Ratio(ratio))
}

// The relative pitch of a degree in a usable scale; 18.
pub fn relative_at(items: &ItemColumns<'_>, count: u16, degree: i32) -> Result<Ratio, Refusal>
    requires { is_items count items.now ≡ true }
    ensures { says_ratio result ≡ relative_pitch_of (items_in count items.now) degree }
{
    let place = place_of(count, degree);
    let period = ratio_at(items, count, count as usize);
    let ratio = ratio_at(items, count, place);
    stretch(period, periods_of(count, degree), ratio)
}

// The same by ascending degree.
pub fn sorted_relative_at(
    items: &ItemColumns<'_>,
    list: &ListColumns<'_>,
    count: u16,
    degree: i32,
) -> Result<Ratio, Refusal>
    requires { (is_items count items.now ≡ true) × (is_list count list.now ≡ true) }
    ensures { says_ratio result ≡ sorted_relative_pitch_of (items_in count items.now) (list_in count list.now) degree }
{
    let at = place_of(count, degree);
    let period = ratio_at(items, count, count as usize);
    stretch(period, periods_of(count, degree), list.ratio(at))
}

// Whether all tables of a scale can be used.
pub fn is_scale(items: &ItemColumns<'_>, list: &ListColumns<'_>, count: u16) -> bool
    ensures { result ≡ is_scale count items.now list.now }
{
    let count = usize::from(count);
    items.holds(count) && list.holds(count)
}

// The period, which is the ratio of the last item: 10 for the item table. With no items it is the ratio of place 0.
pub fn period(scl: Scl, items: &ItemColumns<'_>) -> Result<Ratio, Refusal>
    ensures { says_ratio result ≡ tested (is_items scl.count items.now)
        (ratio_of (last_of (items_in scl.count items.now))) }
{
    let count = scl.count;
    if items.holds(count as usize) {
        return Ok(Ratio(ratio_at(items, count, count as usize)));
    }
    Err(scl::NOT_USABLE)
}

// The relative pitch of a degree: 10 for the item table, 18.
pub fn relative_pitch_of(
    scl: Scl,
    items: &ItemColumns<'_>,
    degree: Degree,
) -> Result<Ratio, Refusal>
    ensures { says_ratio result ≡ tested (is_items scl.count items.now)
        (relative_pitch_of (items_in scl.count items.now) degree.0) }
{
    let count = scl.count;
    if items.holds(count as usize) {
        return relative_at(items, count, degree.0);
    }
    Err(scl::NOT_USABLE)
}

// The relative pitch of an ascending degree: 10 for the tables, 18.
pub fn sorted_relative_pitch_of(
    scl: Scl,
    items: &ItemColumns<'_>,
    list: &ListColumns<'_>,
    degree: Degree,
) -> Result<Ratio, Refusal>
    ensures { says_ratio result ≡ tested (is_scale scl.count items.now list.now)
        (sorted_relative_pitch_of (items_in scl.count items.now) (list_in scl.count list.now) degree.0) }
{
    let count = scl.count;
    if is_scale(items, list, count) {
        return sorted_relative_at(items, list, count, degree.0);
    }
    Err(scl::NOT_USABLE)
}
