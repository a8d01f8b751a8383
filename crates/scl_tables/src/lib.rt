// What is written into the lent tables of a scale: an item at its place, and the sorted list of usable items. The Rust's
// `push_pitch_value` and `SclBuilder::build`; document 01, "Scales and searches".
//
// An inner crate: what it asks of the tables, the builder, the reader and the generators have made sure of.
#![tactic(auto)]

pub mod reduction;

ghost use Rattle.std.specs.Prelude.{◌≡◌, true, ◌<◌, ◌≤◌, ◌-◌, pos, length, get_or, set};
ghost use Rattle.std.specs.Float.{nan, binary64};
ghost use Rattle.std.specs.Float.Ieee.{le, div};
ghost use Rattle.base.specs.Said.{gives, pick};
ghost use Rattle.floats.specs.Floats.{one_f};
ghost use Rattle.floats.specs.Ranges.{in_reach};
ghost use Rattle.sorting.specs.Entries.{zip};
ghost use Rattle.sorted.specs.Lent.{AllInReach, from, list_table};
ghost use Rattle.scl.specs.Items.{is_usable, ratio_of};
ghost use Rattle.scl.specs.Table.{item_of, items_of, items_in, item_table, are_usable, is_items, written_at};
ghost use Rattle.scl_tables.specs.Reduce.{IsPeriod};
ghost use Rattle.scl_tables.specs.Build.{entry, reduced_entry, entries_from, last_of, sorted_of, is_beyond, is_given, after_list};
ghost use Rattle.scl_tables.specs.Room.{room_of};
ghost use Rattle.scl_tables.specs.Writing.{stored_of};

use crate::reduction::{Period, Reduced};
use scl::{Item, ItemColumns};

// The room of a scale's tables: the length of the shortest column.
pub fn room_of(
    kind: &[u8],
    cents: &[f64],
    numer: &[u32],
    denom: &[u32],
    place: &[u32],
    ratio: &[f64],
    wraps: &[i32],
) -> usize
    ensures { result ≡ room_of (item_table kind.now cents.now numer.now denom.now) (list_table place.now ratio.now wraps.now) }
{
    let items = kind
        .len()
        .min(cents.len())
        .min(numer.len().min(denom.len()));
    let list = place.len().min(ratio.len()).min(wraps.len());
    items.min(list)
}

// What stands in the four columns for an item.
#[derive(Clone, Copy)]
pub struct Stored {
    pub kind: u8,
    pub cents: f64,
    pub numer: u32,
    pub denom: u32,
}

// What stands for an item: 0 where its kind uses nothing.
fn columns_of(item: Item) -> Stored
    ensures { result ≡ stored_of item }
{
    match item {
        Item::Cents(cents) => Stored {
            kind: scl::CENTS,
            cents,
            numer: 0,
            denom: 0,
        },
        Item::Fraction(numer, Some(denom)) => Stored {
            kind: scl::FRACTION,
            cents: 0.0,
            numer,
            denom,
        },
        Item::Fraction(numer, None) => Stored {
            kind: scl::WHOLE,
            cents: 0.0,
            numer,
            denom: 0,
        },
    }
}

// The item at a place of the four columns.
pub fn write_item(
    kind: &mut [u8],
    cents: &mut [f64],
    numer: &mut [u32],
    denom: &mut [u32],
    at: usize,
    item: Item,
)
    requires { (at < length kind.old) × (at < length cents.old) × (at < length numer.old) × (at < length denom.old) }
    ensures { item_table kind.new cents.new numer.new denom.new
        ≡ written_at (item_table kind.old cents.old numer.old denom.old) at item }
{
    let stored = columns_of(item);
    kind[at] = stored.kind;
    cents[at] = stored.cents;
    numer[at] = stored.numer;
    denom[at] = stored.denom;
}

// The item at place i, reduced by the period.
fn reduced_at(items: &ItemColumns<'_>, period: Period, i: usize) -> Reduced
    requires { (i < length items.now.kinds) × (length items.now.cents ≡ length items.now.kinds) × (length items.now.numers ≡ length items.now.kinds) × (length items.now.denoms ≡ length items.now.kinds)
        × (is_usable (item_of (get_or items.now.kinds i 0) (get_or items.now.cents i nan) (get_or items.now.numers i 0) (get_or items.now.denoms i 0)) ≡ true) × IsPeriod period }
    ensures { (gives (entry i result.ratio result.wraps) ≡ reduced_entry period.ratio i (item_of (get_or items.now.kinds i 0) (get_or items.now.cents i nan) (get_or items.now.numers i 0) (get_or items.now.denoms i 0)))
        × (in_reach result.ratio ≡ true) }
{
    let item = items.item(i);
    reduction::reduce(period, reduction::ratio_of(item))
}

// The items, reduced by the period, in the order of their places.
fn fill(items: &ItemColumns<'_>, period: Period, ratio: &mut [f64], wraps: &mut [i32])
    requires { (length items.now.cents ≡ length items.now.kinds) × (length items.now.numers ≡ length items.now.kinds) × (length items.now.denoms ≡ length items.now.kinds)
        × (length ratio.old ≡ length items.now.kinds) × (length wraps.old ≡ length items.now.kinds)
        × (are_usable (items_of items.now.kinds items.now.cents items.now.numers items.now.denoms) ≡ true) × IsPeriod period }
    ensures { (gives (zip (from 0 (length ratio.new)) ratio.new wraps.new)
        ≡ entries_from period.ratio 0 (items_of items.now.kinds items.now.cents items.now.numers items.now.denoms))
        × AllInReach ratio.new }
{
    for i in 0..ratio.len() {
        let reduced = reduced_at(items, period, i);
        ratio[i] = reduced.ratio;
        wraps[i] = reduced.wraps;
    }
}

// The period's own entry: the last one; for a period below 1 the first, turned over.
fn override_period(period: f64, ratio: &mut [f64], wraps: &mut [i32])
    requires { (0 < length ratio.old) × (length wraps.old ≡ length ratio.old) }
    ensures { (ratio.new ≡ pick (le one_f period) (set ratio.old (length ratio.old - 1) period) (set ratio.old 0 (div binary64 one_f period)))
        × (wraps.new ≡ pick (le one_f period) (set wraps.old (length ratio.old - 1) (pos 0)) (set wraps.old 0 (pos 1))) }
{
    if period >= 1.0 {
        let last = ratio.len() - 1;
        ratio[last] = period;
        wraps[last] = 0;
    } else {
        ratio[0] = 1.0 / period;
        wraps[0] = 1;
    }
}

// The period: the ratio of the last item.
fn period_at(items: &ItemColumns<'_>) -> Period
    requires { (0 < length items.now.kinds) × (length items.now.cents ≡ length items.now.kinds) × (length items.now.numers ≡ length items.now.kinds) × (length items.now.denoms ≡ length items.now.kinds)
        × (are_usable (items_of items.now.kinds items.now.cents items.now.numers items.now.denoms) ≡ true) }
    ensures { (gives result.ratio ≡ ratio_of (last_of (items_of items.now.kinds items.now.cents items.now.numers items.now.denoms))) × IsPeriod result }
{
    let last = items.len() - 1;
    let item = items.item(last);
    reduction::period_of(reduction::ratio_of(item))
}

// The sorted list of usable items, place 0 among them, in columns of their length. 18 never arises.
fn build_whole(items: &ItemColumns<'_>, place: &mut [u32], ratio: &mut [f64], wraps: &mut [i32])
    requires { (0 < length items.now.kinds) × (length items.now.kinds ≤ 65536) × (length items.now.cents ≡ length items.now.kinds) × (length items.now.numers ≡ length items.now.kinds) × (length items.now.denoms ≡ length items.now.kinds)
        × (length place.old ≡ length items.now.kinds) × (length ratio.old ≡ length items.now.kinds) × (length wraps.old ≡ length items.now.kinds)
        × (are_usable (items_of items.now.kinds items.now.cents items.now.numers items.now.denoms) ≡ true) }
    ensures { gives (zip place.new ratio.new wraps.new) ≡ sorted_of (items_of items.now.kinds items.now.cents items.now.numers items.now.denoms) }
{
    let period = period_at(items);
    fill(items, period, ratio, wraps);
    override_period(period.ratio, ratio, wraps);
    sorted::arrange(place, ratio, wraps);
}

// The sorted list of `count` usable items and place 0, in columns that may be longer: what they hold after it stays. 18 never arises.
pub fn build_list(
    items: &ItemColumns<'_>,
    place: &mut [u32],
    ratio: &mut [f64],
    wraps: &mut [i32],
    count: usize,
)
    requires { (is_items count items.now ≡ true) × (count ≤ 65535)
        × (count < length place.old) × (count < length ratio.old) × (count < length wraps.old) }
    ensures { (is_given (sorted_of (items_in count items.now)) ≡ true)
        × (list_table place.new ratio.new wraps.new
        ≡ after_list (sorted_of (items_in count items.now))
        (list_table place.old ratio.old wraps.old)) }
{
    let n = count + 1;
    build_whole(
        &items.first(n),
        &mut place[..n],
        &mut ratio[..n],
        &mut wraps[..n],
    );
}

// Whether a scale of `count` items with this last one is beyond reach (18): two or more, and the period is 1.0.
pub fn is_beyond(last: Item, count: usize) -> bool
    requires { is_usable last ≡ true }
    ensures { result ≡ is_beyond count last }
{
    2 <= count && reduction::period_of(reduction::ratio_of(last)).octaves == 0.0
}
