// A scale's sorted list in its three lent columns: what order and the repeat rule leave, a test of lent lists, and where a
// search starts. Document 01, "Scales and searches".
//
// An inner crate: what `number`, `arrange` and `first_not_below` ask of their columns, their callers have made sure of.
#![tactic(auto)]

ghost use Rattle.std.specs.Prelude.{◌≡◌, ◌&&◌, ◌≤◌, ◌<◌, ◌+◌, length, get_or, set, take, pos, T, leb, ltb};
ghost use Rattle.std.specs.Float.{nan};
ghost use Rattle.std.specs.Float.Ieee.Positive.{positive};
ghost use Rattle.sorting.specs.Asked.{AllPositive};
ghost use Rattle.sorting.specs.Entries.{zip, Columns};
ghost use Rattle.sorted.specs.Repeats.{near, keep, arranged};
ghost use Rattle.sorting.specs.Stable.{NeverFalls};
ghost use Rattle.base.specs.Said.{pick};
ghost use Rattle.sorted.specs.Lent.{ListTable, usable, are_within, list_table, is_list, first_not_below, from};

use std::marker::Model;

// Whether the quotient of two ratios is as good as 1.
fn is_near(a: f64, c: f64) -> bool
    ensures { result ≡ near a c }
{
    floats::is_negligible(a / c)
}

// Entry j becomes what entry i is.
fn copy_entry(place: &mut [u32], ratio: &mut [f64], wraps: &mut [i32], i: usize, j: usize)
    requires { (i < length place.old) × (j < length place.old) × (length ratio.old ≡ length place.old) × (length wraps.old ≡ length place.old) }
    ensures { (place.new ≡ set place.old j (get_or place.old i 0))
        × (ratio.new ≡ set ratio.old j (get_or ratio.old i nan))
        × (wraps.new ≡ set wraps.old j (get_or wraps.old i (pos 0))) }
{
    place[j] = place[i];
    ratio[j] = ratio[i];
    wraps[j] = wraps[i];
}

// Each entry that repeats the last one kept gives way to it.
fn keep_first(place: &mut [u32], ratio: &mut [f64], wraps: &mut [i32])
    requires { (length ratio.old ≡ length place.old) × (length wraps.old ≡ length place.old) }
    ensures { Columns (keep (zip place.old ratio.old wraps.old)) place.new ratio.new wraps.new }
{
    let mut q: usize = 0;
    for k in 0..ratio.len() {
        if is_near(ratio[k], ratio[q]) {
            copy_entry(place, ratio, wraps, q, k);
        } else {
            q = k;
        }
    }
}

// The places in their own order.
pub fn number(place: &mut [u32])
    requires { length place.old ≤ 65536 }
    ensures { place.new ≡ from 0 (length place.old) }
{
    for i in 0..place.len() {
        place[i] = i as u32;
    }
}

// A sorted list made of ratios and wraps in the order of their places: the entries in the stable order of their ratios, where of
// those that repeat each other the first stands for all. What place holds at the call does not matter.
pub fn arrange(place: &mut [u32], ratio: &mut [f64], wraps: &mut [i32])
    requires { (length ratio.old ≡ length place.old) × (length wraps.old ≡ length place.old) × (length place.old ≤ 65536) × AllPositive ratio.old }
    ensures { Columns (arranged (zip (from 0 (length place.old)) ratio.old wraps.old)) place.new ratio.new wraps.new }
{
    number(place);
    sorting::sort_entries(place, ratio, wraps);
    keep_first(place, ratio, wraps);
}

// The place of the first ratio that is not below x, found by halving.
fn first_not_below(ratio: &[f64], x: f64) -> usize
    requires { AllPositive ratio.now × NeverFalls ratio.now × T (positive x) }
    ensures { result ≡ first_not_below ratio.now x }
{
    let mut lo: usize = 0;
    let mut hi: usize = ratio.len();
    // A `while`: it halves what is left.
    while lo < hi {
        let mid = lo + (hi - lo) / 2;
        if ratio[mid] < x {
            lo = mid + 1;
        } else {
            hi = mid;
        }
    }
    lo
}

// The higher of two places.
fn higher(a: u32, c: u32) -> u32
    ensures { result ≡ pick (ltb a c) c a }
{
    if a < c { c } else { a }
}

// Whether a place is at most n.
fn is_at_most(place: u32, n: usize) -> bool
    ensures { result ≡ leb place n }
{
    (place as usize) <= n
}

// Whether the ratios of the first n entries lie in 2^-900..2^900 and never fall, and their places are at most `count`: from 2^-900 on each
// ratio is at least the one before it, the last is at most 2^900, and the highest place is at most `count`. One comparison for a ratio, one
// for a place and no branch, so that the compiler can make several at a time.
fn are_entries(place: &[u32], ratio: &[f64], n: usize, count: usize) -> bool
    requires { (n ≤ length place.now) × (n ≤ length ratio.now) }
    ensures { result ≡ (usable (take n ratio.now) && are_within count (take n place.now)) }
{
    let mut all = true;
    let mut last = floats::REACH_LOW;
    let mut highest: u32 = 0;
    for i in 0..n {
        let r = ratio[i];
        all = all & (last <= r);
        last = r;
        highest = higher(highest, place[i]);
    }
    let rising = all & (last <= floats::REACH_HIGH);
    rising & is_at_most(highest, count)
}

// Whether the columns hold the list of `count` items: place 0 and a place for each, ratios in 2^-900..2^900 that never fall, places
// within the count. Ratios and places are gone over once; of the wraparounds only the number is looked at.
fn is_list(place: &[u32], ratio: &[f64], wraps: &[i32], count: usize) -> bool
    ensures { result ≡ is_list count (list_table place.now ratio.now wraps.now) }
{
    if count < place.len() {
        if count < ratio.len() {
            if count < wraps.len() {
                return are_entries(place, ratio, count + 1, count);
            }
        }
    }
    false
}

// The three columns of a scale's sorted list, as they are lent to be read.
#[derive(Drop)]
pub struct ListColumns<'a> {
    place: &'a [u32],
    ratio: &'a [f64],
    wraps: &'a [i32],
}

impl<'a> Model for ListColumns<'a> {
    ghost Value = { ListTable };

    ghost view = { λ c. list_table c.place.now c.ratio.now c.wraps.now };
}

impl<'a> ListColumns<'a> {
    // The columns as one.
    pub fn new(place: &'a [u32], ratio: &'a [f64], wraps: &'a [i32]) -> ListColumns<'a>
        ensures { result ≡ list_table place.now ratio.now wraps.now }
    {
        ListColumns {
            place,
            ratio,
            wraps,
        }
    }

    // The place that entry i stands for.
    pub fn place(&self, i: usize) -> u32
        requires { i < length self.now.places }
        ensures { result ≡ get_or self.now.places i 0 }
    {
        let place = self.place;
        place[i]
    }

    // The ratio of entry i.
    pub fn ratio(&self, i: usize) -> f64
        requires { i < length self.now.ratios }
        ensures { result ≡ get_or self.now.ratios i nan }
    {
        let ratio = self.ratio;
        ratio[i]
    }

    // How many periods entry i was taken down.
    pub fn wraps(&self, i: usize) -> i32
        requires { i < length self.now.wraps }
        ensures { result ≡ get_or self.now.wraps i (pos 0) }
    {
        let wraps = self.wraps;
        wraps[i]
    }

    // Whether they hold the list of `count` items: place 0 and a place for each, ratios in 2^-900..2^900 that never fall, places
    // within the count. Ratios and places are gone over once; of the wraparounds only the number is looked at.
    pub fn holds(&self, count: usize) -> bool
        ensures { result ≡ is_list count self.now }
    {
        is_list(self.place, self.ratio, self.wraps, count)
    }

    // The place of the first of n ratios that is not below x.
    pub fn first_not_below(&self, n: usize, x: f64) -> usize
        requires { (n ≤ length self.now.ratios) × AllPositive (take n self.now.ratios) × NeverFalls (take n self.now.ratios) × T (positive x) }
        ensures { result ≡ first_not_below (take n self.now.ratios) x }
    {
        first_not_below(&self.ratio[..n], x)
    }
}
