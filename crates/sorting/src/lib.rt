// The stable order of a scale's sorted list, in its three lent columns: a heapsort where they stand, O(n log n), with no further
// memory; one pass over a list that is in order. Document 01, "Scales and searches".
//
// An inner crate: what it asks of its columns, its callers have made sure of.
#![tactic(auto)]

ghost use Rattle.std.specs.Prelude.{◌≡◌, ◌+◌, ◌*◌, ◌≤◌, ◌<◌, length, pos};
ghost use Rattle.std.specs.Float.{nan};
ghost use Rattle.sorting.specs.Entries.{zip, Columns};
ghost use Rattle.sorting.specs.Order.{lower, sort_by};
ghost use Rattle.sorting.specs.Asked.{AllPositive, Ascending, in_order};
ghost use Rattle.sorting.specs.Heap.{earlier_at, later_of, top_of, swapped, Sifts};

// Whether entry i comes before entry j: by its ratio, and of equal ratios by its place.
fn earlier(place: &[u32], ratio: &[f64], i: usize, j: usize) -> bool
    requires { (i < length place.now) × (j < length place.now) × (length ratio.now ≡ length place.now) }
    ensures { result ≡ earlier_at place.now ratio.now i j }
{
    let a = ratio[i];
    let b = ratio[j];
    if a < b {
        true
    } else if b < a {
        false
    } else {
        place[i] < place[j]
    }
}

// The later one of the entries c and j, where j is below k; else c.
fn later(place: &[u32], ratio: &[f64], c: usize, j: usize, k: usize) -> usize
    requires { (c < k) × (k ≤ length place.now) × (length ratio.now ≡ length place.now) }
    ensures { result ≡ later_of (earlier_at place.now ratio.now) c j k }
{
    if j < k {
        if earlier(place, ratio, c, j) { j } else { c }
    } else {
        c
    }
}

// The last one of entry i and its two children, of those below k.
fn top(place: &[u32], ratio: &[f64], i: usize, k: usize) -> usize
    requires { (i < k) × (k ≤ length place.now) × (length ratio.now ≡ length place.now) }
    ensures { result ≡ top_of (earlier_at place.now ratio.now) i k }
{
    let c = later(place, ratio, i, 2 * i + 1, k);
    later(place, ratio, c, 2 * i + 2, k)
}

// Entries i and j change places.
fn swap_entries(place: &mut [u32], ratio: &mut [f64], wraps: &mut [i32], i: usize, j: usize)
    requires { (i < length place.old) × (j < length place.old) × (length ratio.old ≡ length place.old) × (length wraps.old ≡ length place.old) }
    ensures { (place.new ≡ swapped 0 place.old i j)
        × (ratio.new ≡ swapped nan ratio.old i j)
        × (wraps.new ≡ swapped (pos 0) wraps.old i j) }
{
    place.swap(i, j);
    ratio.swap(i, j);
    wraps.swap(i, j);
}

// Entry s goes down among the first k until no child is after it.
fn sift_down(place: &mut [u32], ratio: &mut [f64], wraps: &mut [i32], s: usize, k: usize)
    requires { (s < k) × (k ≤ length place.old) × (length ratio.old ≡ length place.old) × (length wraps.old ≡ length place.old) }
    ensures { Sifts s k place.old ratio.old wraps.old place.new ratio.new wraps.new }
{
    let mut i = s;
    // A `while`: i goes from an entry to its child.
    while i < k {
        let c = top(place, ratio, i, k);
        if c == i {
            return;
        }
        swap_entries(place, ratio, wraps, i, c);
        i = c;
    }
}

// The entries in the stable order of their ratios, whatever order they have: a heapsort.
fn heap_sort(place: &mut [u32], ratio: &mut [f64], wraps: &mut [i32])
    requires { (length ratio.old ≡ length place.old) × (length wraps.old ≡ length place.old) × Ascending place.old × AllPositive ratio.old }
    ensures { Columns (sort_by lower (zip place.old ratio.old wraps.old)) place.new ratio.new wraps.new }
{
    let n = place.len();
    let mut s = n / 2;
    // Two `while`s: they count down, and the heap is what is behind s, and then before k.
    while 0 < s {
        s -= 1;
        sift_down(place, ratio, wraps, s, n);
    }
    let mut k = n;
    while 1 < k {
        k -= 1;
        swap_entries(place, ratio, wraps, 0, k);
        sift_down(place, ratio, wraps, 0, k);
    }
}

// Whether no ratio is below the one before it.
fn is_in_order(ratio: &[f64]) -> bool
    ensures { result ≡ in_order ratio.now }
{
    let mut last = 0.0;
    for r in ratio {
        if *r < last {
            return false;
        }
        last = *r;
    }
    true
}

// The entries in the stable order of their ratios; one pass where they have it.
pub fn sort_entries(place: &mut [u32], ratio: &mut [f64], wraps: &mut [i32])
    requires { (length ratio.old ≡ length place.old) × (length wraps.old ≡ length place.old) × Ascending place.old × AllPositive ratio.old }
    ensures { Columns (sort_by lower (zip place.old ratio.old wraps.old)) place.new ratio.new wraps.new }
{
    if is_in_order(ratio) {
        return;
    }
    heap_sort(place, ratio, wraps);
}
