// The sorted list as a lent slice of structs, beside the columns that the work is done on. Document 01, "Scales and searches".
//
// Such a call lends the columns too. They count in the room, and are left as the column call leaves them; the slice of structs then
// holds the same entries from its first place on, and what stood behind them stays. A refused call writes nothing.
#![tactic(auto)]

pub mod search;

ghost use Rattle.std.specs.Prelude.{◌≡◌, ◌≤◌, ◌<◌, length};
ghost use Rattle.base.specs.Said.{outcome};
ghost use Rattle.base.specs.Tables.{over};
ghost use Rattle.sorted.specs.Lent.{list_table};
ghost use Rattle.scl.specs.Answers.{says_scl};
ghost use Rattle.scl.specs.Table.{item_table};
ghost use Rattle.scl_tables.specs.Build.{after_list};
ghost use Rattle.scl_build.specs.Builder.{counted};
ghost use Rattle.scl_read.specs.Reader.{items_after, sorted_after};
ghost use Rattle.entries.specs.Entries.{sorted_entry_at, as_entries, first_of};
ghost use Rattle.entries.specs.Builds.{built_in, entries_stored, Holds};
ghost use Rattle.entries.specs.Readings.{read_in, count_read, sorted_read};
ghost use Rattle.entries.specs.Same.{BuildEntries, ReadEntries};

use base::Refusal;
use scl::Scl;
use scl_build::SclBuilder;
use scl_read::SclRead;

#[derive(Clone, Copy)]
pub struct SortedEntry {
    pub place: u32,
    pub ratio: f64,
    pub wraps: i32,
}

// The entry that three columns hold at a place.
fn entry_of<'c>(place: &'c [u32], ratio: &'c [f64], wraps: &'c [i32], i: usize) -> SortedEntry
    requires { (i < length place.now) × (i < length ratio.now) × (i < length wraps.now) }
    ensures { result ≡ sorted_entry_at place.now ratio.now wraps.now i }
{
    SortedEntry {
        place: place[i],
        ratio: ratio[i],
        wraps: wraps[i],
    }
}

// The first n entries become those of the columns.
fn store_list<'c>(
    list: &mut [SortedEntry],
    place: &'c [u32],
    ratio: &'c [f64],
    wraps: &'c [i32],
    n: usize,
)
    requires { (n ≤ length list.old) × (n ≤ length place.now) × (n ≤ length ratio.now) × (n ≤ length wraps.now) }
    ensures { as_entries list.new ≡ over (as_entries list.old) (first_of n (list_table place.now ratio.now wraps.now)) }
{
    for i in 0..n {
        list[i] = entry_of(place, ratio, wraps, i);
    }
}

// How many entries an answer stores: one for place 0 and one for each item, none on a refusal.
fn stored_of(answer: Result<Scl, Refusal>) -> usize
    ensures { result ≡ entries_stored (says_scl answer) }
{
    match answer {
        Ok(scl) => scl.count as usize + 1,
        Err(_) => 0,
    }
}

// The build in columns, beside a list of so many places; 10 where that list is shorter than the state's room.
fn build_columns<'i, 'c>(
    state: SclBuilder,
    kind: &'i [u8],
    cents: &'i [f64],
    numer: &'i [u32],
    denom: &'i [u32],
    place: &'c mut [u32],
    ratio: &'c mut [f64],
    wraps: &'c mut [i32],
    places: usize,
) -> Result<Scl, Refusal>
    ensures { (says_scl result ≡ counted state (built_in state (item_table kind.now cents.now numer.now denom.now) (list_table place.old ratio.old wraps.old) places))
        × (list_table place.new ratio.new wraps.new
        ≡ after_list (built_in state (item_table kind.now cents.now numer.now denom.now) (list_table place.old ratio.old wraps.old) places) (list_table place.old ratio.old wraps.old))
        × Holds (says_scl result) (list_table place.new ratio.new wraps.new) places (built_in state (item_table kind.now cents.now numer.now denom.now) (list_table place.old ratio.old wraps.old) places) }
{
    if places < state.room {
        return Err(scl::NOT_USABLE);
    }
    state.build(kind, cents, numer, denom, place, ratio, wraps)
}

// The scale, its sorted list in columns, and the same list as structs: 10 where the state does not fit a column or the list of structs,
// or an item cannot be used, 13 over 65,535 items, 18 where two or more items have the period 1.0. The items stay as they are.
pub fn build_entries<'i>(
    state: SclBuilder,
    kind: &'i [u8],
    cents: &'i [f64],
    numer: &'i [u32],
    denom: &'i [u32],
    place: &mut [u32],
    ratio: &mut [f64],
    wraps: &mut [i32],
    list: &mut [SortedEntry],
) -> Result<Scl, Refusal>
    ensures { BuildEntries state (item_table kind.now cents.now numer.now denom.now) (list_table place.old ratio.old wraps.old) list.old result (list_table place.new ratio.new wraps.new) list.new }
{
    let answer = build_columns(
        state,
        kind,
        cents,
        numer,
        denom,
        place,
        ratio,
        wraps,
        list.len(),
    );
    let n = stored_of(answer);
    store_list(list, place, ratio, wraps, n);
    answer
}

// How many entries a read stores: one for place 0 and one for each item, none on a refusal.
fn stored_of_read(answer: Result<SclRead, Refusal>) -> usize
    ensures { result ≡ entries_stored (count_read (outcome answer)) }
{
    match answer {
        Ok(read) => read.scl.count as usize + 1,
        Err(_) => 0,
    }
}

// The read into columns, beside a list of so many places: the room is the shortest of the columns and that list.
fn read_columns<'i, 'c>(
    text: &[u8],
    kind: &'i mut [u8],
    cents: &'i mut [f64],
    numer: &'i mut [u32],
    denom: &'i mut [u32],
    place: &'c mut [u32],
    ratio: &'c mut [f64],
    wraps: &'c mut [i32],
    places: usize,
) -> Result<SclRead, Refusal>
    ensures { (outcome result ≡ read_in text.now (item_table kind.old cents.old numer.old denom.old) (list_table place.old ratio.old wraps.old) places)
        × (item_table kind.new cents.new numer.new denom.new
        ≡ items_after (read_in text.now (item_table kind.old cents.old numer.old denom.old) (list_table place.old ratio.old wraps.old) places) text.now (item_table kind.old cents.old numer.old denom.old))
        × (list_table place.new ratio.new wraps.new
        ≡ sorted_after (read_in text.now (item_table kind.old cents.old numer.old denom.old) (list_table place.old ratio.old wraps.old) places) text.now (list_table place.old ratio.old wraps.old))
        × Holds (count_read (outcome result)) (list_table place.new ratio.new wraps.new) places (sorted_read text.now (read_in text.now (item_table kind.old cents.old numer.old denom.old) (list_table place.old ratio.old wraps.old) places)) }
{
    if places < wraps.len() {
        return scl_read::read_scl(
            text,
            kind,
            cents,
            numer,
            denom,
            place,
            ratio,
            &mut wraps[..places],
        );
    }
    scl_read::read_scl(text, kind, cents, numer, denom, place, ratio, wraps)
}

// The scale that the text is, its items and sorted list in the lent columns, and the same list as structs; or the first fault by 01's
// order, with all of them as they were. The room is the shortest of the columns and the list of structs; 12, detail 0, where it is 0.
pub fn read_entries<'i>(
    text: &[u8],
    kind: &'i mut [u8],
    cents: &'i mut [f64],
    numer: &'i mut [u32],
    denom: &'i mut [u32],
    place: &mut [u32],
    ratio: &mut [f64],
    wraps: &mut [i32],
    list: &mut [SortedEntry],
) -> Result<SclRead, Refusal>
    ensures { ReadEntries text.now (item_table kind.old cents.old numer.old denom.old) (list_table place.old ratio.old wraps.old) list.old result (item_table kind.new cents.new numer.new denom.new) (list_table place.new ratio.new wraps.new) list.new }
{
    let answer = read_columns(
        text,
        kind,
        cents,
        numer,
        denom,
        place,
        ratio,
        wraps,
        list.len(),
    );
    let n = stored_of_read(answer);
    store_list(list, place, ratio, wraps, n);
    answer
}
