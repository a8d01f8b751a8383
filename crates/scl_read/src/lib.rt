// The reader of scales. Document 01, "Lines" and "Scale"; the Rust's `import_scl`.
//
// A first pass goes over the lines and finds the scale or the first fault; a second, which cannot fail, writes the items, and the
// sorted list is built of them; a third, to the first line with content, finds the description (`description_of`).
#![tactic(auto)]

mod item;
mod line;

ghost use Rattle.std.specs.Prelude.{◌≡◌, true, ◌≤◌, length};
ghost use Rattle.base.specs.Numbers.{number_of};
ghost use Rattle.base.specs.Said.{refuses, outcome};
ghost use Rattle.scl.specs.Answers.{says_scl};
ghost use Rattle.scl.specs.Items.{is_usable};
ghost use Rattle.scl.specs.Table.{item_table};
ghost use Rattle.scl_tables.specs.Room.{room_of};
ghost use Rattle.sorted.specs.Lent.{list_table};
ghost use Rattle.scl_read.specs.Reader.{unread, which_of, finished, check_of, items_read, written_from, description_in, read_of, after_items, after_sorted};

use crate::line::{Due, Found, State, found_in, take_line};
use base::{Reason, Refusal};
use scl::{Item, ItemColumns, Scl};
use text::line::{LineSays, read_line};
use text::lines::next_line;

// The description: where its part of the text starts and ends.
#[derive(Clone, Copy)]
pub struct Description {
    pub start: usize,
    pub end: usize,
}

// A scale that was read, and its description.
#[derive(Clone, Copy)]
pub struct SclRead {
    pub scl: Scl,
    pub description: Description,
}

// The most items that a scale can have.
const MOST: usize = 65535;

// 12: a lent table has no place.
const NO_PLACE: Refusal = Refusal {
    reason: Reason::NoRoom,
    detail: 0,
};

// A refusal after the last line.
fn refused(reason: Reason, detail: usize) -> Result<Scl, Refusal>
    ensures { says_scl result ≡ refuses (number_of reason) detail }
{
    Err(Refusal { reason, detail })
}

// Which required line is missing, counted from 1, where no line is left; 0 for none.
fn which_of(due: Due) -> usize
    ensures { result ≡ which_of due }
{
    match due {
        Due::Description => 1,
        Due::Count => 2,
        Due::Items => 0,
    }
}

// The scale after the last line; 2, 13, 14, 18.
fn finish(state: State) -> Result<Scl, Refusal>
    requires { is_usable state.last ≡ true }
    ensures { says_scl result ≡ finished state }
{
    let count = state.count;
    let missing = which_of(state.due);
    if missing > 0 {
        return refused(Reason::LineMissing, missing);
    }
    if MOST < count {
        return refused(Reason::TooLarge, 0);
    }
    if count != usize::from(state.declared) {
        return refused(Reason::InconsistentCount, 0);
    }
    if scl_tables::is_beyond(state.last, count) {
        return refused(Reason::BeyondReach, 0);
    }
    Ok(Scl {
        count: state.declared,
    })
}

// Before the first line.
fn unread() -> State
    ensures { result ≡ unread }
{
    State {
        due: Due::Description,
        declared: 0,
        count: 0,
        last: Item::Cents(0.0),
    }
}

// The first pass: the scale that the text is, where so many items have a place, or its first fault.
fn check(text: &[u8], places: usize) -> Result<Scl, Refusal>
    ensures { says_scl result ≡ check_of places text.now }
{
    let mut at = 0;
    let mut line = 1;
    let mut state = unread();
    // A `while`, here and below, since a line has any length, and `next_line` says where the next one starts.
    while at < text.len() {
        let ends = next_line(text, at);
        let says = read_line(text, at, ends.end);
        state = take_line(text, says, line, places, state)?;
        line += 1;
        at = ends.next;
    }
    finish(state)
}

// The second pass: place 0, and the items that the text gives after it.
fn fill(text: &[u8], kind: &mut [u8], cents: &mut [f64], numer: &mut [u32], denom: &mut [u32])
    requires { (length (items_read text.now) ≤ length kind.old) × (length (items_read text.now) ≤ length cents.old)
        × (length (items_read text.now) ≤ length numer.old) × (length (items_read text.now) ≤ length denom.old) }
    ensures { item_table kind.new cents.new numer.new denom.new
        ≡ written_from (item_table kind.old cents.old numer.old denom.old) 0 (items_read text.now) }
{
    scl_tables::write_item(kind, cents, numer, denom, 0, Item::Cents(0.0));
    let mut at = 0;
    let mut required = 2;
    let mut n = 1;
    while at < text.len() {
        let ends = next_line(text, at);
        let says = read_line(text, at, ends.end);
        match found_in(text, says, required) {
            Found::Nothing => {}
            Found::Required => {
                required -= 1;
            }
            Found::Is(item) => {
                scl_tables::write_item(kind, cents, numer, denom, n, item);
                n += 1;
            }
        }
        at = ends.next;
    }
}

// The description: the first line with content, trimmed, as a part of the text.
fn description_of(text: &[u8]) -> Description
    ensures { result ≡ description_in text.now }
{
    let mut at = 0;
    while at < text.len() {
        let ends = next_line(text, at);
        let says = read_line(text, at, ends.end);
        match says {
            LineSays::NotUtf8 => {}
            LineSays::Blank => {}
            LineSays::Comment => {}
            LineSays::Content {
                start,
                end,
                token_end: _,
            } => {
                return Description { start, end };
            }
        }
        at = ends.next;
    }
    Description { start: 0, end: 0 }
}

// The scale that the text is, its items and its sorted list in the lent columns; or the first fault by 01's order, with all columns
// as they were. 12, detail 0, where a column has no place.
pub fn read_scl(
    text: &[u8],
    kind: &mut [u8],
    cents: &mut [f64],
    numer: &mut [u32],
    denom: &mut [u32],
    place: &mut [u32],
    ratio: &mut [f64],
    wraps: &mut [i32],
) -> Result<SclRead, Refusal>
    ensures value { outcome result ≡ read_of (room_of (item_table kind.old cents.old numer.old denom.old) (list_table place.old ratio.old wraps.old)) text.now }
    ensures table_after { item_table kind.new cents.new numer.new denom.new
        ≡ after_items text.now (item_table kind.old cents.old numer.old denom.old) (list_table place.old ratio.old wraps.old) }
    ensures list_after { list_table place.new ratio.new wraps.new
        ≡ after_sorted text.now (item_table kind.old cents.old numer.old denom.old) (list_table place.old ratio.old wraps.old) }
{
    let room = scl_tables::room_of(kind, cents, numer, denom, place, ratio, wraps);
    if room == 0 {
        return Err(NO_PLACE);
    }
    let scl = check(text, room - 1)?;
    let count = scl.count as usize;
    fill(text, kind, cents, numer, denom);
    scl_tables::build_list(
        &ItemColumns::new(kind, cents, numer, denom),
        place,
        ratio,
        wraps,
        count,
    );
    let description = description_of(text);
    Ok(SclRead { scl, description })
}
