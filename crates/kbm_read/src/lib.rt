// The reader of keyboard mappings. Document 01, "Lines" and "Mapping"; the Rust's `import_kbm`.
//
// A first pass goes over the lines and finds the mapping or the first fault; a second, which cannot fail, writes the entries.
#![tactic(auto)]

mod line;

ghost use Rattle.std.specs.Prelude.{◌≡◌, ℕ, ◌-◌, ◌≤◌, length};
ghost use Rattle.base.specs.Said.{outcome};
ghost use Rattle.base.specs.Tables.{over};
ghost use Rattle.kbm.specs.Table.{numbers_of};
ghost use Rattle.kbm_read.specs.Reader.{unread, which_of, mapping_of, finished, read_of, given_in, after_read, padded};

use crate::line::{Due, Found, Head, State, found_in, take_line};
use base::{Reason, Refusal};
use kbm::{Kbm, KbmRoot};
use key::PianoKey;
use pitch::Pitch;
use text::line::read_line;
use text::lines::next_line;

// The most entries that a mapping can have.
const MOST: usize = 65535;

// Which required line is missing, counted from 1, where no line is left; 0 for none.
fn which_of(due: Due) -> usize
    ensures { result ≡ which_of due }
{
    match due {
        Due::Size => 1,
        Due::FirstKey => 2,
        Due::LastKey => 3,
        Due::MiddleKey => 4,
        Due::ReferenceKey => 5,
        Due::ReferencePitch => 6,
        Due::Octave => 7,
        Due::Entries => 0,
    }
}

// The mapping that the required lines say.
fn mapping_of(head: Head) -> Kbm
    ensures { result ≡ mapping_of head }
{
    Kbm {
        root: KbmRoot {
            reference: PianoKey(head.reference as i32),
            pitch: Pitch(head.hz),
            offset: (head.middle as i32) - (head.reference as i32),
        },
        start: PianoKey(head.first),
        end: PianoKey(head.end),
        octave: head.octave,
        count: head.size,
    }
}

// The mapping after the last line; 2, 12 where the added entries have no place, 13, 14.
fn finish(state: State, room: usize) -> Result<Kbm, Refusal>
    ensures { outcome result ≡ finished room state }
{
    let head = state.head;
    let count = state.count;
    let missing = which_of(state.due);
    if missing > 0 {
        return Err(Refusal {
            reason: Reason::LineMissing,
            detail: missing,
        });
    }
    let size = head.size as usize;
    if room < size {
        return Err(Refusal {
            reason: Reason::NoRoom,
            detail: 0,
        });
    }
    if MOST < count {
        return Err(Refusal {
            reason: Reason::TooLarge,
            detail: 0,
        });
    }
    if size < count {
        return Err(Refusal {
            reason: Reason::InconsistentCount,
            detail: 0,
        });
    }
    Ok(mapping_of(head))
}

// Before the first line.
fn unread() -> State
    ensures { result ≡ unread }
{
    State {
        due: Due::Size,
        head: Head {
            size: 0,
            first: 0,
            end: 0,
            middle: 0,
            reference: 0,
            hz: 0.0,
            octave: 0,
        },
        count: 0,
    }
}

// The first pass: the mapping that the text is, or its first fault.
fn check(text: &[u8], room: usize) -> Result<Kbm, Refusal>
    ensures { outcome result ≡ read_of room text.now }
{
    let mut at = 0;
    let mut line = 1;
    let mut state = unread();
    // A `while`, here and below, since a line has any length, and `next_line` says where the next one starts.
    while at < text.len() {
        let ends = next_line(text, at);
        let says = read_line(text, at, ends.end);
        state = take_line(text, says, line, room, state)?;
        line += 1;
        at = ends.next;
    }
    finish(state, room)
}

// The second pass: writes the entries that the text gives, and answers how many.
fn fill(text: &[u8], map: &mut [i32]) -> usize
    requires { length (given_in text.now) ≤ length map.old }
    ensures { (result ≡ length (given_in text.now)) × (map.new ≡ over map.old (numbers_of (given_in text.now))) }
{
    let mut at = 0;
    let mut required = 7;
    let mut n = 0;
    while at < text.len() {
        let ends = next_line(text, at);
        let says = read_line(text, at, ends.end);
        match found_in(text, says, required) {
            Found::Nothing => {}
            Found::Required => {
                required -= 1;
            }
            Found::Is(entry) => {
                map[n] = kbm::number_of(entry);
                n += 1;
            }
        }
        at = ends.next;
    }
    n
}

// Writes unmapped entries from place `from` up to, not including, `to`.
fn pad(map: &mut [i32], from: usize, to: usize)
    requires { to ≤ length map.old }
    ensures { map.new ≡ padded (to - from) from map.old }
{
    for i in from..to {
        map[i] = kbm::UNMAPPED;
    }
}

// The mapping that the text is, its entries in `map`; or the first fault by 01's order, with `map` as it was.
pub fn read_kbm(text: &[u8], map: &mut [i32]) -> Result<Kbm, Refusal>
    ensures { (outcome result ≡ read_of (length map.old) text.now) × (map.new ≡ after_read text.now map.old) }
{
    let mapping = check(text, map.len())?;
    let n = fill(text, map);
    pad(map, n, usize::from(mapping.count));
    Ok(mapping)
}
