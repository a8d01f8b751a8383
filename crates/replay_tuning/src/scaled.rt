// Pitches and searches in a scale: `NAME COUNT REFERENCE HZ OFFSET NUMBER X PLACES ..`.
use crate::{say_found, say_pitch, say_ratio};
use frozen::given::{count, float, int, size};
use kbm::KbmRoot;
use key::{Degree, PianoKey};
use pitch::{Pitch, Ratio};
use scl::{ItemColumns, Scl};
use sorted::ListColumns;
use std::io;
use std::io::Write;

// The root of a question.
pub fn root(line: &[u8]) -> KbmRoot {
    KbmRoot {
        reference: PianoKey(int(line, 3)),
        pitch: Pitch(float(line, 4)),
        offset: int(line, 5),
    }
}

// The pitches that the items alone give.
pub fn say_scaled<W: Write>(sink: &mut W, name: &[u8], line: &[u8]) -> io::Result<()> {
    let scl = Scl {
        count: count(line, 2),
    };
    let c = crate::items_of(size(line, 8), line, 9);
    let number = int(line, 6);
    let items = ItemColumns::new(&c.kind, &c.cents, &c.numer, &c.denom);
    match name {
        b"period" => say::answer(sink, relative::period(scl, &items), say_ratio),
        b"relative" => say::answer(
            sink,
            relative::relative_pitch_of(scl, &items, Degree(number)),
            say_ratio,
        ),
        b"degree" => say::answer(
            sink,
            tuning::pitch_of(scl, &items, root(line), Degree(number)),
            say_pitch,
        ),
        _ => say::answer(
            sink,
            tuning::pitch_of_key(scl, &items, root(line), PianoKey(number)),
            say_pitch,
        ),
    }
}

// The pitches of a degree in ascending order.
pub fn say_sorted<W: Write>(sink: &mut W, name: &[u8], line: &[u8]) -> io::Result<()> {
    let scl = Scl {
        count: count(line, 2),
    };
    let c = crate::columns_of(size(line, 8), line, 9);
    let degree = Degree(int(line, 6));
    let items = ItemColumns::new(&c.kind, &c.cents, &c.numer, &c.denom);
    let list = ListColumns::new(&c.place, &c.ratio, &c.wraps);
    match name {
        b"sorted_relative" => say::answer(
            sink,
            relative::sorted_relative_pitch_of(scl, &items, &list, degree),
            say_ratio,
        ),
        _ => say::answer(
            sink,
            tuning::sorted_pitch_of(scl, &items, &list, root(line), degree),
            say_pitch,
        ),
    }
}

// The searches.
pub fn say_search<W: Write>(sink: &mut W, name: &[u8], line: &[u8]) -> io::Result<()> {
    let scl = Scl {
        count: count(line, 2),
    };
    let c = crate::columns_of(size(line, 8), line, 9);
    let x = float(line, 7);
    let root = root(line);
    let items = ItemColumns::new(&c.kind, &c.cents, &c.numer, &c.denom);
    let list = ListColumns::new(&c.place, &c.ratio, &c.wraps);
    let said = match name {
        b"find" => finding::find_by_relative_pitch(scl, &items, &list, Ratio(x)),
        b"find_sorted" => { finding::find_by_relative_pitch_sorted(scl, &items, &list, Ratio(x)) }
        b"find_pitch" => finding::find_by_pitch(scl, &items, &list, root, Pitch(x)),
        b"find_pitch_sorted" => {
            finding::find_by_pitch_sorted(scl, &items, &list, root, Pitch(x))
        }
        b"find_key" => {
            finding::find_key_by_pitch(scl, &items, &list, root, Pitch(x)).map(|key| key.0)
        }
        _ => return Ok(()),
    };
    say::answer(sink, said, say_found)
}
