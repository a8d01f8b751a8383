// Pitches through a mapping: `WHO CALL COUNT REFERENCE HZ OFFSET NUMBER X SIZE START END OCTAVE ENTRIES KEYS PLACES ..`, with 8 ENTRIES, all places
// of the mapping's table. A run answers `done` or a refusal, then all 8 places of its pitches and numbers.
use crate::say_pitch;
use frozen::columns;
use frozen::given::{count, int, natural, short, size};
use kbm::Kbm;
use key::{Degree, PianoKey};
use say::Columns;
use scl::{ItemColumns, Scl};
use std::io;
use std::io::Write;

// The mapping of a line.
fn mapping(line: &[u8]) -> Kbm {
    Kbm {
        root: crate::scaled::root(line),
        start: PianoKey(int(line, 9)),
        end: PianoKey(int(line, 10)),
        octave: short(line, 11),
        count: count(line, 8),
    }
}

// That a run is done.
fn say_done<W: Write>(sink: &mut W, _done: ()) -> io::Result<()> {
    say::word(sink, b"done")
}

// A run in either counting, then its places: the pitch of each and the number.
fn say_run<W: Write>(
    sink: &mut W,
    is_middle: bool,
    c: &Columns,
    map: &[i32],
    line: &[u8],
) -> io::Result<()> {
    let scl = Scl {
        count: count(line, 2),
    };
    let kbm = mapping(line);
    let first = PianoKey(int(line, 6));
    let keys = natural(line, 20);
    let items = ItemColumns::new(&c.kind, &c.cents, &c.numer, &c.denom);
    let mut hz = [0.5; 8];
    let mut numbers = [99u32; 8];
    let said = if is_middle {
        tuning::key_pitches::pitches_from_middle(
            scl,
            &items,
            kbm,
            map,
            first,
            keys,
            &mut hz,
            &mut numbers,
        )
    } else {
        tuning::key_pitches::pitches_of(scl, &items, kbm, map, first, keys, &mut hz, &mut numbers)
    };
    say::answer(sink, said, say_done)?;
    for (x, number) in hz.iter().zip(numbers.iter()) {
        say::float(sink, *x)?;
        say::natural(sink, *number)?;
    }
    Ok(())
}

// `maybe_key`, `maybe_degree`, `run`, and counted from the middle key `middle_key`, `middle_run`.
pub fn say_mapped<W: Write>(sink: &mut W, name: &[u8], line: &[u8]) -> io::Result<()> {
    let c = crate::items_of(size(line, 21), line, 22);
    let scl = Scl {
        count: count(line, 2),
    };
    let kbm = mapping(line);
    let entries = columns::ints(0, 8, line, 12, 1);
    let map = &entries[..8];
    let number = int(line, 6);
    let items = ItemColumns::new(&c.kind, &c.cents, &c.numer, &c.denom);
    let said = match name {
        b"run" => return say_run(sink, false, &c, map, line),
        b"middle_run" => return say_run(sink, true, &c, map, line),
        b"maybe_key" => tuning::maybe_pitch_of(scl, &items, kbm, map, PianoKey(number)),
        b"maybe_degree" => { tuning::maybe_pitch_of_degree(scl, &items, kbm, map, Degree(number)) }
        _ => tuning::maybe_pitch_from_middle(scl, &items, kbm, map, PianoKey(number)),
    };
    say::answer(sink, said, say_pitch)
}
