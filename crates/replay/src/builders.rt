// Runs of a mapping's builder. A degree or a formal octave that may lack is two fields: 1 and the number, or 0 and 0.
use crate::mappings::{PATTERN, first, first_mut, root_of, say_mapping};
use base::Refusal;
use frozen::columns;
use frozen::given::{flag, float, int, short, size};
use kbm_build::KbmBuilder;
use key::PianoKey;
use std::io;
use std::io::Write;

// One push of two fields.
fn pushed(
    builder: KbmBuilder,
    map: &mut [i32],
    line: &[u8],
    at: usize,
) -> Result<KbmBuilder, Refusal> {
    if flag(line, at) {
        builder.push_mapped_key(map, short(line, at.wrapping_add(1)))
    } else {
        builder.push_unmapped_key(map)
    }
}

// The new count.
fn say_count<W: Write>(sink: &mut W, builder: KbmBuilder) -> io::Result<()> {
    say::size(sink, builder.count)
}

// All pushes of a line, each answered, then the build of the table. A refused push leaves the builder as it was.
fn say_run<W: Write>(
    sink: &mut W,
    start: KbmBuilder,
    map: &mut [i32],
    line: &[u8],
) -> io::Result<()> {
    let mut builder = start;
    let mut at: usize = 11;
    for _ in 0..size(line, 10) {
        let said = pushed(builder, map, line, at);
        say::answer(sink, said, say_count)?;
        builder = said.unwrap_or(builder);
        at = at.wrapping_add(2);
    }
    say::answer(sink, builder.build(map), say_mapping)
}

// The builder of a line, with its range and formal octave.
fn begun(map: &[i32], line: &[u8]) -> Result<KbmBuilder, Refusal> {
    let root = root_of(int(line, 3), float(line, 4), int(line, 5));
    let builder = KbmBuilder::new(root, map)?.range(PianoKey(int(line, 6)), PianoKey(int(line, 7)));
    if flag(line, 8) {
        Ok(builder.formal_octave(short(line, 9)))
    } else {
        Ok(builder)
    }
}

// `build ROOM ROOT START END OCTAVE PUSHES ..`: the answer of each push, the mapping or a refusal, then the table; where no builder starts,
// its refusal and the table.
pub fn say_build<W: Write>(sink: &mut W, line: &[u8]) -> io::Result<()> {
    let mut map = [PATTERN; 16];
    let room = size(line, 2);
    let table = first_mut(&mut map, room);
    match begun(table, line) {
        Ok(builder) => say_run(sink, builder, table, line)?,
        Err(refusal) => say::refusal(sink, refusal)?,
    }
    say::table(sink, first(&map, room))
}

// A state of two fields, ROOM and COUNT, which need not be a table's.
fn state(line: &[u8]) -> KbmBuilder {
    KbmBuilder {
        root: root_of(0, 440.0, 0),
        start: PianoKey(0),
        end: PianoKey(128),
        octave: None,
        room: size(line, 2),
        count: size(line, 3),
    }
}

// `push ROOM COUNT DEGREE TABLE` on a state that need not be the table's: the new count or a refusal, then the table.
pub fn say_push<W: Write>(sink: &mut W, line: &[u8]) -> io::Result<()> {
    let places = size(line, 6);
    let mut map = columns::ints(PATTERN, places, line, 7, 1);
    let said = pushed(state(line), first_mut(&mut map, places), line, 4);
    say::answer(sink, said, say_count)?;
    say::table(sink, first(&map, places))
}

// `finish ROOM COUNT TABLE`, the build of a state that need not be the table's, with formal octave 1: the mapping or a refusal, then the
// table.
pub fn say_finish<W: Write>(sink: &mut W, line: &[u8]) -> io::Result<()> {
    let places = size(line, 4);
    let map = columns::ints(PATTERN, places, line, 5, 1);
    let table = first(&map, places);
    say::answer(sink, state(line).formal_octave(1).build(table), say_mapping)?;
    say::table(sink, table)
}
