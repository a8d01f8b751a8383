// Mappings. A root is three fields: reference key, pitch, offset. A mapping is seven: count, start, end, those of its root, formal octave.
// A table is the number of its places, at most 16, and each of them. An answer ends with what every lent place or byte is after the call.
use frozen::columns;
use frozen::given::{bytes, count, float, int, short, size};
use kbm::{Counting, Kbm, KbmRoot};
use key::PianoKey;
use pitch::Pitch;
use std::io;
use std::io::Write;

// What lent places and bytes are before a call.
pub const PATTERN: i32 = 0x5a5a5a5a;

const BYTE: u8 = 238;

// The first places, so many; all where there are fewer.
pub fn first(map: &[i32], places: usize) -> &[i32] {
    &map[..places.min(map.len())]
}

// The same, lent to be written.
pub fn first_mut(map: &mut [i32], places: usize) -> &mut [i32] {
    let end = places.min(map.len());
    &mut map[..end]
}

// The root of these.
pub fn root_of(reference: i32, hz: f64, offset: i32) -> KbmRoot {
    KbmRoot {
        reference: PianoKey(reference),
        pitch: Pitch(hz),
        offset,
    }
}

// The mapping of seven fields from field 3 on.
fn mapping(line: &[u8]) -> Kbm {
    Kbm {
        root: root_of(int(line, 6), float(line, 7), int(line, 8)),
        start: PianoKey(int(line, 4)),
        end: PianoKey(int(line, 5)),
        octave: short(line, 9),
        count: count(line, 3),
    }
}

// Reference key, pitch and offset.
fn say_root<W: Write>(sink: &mut W, root: KbmRoot) -> io::Result<()> {
    say::int(sink, root.reference.0)?;
    say::float(sink, root.pitch.0)?;
    say::int(sink, root.offset)
}

// Count, start and end, those of the root, and the formal octave.
pub fn say_mapping<W: Write>(sink: &mut W, kbm: Kbm) -> io::Result<()> {
    say::size(sink, usize::from(kbm.count))?;
    say::int(sink, kbm.start.0)?;
    say::int(sink, kbm.end.0)?;
    say_root(sink, kbm.root)?;
    say::short(sink, kbm.octave)
}

// `degree KEY MAPPING TABLE`, and `middle_degree`, counted from the middle key: the degree, or a refusal.
pub fn say_degree<W: Write>(sink: &mut W, counting: Counting, line: &[u8]) -> io::Result<()> {
    let places = size(line, 10);
    let map = columns::ints(PATTERN, places, line, 11, 1);
    let table = first(&map, places);
    let key = PianoKey(int(line, 2));
    let said = match counting {
        Counting::Reference => kbm::scale_degree_of(mapping(line), table, key),
        Counting::Middle => kbm::scale_degree_from_middle(mapping(line), table, key),
    };
    say::answer(sink, said.map(|degree| degree.0), say::int)
}

// `read TEXT ROOM`: the mapping or a refusal, then the table.
pub fn say_read<W: Write>(sink: &mut W, line: &[u8]) -> io::Result<()> {
    let mut text = [BYTE; 512];
    let mut map = [PATTERN; 16];
    let length = bytes(line, 2, &mut text);
    let room = size(line, 3);
    let said = kbm_read::read_kbm(frozen::first(&text, length), first_mut(&mut map, room));
    say::answer(sink, said, say_mapping)?;
    say::table(sink, first(&map, room))
}

// `export ROOM MAPPING TABLE`: the size or a refusal, then the lent bytes.
pub fn say_export<W: Write>(sink: &mut W, line: &[u8]) -> io::Result<()> {
    let mut out = [BYTE; 512];
    let room = size(line, 2);
    let places = size(line, 10);
    let map = columns::ints(PATTERN, places, line, 11, 1);
    let said = kbm_write::export_kbm(
        mapping(line),
        first(&map, places),
        frozen::first_mut(&mut out, room),
    );
    say::answer(sink, said, say::size)?;
    say::bytes(sink, frozen::first(&out, room))
}

// `root REFERENCE PITCH OFFSET`: the root, or a refusal.
pub fn say_made_root<W: Write>(sink: &mut W, line: &[u8]) -> io::Result<()> {
    let said = KbmRoot::new(PianoKey(int(line, 2)), Pitch(float(line, 3)), int(line, 4));
    say::answer(sink, said, say_root)
}
