// The sorted list as a slice of structs. A question's text is read into seven columns of 16 places and a list of 8 structs; a search or a build
// goes on from there. The answer of a read or a build ends with every place of the columns, then of the list.
use entries::SortedEntry;
use frozen::given::{bytes, count, flag, float, size};
use pitch::Ratio;
use say::Columns;
use scl::{ItemColumns, Scl};
use scl_build::SclBuilder;
use std::io;
use std::io::Write;

// An entry that no call has written.
const OLD: SortedEntry = SortedEntry {
    place: 8,
    ratio: 0.5,
    wraps: 8,
};

// Every place of the columns, then of a list.
fn say_places<W: Write>(
    sink: &mut W,
    columns: &Columns,
    list: &[SortedEntry; 8],
) -> io::Result<()> {
    say::places(sink, columns)?;
    for e in list {
        say::entry(sink, e.place, e.ratio, e.wraps)?;
    }
    Ok(())
}

// `build_entries TEXT ROOM COUNT`, the build of a state over the items read, beside a list and columns that are new: the count or a refusal,
// then the places.
fn say_built<W: Write>(sink: &mut W, items: &Columns, line: &[u8]) -> io::Result<()> {
    let Columns {
        kind,
        cents,
        numer,
        denom,
        ..
    } = *items;
    let Columns {
        mut place,
        mut ratio,
        mut wraps,
        ..
    } = say::LENT;
    let mut list = [OLD; 8];
    let state = SclBuilder {
        room: size(line, 3),
        count: size(line, 4),
    };
    let said = entries::build_entries(
        state, &kind, &cents, &numer, &denom, &mut place, &mut ratio, &mut wraps, &mut list,
    );
    let built = Columns {
        kind,
        cents,
        numer,
        denom,
        place,
        ratio,
        wraps,
    };
    say::answer(sink, said, crate::say_count)?;
    say_places(sink, &built, &list)
}

// `find_in_entries TEXT COUNT SORTED TARGET`, SORTED being 1 for the ascending degree: the degree and the deviation, or a refusal.
fn say_found<W: Write>(
    sink: &mut W,
    items: &Columns,
    list: &[SortedEntry; 8],
    line: &[u8],
) -> io::Result<()> {
    let scl = Scl {
        count: count(line, 3),
    };
    let said = entries::search::find_in_entries(
        scl,
        &ItemColumns::new(&items.kind, &items.cents, &items.numer, &items.denom),
        list,
        Ratio(float(line, 5)),
        flag(line, 4),
    );
    say::answer(sink, said, crate::say_degree)
}

// `NAME TEXT ..`: the read, which `read_entries TEXT` answers with count, start and end of the description, or a refusal, and then the places;
// or what is made of it.
pub fn say_text<W: Write>(sink: &mut W, name: &[u8], line: &[u8]) -> io::Result<()> {
    let mut text = [crate::BYTE; 512];
    let length = bytes(line, 2, &mut text);
    let mut c = say::LENT;
    let mut list = [OLD; 8];
    let said = entries::read_entries(
        frozen::first(&text, length),
        &mut c.kind,
        &mut c.cents,
        &mut c.numer,
        &mut c.denom,
        &mut c.place,
        &mut c.ratio,
        &mut c.wraps,
        &mut list,
    );
    match name {
        b"read_entries" => {
            say::answer(sink, said, crate::say_scale)?;
            say_places(sink, &c, &list)
        }
        b"build_entries" => say_built(sink, &c, line),
        _ => say_found(sink, &c, &list, line),
    }
}
