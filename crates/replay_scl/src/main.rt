// Answers frozen questions on scales and on the sorted list as a slice of structs (the crate `frozen` says how they are written). The questions
// and the answers are made by `oracle freeze`.
//
// Each call is lent seven columns of 16 places. An answer ends with what every lent place or byte is after the call.
#![tactic(auto)]

use frozen::given::{byte, bytes, count, float, natural, size};
use frozen::{columns, first, first_mut};
use scl::{ItemColumns, Scl};
use scl_read::SclRead;
use searching::approximation::Approximation;
use std::io;
use std::io::{BufWriter, Write};

mod builders;
mod listed;

// What lent bytes are before a call.
const BYTE: u8 = 238;

// `ratio KIND CENTS NUMERATOR DENOMINATOR`: the ratio of the item, or a refusal.
fn say_item<W: Write>(sink: &mut W, line: &[u8]) -> io::Result<()> {
    let item = scl::item_of(
        byte(line, 2),
        float(line, 3),
        natural(line, 4),
        natural(line, 5),
    );
    say::answer(sink, item.as_ratio().map(|ratio| ratio.0), say::float)
}

// Count, and start and end of the description.
fn say_scale<W: Write>(sink: &mut W, read: SclRead) -> io::Result<()> {
    say::size(sink, usize::from(read.scl.count))?;
    say::size(sink, read.description.start)?;
    say::size(sink, read.description.end)
}

// `read TEXT`: count, start and end of the description, or a refusal; then the places.
fn say_read<W: Write>(sink: &mut W, line: &[u8]) -> io::Result<()> {
    let mut text = [BYTE; 512];
    let length = bytes(line, 2, &mut text);
    let mut c = say::LENT;
    let said = scl_read::read_scl(
        first(&text, length),
        &mut c.kind,
        &mut c.cents,
        &mut c.numer,
        &mut c.denom,
        &mut c.place,
        &mut c.ratio,
        &mut c.wraps,
    );
    say::answer(sink, said, say_scale)?;
    say::places(sink, &c)
}

// `export DESCRIPTION COUNT ROOM PLACES ..`, each place an item's four fields: the number of bytes or a refusal, then the lent bytes.
fn say_export<W: Write>(sink: &mut W, line: &[u8]) -> io::Result<()> {
    let mut text = [BYTE; 512];
    let mut out = [BYTE; 512];
    let length = bytes(line, 2, &mut text);
    let room = size(line, 4);
    let places = size(line, 5);
    let scl = Scl {
        count: count(line, 3),
    };
    let said = scl_write::export_scl(
        scl,
        first(&text, length),
        &ItemColumns::new(
            &columns::bytes(9, places, line, 6, 4),
            &columns::floats(2.0, places, line, 7, 4),
            &columns::naturals(7, places, line, 8, 4),
            &columns::naturals(7, places, line, 9, 4),
        ),
        first_mut(&mut out, room),
    );
    say::answer(sink, said, say::size)?;
    say::bytes(sink, first(&out, room))
}

// The count of a scale.
fn say_count<W: Write>(sink: &mut W, scl: Scl) -> io::Result<()> {
    say::size(sink, usize::from(scl.count))
}

// A degree and its deviation.
fn say_degree<W: Write>(sink: &mut W, found: Approximation) -> io::Result<()> {
    say::int(sink, found.approx_value)?;
    say::float(sink, found.deviation)
}

// The answer of a line.
fn answer<W: Write>(sink: &mut W, line: &[u8]) -> io::Result<()> {
    let call = frozen::asked(
        line,
        b"read_entries t  build_entries tuu  find_in_entries tcyf  ratio bfuu  read t  export tcrn bfuu build z kfuu push uukfuu  finish uu ",
    );
    let name = frozen::name(line, call);
    say::name(sink, name)?;
    match name {
        b"read_entries" | b"build_entries" | b"find_in_entries" => listed::say_text(
            sink, name, line,
        ),
        b"ratio" => say_item(sink, line),
        b"read" => say_read(sink, line),
        b"export" => say_export(sink, line),
        b"build" => builders::say_build(sink, line),
        b"push" => builders::say_push(sink, line),
        b"finish" => builders::say_finish(sink, line),
        _ => Ok(()),
    }
}

// Answers the questions of standard input on standard output.
fn main(rt: HostRuntime) -> io::Result<()> {
    let mut list = frozen::room();
    let n = say::read_all(&mut rt.stdin(), &mut list)?;
    let mut sink = BufWriter::new(rt.alloc(), rt.stdout())?;
    say::answers(&mut sink, &list[..n], |out, line| answer(out, line))?;
    sink.flush()
}
