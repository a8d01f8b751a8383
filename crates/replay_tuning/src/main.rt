// Answers frozen questions on tunings and computed scales (the crate `frozen` says how they are written). The questions and the answers are
// made by `oracle freeze`.
#![tactic(auto)]

use frozen::columns;
use pitch::{Pitch, Ratio};
use say::Columns;
use searching::approximation::Approximation;
use std::io;
use std::io::{BufWriter, Write};

mod computed;
mod mapped;
mod scaled;

// A ratio's number.
fn say_ratio<W: Write>(sink: &mut W, ratio: Ratio) -> io::Result<()> {
    say::float(sink, ratio.0)
}

// A pitch's Hz.
fn say_pitch<W: Write>(sink: &mut W, pitch: Pitch) -> io::Result<()> {
    say::float(sink, pitch.0)
}

// A degree or a key, and its deviation.
fn say_found<W: Write>(sink: &mut W, found: Approximation) -> io::Result<()> {
    say::int(sink, found.approx_value)?;
    say::float(sink, found.deviation)
}

// The columns of the items of a line, so many places of seven fields each, from a field on; those of the list as they are lent.
fn items_of(places: usize, line: &[u8], from: usize) -> Columns {
    Columns {
        kind: columns::bytes(9, places, line, from, 7),
        cents: columns::floats(2.0, places, line, from.wrapping_add(1), 7),
        numer: columns::naturals(7, places, line, from.wrapping_add(2), 7),
        denom: columns::naturals(7, places, line, from.wrapping_add(3), 7),
        ..say::LENT
    }
}

// All columns of a line.
fn columns_of(places: usize, line: &[u8], from: usize) -> Columns {
    Columns {
        place: columns::naturals(8, places, line, from.wrapping_add(4), 7),
        ratio: columns::floats(0.5, places, line, from.wrapping_add(5), 7),
        wraps: columns::ints(8, places, line, from.wrapping_add(6), 7),
        ..items_of(places, line, from)
    }
}

// The answer of a line.
fn answer<W: Write>(sink: &mut W, line: &[u8]) -> io::Result<()> {
    let call = frozen::asked(
        line,
        b"harmonics yccyc  rank2 fccf  period cifiifn bfuuufi relative cifiifn bfuuufi degree cifiifn bfuuufi key cifiifn bfuuufi sorted_relative cifiifn bfuuufi sorted_pitch cifiifn bfuuufi find cifiifn bfuuufi find_sorted cifiifn bfuuufi find_pitch cifiifn bfuuufi find_pitch_sorted cifiifn bfuuufi find_key cifiifn bfuuufi maybe_key cifiifciisiiiiiiiiun bfuuufi maybe_degree cifiifciisiiiiiiiiun bfuuufi run cifiifciisiiiiiiiiun bfuuufi middle_key cifiifciisiiiiiiiiun bfuuufi middle_run cifiifciisiiiiiiiiun bfuuufi",
    );
    let name = frozen::name(line, call);
    say::name(sink, name)?;
    match name {
        b"harmonics" => computed::say_segment(sink, line),
        b"rank2" => computed::say_temperament(sink, line),
        b"maybe_key" | b"maybe_degree" | b"run" | b"middle_key" | b"middle_run" => {
            mapped::say_mapped(sink, name, line)
        }
        b"period" | b"relative" | b"degree" | b"key" => scaled::say_scaled(sink, name, line),
        b"sorted_relative" | b"sorted_pitch" => scaled::say_sorted(sink, name, line),
        b"find" | b"find_sorted" | b"find_pitch" | b"find_pitch_sorted" | b"find_key" => {
            scaled::say_search(sink, name, line)
        }
        _ => Ok(()),
    }
}

// Answers the questions of standard input on standard output.
fn main(rt: HostRuntime) -> io::Result<()> {
    let mut list = frozen::room();
    let n = say::read_all(&mut rt.stdin(), &mut list)?;
    let mut sink = BufWriter::new(rt.alloc(), rt.stdout())?;
    say::answers(&mut sink, &list[..n], |out, line| answer(out, line))?;
    sink.flush()
}
