// Runs of a builder. A step is four fields: what it is, 0 a new builder, 1 cents, 2 a ratio, 3 an integer, 4 a fraction; a float, a numerator
// and a denominator. What a step does not take is 0.
use base::Refusal;
use frozen::given::{float, natural, size};
use pitch::Ratio;
use say::Columns;
use scl_build::SclBuilder;
use std::io;
use std::io::Write;

// The step of four fields from a field on.
fn step(
    builder: SclBuilder,
    c: &mut Columns,
    line: &[u8],
    at: usize,
) -> Result<SclBuilder, Refusal> {
    let x = float(line, at.wrapping_add(1));
    let above = natural(line, at.wrapping_add(2));
    let below = natural(line, at.wrapping_add(3));
    match natural(line, at) {
        0 => SclBuilder::new(
            &mut c.kind,
            &mut c.cents,
            &mut c.numer,
            &mut c.denom,
            &c.place,
            &c.ratio,
            &c.wraps,
        ),
        1 => builder.push_cents(&mut c.kind, &mut c.cents, &mut c.numer, &mut c.denom, x),
        2 => builder.push_ratio(
            &mut c.kind,
            &mut c.cents,
            &mut c.numer,
            &mut c.denom,
            Ratio(x),
        ),
        3 => builder.push_int(&mut c.kind, &mut c.cents, &mut c.numer, &mut c.denom, above),
        _ => builder.push_fraction(
            &mut c.kind,
            &mut c.cents,
            &mut c.numer,
            &mut c.denom,
            above,
            below,
        ),
    }
}

// The new count.
fn say_count<W: Write>(sink: &mut W, builder: SclBuilder) -> io::Result<()> {
    say::size(sink, builder.count)
}

// The build of the items: the count or a refusal, then the places.
fn say_built<W: Write>(sink: &mut W, builder: SclBuilder, items: &Columns) -> io::Result<()> {
    let mut c = *items;
    let said = builder.build(
        &c.kind,
        &c.cents,
        &c.numer,
        &c.denom,
        &mut c.place,
        &mut c.ratio,
        &mut c.wraps,
    );
    say::answer(sink, said, crate::say_count)?;
    say::places(sink, &c)
}

// `build STEPS ..`, a new builder first: the count after each step, and that of the scale, each of them or a refusal; then the places. A refused
// step leaves the builder as it was.
pub fn say_build<W: Write>(sink: &mut W, line: &[u8]) -> io::Result<()> {
    let mut columns = say::LENT;
    let mut builder = SclBuilder { room: 0, count: 0 };
    let mut at: usize = 3;
    for _ in 0..size(line, 2) {
        let said = step(builder, &mut columns, line, at);
        say::answer(sink, said, say_count)?;
        builder = said.unwrap_or(builder);
        at = at.wrapping_add(4);
    }
    say_built(sink, builder, &columns)
}

// A builder's state of two fields, ROOM and COUNT, which need not be the columns'.
fn state(line: &[u8]) -> SclBuilder {
    SclBuilder {
        room: size(line, 2),
        count: size(line, 3),
    }
}

// `push ROOM COUNT STEP` on a state that need not be the columns': the new count or a refusal, then the places.
pub fn say_push<W: Write>(sink: &mut W, line: &[u8]) -> io::Result<()> {
    let mut columns = say::LENT;
    let said = step(state(line), &mut columns, line, 4);
    say::answer(sink, said, say_count)?;
    say::places(sink, &columns)
}

// `finish ROOM COUNT`, the build of a state that need not be the columns': the count or a refusal, then the places.
pub fn say_finish<W: Write>(sink: &mut W, line: &[u8]) -> io::Result<()> {
    say_built(sink, state(line), &say::LENT)
}
