// Lines, tokens and numerals, in and out. An integer that was read is written as the float that it is, so that no reader judges itself; none is
// 2^32.
use decimals::DecimalError;
use frozen::given::{bytes, flag, float, int, natural, size};
use std::io;
use std::io::Write;
use text::line::LineSays;

// What lent bytes are before a call; what no place is.
const BYTE: u8 = 238;

const FULL: usize = usize::MAX;

// `line TEXT AT`: where the line ends, and where the next starts.
fn say_line<W: Write>(sink: &mut W, text: &[u8], at: usize) -> io::Result<()> {
    let ends = text::lines::next_line(text, at);
    say::size(sink, ends.end)?;
    say::size(sink, ends.next)
}

// `says TEXT FROM TO`: `not_utf8`, `blank`, `comment`, or start, end and token's end.
fn say_said<W: Write>(sink: &mut W, text: &[u8], from: usize, to: usize) -> io::Result<()> {
    match text::line::read_line(text, from, to) {
        LineSays::NotUtf8 => say::word(sink, b"not_utf8"),
        LineSays::Blank => say::word(sink, b"blank"),
        LineSays::Comment => say::word(sink, b"comment"),
        LineSays::Content {
            start,
            end,
            token_end,
        } => {
            say::size(sink, start)?;
            say::size(sink, end)?;
            say::size(sink, token_end)
        }
    }
}

// `decimal TEXT`: `none`, `unsupported`, or the value.
fn say_decimal<W: Write>(sink: &mut W, text: &[u8]) -> io::Result<()> {
    match decimals::read_decimal(text) {
        Ok(x) => say::float(sink, x),
        Err(DecimalError::Unsupported) => say::word(sink, b"unsupported"),
        Err(DecimalError::Bad) => say::word(sink, b"none"),
    }
}

// `u16 TEXT`, and so on.
fn say_integer<W: Write>(sink: &mut W, number: i64) -> io::Result<()> {
    say::float(sink, std::num::nearest_i64_to_f64(number))
}

// `NAME TEXT ..`.
pub fn say_read<W: Write>(sink: &mut W, name: &[u8], line: &[u8]) -> io::Result<()> {
    let mut lent = [BYTE; 512];
    let length = bytes(line, 2, &mut lent);
    let text = frozen::first(&lent, length);
    match name {
        b"line" => say_line(sink, text, size(line, 3)),
        b"says" => say_said(sink, text, size(line, 3), size(line, 4)),
        b"decimal" => say_decimal(sink, text),
        b"u16" => say_integer(sink, probes::texts::probe_read_u16(text)),
        b"u32" => say_integer(sink, probes::texts::probe_read_u32(text)),
        b"i16" => say_integer(sink, probes::texts::probe_read_i16(text)),
        _ => say_integer(sink, probes::texts::probe_read_i32(text)),
    }
}

// The place after what is written: a float with so many decimals, and a plus where a flag says so; an integer.
fn printed(name: &[u8], line: &[u8], out: &mut [u8], at: usize) -> usize {
    match name {
        b"fixed" => probes::texts::probe_write_fixed(
            float(line, 4),
            u64::from(natural(line, 5)),
            flag(line, 6),
            out,
            at,
        ),
        b"print_i32" => probes::texts::probe_write_i32(int(line, 4), out, at),
        _ => probes::texts::probe_write_u32(natural(line, 4), out, at),
    }
}

// `NAME ROOM AT ..`: the next place, or `full`, then the lent bytes.
pub fn say_print<W: Write>(sink: &mut W, name: &[u8], line: &[u8]) -> io::Result<()> {
    let mut lent = [BYTE; 512];
    let room = size(line, 2);
    let reached = printed(
        name,
        line,
        frozen::first_mut(&mut lent, room),
        size(line, 3),
    );
    if reached == FULL {
        say::word(sink, b"full")?;
    } else {
        say::size(sink, reached)?;
    }
    say::bytes(sink, frozen::first(&lent, room))
}
