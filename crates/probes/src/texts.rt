// Lines, tokens and numerals, for the comparison with Rust's std. What is not given leaves the room lent for it as it was.
ghost use Rattle.std.specs.Prelude.{◌≡◌, ◌^◌, true, false, drop, pos, None};
ghost use Rattle.base.specs.Said.{pick};
ghost use Rattle.integers.specs.Integer.{read_int, int_by};
ghost use Rattle.decimals.specs.DecimalScan.{read_decimal};
ghost use Rattle.printing.specs.PrintText.{text_of, whole_text, placed, written};
ghost use Rattle.text.specs.Cut.{cut};
ghost use Rattle.text.specs.ReadLine.{line_of, strictly};
ghost use Rattle.probes.specs.Probes.{integer_of, line_kind, line_start, line_end, line_token, decimal_kind, decimal_value, next_of, printable_to};

use decimals::DecimalError;
use integers::Integer;
use text::line::LineSays;

// What no integer of 32 bits is, and what no place is.
const NONE: i64 = 4294967296;

const FULL: usize = 18446744073709551615;

// Where the line that starts at a place ends; where the next one starts is stored.
pub fn probe_next_line(source: &[u8], at: usize, next: &mut usize) -> usize
    ensures value { result ≡ (cut at (drop at source.now)).end }
    ensures next_after { next.new ≡ (cut at (drop at source.now)).next }
{
    let ends = text::lines::next_line(source, at);
    *next = ends.next;
    ends.end
}

// What a line says, stored where it has content.
fn store_line(says: LineSays, start: &mut usize, end: &mut usize, token: &mut usize) -> u32
    ensures value { result ≡ line_kind says }
    ensures start_after { start.new ≡ line_start says start.old }
    ensures end_after { end.new ≡ line_end says end.old }
    ensures token_after { token.new ≡ line_token says token.old }
{
    match says {
        LineSays::NotUtf8 => 0,
        LineSays::Blank => 1,
        LineSays::Comment => 2,
        LineSays::Content {
            start: a,
            end: b,
            token_end: c,
        } => {
            *start = a;
            *end = b;
            *token = c;
            3
        }
    }
}

// What a line says: 0 not UTF-8, 1 blank, 2 a comment, 3 content, whose start, end and token's end are stored.
pub fn probe_read_line(
    source: &[u8],
    from: usize,
    to: usize,
    start: &mut usize,
    end: &mut usize,
    token: &mut usize,
) -> u32
    ensures value { result ≡ line_kind (line_of strictly source.now from to) }
    ensures start_after { start.new ≡ line_start (line_of strictly source.now from to) start.old }
    ensures end_after { end.new ≡ line_end (line_of strictly source.now from to) end.old }
    ensures token_after { token.new ≡ line_token (line_of strictly source.now from to) token.old }
{
    store_line(text::line::read_line(source, from, to), start, end, token)
}

// The number of an integer, or one that is none's.
fn number_of<T: Integer>(answer: Option<T>) -> i64
    ensures { result ≡ integer_of (int_by T.number answer) }
{
    match answer {
        Some(n) => n.number(),
        None => NONE,
    }
}

pub fn probe_read_u16(s: &[u8]) -> i64
    ensures { result ≡ integer_of (read_int false (2 ^ 16) s.now) }
{
    number_of(integers::read::<u16>(s))
}

pub fn probe_read_u32(s: &[u8]) -> i64
    ensures { result ≡ integer_of (read_int false (2 ^ 32) s.now) }
{
    number_of(integers::read::<u32>(s))
}

pub fn probe_read_i16(s: &[u8]) -> i64
    ensures { result ≡ integer_of (read_int true (2 ^ 15) s.now) }
{
    number_of(integers::read::<i16>(s))
}

pub fn probe_read_i32(s: &[u8]) -> i64
    ensures { result ≡ integer_of (read_int true (2 ^ 31) s.now) }
{
    number_of(integers::read::<i32>(s))
}

// 0 no decimal, 1 unsupported, 2 a decimal, which has a value.
fn store_decimal(answer: Result<f64, DecimalError>, value: &mut f64) -> u32
    ensures value { result ≡ decimal_kind answer }
    ensures value_after { value.new ≡ decimal_value answer value.old }
{
    match answer {
        Ok(x) => {
            *value = x;
            2
        }
        Err(DecimalError::Unsupported) => 1,
        Err(DecimalError::Bad) => 0,
    }
}

pub fn probe_read_decimal(s: &[u8], value: &mut f64) -> u32
    ensures value { result ≡ decimal_kind (read_decimal s.now) }
    ensures value_after { value.new ≡ decimal_value (read_decimal s.now) value.old }
{
    store_decimal(decimals::read_decimal(s), value)
}

// The next place, or one that is none.
fn place(answer: Option<usize>) -> usize
    ensures { result ≡ next_of answer }
{
    answer.unwrap_or(FULL)
}

// Whether a number of at most 2^53 is to be written with at most four decimals.
pub fn is_printable(x: f64, decimals: u64) -> bool
    ensures { result ≡ printable_to x decimals }
{
    floats::abs_of(x) <= 9007199254740992.0 && decimals <= 4
}

// The place after a number written with so many decimals at a place; none where it is not to be written or does not fit.
pub fn probe_write_fixed(x: f64, decimals: u64, plus: bool, out: &mut [u8], at: usize) -> usize
    ensures value { result ≡ next_of (pick (printable_to x decimals) (placed out.old at (text_of decimals plus x)) None) }
    ensures out_after { out.new ≡ pick (printable_to x decimals) (written out.old at (text_of decimals plus x)) out.old }
{
    if is_printable(x, decimals) {
        return place(printing::write_fixed(x, decimals, plus, out, at));
    }
    FULL
}

pub fn probe_write_i32(z: i32, out: &mut [u8], at: usize) -> usize
    ensures value { result ≡ next_of (placed out.old at (whole_text z)) }
    ensures out_after { out.new ≡ written out.old at (whole_text z) }
{
    place(printing::write_i32(z, out, at))
}

pub fn probe_write_u32(n: u32, out: &mut [u8], at: usize) -> usize
    ensures value { result ≡ next_of (placed out.old at (whole_text (pos n))) }
    ensures out_after { out.new ≡ written out.old at (whole_text (pos n)) }
{
    place(printing::write_u32(n, out, at))
}
