// Lines, tokens and numerals, for the comparison with Rust's std. What is not given leaves the room lent for it as it was.
ghost use Rattle.std.specs.Prelude.{◌≡◌, ◌^◌, true, false, drop, pos, None};
ghost use Rattle.base.specs.Said.{pick};
ghost use Rattle.integers.specs.Integer.{read_int};
ghost use Rattle.decimals.specs.DecimalScan.{read_decimal};
ghost use Rattle.printing.specs.PrintText.{text_of, whole_text, placed, written};
ghost use Rattle.text.specs.Cut.{cut};
ghost use Rattle.text.specs.ReadLine.{line_of, strictly};
ghost use Rattle.probes.specs.Probes.{integer_of, line_kind, line_start, line_end, line_token, decimal_kind, decimal_value, next_of, printable_to};

// Where the line that starts at a place ends; where the next one starts is stored.
#[unsafe(no_mangle)]
pub extern "C" fn probe_next_line(source: &[u8], at: usize, next: &mut usize) -> usize
    ensures value { result ≡ (cut at (drop at source.now)).end }
    ensures next_after { next.new ≡ (cut at (drop at source.now)).next }
{
    probes::texts::probe_next_line(source, at, next)
}

// What a line says: 0 not UTF-8, 1 blank, 2 a comment, 3 content, whose start, end and token's end are stored.
#[unsafe(no_mangle)]
pub extern "C" fn probe_read_line(
    source: &[u8],
    from: usize,
    to: usize,
    start: &mut usize,
    end: &mut usize,
    token: &mut usize,
) -> u32
    ensures value { result ≡ line_kind (line_of strictly source.now from to) }
    ensures start_after { start.new ≡ line_start (line_of strictly source.now from to) start.old }
    ensures end_after { end.new ≡ line_end (line_of strictly source.now from to) end.old }
    ensures token_after { token.new ≡ line_token (line_of strictly source.now from to) token.old }
{
    probes::texts::probe_read_line(source, from, to, start, end, token)
}

#[unsafe(no_mangle)]
pub extern "C" fn probe_read_u16(s: &[u8]) -> i64
    ensures { result ≡ integer_of (read_int false (2 ^ 16) s.now) }
{
    probes::texts::probe_read_u16(s)
}

#[unsafe(no_mangle)]
pub extern "C" fn probe_read_u32(s: &[u8]) -> i64
    ensures { result ≡ integer_of (read_int false (2 ^ 32) s.now) }
{
    probes::texts::probe_read_u32(s)
}

#[unsafe(no_mangle)]
pub extern "C" fn probe_read_i16(s: &[u8]) -> i64
    ensures { result ≡ integer_of (read_int true (2 ^ 15) s.now) }
{
    probes::texts::probe_read_i16(s)
}

#[unsafe(no_mangle)]
pub extern "C" fn probe_read_i32(s: &[u8]) -> i64
    ensures { result ≡ integer_of (read_int true (2 ^ 31) s.now) }
{
    probes::texts::probe_read_i32(s)
}

#[unsafe(no_mangle)]
pub extern "C" fn probe_read_decimal(s: &[u8], value: &mut f64) -> u32
    ensures value { result ≡ decimal_kind (read_decimal s.now) }
    ensures value_after { value.new ≡ decimal_value (read_decimal s.now) value.old }
{
    probes::texts::probe_read_decimal(s, value)
}

// The place after a number written with so many decimals at a place; none where it is not to be written or does not fit.
#[unsafe(no_mangle)]
pub extern "C" fn probe_write_fixed(
    x: f64,
    decimals: u64,
    plus: bool,
    out: &mut [u8],
    at: usize,
) -> usize
    ensures value { result ≡ next_of (pick (printable_to x decimals) (placed out.old at (text_of decimals plus x)) None) }
    ensures out_after { out.new ≡ pick (printable_to x decimals) (written out.old at (text_of decimals plus x)) out.old }
{
    probes::texts::probe_write_fixed(x, decimals, plus, out, at)
}

#[unsafe(no_mangle)]
pub extern "C" fn probe_write_i32(z: i32, out: &mut [u8], at: usize) -> usize
    ensures value { result ≡ next_of (placed out.old at (whole_text z)) }
    ensures out_after { out.new ≡ written out.old at (whole_text z) }
{
    probes::texts::probe_write_i32(z, out, at)
}

#[unsafe(no_mangle)]
pub extern "C" fn probe_write_u32(n: u32, out: &mut [u8], at: usize) -> usize
    ensures value { result ≡ next_of (placed out.old at (whole_text (pos n))) }
    ensures out_after { out.new ≡ written out.old at (whole_text (pos n)) }
{
    probes::texts::probe_write_u32(n, out, at)
}
