// Numbers out: decimals with 0 to 4 places (crate `fixed`), and integers, into lent bytes. Document 01, "Writing"; the optional
// plus is request W3's.
#![tactic(auto)]

ghost use Rattle.std.specs.Prelude.{◌≡◌, ◌+◌, ◌^◌, ◌<◌, ◌≤◌, T, pos, nat_abs, length};
ghost use Rattle.std.proofs.lemmas.List.Edits.{sets};
ghost use Rattle.printing.specs.PrintText.{limited, digits_of, width_of, sign_text, point_text, parts_text, text_of, integer_text, whole_text, placed, written};

// How many decimal digits n has, at least one.
fn width(n: u64) -> usize
    requires { n < 10 ^ 18 }
    ensures { result ≡ width_of 18 n }
{
    let mut k: usize = 1;
    let mut rest = n;
    while rest >= 10 {
        rest = rest / 10;
        k += 1;
    }
    k
}

// How long the sign's text is.
fn sign_length(negative: bool, plus: bool) -> usize
    ensures { result ≡ length (sign_text negative plus) }
{
    if negative {
        1
    } else {
        if plus { 1 } else { 0 }
    }
}

// How long the dot's text is.
fn point_length(d: u64) -> usize
    ensures { result ≡ length (point_text d) }
{
    if d > 0 { 1 } else { 0 }
}

// How long the text of a number is.
fn length_of(negative: bool, plus: bool, k: usize, d: u64) -> usize
    requires { (k ≤ 19) × (d ≤ 4) }
    ensures { result ≡ length (sign_text negative plus) + (k + (length (point_text d) + d)) }
{
    sign_length(negative, plus) + (k + (point_length(d) + d as usize))
}

// The sign at `at`; the next place.
fn write_sign(negative: bool, plus: bool, out: &mut [u8], at: usize) -> usize
    requires { at + length (sign_text negative plus) ≤ length out.old }
    ensures value { result ≡ at + length (sign_text negative plus) }
    ensures out_after { out.new ≡ sets out.old at (sign_text negative plus) }
{
    if negative {
        out[at] = b'-';
        return at + 1;
    }
    if plus {
        out[at] = b'+';
        return at + 1;
    }
    at
}

// The dot at `at`, where there are decimals; the next place.
fn write_point(d: u64, out: &mut [u8], at: usize) -> usize
    requires { at + length (point_text d) ≤ length out.old }
    ensures value { result ≡ at + length (point_text d) }
    ensures out_after { out.new ≡ sets out.old at (point_text d) }
{
    if d > 0 {
        out[at] = b'.';
        return at + 1;
    }
    at
}

// The last k decimal digits of n at `at`; the next place.
fn write_digits(n: u64, k: usize, out: &mut [u8], at: usize) -> usize
    requires { (at + k ≤ length out.old) × (k ≤ 19) }
    ensures value { result ≡ at + k }
    ensures out_after { out.new ≡ sets out.old at (digits_of k n) }
{
    let mut left = k;
    let mut i = at;
    while left > 0 {
        left = left - 1;
        let p = rounding::pow10(left as u64);
        out[i] = b'0' + (n / p % 10) as u8;
        i += 1;
    }
    i
}

// Sign, the last k digits of the whole part, dot and d decimals, one after another; the next place.
fn write_parts(
    negative: bool,
    plus: bool,
    whole: u64,
    k: usize,
    part: u64,
    d: u64,
    out: &mut [u8],
    at: usize,
) -> usize
    requires { (k ≤ 19) × (d ≤ 4) × (at + (length (sign_text negative plus) + (k + (length (point_text d) + d))) ≤ length out.old) }
    ensures value { result ≡ at + (length (sign_text negative plus) + (k + (length (point_text d) + d))) }
    ensures out_after { out.new ≡ sets out.old at (parts_text negative plus whole k part d) }
{
    let i = write_sign(negative, plus, out, at);
    let j = write_digits(whole, k, out, i);
    let p = write_point(d, out, j);
    write_digits(part, d as usize, out, p)
}

// A number of `whole` and `part` / 10^d at `at`, or nothing where it is longer than the room.
fn write_number(
    negative: bool,
    plus: bool,
    whole: u64,
    part: u64,
    d: u64,
    out: &mut [u8],
    at: usize,
) -> Option<usize>
    requires { (whole < 10 ^ 18) × (d ≤ 4) }
    ensures value { result ≡ placed out.old at (parts_text negative plus whole (width_of 18 whole) part d) }
    ensures out_after { out.new ≡ written out.old at (parts_text negative plus whole (width_of 18 whole) part d) }
{
    let k = width(whole);
    let total = length_of(negative, plus, k, d);
    if out.len() < at {
        return None;
    }
    if out.len() - at < total {
        return None;
    }
    Some(write_parts(negative, plus, whole, k, part, d, out, at))
}

// x with d decimals at `at`, from its exact value, a tie to the even digit, the sign kept; with a plus where x is not
// negative and `plus` asks for it. None (12) where it does not fit, and then nothing is written.
pub fn write_fixed(x: f64, d: u64, plus: bool, out: &mut [u8], at: usize) -> Option<usize>
    requires { T (limited x) × (d ≤ 4) }
    ensures value { result ≡ placed out.old at (text_of d plus x) }
    ensures out_after { out.new ≡ written out.old at (text_of d plus x) }
{
    let u = floats::unpack(x);
    let f = fixed::fixed_of(u.digits, u.exponent, d);
    write_number(u.negative, plus, f.whole, f.part, d, out, at)
}

// The integer of this sign and magnitude, in decimal digits, at `at`. None (12) where it does not fit, and then nothing is
// written.
fn write_integer(negative: bool, magnitude: u64, out: &mut [u8], at: usize) -> Option<usize>
    requires { magnitude < 10 ^ 18 }
    ensures value { result ≡ placed out.old at (integer_text negative magnitude) }
    ensures out_after { out.new ≡ written out.old at (integer_text negative magnitude) }
{
    write_number(negative, false, magnitude, 0, 0, out, at)
}

// n in decimal digits at `at`. None (12) where it does not fit, and then nothing is written.
pub fn write_u32(n: u32, out: &mut [u8], at: usize) -> Option<usize>
    ensures value { result ≡ placed out.old at (whole_text (pos n)) }
    ensures out_after { out.new ≡ written out.old at (whole_text (pos n)) }
{
    write_integer(false, n as u64, out, at)
}

// The size of z.
fn magnitude(z: i32) -> u64
    ensures { result ≡ nat_abs z }
{
    let wide = z as i64;
    if wide < 0 {
        (0 - wide) as u64
    } else {
        wide as u64
    }
}

// z in decimal digits at `at`, with its minus. None (12) where it does not fit, and then nothing is written.
pub fn write_i32(z: i32, out: &mut [u8], at: usize) -> Option<usize>
    ensures value { result ≡ placed out.old at (whole_text z) }
    ensures out_after { out.new ≡ written out.old at (whole_text z) }
{
    let m = magnitude(z);
    write_integer(z < 0, m, out, at)
}
