// White space at both ends of a line. Document 01, "Lines": a line is trimmed of Unicode White_Space at both ends.
#![tactic(auto)]

ghost use Rattle.std.specs.Prelude.{◌≡◌, reverse, ℕ, ◌-◌, ◌≤◌, ◌<◌, length, take, drop, get_or};
ghost use Rattle.white.specs.Trim.{white1, white2, white3, general, white_width, front, back, run};

// Whether a byte is White_Space by itself: U+0009 to 000D, 0020.
fn is_white1(b: u8) -> bool
    ensures { result ≡ white1 b }
{
    matches!(b, 9..=13 | 32)
}

// Whether two bytes are: U+0085, 00A0.
fn is_white2(b: u8, c: u8) -> bool
    ensures { result ≡ white2 b c }
{
    matches!((b, c), (194, 133 | 160))
}

// Whether E2 80 and this byte are: U+2000 to 200A, 2028, 2029, 202F.
fn is_general(d: u8) -> bool
    ensures { result ≡ general d }
{
    matches!(d, 128..=138 | 168 | 169 | 175)
}

// Whether three bytes are: U+1680, those, 205F, 3000.
fn is_white3(b: u8, c: u8, d: u8) -> bool
    ensures { result ≡ white3 b c d }
{
    match (b, c) {
        (225, 154) | (227, 128) => d == 128,
        (226, 128) => is_general(d),
        (226, 129) => d == 159,
        _ => false,
    }
}

// How many bytes a white character has, by whether one, two or three bytes are one; 0 if none are.
fn width(one: bool, two: bool, three: bool) -> usize
    ensures { result ≡ white_width one two three }
{
    if one {
        1
    } else if two {
        2
    } else if three {
        3
    } else {
        0
    }
}

// The byte `k` places after `i`, or 0 past the end.
fn byte_after(s: &[u8], i: usize, k: usize) -> u8
    requires { i ≤ length s.now }
    ensures { result ≡ get_or (drop i s.now) k 0 }
{
    if k < s.len() - i { s[i + k] } else { 0 }
}

// The byte `k` places before the last one before `e`, or 0 before the start.
fn byte_before(s: &[u8], e: usize, k: usize) -> u8
    requires { e ≤ length s.now }
    ensures { result ≡ get_or (reverse (take e s.now)) k 0 }
{
    if k < e { s[e - 1 - k] } else { 0 }
}

// How many bytes at `i` are a white character, or 0.
fn white_at(s: &[u8], i: usize) -> usize
    requires { i ≤ length s.now }
    ensures { result ≡ front (drop i s.now) }
{
    let b = byte_after(s, i, 0);
    let c = byte_after(s, i, 1);
    let d = byte_after(s, i, 2);
    width(is_white1(b), is_white2(b, c), is_white3(b, c, d))
}

// How many bytes before `e` are a white character, or 0.
fn white_before(s: &[u8], e: usize) -> usize
    requires { e ≤ length s.now }
    ensures { result ≡ back (reverse (take e s.now)) }
{
    let b = byte_before(s, e, 0);
    let c = byte_before(s, e, 1);
    let d = byte_before(s, e, 2);
    width(is_white1(b), is_white2(c, b), is_white3(d, c, b))
}

// How many bytes of white space stand at the start of `s`.
pub fn trim_start(s: &[u8]) -> usize
    ensures { result ≡ run front 0 s.now }
{
    let mut i = 0;
    // A `while`, since a white character is one, two or three bytes long.
    while i < s.len() {
        let n = white_at(s, i);
        if n == 0 {
            return i;
        }
        i += n;
    }
    i
}

// Where `s` ends without the white space at its end.
pub fn trim_end(s: &[u8]) -> usize
    ensures { result ≡ length s.now - run back 0 (reverse s.now) }
{
    let mut e = s.len();
    // A `while`, since it goes backwards by one, two or three bytes.
    while 0 < e {
        let n = white_before(s, e);
        if n == 0 {
            return e;
        }
        e -= n;
    }
    e
}
