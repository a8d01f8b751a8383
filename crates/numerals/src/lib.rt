// Rust's f64 text, taken apart: which numeral a text writes, with its digits counted, or none. Document 01, "Lines". Which
// numerals are taken, and what they are worth, is said in the crate `decimals`.
#![tactic(auto)]

ghost use Rattle.std.specs.Prelude.{◌≡◌, ◌^◌, ◌<◌, ◌≤◌, length, drop};
ghost use Rattle.numerals.specs.Scan.{grown_by, counted_by, run_at, lowered, spelled, after_sign, after_dot, mark_at, exponent_at, ended_at, word_at, minus_first, number_at, scan_of};

// 10^17: a number from here on has 18 digits.
const LEAST_OF_18_DIGITS: u64 = 100_000_000_000_000_000;

// Digits one after another: their number, how many there are from the first nonzero one on, and where they end.
#[derive(Clone, Copy)]
struct Run {
    n: u64,
    significant: usize,
    at: usize,
}

// What a numeral writes: n / 10^places with its sign, where `significant` is at most 18. Not plain: an exponent or a word.
#[derive(Clone, Copy)]
pub struct Numeral {
    pub negative: bool,
    pub n: u64,
    pub significant: usize,
    pub places: usize,
    pub plain: bool,
}

// n with the digit d after it; a number of 18 digits stays as it is.
fn grown(n: u64, d: u64) -> u64
    requires { (n < 10 ^ 18) × (d ≤ 9) }
    ensures { result ≡ grown_by n d }
{
    if n < LEAST_OF_18_DIGITS {
        n * 10 + d
    } else {
        n
    }
}

// How many digits there are from the first nonzero one on, with the digit d after n.
fn counted(n: u64, d: u64, count: usize) -> usize
    requires { (n < 10 ^ 18) × (d ≤ 9) × (count < 2 ^ 63) }
    ensures { result ≡ counted_by n d count }
{
    if n + d == 0 { count } else { count + 1 }
}

// The digits from `from` on, after the number n of `count` digits.
fn digits(s: &[u8], n: u64, count: usize, from: usize) -> Run
    requires { (n < 10 ^ 18) × (count ≤ from) × (from ≤ length s.now) }
    ensures { result ≡ run_at s.now n count from }
{
    let mut number = n;
    let mut significant = count;
    for at in from..s.len() {
        if !s[at].is_ascii_digit() {
            return Run {
                n: number,
                significant,
                at,
            };
        }
        let d = u64::from(s[at] - b'0');
        significant = counted(number, d, significant);
        number = grown(number, d);
    }
    Run {
        n: number,
        significant,
        at: s.len(),
    }
}

// A letter in lower case; any other byte as it is.
fn lower(b: u8) -> u8
    ensures { result ≡ lowered b }
{
    if b.is_ascii_uppercase() { b + 32 } else { b }
}

// Whether the bytes from `from` on are the word w, in any case.
fn spells(s: &[u8], from: usize, w: &[u8]) -> bool
    requires { from ≤ length s.now }
    ensures { result ≡ spelled (drop from s.now) w.now }
{
    if s.len() - from != w.len() {
        return false;
    }
    for (i, c) in w.iter().enumerate() {
        if lower(s[from + i]) != *c {
            return false;
        }
    }
    true
}

// Whether the bytes from `from` on are `inf`, `infinity` or `nan`, in any case.
fn is_word(s: &[u8], from: usize) -> bool
    requires { from ≤ length s.now }
    ensures { result ≡ word_at s.now from }
{
    spells(s, from, b"inf") || spells(s, from, b"infinity") || spells(s, from, b"nan")
}

// Whether the text starts with a minus.
fn is_negative(s: &[u8]) -> bool
    ensures { result ≡ minus_first s.now }
{
    s.len() > 0 && s[0] == b'-'
}

// The place after the sign at `at`, or `at` where there is none.
fn after_sign(s: &[u8], at: usize) -> usize
    ensures { result ≡ after_sign s.now at }
{
    if at < s.len() && matches!(s[at], b'+' | b'-') {
        at + 1
    } else {
        at
    }
}

// The place after the dot at `at`, or `at` where there is none.
fn after_dot(s: &[u8], at: usize) -> usize
    ensures { result ≡ after_dot s.now at }
{
    if at < s.len() && s[at] == b'.' {
        at + 1
    } else {
        at
    }
}

// Whether `e` or `E` stands at `at`.
fn is_mark(s: &[u8], at: usize) -> bool
    ensures { result ≡ mark_at s.now at }
{
    at < s.len() && matches!(s[at], b'e' | b'E')
}

// Whether an exponent stands from `at` on: `e` or `E`, an optional sign, one or more digits to the end.
fn is_exponent(s: &[u8], at: usize) -> bool
    ensures { result ≡ exponent_at s.now at }
{
    if !is_mark(s, at) {
        return false;
    }
    let from = after_sign(s, at + 1);
    let r = digits(s, 0, 0, from);
    from < r.at && r.at == s.len()
}

// What the digits read so far write, where the numeral ends at `end` or an exponent follows.
fn ended(s: &[u8], found: usize, numeral: Numeral, end: usize) -> Option<Numeral>
    ensures { result ≡ ended_at s.now found numeral end }
{
    if found == 0 {
        return None;
    }
    if end == s.len() {
        return Some(numeral);
    }
    if is_exponent(s, end) {
        return Some(Numeral {
            plain: false,
            ..numeral
        });
    }
    None
}

// The numeral from `from` on, after its sign: digits with at most one dot, and perhaps an exponent.
fn scan_number(s: &[u8], negative: bool, from: usize) -> Option<Numeral>
    requires { from ≤ length s.now }
    ensures { result ≡ number_at s.now negative from }
{
    let whole = digits(s, 0, 0, from);
    let dot = after_dot(s, whole.at);
    let part = digits(s, whole.n, whole.significant, dot);
    let places = part.at - dot;
    let numeral = Numeral {
        negative,
        n: part.n,
        significant: part.significant,
        places,
        plain: true,
    };
    ended(s, whole.at - from + places, numeral, part.at)
}

// The numeral that the text is, by Rust's grammar of f64, or none.
pub fn scan(s: &[u8]) -> Option<Numeral>
    ensures { result ≡ scan_of s.now }
{
    let negative = is_negative(s);
    let from = after_sign(s, 0);
    if is_word(s, from) {
        return Some(Numeral {
            negative,
            n: 0,
            significant: 0,
            places: 0,
            plain: false,
        });
    }
    scan_number(s, negative, from)
}
