// Which fields are of a kind: `i` and `s` integers of 32 and 16 bits, `f` a float, `t` bytes, at most 512; the others naturals of at most so
// many: `y` 1, `k` 4, `n` 16, `z` 64, `b` 255, `r` 512, `c` 65,535, `u` 4,294,967,295.

// The most digits of bytes.
const DIGITS: usize = 1024;

// The number of a hex digit, or 16.
pub fn digit(b: u8) -> u64 {
    match b {
        b'0'..=b'9' => u64::from(b - b'0'),
        b'a'..=b'f' => u64::from(b - b'a') + 10,
        _ => 16,
    }
}

fn are_digits(s: &[u8]) -> bool {
    s.iter().all(|b| digit(*b) < 16)
}

fn is_float(s: &[u8]) -> bool {
    if s.len() == 16 {
        return are_digits(s);
    }
    check::same(s, b"nan")
}

fn is_bytes(s: &[u8]) -> bool {
    if s.len() % 2 == 1 {
        return check::same(s, b"-");
    }
    !s.is_empty() && s.len() <= DIGITS && are_digits(s)
}

fn is_int(s: &[u8]) -> bool {
    integers::read::<i32>(s).is_some()
}

fn is_short(s: &[u8]) -> bool {
    integers::read::<i16>(s).is_some()
}

fn is_natural(most: u32, s: &[u8]) -> bool {
    integers::read::<u32>(s).is_some_and(|n| n <= most)
}

// The largest natural of a kind; 0 for another kind.
fn most(kind: u8) -> u32 {
    match kind {
        b'y' => 1,
        b'k' => 4,
        b'n' => 16,
        b'z' => 64,
        b'b' => 255,
        b'r' => 512,
        b'c' => 65535,
        b'u' => 4294967295,
        _ => 0,
    }
}

pub fn is(kind: u8, s: &[u8]) -> bool {
    match kind {
        b'i' => is_int(s),
        b's' => is_short(s),
        b'f' => is_float(s),
        b't' => is_bytes(s),
        _ => is_natural(most(kind), s),
    }
}
