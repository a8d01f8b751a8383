// Bytes passed eight at a time: most of a text is plain, and the compiler tests eight bytes in one operation.
ghost use Rattle.std.specs.Prelude.{◌≡◌, ◌+◌, ◌≤◌, length};
ghost use Rattle.utf8.specs.Eights.{between, eight_between, Passed};

// Whether a byte lies from `low` to `high`.
fn is_between(b: u8, low: u8, high: u8) -> bool
    ensures { result ≡ between low high b }
{
    (low <= b) & (b <= high) // no branch is taken
}

// Whether the eight bytes from `at` on do.
fn are_between(s: &[u8], at: usize, low: u8, high: u8) -> bool
    requires { at + 8 ≤ length s.now }
    ensures { result ≡ eight_between low high s.now at }
{
    let a = is_between(s[at], low, high) & is_between(s[at + 1], low, high);
    let b = is_between(s[at + 2], low, high) & is_between(s[at + 3], low, high);
    let c = is_between(s[at + 4], low, high) & is_between(s[at + 5], low, high);
    let d = is_between(s[at + 6], low, high) & is_between(s[at + 7], low, high);
    (a & b) & (c & d)
}

// A place from `from` on, up to which every byte lies from `low` to `high`: as far as eights of such bytes go.
pub fn pass(s: &[u8], from: usize, low: u8, high: u8) -> usize
    ensures { Passed low high s.now from result }
{
    let mut i = from;
    // A `while`, since it goes eight bytes a step from a place that can lie past the end.
    while i < s.len() && s.len() - i >= 8 && are_between(s, i, low, high) {
        i += 8;
    }
    i
}
