// What a line says. Document 01, "Lines": it must be UTF-8, and is trimmed at both ends; it is then blank, a comment (starting with
// `!`), or has its trimmed part and its token. Every part is a start and an end in the whole text.
ghost use Rattle.std.specs.Prelude.{◌≡◌, ℕ, ◌+◌, ◌^◌, ◌≤◌, ◌<◌, length};
ghost use Rattle.white.specs.Trim.{back, keep_by};
ghost use Rattle.text.specs.ReadLine.{splits, token_length, strictly, part_at, line_of};

use utf8::is_utf8;
use white::{trim_end, trim_start};

// What a line says. Its content stands from `start` to `end`, and its token from `start` to `token_end`.
#[derive(Clone, Copy)]
pub enum LineSays {
    NotUtf8,
    Blank,
    Comment,
    Content {
        start: usize,
        end: usize,
        token_end: usize,
    },
}

// Whether a token ends at this byte: space, tab, LF, form feed or CR.
fn is_split(b: u8) -> bool
    ensures { result ≡ splits b }
{
    // These become the test of a bit, where a `matches!` becomes a comparison for each case.
    b == b' ' || b == b'\t' || b == b'\n' || b == 12 || b == b'\r'
}

// How long the token is that `s` starts with.
pub fn token_end(s: &[u8]) -> usize
    ensures { result ≡ token_length s.now }
{
    for (i, b) in s.iter().enumerate() {
        if is_split(*b) {
            return i;
        }
    }
    s.len()
}

// What the rest of a line says, which starts at `at` and has no white space there.
fn read_rest(s: &[u8], at: usize) -> LineSays
    requires { at + length s.now < 2 ^ 64 }
    ensures { result ≡ part_at at (keep_by back s.now) }
{
    let n = trim_end(s);
    if n == 0 {
        return LineSays::Blank;
    }
    if s[0] == b'!' {
        return LineSays::Comment;
    }
    let k = token_end(&s[..n]);
    LineSays::Content {
        start: at,
        end: at + n,
        token_end: at + k,
    }
}

// What the line from `start` to `end` says, where `end` is within the text.
fn read_within(text: &[u8], start: usize, end: usize) -> LineSays
    requires { end ≤ length text.now }
    ensures { result ≡ line_of strictly text.now start end }
{
    if end <= start {
        return LineSays::Blank;
    }
    let line = &text[start..end];
    if !is_utf8(line) {
        return LineSays::NotUtf8;
    }
    let n = trim_start(line);
    read_rest(&line[n..], start + n)
}

// What the line of `text` from `start` to `end` says; what lies past the end of the text is not there.
pub fn read_line(text: &[u8], start: usize, end: usize) -> LineSays
    ensures { result ≡ line_of strictly text.now start end }
{
    read_within(text, start, end.min(text.len()))
}
