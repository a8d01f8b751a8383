// The lines of a text. Document 01, "Lines": a line ends at LF or at the end of the text; a CR directly before LF goes with it.
ghost use Rattle.std.specs.Prelude.{◌≡◌, drop};
ghost use Rattle.text.specs.Cut.{cut};

use utf8::eights::pass;

// The first byte after CR, the last of those that can end a line.
const AFTER_CR: u8 = 14;

// A line ends before `end`, and the next starts at `next`.
#[derive(Clone, Copy)]
pub struct Ends {
    pub end: usize,
    pub next: usize,
}

// Where the line that starts at `at` ends, and where the next one starts: both `at` at the end of the text or past it.
pub fn next_line(text: &[u8], at: usize) -> Ends
    ensures { result ≡ cut at (drop at text.now) }
{
    let mut i = pass(text, at, AFTER_CR, 255);
    // A `while`, since a line starts with a walk of many bytes a step, and its end takes one or two.
    while i < text.len() {
        let b = text[i];
        if b == b'\n' {
            return Ends {
                end: i,
                next: i + 1,
            };
        }
        if b == b'\r' && text.len() - i > 1 && text[i + 1] == b'\n' {
            return Ends {
                end: i,
                next: i + 2,
            };
        }
        i += 1;
    }
    Ends { end: i, next: i }
}
