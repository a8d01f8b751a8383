// Whether a line is UTF-8. Document 01, "Lines": each line, comment or not, must be UTF-8.
#![tactic(auto)]

pub mod eights;

ghost use Rattle.std.specs.Prelude.{◌≡◌, Some};
ghost use Rattle.utf8.specs.Utf8Machine.{lead_of, utf8_step, utf8_from, none_due};

use crate::eights::pass;

// The last byte that is a character by itself.
const ASCII_END: u8 = 127;

// So many bytes of a character are still due, and the next of them lies from `lo` to `hi`.
#[derive(Clone, Copy)]
pub struct State {
    pub need: u8,
    pub lo: u8,
    pub hi: u8,
}

// To go on with this state.
fn go(need: u8, lo: u8, hi: u8) -> Option<State>
    ensures { result ≡ Some (record { need = need; lo = lo; hi = hi }) }
{
    Some(State { need, lo, hi })
}

// What the first byte of a character asks of those after it.
#[tactic(auto, unfolding(crate::specs::Utf8Machine::lead_of))]
fn lead(b: u8) -> Option<State>
    ensures { result ≡ lead_of b }
{
    match b {
        0..=127 => go(0, 128, 191),
        194..=223 => go(1, 128, 191),
        224 => go(2, 160, 191),
        225..=236 | 238 | 239 => go(2, 128, 191),
        237 => go(2, 128, 159),
        240 => go(3, 144, 191),
        241..=243 => go(3, 128, 191),
        244 => go(3, 128, 143),
        _ => None,
    }
}

// The state after one more byte.
fn advance(st: State, b: u8) -> Option<State>
    ensures { result ≡ utf8_step st b }
{
    if st.need == 0 {
        return lead(b);
    }
    if b < st.lo || st.hi < b {
        return None;
    }
    go(st.need - 1, 128, 191)
}

// Whether `s` is UTF-8.
pub fn is_utf8(s: &[u8]) -> bool
    ensures { result ≡ utf8_from none_due s.now }
{
    let mut st = State {
        need: 0,
        lo: 128,
        hi: 191,
    };
    let mut i = pass(s, 0, 0, ASCII_END);
    // A `while`, since its steps vary: between two characters plain bytes are passed many at a time.
    while i < s.len() {
        let Some(t) = advance(st, s[i]) else {
            return false;
        };
        st = t;
        i += 1;
        if st.need == 0 {
            i = pass(s, i, 0, ASCII_END);
        }
    }
    st.need == 0
}
