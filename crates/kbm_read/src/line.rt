// What one line of a mapping file adds to what was said. Document 01, "Lines" and "Mapping".
ghost use Rattle.std.specs.Prelude.{◌≡◌};
ghost use Rattle.base.specs.Said.{outcome};
ghost use Rattle.base.specs.Numbers.{float_value};
ghost use Rattle.decimals.specs.Answers.{says_decimal};
ghost use Rattle.decimals.specs.DecimalScan.{read_decimal};
ghost use Rattle.text.specs.ReadLine.{shown, InText};
ghost use Rattle.kbm_read.specs.Steps.{goes_on, take_entry, is_cross, entry_in};
ghost use Rattle.kbm_read.specs.Steps.{last_taken, take_token, take_meaning, found_in};

use base::{Reason, Refusal};
use decimals::{DecimalError, read_decimal};
use text::line::LineSays;

// What the next line with content is: one of the seven required ones, or an entry.
#[derive(Clone, Copy)]
pub enum Due {
    Size,
    FirstKey,
    LastKey,
    MiddleKey,
    ReferenceKey,
    ReferencePitch,
    Octave,
    Entries,
}

// What the required lines say; `end` is the key after the last.
#[derive(Clone, Copy)]
pub struct Head {
    pub size: u16,
    pub first: i32,
    pub end: i32,
    pub middle: i16,
    pub reference: i16,
    pub hz: f64,
    pub octave: i16,
}

// What the lines so far say: `count` entries were given.
#[derive(Clone, Copy)]
pub struct State {
    pub due: Due,
    pub head: Head,
    pub count: usize,
}

// What a line gives the table: an entry, nothing, or nothing since it is a required line.
#[derive(Clone, Copy)]
pub enum Found {
    Is(Option<i16>),
    Required,
    Nothing,
}

// A line is refused for this reason.
fn refused(reason: Reason, line: usize) -> Refusal
    ensures { result ≡ record { reason = reason; detail = line } }
{
    Refusal {
        reason,
        detail: line,
    }
}

// The line after a required one is due, and the head says so much.
fn goes_on(due: Due, head: Head) -> Result<State, Refusal>
    ensures { outcome result ≡ goes_on due head }
{
    Ok(State {
        due,
        head,
        count: 0,
    })
}

// The decimal that a token is: 9 for an unsupported one, else 7.
fn read_decimal_at(token: &[u8], line: usize) -> Result<f64, Refusal>
    ensures { outcome result ≡ says_decimal float_value line (read_decimal token.now) }
{
    match read_decimal(token) {
        Ok(x) => Ok(x),
        Err(DecimalError::Unsupported) => Err(refused(Reason::UnsupportedNumeral, line)),
        Err(DecimalError::Bad) => Err(refused(Reason::FloatValue, line)),
    }
}

// Whether a token is `x` or `X`.
fn is_cross(token: &[u8]) -> bool
    ensures { result ≡ is_cross token.now }
{
    matches!(token, [b'x' | b'X'])
}

// The entry that a token is: `x`, `X` or an i16.
pub fn read_entry(token: &[u8]) -> Option<Option<i16>>
    ensures { result ≡ entry_in token.now }
{
    if is_cross(token) {
        return Some(None);
    }
    Some(Some(integers::read::<i16>(token)?))
}

// An entry; 8, and 12 where it has no place.
fn take_entry(token: &[u8], line: usize, room: usize, state: State) -> Result<State, Refusal>
    ensures { outcome result ≡ take_entry room line token.now state }
{
    let Some(_) = read_entry(token) else {
        return Err(refused(Reason::KeyboardMapping, line));
    };
    let head = state.head;
    let count = state.count;
    if room <= count {
        return Err(refused(Reason::NoRoom, line));
    }
    Ok(State {
        due: Due::Entries,
        head,
        count: count + 1,
    })
}

// The last key: 11 for the largest, which cannot be the last, since the end of the range is the key after it; 25 below the first.
fn take_last(last: i32, line: usize, mut head: Head) -> Result<State, Refusal>
    ensures { outcome result ≡ last_taken line head last }
{
    if last == i32::MAX {
        return Err(refused(Reason::Overflow, line));
    }
    if head.first <= last {
        head.end = last + 1;
        return goes_on(Due::MiddleKey, head);
    }
    Err(refused(Reason::BackwardsRange, line))
}

// The token of the line that is due: an integer of its type (3; of the last key 11 and 25), the pitch in Hz, in 2^-10..2^20 (7, 9,
// 10), or an entry (8, 12).
fn take_token(token: &[u8], line: usize, room: usize, state: State) -> Result<State, Refusal>
    ensures { outcome result ≡ take_token room line token.now state }
{
    let mut head = state.head;
    match state.due {
        Due::Size => {
            head.size = integers::read_at::<u16>(token, line)?;
            goes_on(Due::FirstKey, head)
        }
        Due::FirstKey => {
            head.first = integers::read_at::<i32>(token, line)?;
            goes_on(Due::LastKey, head)
        }
        Due::LastKey => {
            let last = integers::read_at::<i32>(token, line)?;
            take_last(last, line, head)
        }
        Due::MiddleKey => {
            head.middle = integers::read_at::<i16>(token, line)?;
            goes_on(Due::ReferenceKey, head)
        }
        Due::ReferenceKey => {
            head.reference = integers::read_at::<i16>(token, line)?;
            goes_on(Due::ReferencePitch, head)
        }
        Due::ReferencePitch => {
            let hz = read_decimal_at(token, line)?;
            if !floats::is_in_pitch(hz) {
                return Err(refused(Reason::Unusable, line));
            }
            head.hz = hz;
            goes_on(Due::Octave, head)
        }
        Due::Octave => {
            head.octave = integers::read_at::<i16>(token, line)?;
            goes_on(Due::Entries, head)
        }
        Due::Entries => take_entry(token, line, room, state),
    }
}

// A line of the text: 1 where it is not UTF-8, and nothing new where it is blank or a comment.
pub fn take_line(
    text: &[u8],
    says: LineSays,
    line: usize,
    room: usize,
    state: State,
) -> Result<State, Refusal>
    requires { InText text.now says }
    ensures { outcome result ≡ take_meaning room line (shown text.now says) state }
{
    match says {
        LineSays::NotUtf8 => Err(refused(Reason::NotUtf8, line)),
        LineSays::Blank | LineSays::Comment => Ok(state),
        LineSays::Content {
            start,
            end: _,
            token_end,
        } => take_token(&text[start..token_end], line, room, state),
    }
}

// What a line gives the table, where so many of the seven required lines are still to come.
pub fn found_in(text: &[u8], says: LineSays, required: usize) -> Found
    requires { InText text.now says }
    ensures { result ≡ found_in required (shown text.now says) }
{
    match says {
        LineSays::NotUtf8 | LineSays::Blank | LineSays::Comment => Found::Nothing,
        LineSays::Content {
            start,
            end: _,
            token_end,
        } => {
            if required > 0 {
                return Found::Required;
            }
            let Some(entry) = read_entry(&text[start..token_end]) else {
                return Found::Nothing;
            };
            Found::Is(entry)
        }
    }
}
