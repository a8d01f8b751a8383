// What one line of a scale file adds to what was said. Document 01, "Lines" and "Scale".
ghost use Rattle.std.specs.Prelude.{◌≡◌};
ghost use Rattle.base.specs.Said.{outcome};
ghost use Rattle.text.specs.ReadLine.{shown, InText};
ghost use Rattle.scl_read.specs.Steps.{take_count, take_item, take_token, take_meaning, found_in};

use crate::item::read_item;
use base::{Reason, Refusal};
use scl::Item;
use text::line::LineSays;

// What the next line with content is: the description, the number of notes, or an item.
#[derive(Clone, Copy)]
pub enum Due {
    Description,
    Count,
    Items,
}

// What the lines so far say: the number of notes, how many items were given, and the last of them.
#[derive(Clone, Copy)]
pub struct State {
    pub due: Due,
    pub declared: u16,
    pub count: usize,
    pub last: Item,
}

// What a line gives the table: an item, nothing, or nothing since it is a required line.
#[derive(Clone, Copy)]
pub enum Found {
    Is(Item),
    Required,
    Nothing,
}

// A line is refused for this reason.
fn refused(reason: Reason, line: usize) -> Refusal
    ensures { result ≡ record { reason = reason; detail = line } }
{
    Refusal {
        reason,
        detail: line,
    }
}

// The number of notes; 3.
fn take_count(token: &[u8], line: usize, state: State) -> Result<State, Refusal>
    ensures { outcome result ≡ take_count line token.now state }
{
    Ok(State {
        due: Due::Items,
        declared: integers::read_at::<u16>(token, line)?,
        count: state.count,
        last: state.last,
    })
}

// An item; 3 to 6, 9, 10, and 12 where it has no place.
fn take_item(token: &[u8], line: usize, places: usize, state: State) -> Result<State, Refusal>
    ensures { outcome result ≡ take_item places line token.now state }
{
    let item = match read_item(token) {
        Ok(item) => item,
        Err(reason) => return Err(refused(reason, line)),
    };
    let count = state.count;
    if places <= count {
        return Err(refused(Reason::NoRoom, line));
    }
    Ok(State {
        due: Due::Items,
        declared: state.declared,
        count: count + 1,
        last: item,
    })
}

// The token of the line that is due.
fn take_token(token: &[u8], line: usize, places: usize, state: State) -> Result<State, Refusal>
    ensures { outcome result ≡ take_token places line token.now state }
{
    match state.due {
        Due::Description => Ok(State {
            due: Due::Count,
            declared: state.declared,
            count: state.count,
            last: state.last,
        }),
        Due::Count => take_count(token, line, state),
        Due::Items => take_item(token, line, places, state),
    }
}

// A line of the text: 1 where it is not UTF-8, and nothing new where it is blank or a comment.
pub fn take_line(
    text: &[u8],
    says: LineSays,
    line: usize,
    places: usize,
    state: State,
) -> Result<State, Refusal>
    requires { InText text.now says }
    ensures { outcome result ≡ take_meaning places line (shown text.now says) state }
{
    match says {
        LineSays::NotUtf8 => Err(refused(Reason::NotUtf8, line)),
        LineSays::Blank | LineSays::Comment => Ok(state),
        LineSays::Content {
            start,
            end: _,
            token_end,
        } => take_token(&text[start..token_end], line, places, state),
    }
}

// What a line gives the table, where so many of the two required lines are still to come.
pub fn found_in(text: &[u8], says: LineSays, required: usize) -> Found
    requires { InText text.now says }
    ensures { result ≡ found_in required (shown text.now says) }
{
    match says {
        LineSays::NotUtf8 | LineSays::Blank | LineSays::Comment => Found::Nothing,
        LineSays::Content {
            start,
            end: _,
            token_end,
        } => {
            if required > 0 {
                return Found::Required;
            }
            let Ok(item) = read_item(&text[start..token_end]) else {
                return Found::Nothing;
            };
            Found::Is(item)
        }
    }
}
