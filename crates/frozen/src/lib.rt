// Frozen questions: what a line asks of a program that replays them. Such a program reads its questions, a line for each, makes the calls
// and writes the answers, a line for each; its file `stdout` has the frozen ones, and `rt` compares byte for byte.
//
// A question is `WHO CALL ARGUMENTS`, its fields parted by single spaces: WHO is `rust` where the answer is the Rust's own, `second` where
// it stands on the second E and L, `rules` where the Rust has no such answer. A float is 16 hex digits of its bits, or `nan`; bytes
// are their hex digits, or `-` for none. An answer is the name of the call and the fields of its answer (the crate `say`). A line that is
// no question of a call that the program has is answered by `?`, which no frozen answer is.
#![tactic(auto)]

pub mod columns;
pub mod given;
mod kinds;

ghost use Rattle.std.specs.Prelude.{◌≡◌, length};

// The place of no field, and the number of no call.
const NONE: usize = 18446744073709551615;

// The most calls of a program.
const CALLS: usize = 64;

// Room for the questions of a program.
pub fn room() -> [u8; 262144]
    ensures { 262144 ≡ length result }
{
    [0; 262144]
}

// The line of a list that starts at a place; nothing past the end.
pub fn line(list: &[u8], at: usize) -> &[u8] {
    let ends = text::lines::next_line(list, at);
    if at <= ends.end && ends.end <= list.len() {
        &list[at..ends.end]
    } else {
        &list[0..0]
    }
}

// Where the line after that one starts.
pub fn following(list: &[u8], at: usize) -> usize {
    text::lines::next_line(list, at).next
}

// What is left of a line from a place on.
fn rest(line: &[u8], at: usize) -> &[u8] {
    &line[at.min(line.len())..]
}

// The field of a line that starts at a place.
fn token(line: &[u8], at: usize) -> &[u8] {
    let part = rest(line, at);
    &part[..text::line::token_end(part).min(part.len())]
}

// Where the next field starts.
fn next(line: &[u8], at: usize) -> usize {
    let end = text::line::token_end(rest(line, at));
    if at < line.len() && end < line.len() - at {
        at + end + 1
    } else {
        NONE
    }
}

// Where the field of this number starts, counted from 0 at a place.
fn start(line: &[u8], at: usize, number: usize) -> usize {
    let mut place = at;
    for _ in 0..number {
        place = next(line, place);
    }
    place
}

// The field of this number, counted from 0.
pub fn field(line: &[u8], number: usize) -> &[u8] {
    token(line, start(line, 0, number))
}

// Whether a line says whose the answer is, and names a call.
fn is_named(line: &[u8]) -> bool {
    let names = b"rust second rules";
    let who = token(line, 0);
    let is_known = check::same(who, token(names, 0))
        || check::same(who, token(names, 5))
        || check::same(who, token(names, 12));
    is_known && !field(line, 1).is_empty()
}

// Whether fields are of these kinds, a letter for each (the module `kinds`), from one on.
fn are(kinds: &[u8], line: &[u8], from: usize) -> bool {
    let mut at = start(line, 0, from);
    for kind in kinds {
        if !kinds::is(*kind, token(line, at)) {
            return false;
        }
        at = next(line, at);
    }
    true
}

// The number of the field after so many rows of these kinds; 0 where a field is of another.
fn after_rows(row: &[u8], rows: usize, line: &[u8], from: usize) -> usize {
    let mut field = from;
    for _ in 0..rows {
        if !are(row, line, field) {
            return 0;
        }
        field = field.wrapping_add(row.len());
    }
    field
}

// Whether a line's arguments are of these kinds: those of a head, then rows, whose number is the head's last field.
fn is_question(line: &[u8], head: &[u8], row: &[u8]) -> bool {
    if !is_named(line) || !are(head, line, 2) {
        return false;
    }
    let last = head.len().wrapping_add(1);
    let rows = if row.is_empty() {
        0
    } else {
        given::size(line, last)
    };
    start(line, 0, after_rows(row, rows, line, last.wrapping_add(1))) == NONE
}

// The number of the call that a line asks for, among the calls of a program, each three fields: its name, the kinds of its arguments, and those
// of a row, both of them nothing where there are none. NONE for no question.
pub fn asked(line: &[u8], calls: &[u8]) -> usize {
    let name = field(line, 1);
    let mut at = 0;
    for k in 0..CALLS {
        if check::same(name, token(calls, at))
            && is_question(
                line,
                token(calls, next(calls, at)),
                token(calls, start(calls, at, 2)),
            )
        {
            return k;
        }
        at = start(calls, at, 3);
    }
    NONE
}

// The name of the call that a line asks for, whose number is `asked`'s; nothing for NONE.
pub fn name(line: &[u8], call: usize) -> &[u8] {
    if call == NONE {
        &line[0..0]
    } else {
        field(line, 1)
    }
}

// The first bytes, so many; all where there are fewer.
pub fn first(bytes: &[u8], length: usize) -> &[u8] {
    &bytes[..length.min(bytes.len())]
}

pub fn first_mut(bytes: &mut [u8], length: usize) -> &mut [u8] {
    let end = length.min(bytes.len());
    &mut bytes[..end]
}
