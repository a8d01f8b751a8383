// The arguments, and which key is counted from, by the third.
ghost use Rattle.std.specs.Prelude.{◌≤◌, length};

use kbm::Counting;
use std::env::{Env, FillError};

// The most arguments that are counted, the program's name among them: more than it takes.
const ARGUMENTS: usize = 5;

// Whether there is an argument of this number.
fn has_arg<R: Env>(rt: &R, number: usize) -> bool {
    let mut word = [0u8; 16];
    !matches!(rt.arg(number, &mut word), Err(FillError::NotPresent))
}

// How many arguments there are, the program's name among them; 5 where there are more.
pub fn arg_count<R: Env>(rt: &R) -> usize {
    for number in 0..ARGUMENTS {
        if !has_arg(rt, number) {
            return number;
        }
    }
    ARGUMENTS
}

// Puts an argument at the start of the lent bytes; how many bytes it has, 0 where it is missing or longer than they are.
pub fn arg<R: Env>(rt: &R, number: usize, bytes: &mut [u8]) -> usize
    ensures { result ≤ length bytes.new }
{
    rt.arg(number, bytes).unwrap_or(0)
}

// The counting of a word.
fn of_word(word: &[u8]) -> Option<Counting> {
    match word {
        b"reference" => Some(Counting::Reference),
        b"middle" => Some(Counting::Middle),
        _ => None,
    }
}

// The counting of so many arguments, the program's name among them: the reference key where no third one is there.
pub fn chosen<R: Env>(rt: &R, count: usize) -> Option<Counting> {
    match count {
        3 => Some(Counting::Reference),
        4 => {
            let mut word = [0u8; 16];
            let bytes = arg(rt, 3, &mut word);
            of_word(&word[..bytes])
        }
        _ => None,
    }
}
