// Integers of a text, at every width and sign. Document 01, "Lines": optional `+` (`-` only for signed types), then one or
// more digits, within the type. Each reader takes the part of the text that is the token; an empty one is no integer.
#![tactic(auto)]

ghost use Rattle.std.specs.Prelude.{◌≡◌, Bool, ℕ, ℤ, pos, ◌+◌, ◌-◌, ◌*◌, ◌^◌, ◌≤◌, ◌<◌, length, drop, true, false};
ghost use Rattle.std.proofs.Common.{rules};
ghost use Rattle.base.specs.Numbers.{int_value};
ghost use Rattle.base.specs.Said.{outcome_by};
ghost use Rattle.integers.specs.AtLine.{int_at};
ghost use Rattle.integers.specs.Integer.{magnitude_of, read_int, read_signed, int_by, InType};

use base::{Reason, Refusal};

// The sign and the size of an integer: -0 is kept apart from 0.
#[derive(Clone, Copy)]
pub enum Signed {
    Plus(u64),
    Minus(u64),
}

// A type of integers that a text can hold: all below `TOP` and, if signed, down to its negative.
pub trait Integer: Copy {
    ghost SIGNED: { Bool };

    const SIGNED: bool;

    ghost TOP: { ℕ };

    const TOP: u64;

    ghost number: { Self → ℤ };

    // The integer of its number.
    fn from_number(z: i64) -> Self
        requires { InType SIGNED TOP z }
        ensures { number result ≡ z };

    // The number of the integer.
    fn number(self) -> i64
        ensures { result ≡ number self };

    ghost some: { 0 < TOP };

    ghost most: { TOP ≤ 2 ^ 32 };
}

impl Integer for u16 {
    ghost SIGNED = { false };

    const SIGNED: bool = false;

    ghost TOP = { 2 ^ 16 };

    const TOP: u64 = 65536;

    ghost number = { pos };

    fn from_number(z: i64) -> u16 {
        z as u16
    }

    fn number(self) -> i64 {
        i64::from(self)
    }

    ghost some = { Prim.search rules };

    ghost most = { Prim.search rules };
}

impl Integer for u32 {
    ghost SIGNED = { false };

    const SIGNED: bool = false;

    ghost TOP = { 2 ^ 32 };

    const TOP: u64 = 4294967296;

    ghost number = { pos };

    fn from_number(z: i64) -> u32 {
        z as u32
    }

    fn number(self) -> i64 {
        i64::from(self)
    }

    ghost some = { Prim.search rules };

    ghost most = { Prim.search rules };
}

impl Integer for i16 {
    ghost SIGNED = { true };

    const SIGNED: bool = true; // down to -32,768

    ghost TOP = { 2 ^ 15 };

    const TOP: u64 = 32768;

    ghost number = { λ z. z };

    fn from_number(z: i64) -> i16 {
        z as i16
    }

    fn number(self) -> i64 {
        // Below zero too.
        i64::from(self)
    }

    ghost some = { Prim.search rules };

    ghost most = { Prim.search rules };
}

impl Integer for i32 {
    ghost SIGNED = { true };

    const SIGNED: bool = true;

    ghost TOP = { 2 ^ 31 };

    const TOP: u64 = 2147483648;

    ghost number = { λ z. z };

    fn from_number(z: i64) -> i32 {
        z as i32
    }

    fn number(self) -> i64 {
        i64::from(self)
    }

    ghost some = { Prim.search rules };

    ghost most = { Prim.search rules };
}

// The number that the digits write, where there are some and it is at most `top`.
fn read_magnitude(digits: &[u8], top: u64) -> Option<u64>
    requires { top ≤ 2 ^ 32 }
    ensures { result ≡ magnitude_of top digits.now }
{
    if digits.is_empty() {
        return None;
    }
    let mut number: u64 = 0;
    for b in digits {
        if !b.is_ascii_digit() {
            return None;
        }
        number = number * 10 + u64::from(*b - b'0');
        if number > top {
            return None;
        }
    }
    Some(number)
}

// The sign and the size of an integer of a type that holds what is below `top` and, if signed, what is down to its negative.
fn read_signed(s: &[u8], signed: bool, top: u64) -> Option<Signed>
    requires { (0 < top) × (top ≤ 2 ^ 32) }
    ensures { result ≡ read_signed signed top s.now }
{
    let first = *s.first()?;
    if first == b'-' {
        if signed {
            return Some(Signed::Minus(read_magnitude(&s[1..], top)?));
        }
        return None;
    }
    if first == b'+' {
        return Some(Signed::Plus(read_magnitude(&s[1..], top - 1)?));
    }
    Some(Signed::Plus(read_magnitude(s, top - 1)?))
}

// The integer that `s` is.
pub fn read<T: Integer>(s: &[u8]) -> Option<T>
    ensures { int_by T.number result ≡ read_int T.SIGNED T.TOP s.now }
{
    let z = match read_signed(s, T::SIGNED, T::TOP)? {
        Signed::Plus(n) => n as i64,
        Signed::Minus(n) => -(n as i64),
    };
    Some(T::from_number(z))
}

// The integer that a token is, or its refusal at a line; 3.
pub fn read_at<T: Integer>(token: &[u8], line: usize) -> Result<T, Refusal>
    ensures { outcome_by T.number result ≡ int_at int_value line (read_int T.SIGNED T.TOP token.now) }
{
    let Some(number) = read::<T>(token) else {
        return Err(Refusal {
            reason: Reason::IntValue,
            detail: line,
        });
    };
    Ok(number)
}
