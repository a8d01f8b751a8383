// Whole numbers of 32 bits that the library's own crates compute with. Not one of document 01's calls: a division here
// asks for a denominator above 0.
#![tactic(auto)]

ghost use Rattle.std.specs.Prelude.{◌≡◌, ◌<◌, ◌+ℤ◌, ◌-ℤ◌};
ghost use Rattle.base.specs.Said.{outcome};
ghost use Rattle.std.specs.Int.Signed.{mag};
ghost use Rattle.base.specs.Integers.{floor_div, floor_mod, held};

use base::{Reason, Refusal};

// 11: a number is outside 32 bits.
const PAST_I32: Refusal = Refusal {
    reason: Reason::Overflow,
    detail: 0,
};

// z, or -1 - z where z is negative.
fn magnitude(z: i32) -> u32
    ensures { result ≡ mag z }
{
    if z < 0 { (-1 - z) as u32 } else { z as u32 }
}

// The quotient rounded down.
pub fn quotient(numer: i32, denom: u32) -> i32
    requires { 0 < denom }
    ensures { result ≡ floor_div numer denom }
{
    let m = magnitude(numer) / denom;
    if numer < 0 { -1 - (m as i32) } else { m as i32 }
}

// What the quotient rounded down leaves: from 0 up to the denominator.
pub fn remainder(numer: i32, denom: u32) -> u32
    requires { 0 < denom }
    ensures { result ≡ floor_mod numer denom }
{
    let m = magnitude(numer) % denom;
    if numer < 0 { denom - 1 - m } else { m }
}

// The exact sum.
pub fn sum(a: i32, b: i32) -> i64
    ensures { result ≡ a +ℤ b }
{
    (a as i64) + (b as i64)
}

// The exact difference.
pub fn difference(a: i32, b: i32) -> i64
    ensures { result ≡ a -ℤ b }
{
    (a as i64) - (b as i64)
}

// The number where 32 bits hold it; else 11.
pub fn to_i32(z: i64) -> Result<i32, Refusal>
    ensures { outcome result ≡ held z }
{
    if -2147483648 <= z {
        if z <= 2147483647 {
            return Ok(z as i32);
        }
    }
    Err(PAST_I32)
}
