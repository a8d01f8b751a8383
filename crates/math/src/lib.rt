// The Rust's math.rs; document 01, "What is taken", 1.
#![tactic(auto)]

ghost use Rattle.std.specs.Prelude.{◌≡◌};
ghost use Rattle.base.specs.Said.{outcome};
ghost use Rattle.math.specs.Answers.{says_division};
ghost use Rattle.math.specs.Division.{quotient_of, remainder_of, division_of};
ghost use Rattle.math.specs.OddPart.{odd_part};

use base::{Reason, Refusal};

// What a division gives, both parts of it.
#[derive(Clone, Copy)]
pub struct Division {
    pub quotient: i32,
    pub remainder: u32,
}

// 10: the denominator is 0.
const DENOM_IS_ZERO: Refusal = Refusal {
    reason: Reason::Unusable,
    detail: 0,
};

// The quotient rounded down; 10 for denominator 0.
pub fn i32_div_u(numer: i32, denom: u32) -> Result<i32, Refusal>
    ensures { outcome result ≡ quotient_of numer denom }
{
    if denom == 0 {
        return Err(DENOM_IS_ZERO);
    }
    Ok(integer_math::quotient(numer, denom))
}

// The remainder, from 0 up to the denominator; 10 for denominator 0.
pub fn i32_rem_u(numer: i32, denom: u32) -> Result<u32, Refusal>
    ensures { outcome result ≡ remainder_of numer denom }
{
    if denom == 0 {
        return Err(DENOM_IS_ZERO);
    }
    Ok(integer_math::remainder(numer, denom))
}

// Quotient and remainder in one call; 10 for denominator 0.
pub fn i32_dr_u(numer: i32, denom: u32) -> Result<Division, Refusal>
    ensures { says_division result ≡ division_of numer denom }
{
    if denom == 0 {
        return Err(DENOM_IS_ZERO);
    }
    Ok(Division {
        quotient: integer_math::quotient(numer, denom),
        remainder: integer_math::remainder(numer, denom),
    })
}

// The number with every factor of two taken out; 0 stays 0.
pub fn odd_factors_u16(number: u16) -> u16
    ensures { result ≡ odd_part number }
{
    if number == 0 {
        return 0;
    }
    number / (1u16 << u16::trailing_zeros(number))
}
