// math.rs for C: division rounded down, and the odd part.
ghost use Rattle.math.specs.Division.{quotient_of, remainder_of, division_of};
ghost use Rattle.telbijan_answers.specs.Calls.{Stored, StoredTwo};
ghost use Rattle.telbijan_numbers.specs.Calls.{OddFactors};

// The quotient rounded down, stored; 10 for denominator 0.
pub fn telbijan_i32_div_u(numer: i32, denom: u32, quotient: &mut i32) -> u64
    ensures { Stored (quotient_of numer denom) quotient.old result quotient.new }
{
    telbijan_answers::store(math::i32_div_u(numer, denom), quotient)
}

// What the quotient leaves, stored; 10 for denominator 0.
pub fn telbijan_i32_rem_u(numer: i32, denom: u32, remainder: &mut u32) -> u64
    ensures { Stored (remainder_of numer denom) remainder.old result remainder.new }
{
    telbijan_answers::store(math::i32_rem_u(numer, denom), remainder)
}

// Quotient and remainder, both stored; 10 for denominator 0.
pub fn telbijan_i32_dr_u(numer: i32, denom: u32, quotient: &mut i32, remainder: &mut u32) -> u64
    ensures { StoredTwo (λ p. p.quotient) (λ p. p.remainder) (division_of numer denom)
        quotient.old remainder.old result quotient.new remainder.new }
{
    match math::i32_dr_u(numer, denom) {
        Ok(division) => {
            *quotient = division.quotient;
            *remainder = division.remainder;
            0
        }
        Err(refusal) => telbijan_answers::code_of(refusal),
    }
}

// The number with every factor of two taken out; 0 stays 0.
pub fn telbijan_odd_factors_u16(number: u16) -> u16
    ensures { OddFactors number result }
{
    math::odd_factors_u16(number)
}
