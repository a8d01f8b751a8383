// E and L for C: the power of two and its logarithm, the same on every machine.
ghost use Rattle.explog.specs.Rules.{E, L};
ghost use Rattle.telbijan_answers.specs.Calls.{Stored};

// E(x), the power 2^x, stored; 18 outside -900..900. It is above the true power by one part in 2^53 at most, and below it by less
// than one in 2^51: within 8e-13 cents. What a caller computes before and after rounds again.
pub fn telbijan_exp2(x: f64, power: &mut f64) -> u64
    ensures { Stored (E x) power.old result power.new }
{
    telbijan_answers::store(explog::exp2(x), power)
}

// L(x), the base 2 logarithm, stored; 18 outside 2^-900..2^900. It is above the true logarithm by |L(x)| * 2^-53 at most, and below
// it by less than that plus 2^-51: up to 32 octaves, within 5e-12 cents. What a caller computes before and after rounds again.
pub fn telbijan_log2(x: f64, logarithm: &mut f64) -> u64
    ensures { Stored (L x) logarithm.old result logarithm.new }
{
    telbijan_answers::store(explog::log2(x), logarithm)
}
