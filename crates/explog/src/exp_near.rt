// P of E, fast and rounded: by a number near P from tables, and where that could round another way than P, by P itself, from its steps.
ghost use Rattle.std.specs.Prelude.{◌≡◌, ◌*◌, ◌^◌, ◌≤◌, false};
ghost use Rattle.std.specs.Float.{binary64};
ghost use Rattle.std.specs.Float.Ieee.{round};
ghost use Rattle.powers.specs.Exp.{p_of};
ghost use Rattle.powers.specs.Inner.{Power};
ghost use Rattle.explog.specs.Near.{Near};

// 2^62 stands for 1 in P.
const ONE: u64 = 0x4000_0000_0000_0000;

// An f64 keeps all of P but its last 1024th parts; the middle of two f64s is 512 of them, and 511 keeps just below it.
const LAST: u64 = 1024;

const BELOW_MIDDLE: u64 = 511;

// The parts that are left where P is above its number by 11 at most.
const DECIDED: u64 = 1012;

// P after E's 52 steps, the first ones from a table.
fn power_bits(b: u64) -> u64
    ensures { Power b 52 result }
{
    powers::power_steps(b, power_first::first_steps(b), power_first::STEPS, 52)
}

// A number near P: the first steps from a table, times the products of the next ones, times all the rest, whose factors are so
// near 1 that they are added.
fn near_power(b: u64) -> u64
    ensures { Near b result }
{
    let head = wide::mul_shift62(power_first::first_steps(b), power_products::product_1(b));
    let tail = wide::mul_shift62(power_products::product_2(b), power_products::product_3(b));
    let body = wide::mul_shift62(head, tail);
    let rest = power_sums::sum_1(b) + power_sums::sum_2(b) + power_sums::sum_3(b);
    wide::mul_shift62(body, ONE + rest)
}

// The f64 nearest to P * 2^(n - 1086): by the number near P where no middle of two f64s can lie between them, else by P. The near one
// is above P by one for each set bit of b at most.
pub fn nearest_to_power(b: u64, n: u64) -> f64
    requires { (124 ≤ n) × (n ≤ 1924) }
    ensures { result ≡ round binary64 false (p_of b 52 * 2 ^ n) (2 ^ 1086) }
{
    let set = u64::count_ones(b) as u64;
    let moved = near_power(b) + (BELOW_MIDDLE - set);
    if moved % LAST < DECIDED - set {
        f64::from_bits((n - 2) * 0x10_0000_0000_0000 + moved / LAST)
    } else {
        rounding::nearest_power(power_bits(b), n)
    }
}
