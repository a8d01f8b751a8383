// B of L, fast: a guess, taken where y is seen to lie between its power of two and the next number's, else L's steps.
ghost use Rattle.std.specs.Prelude.{◌^◌, ◌<◌, ◌≤◌};
ghost use Rattle.powers.specs.Inner.{Bits};
ghost use Rattle.explog.specs.Head.{Head};

// 2^62 stands for 1 in y.
const ONE: u64 = 0x4000_0000_0000_0000;

// The natural logarithm of 2 in 2^64, and in 2^42: a guess's last 22 bits, and what they add to 1.
const LN_2: u64 = 0xb172_17f7_d1cf_0000;

const LN_2_PARTS: u64 = 3048493539143;

// The last bits are 22; a guess of the first ones that is too small by more than these is not followed.
const LAST: u64 = 0x40_0000;

const MOST_LAST: u64 = 5242880;

// What the first bits' power may be short of; what a power of the last bits may be above its number; what the next one is above it at least.
const SHORT: u64 = 16;

const ABOVE: u64 = 8;

const NEXT: u64 = 709;

// 2^62 times the power of two whose exponent has the 30 bits h after the point, from below, within 16.
fn root_power(h: u64) -> u64
    ensures { Head h result }
{
    let head = wide::mul_shift62(log_roots::root_1(h), log_roots::root_2(h));
    let tail = wide::mul_shift62(log_roots::root_3(h), log_roots::root_4(h));
    wide::mul_shift62(wide::mul_shift62(head, tail), log_roots::root_5(h))
}

// B, the 52 bits of the logarithm of y / 2^62: 30 of them guessed, 22 from what y has beyond their power of two; taken where y lies
// between the powers of two of this number and of the next by a margin that covers what both lose.
pub fn near_log_bits(y: u64) -> u64
    requires { (2 ^ 62 ≤ y) × (y < 2 ^ 63) }
    ensures { Bits y result }
{
    if y == ONE {
        0
    } else {
        let h = log_guess::rough_log(y);
        let q = root_power(h);
        let rest = std::num::wrapping_sub_u64(y, q) << 31;
        let t = rest / (wide::high_product(y, LN_2) / 0x20_0000);
        if t < MOST_LAST {
            let d = t * LN_2_PARTS / 0x1_0000_0000;
            if wide::mul_shift62(q + SHORT, ONE + d + ABOVE) < y {
                if y < wide::mul_shift62(q, ONE + d + NEXT) {
                    h * LAST + t
                } else {
                    powers::log_bits(y)
                }
            } else {
                powers::log_bits(y)
            }
        } else {
            powers::log_bits(y)
        }
    }
}
