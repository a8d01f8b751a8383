// The steps of E and of L, one by one, as document 01 gives them ("Logarithm and power"): P, and B.
#![tactic(auto)]

mod table;

ghost use Rattle.std.specs.Prelude.{◌≡◌, ◌^◌, ◌≤◌, ◌<◌};
ghost use Rattle.powers.specs.Inner.{Factor, Power, Bits, top_bit};

// What step k of E multiplies by: T_k where b's bit is set, else 2^62, which changes nothing. A place is read, no branch taken.
fn factor(b: u64, k: u64) -> u64
    requires { (1 ≤ k) × (k ≤ 52) }
    ensures { Factor b k result }
{
    let bit = (b >> (52 - k)) % 2;
    crate::table::entry(k * bit)
}

// P after `to` steps of E, from P after `from` steps.
pub fn power_steps(b: u64, p: u64, from: u64, to: u64) -> u64
    requires { (from ≤ to) × (to ≤ 52) × Power b from p }
    ensures { Power b to result }
{
    let mut q = p;
    let mut k = from;
    while k < to {
        k += 1;
        q = wide::mul_shift62(q, factor(b, k));
    }
    q
}

// L's next bit: 1 where s has reached 2^63, else 0.
fn top_bit(s: u64) -> u64
    ensures { result ≡ top_bit s }
{
    if 0x8000_0000_0000_0000 <= s { 1 } else { 0 }
}

// B, the 52 bits of the logarithm of y / 2^62.
pub fn log_bits(y: u64) -> u64
    requires { y < 2 ^ 63 }
    ensures { Bits y result }
{
    let mut z = y;
    let mut bits: u64 = 0;
    let mut k: usize = 0;
    while k < 52 {
        k += 1;
        let s = wide::mul_shift62(z, z);
        let bit = top_bit(s);
        z = s >> bit;
        bits = bits * 2 + bit;
    }
    bits
}
