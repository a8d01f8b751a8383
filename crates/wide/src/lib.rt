// Products of two 64-bit numbers, wider than 64 bits: their upper half and their lower.
#![tactic(auto)]

ghost use Rattle.std.specs.Prelude.{◌≡◌, ◌*◌, ◌/◌, ◌%◌, ◌^◌, ◌<◌};

// 2^32: a number of 64 bits is two halves, upper * HALF + lower.
const HALF: u64 = 0x1_0000_0000;

// u * v / 2^64, rounded down. The four products of halves are added in columns of 32 bits, and compile to one multiplication.
pub fn high_product(u: u64, v: u64) -> u64
    ensures { result ≡ u * v / 2 ^ 64 }
{
    let u1 = u / HALF;
    let u0 = u % HALF;
    let v1 = v / HALF;
    let v0 = v % HALF;
    let low = u0 * v0;
    let left = u1 * v0;
    let right = u0 * v1;
    let column = low / HALF + left % HALF + right % HALF;
    u1 * v1 + left / HALF + right / HALF + column / HALF
}

// u * v without its upper half: what is left over 2^64, from the same columns.
pub fn low_product(u: u64, v: u64) -> u64
    ensures { result ≡ u * v % 2 ^ 64 }
{
    let u1 = u / HALF;
    let u0 = u % HALF;
    let v1 = v / HALF;
    let v0 = v % HALF;
    let low = u0 * v0;
    let left = u1 * v0;
    let right = u0 * v1;
    let middle = low / HALF + left % HALF + right % HALF;
    middle % HALF * HALF + low % HALF
}

// a * b / 2^62, rounded down.
pub fn mul_shift62(a: u64, b: u64) -> u64
    requires { (a < 2 ^ 63) × (b < 2 ^ 63) }
    ensures { result ≡ a * b / 2 ^ 62 }
{
    high_product(a * 2, b * 2)
}
