// A guess at the logarithm of y / 2^62. Nothing rests on it but speed: who uses it tests it.
#![tactic(auto)]

mod table;

ghost use Rattle.std.specs.Prelude.{◌^◌, ◌<◌};

// The terms of the logarithm of 1 + s: nearly 1, 1/2 and 1/3 over the natural logarithm of 2, in 2^62, fitted to s below 1/128.
const FIRST: u64 = 0x5c55_1d89_0000_0000;

const SECOND: u64 = 0x2e2a_5b51_0000_0000;

const THIRD: u64 = 0x1e82_0000_0000_0000;

// The first 30 bits of the logarithm of y / 2^62, or nearly: y over 1 + i/128 is 1 + s, and the logarithm of that, from three terms, is added to
// the table's. The terms come out too small by a tenth of the last bit at most.
pub fn rough_log(y: u64) -> u64
    ensures { result < 2 ^ 30 }
{
    let i = y / 0x80_0000_0000_0000 % 128;
    let r = wide::high_product(y << 1, crate::table::inverse(i));
    let s = std::num::wrapping_sub_u64(r, 0x4000_0000_0000_0000) << 2;
    let slope = std::num::wrapping_sub_u64(SECOND, wide::high_product(s, THIRD));
    let rise = std::num::wrapping_sub_u64(
        wide::high_product(s, FIRST),
        wide::high_product(wide::high_product(s, s), slope),
    );
    let log = std::num::wrapping_add_u64(rise, crate::table::logarithm(i));
    log / 0x1_0000_0000 % 0x4000_0000
}
