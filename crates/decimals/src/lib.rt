// Decimals in: document 01, "Lines". A scan (crate `numerals`) says what a text writes, `is_supported` alone says which numerals
// are taken, and only then is one given its value.
#![tactic(auto)]

ghost use Rattle.std.specs.Prelude.{◌≡◌, ◌^◌, ◌<◌, ◌≤◌, false};
ghost use Rattle.std.specs.Float.Ieee as Ieee;
ghost use Rattle.std.specs.Float.{binary64};
ghost use Rattle.decimals.specs.DecimalScan.{supported, read_decimal};

use numerals::Numeral;

// 01: 9 is given "for .. over 18 digits from the first nonzero digit on".
const MOST_DIGITS: usize = 18;
// 01: "or over 18 digits after the dot".
const MOST_PLACES: usize = 18;
// 2^53: every whole number up to here is an f64, and so is every power of ten up to 10^18. So one division, which rounds once,
// gives the nearest.
const MOST_EXACT: u64 = 0x20_0000_0000_0000;

// Why a text gives no decimal. A caller gives Unsupported the number 9, and Bad the number of what it reads.
#[derive(Clone, Copy, PartialEq, Eq)]
pub enum DecimalError {
    Unsupported,
    Bad,
}

// Whether a numeral is taken: no exponent and no word, at most 18 digits from the first nonzero one on, and at most 18
// after the dot.
fn is_supported(x: Numeral) -> bool
    ensures { result ≡ supported x }
{
    x.plain && x.significant <= MOST_DIGITS && x.places <= MOST_PLACES
}

// The f64 nearest to n / 10^k, a tie to the even one.
fn nearest_decimal(n: u64, k: u64) -> f64
    requires { (n < 10 ^ 18) × (k ≤ 18) }
    ensures { result ≡ Ieee.round binary64 false n (10 ^ k) }
{
    if n <= MOST_EXACT {
        return (n as f64) / std::num::nearest_u64_to_f64(rounding::pow10(k));
    }
    if k == 0 {
        return std::num::nearest_u64_to_f64(n);
    }
    if k == 1 {
        return rounding::nearest_scaled(n, 640, 6);
    }
    rounding::nearest_scaled(n, rounding::pow10(k), 0)
}

// The f64 nearest to n / 10^k, or to its negative: the sign of zero is kept.
fn signed_decimal(negative: bool, n: u64, k: u64) -> f64
    requires { (n < 10 ^ 18) × (k ≤ 18) }
    ensures { result ≡ Ieee.round binary64 negative n (10 ^ k) }
{
    let x = nearest_decimal(n, k);
    if negative { -x } else { x }
}

// The f64 nearest to the decimal that the text is; Unsupported (9) for a numeral that is not taken, Bad for no numeral.
pub fn read_decimal(s: &[u8]) -> Result<f64, DecimalError>
    ensures { result ≡ read_decimal s.now }
{
    let Some(x) = numerals::scan(s) else {
        return Err(DecimalError::Bad);
    };
    if !is_supported(x) {
        return Err(DecimalError::Unsupported);
    }
    Ok(signed_decimal(x.negative, x.n, x.places as u64))
}
