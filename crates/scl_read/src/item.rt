// What a token of a scale file is, as an item. Document 01, "Scale": "A token with a dot is cents (4). Else with a slash it is split
// at the first: numerator (5), denominator (6). Else an integer (3)."
ghost use Rattle.std.specs.Prelude.{◌≡◌, false, ◌+◌, ◌^◌, ◌<◌, length, take, drop};
ghost use Rattle.decimals.specs.DecimalScan.{read_decimal};
ghost use Rattle.integers.specs.Integer.{read_int};
ghost use Rattle.scl_read.specs.Tokens.{position_of, usable_item, cents_in, fraction_in, whole_in, item_in};

use base::Reason;
use decimals::{DecimalError, read_decimal};
use scl::Item;

// Where a byte first stands; the length where it does not.
fn find(s: &[u8], byte: u8) -> usize
    ensures { result ≡ position_of byte s.now }
{
    for (i, b) in s.iter().enumerate() {
        if *b == byte {
            return i;
        }
    }
    s.len()
}

// The item, where it can be used; else 10.
fn usable(item: Item) -> Result<Item, Reason>
    ensures { result ≡ usable_item item }
{
    if item.is_usable() {
        return Ok(item);
    }
    Err(Reason::Unusable)
}

// Cents: 4, 9, 10.
fn read_cents(token: &[u8]) -> Result<Item, Reason>
    ensures { result ≡ cents_in (read_decimal token.now) }
{
    match read_decimal(token) {
        Ok(cents) => usable(Item::Cents(cents)),
        Err(DecimalError::Unsupported) => Err(Reason::UnsupportedNumeral),
        Err(DecimalError::Bad) => Err(Reason::CentsValue),
    }
}

// A fraction with its slash at `at`: 5, 6, 10.
fn read_fraction(token: &[u8], at: usize) -> Result<Item, Reason>
    requires { at < length token.now }
    ensures { result ≡ fraction_in (read_int false (2 ^ 32) (take at token.now)) (read_int false (2 ^ 32) (drop (at + 1) token.now)) }
{
    let numer = integers::read::<u32>(&token[..at]).ok_or(Reason::Numer)?;
    let denom = integers::read::<u32>(&token[at + 1..]).ok_or(Reason::Denom)?;
    usable(Item::Fraction(numer, Some(denom)))
}

// An integer: 3, 10.
fn read_whole(token: &[u8]) -> Result<Item, Reason>
    ensures { result ≡ whole_in (read_int false (2 ^ 32) token.now) }
{
    let numer = integers::read::<u32>(token).ok_or(Reason::IntValue)?;
    usable(Item::Fraction(numer, None))
}

// The item that a token is, or the first number of 01's order that it draws: 3 to 6, 9, 10.
pub fn read_item(token: &[u8]) -> Result<Item, Reason>
    ensures { result ≡ item_in token.now }
{
    if find(token, b'.') < token.len() {
        return read_cents(token);
    }
    let slash = find(token, b'/');
    if slash < token.len() {
        return read_fraction(token, slash);
    }
    read_whole(token)
}
