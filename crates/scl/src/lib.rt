// Scales: their items, and the lent table that these stand in. The Rust's `PitchValue`; document 01, "Scale".
//
// Items stand in four lent columns, place for place. The kind says what an item is: `CENTS` the number in `cents`, `FRACTION` the
// fraction `numer` / `denom`, `WHOLE` the integer `numer`; any other kind is unusable (10). What a kind does not use is stored as 0.
// Place 0 holds the implicit 0.0 cents, item j stands at place j, and a scale of `count` items has `count` + 1 places.
#![tactic(auto)]

ghost use Rattle.std.specs.Prelude.{◌≡◌, true, ◌≤◌, ◌<◌, length, take, get_or};
ghost use Rattle.std.specs.Float.{nan};
ghost use Rattle.pitch.specs.Answers.{says_ratio};
ghost use Rattle.scl.specs.Items.{is_usable_cents, is_usable_denom, is_usable, denom_of, ratio_of, given_ratio, Reached};
ghost use Rattle.scl.specs.Table.{ItemTable, Typed, IsPlace, item_at, item_of, items_of, item_table, are_usable, is_items};

use base::{Reason, Refusal};
use pitch::Ratio;
use std::marker::Model;

// A scale, beside its tables: `count` items after place 0.
#[derive(Clone, Copy)]
pub struct Scl {
    pub count: u16,
}

// An item of a scale.
#[derive(Clone, Copy)]
pub enum Item {
    Cents(f64),
    Fraction(u32, Option<u32>),
}

// The kind of an item in cents.
pub const CENTS: u8 = 0;
// The kind of a fraction whose denominator was given.
pub const FRACTION: u8 = 1;
// The kind of an integer: a fraction whose denominator is lacking.
pub const WHOLE: u8 = 2;

// 10: a lent table, a state or an item cannot be used.
pub const NOT_USABLE: Refusal = Refusal {
    reason: Reason::Unusable,
    detail: 0,
};

// Whether cents lie in -38400..38400.
pub fn is_usable_cents(cents: f64) -> bool
    ensures { result ≡ is_usable_cents cents }
{
    floats::is_within(-38400.0, 38400.0, cents)
}

// Whether a denominator is at least 1, or lacking.
fn is_usable_denom(denom: Option<u32>) -> bool
    ensures { result ≡ is_usable_denom denom }
{
    match denom {
        Some(number) => 0 < number,
        None => true,
    }
}

// The denominator's number, 1 where it is lacking.
pub fn denom_of(denom: Option<u32>) -> u32
    ensures { result ≡ denom_of denom }
{
    denom.unwrap_or(1)
}

impl Item {
    // Whether the item can be used: cents in -38400..38400, numerator and denominator at least 1.
    pub fn is_usable(self) -> bool
        ensures { result ≡ is_usable self }
    {
        match self {
            Item::Cents(cents) => is_usable_cents(cents),
            Item::Fraction(numer, denom) => 0 < numer && is_usable_denom(denom),
        }
    }

    // The item as a ratio; 18 where that is out of reach, never for an item that can be used.
    fn ratio(self) -> Result<Ratio, Refusal>
        ensures value { says_ratio result ≡ ratio_of self }
        ensures reached { is_usable self ≡ true → Reached (says_ratio result) }
    {
        match self {
            Item::Cents(cents) => Ratio::from_cents(cents),
            Item::Fraction(numer, denom) => {
                pitch::checked_ratio((numer as f64) / (denom_of(denom) as f64))
            }
        }
    }

    // The item as a ratio; 10 for an item that cannot be used, and never another refusal.
    pub fn as_ratio(self) -> Result<Ratio, Refusal>
        ensures value { says_ratio result ≡ given_ratio self }
        ensures reached { is_usable self ≡ true → Reached (says_ratio result) }
    {
        if self.is_usable() {
            self.ratio()
        } else {
            Err(NOT_USABLE)
        }
    }
}

// The item that stands in the columns; one that cannot be used where the kind is unknown.
pub fn item_of(kind: u8, cents: f64, numer: u32, denom: u32) -> Item
    ensures { result ≡ item_of kind cents numer denom }
{
    match kind {
        CENTS => Item::Cents(cents),
        FRACTION => Item::Fraction(numer, Some(denom)),
        WHOLE => Item::Fraction(numer, None),
        _ => Item::Cents(0.0 / 0.0),
    }
}

// Whether the item that stands in the columns can be used.
fn is_item(kind: u8, cents: f64, numer: u32, denom: u32) -> bool
    ensures { result ≡ is_usable (item_of kind cents numer denom) }
{
    let some = 0 < numer;
    let plain = (kind == CENTS) & is_usable_cents(cents);
    let fraction = (kind == FRACTION) & (some & (0 < denom));
    let whole = (kind == WHOLE) & some;
    plain | (fraction | whole)
}

// Whether each of the first n items can be used. No branch is taken on an item, so that the compiler can test several at a time.
fn are_items(kind: &[u8], cents: &[f64], numer: &[u32], denom: &[u32], n: usize) -> bool
    requires { (n ≤ length kind.now) × (n ≤ length cents.now) × (n ≤ length numer.now) × (n ≤ length denom.now) }
    ensures { result ≡ are_usable (items_of (take n kind.now) (take n cents.now) (take n numer.now) (take n denom.now)) }
{
    let mut all = true;
    for i in 0..n {
        all = all & is_item(kind[i], cents[i], numer[i], denom[i]);
    }
    all
}

// The four columns of a scale's items, as they are lent to be read.
#[derive(Drop)]
pub struct ItemColumns<'a> {
    kind: &'a [u8],
    cents: &'a [f64],
    numer: &'a [u32],
    denom: &'a [u32],
}

impl<'a> Model for ItemColumns<'a> {
    ghost Value = { ItemTable };

    ghost view = { λ c. item_table c.kind.now c.cents.now c.numer.now c.denom.now };

    ghost invariant = { λ c. Typed (item_table c.kind.now c.cents.now c.numer.now c.denom.now) };
}

impl<'a> ItemColumns<'a> {
    // The columns as one.
    pub fn new(
        kind: &'a [u8],
        cents: &'a [f64],
        numer: &'a [u32],
        denom: &'a [u32],
    ) -> ItemColumns<'a>
        ensures { result ≡ item_table kind.now cents.now numer.now denom.now }
    {
        ItemColumns {
            kind,
            cents,
            numer,
            denom,
        }
    }

    // How many places the first column has.
    pub fn len(&self) -> usize
        ensures { result ≡ length self.now.kinds }
    {
        self.kind.len()
    }

    // The first n places.
    pub fn first(&self, n: usize) -> ItemColumns<'a>
        requires { (n ≤ length self.now.kinds) × (n ≤ length self.now.cents) × (n ≤ length self.now.numers) × (n ≤ length self.now.denoms) }
        ensures { result ≡ item_table (take n self.now.kinds) (take n self.now.cents) (take n self.now.numers) (take n self.now.denoms) }
    {
        ItemColumns {
            kind: &self.kind[..n],
            cents: &self.cents[..n],
            numer: &self.numer[..n],
            denom: &self.denom[..n],
        }
    }

    // The item that stands at place i.
    pub fn item(&self, i: usize) -> Item
        requires { IsPlace self.now i }
        ensures { result ≡ item_at self.now i }
    {
        item_of(self.kind[i], self.cents[i], self.numer[i], self.denom[i])
    }

    // Whether they hold `count` usable items after place 0, which is usable too. Each column is gone over once.
    pub fn holds(&self, count: usize) -> bool
        ensures value { result ≡ is_items count self.now }
        ensures typed { Typed self.now }
    {
        let room = count < self.kind.len()
            && count < self.cents.len()
            && count < self.numer.len()
            && count < self.denom.len();
        room && are_items(self.kind, self.cents, self.numer, self.denom, count + 1)
    }
}
