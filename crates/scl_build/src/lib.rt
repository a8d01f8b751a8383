// A scale built step by step beside lent tables: the Rust's `SclBuilder`. Document 01, "What is taken", 5.
//
// The state goes by value. It fits columns of `room` places or more, of which it has filled place 0 and `count` after it; with any
// shorter column it is refused (10). A refused call writes nothing. `new(.., &place, &ratio, &wraps)`, then `push_fraction(.., 3, 2)`
// and `push_int(.., 2)`, then `build(.., &mut place, &mut ratio, &mut wraps)` is a scale of two items, 3/2 and 2, with its sorted list.
#![tactic(auto)]

ghost use Rattle.std.specs.Prelude.{◌≡◌, ◌&&◌, leb, ltb, Some, None};
ghost use Rattle.base.specs.Said.{outcome};
ghost use Rattle.scl.specs.Answers.{says_scl};
ghost use Rattle.scl.specs.Table.{item_table};
ghost use Rattle.scl.specs.declared.Item.TheVariants.{Cents, Fraction};
ghost use Rattle.sorted.specs.Lent.{list_table};
ghost use Rattle.scl_tables.specs.Build.{after_list};
ghost use Rattle.scl_build.specs.Builder.{builder_of, after_new, pushed, after_push, pushed_ratio, after_ratio, is_ready, built, counted, Comes};

use base::{Reason, Refusal};
use pitch::Ratio;
use scl::{Item, ItemColumns, Scl};

#[derive(Clone, Copy)]
pub struct SclBuilder {
    pub room: usize,
    pub count: usize,
}

// 12: the tables are full.
const NO_PLACE: Refusal = Refusal {
    reason: Reason::NoRoom,
    detail: 0,
};

// 13: over 65,535 items.
const TOO_MANY: Refusal = Refusal {
    reason: Reason::TooLarge,
    detail: 0,
};

// 18: of two or more items, the period is 1.0.
const OUT_OF_REACH: Refusal = Refusal {
    reason: Reason::BeyondReach,
    detail: 0,
};

// Whether a state fits four columns of these lengths.
fn fits_items(state: SclBuilder, kinds: usize, cents: usize, numers: usize, denoms: usize) -> bool
    ensures { result ≡ (ltb state.count state.room && (leb state.room kinds && leb state.room cents && leb state.room numers && leb state.room denoms)) }
{
    let room = state.room;
    (state.count < room) & ((room <= kinds) & (room <= cents) & (room <= numers) & (room <= denoms))
}

// Whether a state fits three columns of these lengths.
fn fits_list(state: SclBuilder, places: usize, ratios: usize, wraps: usize) -> bool
    ensures { result ≡ (leb state.room places && leb state.room ratios && leb state.room wraps) }
{
    let room = state.room;
    (room <= places) & (room <= ratios) & (room <= wraps)
}

impl SclBuilder {
    // A builder with nothing pushed, and the implicit 0.0 cents at place 0; 12 where a column has no place.
    pub fn new(
        kind: &mut [u8],
        cents: &mut [f64],
        numer: &mut [u32],
        denom: &mut [u32],
        place: &[u32],
        ratio: &[f64],
        wraps: &[i32],
    ) -> Result<SclBuilder, Refusal>
        ensures { (outcome result ≡ builder_of (item_table kind.old cents.old numer.old denom.old) (list_table place.now ratio.now wraps.now))
            × (item_table kind.new cents.new numer.new denom.new
            ≡ after_new (item_table kind.old cents.old numer.old denom.old) (list_table place.now ratio.now wraps.now)) }
    {
        let room = scl_tables::room_of(kind, cents, numer, denom, place, ratio, wraps);
        if 0 < room {
            scl_tables::write_item(kind, cents, numer, denom, 0, Item::Cents(0.0));
            return Ok(SclBuilder { room, count: 0 });
        }
        Err(NO_PLACE)
    }

    // One item more, at the next place; 10 for a state that does not fit the columns or an item that cannot be used, 12.
    fn push(
        self,
        kind: &mut [u8],
        cents: &mut [f64],
        numer: &mut [u32],
        denom: &mut [u32],
        item: Item,
    ) -> Result<SclBuilder, Refusal>
        ensures { (outcome result ≡ pushed self (item_table kind.old cents.old numer.old denom.old) item)
            × (item_table kind.new cents.new numer.new denom.new
            ≡ after_push self (item_table kind.old cents.old numer.old denom.old) item) }
    {
        let room = self.room;
        let count = self.count;
        if fits_items(self, kind.len(), cents.len(), numer.len(), denom.len()) {
            if item.is_usable() {
                let next = count + 1;
                if next < room {
                    scl_tables::write_item(kind, cents, numer, denom, next, item);
                    return Ok(SclBuilder { room, count: next });
                }
                return Err(NO_PLACE);
            }
        }
        Err(scl::NOT_USABLE)
    }

    // One item in cents more; 10 outside -38400..38400, 12.
    pub fn push_cents(
        self,
        kind: &mut [u8],
        cents: &mut [f64],
        numer: &mut [u32],
        denom: &mut [u32],
        cents_value: f64,
    ) -> Result<SclBuilder, Refusal>
        ensures { (outcome result ≡ pushed self (item_table kind.old cents.old numer.old denom.old) (Cents cents_value))
            × (item_table kind.new cents.new numer.new denom.new
            ≡ after_push self (item_table kind.old cents.old numer.old denom.old) (Cents cents_value)) }
    {
        self.push(kind, cents, numer, denom, Item::Cents(cents_value))
    }

    // One ratio more, as its cents; 10 for a ratio outside 2^-900..2^900 or cents outside -38400..38400, 12.
    #[tactic(auto, unfolding(crate::specs::Builder::pushed_ratio, crate::specs::Builder::after_ratio))]
    pub fn push_ratio(
        self,
        kind: &mut [u8],
        cents: &mut [f64],
        numer: &mut [u32],
        denom: &mut [u32],
        ratio: Ratio,
    ) -> Result<SclBuilder, Refusal>
        ensures { (outcome result ≡ pushed_ratio self (item_table kind.old cents.old numer.old denom.old) ratio.0)
            × (item_table kind.new cents.new numer.new denom.new
            ≡ after_ratio self (item_table kind.old cents.old numer.old denom.old) ratio.0) }
    {
        self.push(kind, cents, numer, denom, Item::Cents(ratio.as_cents()?))
    }

    // One integer more, a fraction without a denominator; 10 for 0, 12.
    pub fn push_int(
        self,
        kind: &mut [u8],
        cents: &mut [f64],
        numer: &mut [u32],
        denom: &mut [u32],
        int_value: u32,
    ) -> Result<SclBuilder, Refusal>
        ensures { (outcome result ≡ pushed self (item_table kind.old cents.old numer.old denom.old) (Fraction int_value None))
            × (item_table kind.new cents.new numer.new denom.new
            ≡ after_push self (item_table kind.old cents.old numer.old denom.old) (Fraction int_value None)) }
    {
        self.push(kind, cents, numer, denom, Item::Fraction(int_value, None))
    }

    // One fraction more; 10 where either number is 0, 12.
    pub fn push_fraction(
        self,
        kind: &mut [u8],
        cents: &mut [f64],
        numer: &mut [u32],
        denom: &mut [u32],
        numer_value: u32,
        denom_value: u32,
    ) -> Result<SclBuilder, Refusal>
        ensures { (outcome result ≡ pushed self (item_table kind.old cents.old numer.old denom.old) (Fraction numer_value (Some denom_value)))
            × (item_table kind.new cents.new numer.new denom.new
            ≡ after_push self (item_table kind.old cents.old numer.old denom.old) (Fraction numer_value (Some denom_value))) }
    {
        self.push(
            kind,
            cents,
            numer,
            denom,
            Item::Fraction(numer_value, Some(denom_value)),
        )
    }

    // Whether the state fits the columns and each item can be used.
    fn is_ready(
        self,
        kind: &[u8],
        cents: &[f64],
        numer: &[u32],
        denom: &[u32],
        place: &[u32],
        ratio: &[f64],
        wraps: &[i32],
    ) -> bool
        ensures { result ≡ is_ready self (item_table kind.now cents.now numer.now denom.now) (list_table place.now ratio.now wraps.now) }
    {
        fits_items(self, kind.len(), cents.len(), numer.len(), denom.len())
            && fits_list(self, place.len(), ratio.len(), wraps.len())
            && ItemColumns::new(kind, cents, numer, denom).holds(self.count)
    }

    // The scale, and its sorted list: 10 where the state does not fit or an item cannot be used, 13 over 65,535 items, 18 where two or
    // more items have the period 1.0. The items stay as they are.
    pub fn build(
        self,
        kind: &[u8],
        cents: &[f64],
        numer: &[u32],
        denom: &[u32],
        place: &mut [u32],
        ratio: &mut [f64],
        wraps: &mut [i32],
    ) -> Result<Scl, Refusal>
        ensures value { (says_scl result ≡ counted self (built self (item_table kind.now cents.now numer.now denom.now) (list_table place.old ratio.old wraps.old)))
            × (list_table place.new ratio.new wraps.new
            ≡ after_list (built self (item_table kind.now cents.now numer.now denom.now) (list_table place.old ratio.old wraps.old)) (list_table place.old ratio.old wraps.old)) }
        ensures comes { Comes self (item_table kind.now cents.now numer.now denom.now) (list_table place.old ratio.old wraps.old) (says_scl result) (list_table place.new ratio.new wraps.new) }
    {
        if self.is_ready(kind, cents, numer, denom, place, ratio, wraps) {
            let count = self.count;
            if 65535 < count {
                return Err(TOO_MANY);
            }
            let items = ItemColumns::new(kind, cents, numer, denom);
            let last = items.item(count);
            if scl_tables::is_beyond(last, count) {
                return Err(OUT_OF_REACH);
            }
            scl_tables::build_list(&items, place, ratio, wraps, count);
            return Ok(Scl {
                count: count as u16,
            });
        }
        Err(scl::NOT_USABLE)
    }
}
