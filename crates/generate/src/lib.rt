// What the generators share: how a run of pushes and a build answer, and what they leave. Document 01, "Scales and searches".
// The generators are in the crates `harmonics` and `rank2`.
//
// An inner crate: a table with no place is the generators' business.
#![tactic(auto)]

ghost use Rattle.std.specs.Prelude.{◌≡◌};
ghost use Rattle.scl.specs.Table.{item_table};
ghost use Rattle.sorted.specs.Lent.{list_table};
ghost use Rattle.scl_tables.specs.Room.{room_of};
ghost use Rattle.scl_build.specs.Builder.{state, after_new};

use base::{Reason, Refusal};
use scl_build::SclBuilder;

// 12: the items and place 0 have no room.
pub const NO_PLACE: Refusal = Refusal {
    reason: Reason::NoRoom,
    detail: 0,
};

// 13: over 65,535 items.
pub const TOO_MANY: Refusal = Refusal {
    reason: Reason::TooLarge,
    detail: 0,
};

// 18: of two or more items, the period is 1.0.
pub const OUT_OF_REACH: Refusal = Refusal {
    reason: Reason::BeyondReach,
    detail: 0,
};

// A new builder, and the implicit 0.0 cents at place 0; one with no room where a column has no place.
pub fn begin(
    kind: &mut [u8],
    cents: &mut [f64],
    numer: &mut [u32],
    denom: &mut [u32],
    place: &[u32],
    ratio: &[f64],
    wraps: &[i32],
) -> SclBuilder
    ensures { (result ≡ state (room_of (item_table kind.old cents.old numer.old denom.old) (list_table place.now ratio.now wraps.now)) 0)
        × (item_table kind.new cents.new numer.new denom.new
        ≡ after_new (item_table kind.old cents.old numer.old denom.old) (list_table place.now ratio.now wraps.now)) }
{
    SclBuilder::new(kind, cents, numer, denom, place, ratio, wraps).unwrap_or(SclBuilder {
        room: 0,
        count: 0,
    })
}
