// Searches for C: the degree or key that comes nearest to a ratio or a pitch, over a scale's lent columns.
ghost use Rattle.base.specs.Said.{outcome};
ghost use Rattle.telbijan_answers.specs.Lent.{columns_before, list_before};
ghost use Rattle.telbijan_mappings.specs.Mappings.{root_with};
ghost use Rattle.telbijan_tuning.specs.Calls.{SearchStored};
ghost use Rattle.telbijan_tuning.specs.Searches.{find_said, find_sorted_said, find_pitch_said, find_pitch_sorted_said, find_key_said};

use base::Refusal;
use pitch::{Pitch, Ratio};
use scl::{ItemColumns, Scl};
use searching::approximation::Approximation;
use sorted::ListColumns;

// Stores the degree or key that was found, and the deviation.
fn store_found(answer: Result<Approximation, Refusal>, number: &mut i32, deviation: &mut f64) -> u64
    ensures { SearchStored (outcome answer)
        number.old deviation.old result number.new deviation.new }
{
    match answer {
        Ok(found) => {
            *number = found.approx_value;
            *deviation = found.deviation;
            0
        }
        Err(refusal) => telbijan_answers::code_of(refusal),
    }
}

// The degree whose relative pitch comes nearest to a ratio, and how far the ratio lies above it, a ratio, both stored: 10 for items or a
// list that cannot be used and for a ratio outside 2^-64..2^64; 18 in a scale of one item with period 1.0, and, in a list that was
// neither built nor read, where a ratio that is computed on the way lies outside 2^-900..2^900; 11 where the degree passes 32 bits. Of
// two that come equally near, within 0.999999, it is the lower one. A scale without items answers degree 0 with the ratio itself.
pub fn telbijan_find_by_relative_pitch(
    kind: &[u8],
    cents: &[f64],
    numer: &[u32],
    denom: &[u32],
    place: &[u32],
    ratio: &[f64],
    wraps: &[i32],
    count: u16,
    target: f64,
    degree: &mut i32,
    deviation: &mut f64,
) -> u64
    ensures { SearchStored (find_said count (columns_before kind cents numer denom) (list_before place ratio wraps) target)
        degree.old deviation.old result degree.new deviation.new }
{
    let items = ItemColumns::new(kind, cents, numer, denom);
    let list = ListColumns::new(place, ratio, wraps);
    let scl = Scl { count };
    store_found(
        finding::find_by_relative_pitch(scl, &items, &list, Ratio(target)),
        degree,
        deviation,
    )
}

// The same, the degree counted in ascending order.
pub fn telbijan_find_by_relative_pitch_sorted(
    kind: &[u8],
    cents: &[f64],
    numer: &[u32],
    denom: &[u32],
    place: &[u32],
    ratio: &[f64],
    wraps: &[i32],
    count: u16,
    target: f64,
    degree: &mut i32,
    deviation: &mut f64,
) -> u64
    ensures { SearchStored (find_sorted_said count (columns_before kind cents numer denom) (list_before place ratio wraps) target)
        degree.old deviation.old result degree.new deviation.new }
{
    let items = ItemColumns::new(kind, cents, numer, denom);
    let list = ListColumns::new(place, ratio, wraps);
    let scl = Scl { count };
    store_found(
        finding::find_by_relative_pitch_sorted(scl, &items, &list, Ratio(target)),
        degree,
        deviation,
    )
}

// The degree whose pitch comes nearest to a pitch in Hz, and the deviation from it, both stored: 10 for tables, a root's pitch or a pitch
// outside 2^-10..2^20 that cannot be used, 11 for the root offset -2147483648, 18 where the root's pitch lies outside 2^-900..2^900 or the
// ratio from it up to the pitch outside 2^-64..2^64, and as for a ratio, 11 where the degree passes 32 bits.
pub fn telbijan_find_by_pitch(
    kind: &[u8],
    cents: &[f64],
    numer: &[u32],
    denom: &[u32],
    place: &[u32],
    ratio: &[f64],
    wraps: &[i32],
    count: u16,
    reference: i32,
    hz: f64,
    offset: i32,
    pitch: f64,
    degree: &mut i32,
    deviation: &mut f64,
) -> u64
    ensures { SearchStored (find_pitch_said count (columns_before kind cents numer denom) (list_before place ratio wraps)
        (root_with reference hz offset) pitch)
        degree.old deviation.old result degree.new deviation.new }
{
    let items = ItemColumns::new(kind, cents, numer, denom);
    let list = ListColumns::new(place, ratio, wraps);
    let scl = Scl { count };
    let root = telbijan_mappings::root_with(reference, hz, offset);
    store_found(
        finding::find_by_pitch(scl, &items, &list, root, Pitch(pitch)),
        degree,
        deviation,
    )
}

// The same, the degree counted in ascending order.
pub fn telbijan_find_by_pitch_sorted(
    kind: &[u8],
    cents: &[f64],
    numer: &[u32],
    denom: &[u32],
    place: &[u32],
    ratio: &[f64],
    wraps: &[i32],
    count: u16,
    reference: i32,
    hz: f64,
    offset: i32,
    pitch: f64,
    degree: &mut i32,
    deviation: &mut f64,
) -> u64
    ensures { SearchStored (find_pitch_sorted_said count (columns_before kind cents numer denom) (list_before place ratio wraps)
        (root_with reference hz offset) pitch)
        degree.old deviation.old result degree.new deviation.new }
{
    let items = ItemColumns::new(kind, cents, numer, denom);
    let list = ListColumns::new(place, ratio, wraps);
    let scl = Scl { count };
    let root = telbijan_mappings::root_with(reference, hz, offset);
    store_found(
        finding::find_by_pitch_sorted(scl, &items, &list, root, Pitch(pitch)),
        degree,
        deviation,
    )
}

// The key whose pitch comes nearest, that degree above the reference key, in the same way; 11 where the key passes 32 bits too. Each key
// counts as one degree: no mapping plays a part, so that a key which a mapping leaves out or gives another degree may be found.
pub fn telbijan_find_key_by_pitch(
    kind: &[u8],
    cents: &[f64],
    numer: &[u32],
    denom: &[u32],
    place: &[u32],
    ratio: &[f64],
    wraps: &[i32],
    count: u16,
    reference: i32,
    hz: f64,
    offset: i32,
    pitch: f64,
    number: &mut i32,
    deviation: &mut f64,
) -> u64
    ensures { SearchStored (find_key_said count (columns_before kind cents numer denom) (list_before place ratio wraps)
        (root_with reference hz offset) pitch)
        number.old deviation.old result number.new deviation.new }
{
    let items = ItemColumns::new(kind, cents, numer, denom);
    let list = ListColumns::new(place, ratio, wraps);
    let scl = Scl { count };
    let root = telbijan_mappings::root_with(reference, hz, offset);
    store_found(
        finding::find_key_by_pitch(scl, &items, &list, root, Pitch(pitch)).map(|key| key.0),
        number,
        deviation,
    )
}
