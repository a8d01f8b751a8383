// Scales that are computed, for C: segments of the harmonic series and rank-2 temperaments. They are written into a scale's seven lent columns.
ghost use Rattle.std.specs.Prelude.{◌≡◌};
ghost use Rattle.harmonics.specs.Harmonics.{made_harmonics};
ghost use Rattle.rank2.specs.Rank2.{made_rank2};
ghost use Rattle.telbijan_answers.specs.Lent.{columns_old, columns_after, list_old, list_after};
ghost use Rattle.telbijan_scales.specs.Calls.{CreateScale};
ghost use Rattle.telbijan_scales.specs.Generators.{segment_with, divisions_with};

use harmonics::segment::SegmentType;
use pitch::Ratio;

// Which segment.
fn segment_of(otonal: bool) -> SegmentType
    ensures { result ≡ segment_with otonal }
{
    if otonal {
        SegmentType::Otonal
    } else {
        SegmentType::Utonal
    }
}

// A scale from a segment of the harmonic series, its items and its sorted list written as a builder would, its count of items stored.
// `otonal`: the harmonics start + 1 to start + size over start; else start + size over start + size - 1 down to start. `divided`: the
// harmonics nearest to so many equal divisions of the segment. 10 for start 0, 12 where a column has no place for all items and place
// 0, 18 for 0 divisions and where two or more items have the period 1.0.
pub fn telbijan_create_harmonics_scale(
    otonal: bool,
    start: u16,
    size: u16,
    divided: bool,
    divisions: u16,
    kind: &mut [u8],
    cents: &mut [f64],
    numer: &mut [u32],
    denom: &mut [u32],
    place: &mut [u32],
    ratio: &mut [f64],
    wraps: &mut [i32],
    count: &mut u16,
) -> u64
    ensures { CreateScale
        (made_harmonics (columns_old kind cents numer denom) (list_old place ratio wraps)
        (segment_with otonal) start size (divisions_with divided divisions))
        (columns_old kind cents numer denom) (list_old place ratio wraps) count.old
        result (columns_after kind cents numer denom) (list_after place ratio wraps) count.new }
{
    let segment = segment_of(otonal);
    let into = divided.then_some(divisions);
    let said = harmonics::create_harmonics_scale(
        segment, start, size, into, kind, cents, numer, denom, place, ratio, wraps,
    );
    telbijan_answers::store_scl(said, count)
}

// A scale from a rank-2 temperament: the period, and so many generations of the generator up and down, each within the period, in
// ascending order; its items, in cents, and its sorted list written as a builder would, its count of items stored. 13 for over 65,535
// items, 10 for a generator or a period outside 2^-32..2^32 or a period of 1.0, 12 where a column has no place for all items and place
// 0, 18 where two or more items have the period 1.0.
pub fn telbijan_create_rank2_temperament_scale(
    generator: f64,
    positive: u16,
    negative: u16,
    period: f64,
    kind: &mut [u8],
    cents: &mut [f64],
    numer: &mut [u32],
    denom: &mut [u32],
    place: &mut [u32],
    ratio: &mut [f64],
    wraps: &mut [i32],
    count: &mut u16,
) -> u64
    ensures { CreateScale
        (made_rank2 (columns_old kind cents numer denom) (list_old place ratio wraps) generator positive negative period)
        (columns_old kind cents numer denom) (list_old place ratio wraps) count.old
        result (columns_after kind cents numer denom) (list_after place ratio wraps) count.new }
{
    let said = rank2::create_rank2_temperament_scale(
        Ratio(generator),
        positive,
        negative,
        Ratio(period),
        kind,
        cents,
        numer,
        denom,
        place,
        ratio,
        wraps,
    );
    telbijan_answers::store_scl(said, count)
}
