// Scales from a segment of the harmonic series: the Rust's `create_harmonics_scale`. Document 01, "Scales and searches".
//
// The items are pushed into a builder beside the lent tables, as the Rust does it; the caller has the description. Whether 18 arises
// is known from the last item, before anything is written. `create_harmonics_scale(Otonal, 9, 7, None, ..)` is 10/9, .., 16/9.
#![tactic(auto)]

pub mod segment;

ghost use Rattle.std.specs.Prelude.{◌≡◌, ◌<◌, Some};
ghost use Rattle.base.specs.Said.{outcome};
ghost use Rattle.scl.specs.Answers.{says_scl};
ghost use Rattle.scl.specs.Table.{item_table};
ghost use Rattle.scl.specs.declared.Item.TheVariants.{Fraction};
ghost use Rattle.sorted.specs.Lent.{list_table};
ghost use Rattle.scl_tables.specs.Build.{after_list};
ghost use Rattle.scl_build.specs.Builder.{beside, after_one, after_all, counted};
ghost use Rattle.generate.specs.Generated.{all_pushed, list_of, counted_of, items_left, list_left};
ghost use Rattle.harmonics.specs.Harmonics.{item_at, made_harmonics};
ghost use Rattle.harmonics.specs.Steps.{after_said, said_from, StepsReach, looked, planned};

use crate::segment::SegmentType;
use base::Refusal;
use scl::{Item, Scl};
use scl_build::SclBuilder;

// The builder after a push: as it was where the push is refused.
fn pushed(
    state: SclBuilder,
    kind: &mut [u8],
    cents: &mut [f64],
    numer: &mut [u32],
    denom: &mut [u32],
    numer_value: u32,
    denom_value: u32,
) -> SclBuilder
    ensures { beside result (item_table kind.new cents.new numer.new denom.new)
        ≡ after_one (beside state (item_table kind.old cents.old numer.old denom.old)) (Fraction numer_value (Some denom_value)) }
{
    state
        .push_fraction(kind, cents, numer, denom, numer_value, denom_value)
        .unwrap_or(state)
}

// The builder after the j-th item of a segment.
fn push_at(
    state: SclBuilder,
    kind: &mut [u8],
    cents: &mut [f64],
    numer: &mut [u32],
    denom: &mut [u32],
    segment_type: SegmentType,
    start: u16,
    size: u16,
    steps: Option<f64>,
    j: u16,
) -> SclBuilder
    ensures { beside result (item_table kind.new cents.new numer.new denom.new)
        ≡ after_said (beside state (item_table kind.old cents.old numer.old denom.old)) (item_at segment_type start size steps j) }
{
    match segment::fraction_at(segment_type, start, size, steps, j) {
        Ok(item) => pushed(state, kind, cents, numer, denom, item.numer, item.denom),
        Err(_) => state,
    }
}

// The builder after the first n items of a segment.
fn push_all(
    state: SclBuilder,
    kind: &mut [u8],
    cents: &mut [f64],
    numer: &mut [u32],
    denom: &mut [u32],
    segment_type: SegmentType,
    start: u16,
    size: u16,
    steps: Option<f64>,
    n: u16,
) -> SclBuilder
    ensures { beside result (item_table kind.new cents.new numer.new denom.new)
        ≡ after_all (beside state (item_table kind.old cents.old numer.old denom.old)) (said_from (item_at segment_type start size steps) 1 n) }
{
    let mut builder = state;
    for i in 0..n {
        builder = push_at(
            builder,
            kind,
            cents,
            numer,
            denom,
            segment_type,
            start,
            size,
            steps,
            i + 1,
        );
    }
    builder
}

// The items and their sorted list in the columns: a new builder, the pushes, the build.
fn write(
    segment_type: SegmentType,
    start: u16,
    size: u16,
    steps: Option<f64>,
    n: u16,
    kind: &mut [u8],
    cents: &mut [f64],
    numer: &mut [u32],
    denom: &mut [u32],
    place: &mut [u32],
    ratio: &mut [f64],
    wraps: &mut [i32],
) -> Result<Scl, Refusal>
    ensures value { says_scl result ≡ counted (all_pushed (item_table kind.old cents.old numer.old denom.old) (list_table place.old ratio.old wraps.old) (said_from (item_at segment_type start size steps) 1 n)).builder
        (list_of (item_table kind.old cents.old numer.old denom.old) (list_table place.old ratio.old wraps.old) (said_from (item_at segment_type start size steps) 1 n)) }
    ensures table_after { item_table kind.new cents.new numer.new denom.new
        ≡ (all_pushed (item_table kind.old cents.old numer.old denom.old) (list_table place.old ratio.old wraps.old) (said_from (item_at segment_type start size steps) 1 n)).table }
    ensures list_after { list_table place.new ratio.new wraps.new
        ≡ after_list (list_of (item_table kind.old cents.old numer.old denom.old) (list_table place.old ratio.old wraps.old) (said_from (item_at segment_type start size steps) 1 n)) (list_table place.old ratio.old wraps.old) }
{
    let state = generate::begin(kind, cents, numer, denom, place, ratio, wraps);
    let builder = push_all(
        state,
        kind,
        cents,
        numer,
        denom,
        segment_type,
        start,
        size,
        steps,
        n,
    );
    builder.build(kind, cents, numer, denom, place, ratio, wraps)
}

// The steps of a segment of n items, or the 18 of its last one.
fn look(
    segment_type: SegmentType,
    start: u16,
    size: u16,
    steps: Option<f64>,
    n: u16,
) -> Result<Option<f64>, Refusal>
    requires { (0 < start) × StepsReach size n steps }
    ensures { outcome result ≡ looked segment_type start size n steps }
{
    if n == 0 {
        return Ok(steps);
    }
    let item = segment::fraction_at(segment_type, start, size, steps, n)?;
    let last = Item::Fraction(item.numer, Some(item.denom));
    if scl_tables::is_beyond(last, n as usize) {
        return Err(generate::OUT_OF_REACH);
    }
    Ok(steps)
}

// The steps of a segment, or 18.
fn plan(
    segment_type: SegmentType,
    start: u16,
    size: u16,
    divisions: Option<u16>,
) -> Result<Option<f64>, Refusal>
    requires { 0 < start }
    ensures { outcome result ≡ planned segment_type start size divisions }
{
    let steps = segment::steps_of(start, size, divisions)?;
    look(
        segment_type,
        start,
        size,
        steps,
        segment::count_of(size, divisions),
    )
}

// The scale of a segment of the harmonic series, whole or in so many divisions, its items and their sorted list in the lent columns:
// 10 for a start of 0, 12 where the items and place 0 have no room, 18 for 0 divisions or two or more items with the period 1.0. That
// there is no other cause, no step leaving E's domain, is proved in the crate `promises`.
pub fn create_harmonics_scale(
    segment_type: SegmentType,
    segment_start: u16,
    segment_size: u16,
    neji_divisions: Option<u16>,
    kind: &mut [u8],
    cents: &mut [f64],
    numer: &mut [u32],
    denom: &mut [u32],
    place: &mut [u32],
    ratio: &mut [f64],
    wraps: &mut [i32],
) -> Result<Scl, Refusal>
    ensures value { says_scl result ≡ counted_of (made_harmonics (item_table kind.old cents.old numer.old denom.old) (list_table place.old ratio.old wraps.old) segment_type segment_start segment_size neji_divisions) }
    ensures table_after { item_table kind.new cents.new numer.new denom.new
        ≡ items_left (made_harmonics (item_table kind.old cents.old numer.old denom.old) (list_table place.old ratio.old wraps.old) segment_type segment_start segment_size neji_divisions)
        (item_table kind.old cents.old numer.old denom.old) (list_table place.old ratio.old wraps.old) }
    ensures list_after { list_table place.new ratio.new wraps.new
        ≡ list_left (made_harmonics (item_table kind.old cents.old numer.old denom.old) (list_table place.old ratio.old wraps.old) segment_type segment_start segment_size neji_divisions)
        (item_table kind.old cents.old numer.old denom.old) (list_table place.old ratio.old wraps.old) }
{
    if segment_start == 0 {
        return Err(scl::NOT_USABLE);
    }
    let n = segment::count_of(segment_size, neji_divisions);
    let room = scl_tables::room_of(kind, cents, numer, denom, place, ratio, wraps);
    if room <= (n as usize) {
        return Err(generate::NO_PLACE);
    }
    let steps = plan(segment_type, segment_start, segment_size, neji_divisions)?;
    write(
        segment_type,
        segment_start,
        segment_size,
        steps,
        n,
        kind,
        cents,
        numer,
        denom,
        place,
        ratio,
        wraps,
    )
}
