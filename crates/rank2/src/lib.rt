// Scales from a rank-2 temperament: the Rust's `create_rank2_temperament_scale`. Document 01, "Scales and searches".
//
// The notes are pushed in ascending order into a builder beside the lent tables, as the Rust does it; the caller has the description.
// Whether 18 arises is known from the highest note, before anything is written. From then on the list's columns, which the build
// writes anew, serve to bring the notes in order. `create_rank2_temperament_scale(Ratio(1.5), 6, 0, Ratio(2.0), ..)` is the Lydian scale.
#![tactic(auto)]

mod notes;

ghost use Rattle.std.specs.Prelude.{◌≡◌, true, not, ◌≤◌, ◌<◌, length, take};
ghost use Rattle.base.specs.Said.{gives};
ghost use Rattle.floats.specs.Ranges.{in_generator};
ghost use Rattle.explog.specs.Rules.{L};
ghost use Rattle.scl.specs.Answers.{says_scl};
ghost use Rattle.scl.specs.Items.{is_usable_cents};
ghost use Rattle.scl.specs.Table.{item_table};
ghost use Rattle.sorted.specs.Lent.{list_table};
ghost use Rattle.scl_tables.specs.Build.{is_none, after_list};
ghost use Rattle.scl_tables.specs.Room.{room_of};
ghost use Rattle.scl_build.specs.Builder.{beside, built, counted};
ghost use Rattle.generate.specs.Generated.{made_of, counted_of, items_left, list_left};
ghost use Rattle.rank2.specs.Notes.{pitch_at};
ghost use Rattle.rank2.specs.Asked.{SomeCents};
ghost use Rattle.rank2.specs.Rank2.{is_temperament, ascending_ratios, ascending_items, made_rank2};
ghost use Rattle.rank2.specs.Steps.{beyond_of, after_one_ratio, after_ratios, ran_of, Behind};

use base::Refusal;
use pitch::Ratio;
use scl::{Item, Scl};
use scl_build::SclBuilder;

// Whether a period has octaves at all: L is not 0.
fn is_some(period: f64) -> bool
    ensures { result ≡ not (is_none (L period)) }
{
    match explog::log2(period) {
        Ok(octaves) => !(octaves == 0.0),
        Err(_) => true,
    }
}

// Whether generator and period lie in 2^-32..2^32 and the period has octaves.
fn is_temperament(generator: f64, period: f64) -> bool
    ensures { result ≡ is_temperament generator period }
{
    floats::is_in_generator(generator) && floats::is_in_generator(period) && is_some(period)
}

// Whether a scale of the first n pitch values is beyond reach (18): two or more, and the highest one is 1.0 as the scale has it.
fn is_beyond(period: f64, generator_cents: f64, period_cents: f64, positive: u16, n: u16) -> bool
    requires { (0 < n) × (in_generator period ≡ true) × (is_usable_cents generator_cents ≡ true) × SomeCents period_cents }
    ensures { gives result ≡ beyond_of (pitch_at period generator_cents period_cents positive) n }
{
    let top = notes::highest(period, generator_cents, period_cents, positive, n);
    let last = Item::Cents(notes::cents_of(top));
    scl_tables::is_beyond(last, n as usize)
}

// The pitch values in ascending order, as many as the columns have places.
fn sort_notes(
    place: &mut [u32],
    ratio: &mut [f64],
    wraps: &mut [i32],
    period: f64,
    generator_cents: f64,
    period_cents: f64,
    positive: u16,
)
    requires { (length ratio.old ≤ 65535) × (length place.old ≡ length ratio.old) × (length wraps.old ≡ length ratio.old)
        × (in_generator period ≡ true) × (is_usable_cents generator_cents ≡ true) × SomeCents period_cents }
    ensures { gives ratio.new ≡ ascending_ratios (pitch_at period generator_cents period_cents positive) (length ratio.old) }
{
    notes::fill(ratio, period, generator_cents, period_cents, positive);
    sorted::number(place);
    sorting::sort_entries(place, ratio, wraps);
}

// The first n pitch values in ascending order, in the first n places of the list's columns.
fn place_notes(
    place: &mut [u32],
    ratio: &mut [f64],
    wraps: &mut [i32],
    n: usize,
    period: f64,
    generator_cents: f64,
    period_cents: f64,
    positive: u16,
)
    requires { (n ≤ 65535) × (n ≤ length place.old) × (n ≤ length ratio.old) × (n ≤ length wraps.old)
        × (in_generator period ≡ true) × (is_usable_cents generator_cents ≡ true) × SomeCents period_cents }
    ensures { (gives (take n ratio.new) ≡ ascending_ratios (pitch_at period generator_cents period_cents positive) n)
        × Behind n (list_table place.old ratio.old wraps.old) (list_table place.new ratio.new wraps.new) }
{
    sort_notes(
        &mut place[..n],
        &mut ratio[..n],
        &mut wraps[..n],
        period,
        generator_cents,
        period_cents,
        positive,
    );
}

// The builder after a push: as it was where the push is refused.
fn pushed(
    state: SclBuilder,
    kind: &mut [u8],
    cents: &mut [f64],
    numer: &mut [u32],
    denom: &mut [u32],
    value: f64,
) -> SclBuilder
    ensures { beside result (item_table kind.new cents.new numer.new denom.new)
        ≡ after_one_ratio (beside state (item_table kind.old cents.old numer.old denom.old)) value }
{
    state
        .push_ratio(kind, cents, numer, denom, Ratio(value))
        .unwrap_or(state)
}

// The builder after the first n ratios.
fn push_all(
    state: SclBuilder,
    kind: &mut [u8],
    cents: &mut [f64],
    numer: &mut [u32],
    denom: &mut [u32],
    ratio: &[f64],
    n: usize,
) -> SclBuilder
    requires { n ≤ length ratio.now }
    ensures { beside result (item_table kind.new cents.new numer.new denom.new)
        ≡ after_ratios (beside state (item_table kind.old cents.old numer.old denom.old)) (take n ratio.now) }
{
    let mut builder = state;
    for value in &ratio[..n] {
        builder = pushed(builder, kind, cents, numer, denom, *value);
    }
    builder
}

// A new builder, the pushes of the first n ratios, the build.
fn run(
    n: usize,
    kind: &mut [u8],
    cents: &mut [f64],
    numer: &mut [u32],
    denom: &mut [u32],
    place: &mut [u32],
    ratio: &mut [f64],
    wraps: &mut [i32],
) -> Result<Scl, Refusal>
    requires { n ≤ length ratio.old }
    ensures value { says_scl result ≡ counted (ran_of (item_table kind.old cents.old numer.old denom.old) (list_table place.old ratio.old wraps.old) n).builder
        (built (ran_of (item_table kind.old cents.old numer.old denom.old) (list_table place.old ratio.old wraps.old) n).builder
        (ran_of (item_table kind.old cents.old numer.old denom.old) (list_table place.old ratio.old wraps.old) n).table (list_table place.old ratio.old wraps.old)) }
    ensures table_after { item_table kind.new cents.new numer.new denom.new
        ≡ (ran_of (item_table kind.old cents.old numer.old denom.old) (list_table place.old ratio.old wraps.old) n).table }
    ensures list_after { list_table place.new ratio.new wraps.new
        ≡ after_list (built (ran_of (item_table kind.old cents.old numer.old denom.old) (list_table place.old ratio.old wraps.old) n).builder
        (ran_of (item_table kind.old cents.old numer.old denom.old) (list_table place.old ratio.old wraps.old) n).table (list_table place.old ratio.old wraps.old)) (list_table place.old ratio.old wraps.old) }
{
    let state = generate::begin(kind, cents, numer, denom, place, ratio, wraps);
    let builder = push_all(state, kind, cents, numer, denom, ratio, n);
    builder.build(kind, cents, numer, denom, place, ratio, wraps)
}

// The scale of the first n pitch values, which have room: 18, or the items and their sorted list in the columns.
fn make(
    period: f64,
    generator_cents: f64,
    period_cents: f64,
    positive: u16,
    n: u16,
    kind: &mut [u8],
    cents: &mut [f64],
    numer: &mut [u32],
    denom: &mut [u32],
    place: &mut [u32],
    ratio: &mut [f64],
    wraps: &mut [i32],
) -> Result<Scl, Refusal>
    requires { (0 < n) × (n < room_of (item_table kind.old cents.old numer.old denom.old) (list_table place.old ratio.old wraps.old))
        × (in_generator period ≡ true) × (is_usable_cents generator_cents ≡ true) × SomeCents period_cents }
    ensures value { says_scl result ≡ counted_of (made_of (item_table kind.old cents.old numer.old denom.old) (list_table place.old ratio.old wraps.old) n (ascending_items (pitch_at period generator_cents period_cents positive) n)) }
    ensures table_after { item_table kind.new cents.new numer.new denom.new
        ≡ items_left (made_of (item_table kind.old cents.old numer.old denom.old) (list_table place.old ratio.old wraps.old) n (ascending_items (pitch_at period generator_cents period_cents positive) n))
        (item_table kind.old cents.old numer.old denom.old) (list_table place.old ratio.old wraps.old) }
    ensures list_after { list_table place.new ratio.new wraps.new
        ≡ list_left (made_of (item_table kind.old cents.old numer.old denom.old) (list_table place.old ratio.old wraps.old) n (ascending_items (pitch_at period generator_cents period_cents positive) n))
        (item_table kind.old cents.old numer.old denom.old) (list_table place.old ratio.old wraps.old) }
{
    if is_beyond(period, generator_cents, period_cents, positive, n) {
        return Err(generate::OUT_OF_REACH);
    }
    let size = n as usize;
    place_notes(
        place,
        ratio,
        wraps,
        size,
        period,
        generator_cents,
        period_cents,
        positive,
    );
    run(size, kind, cents, numer, denom, place, ratio, wraps)
}

// The scale of a rank-2 temperament: the period, and so many generators up and down within it, in ascending order, its items and
// their sorted list in the lent columns: 13 over 65,535 items, 10 where generator or period lie outside 2^-32..2^32 or the period is
// 1.0, 12 where the items and place 0 have no room, 18 where two or more items have the period 1.0.
pub fn create_rank2_temperament_scale(
    generator: Ratio,
    num_pos_generations: u16,
    num_neg_generations: u16,
    period: Ratio,
    kind: &mut [u8],
    cents: &mut [f64],
    numer: &mut [u32],
    denom: &mut [u32],
    place: &mut [u32],
    ratio: &mut [f64],
    wraps: &mut [i32],
) -> Result<Scl, Refusal>
    ensures value { says_scl result ≡ counted_of (made_rank2 (item_table kind.old cents.old numer.old denom.old) (list_table place.old ratio.old wraps.old) generator.0 num_pos_generations num_neg_generations period.0) }
    ensures table_after { item_table kind.new cents.new numer.new denom.new
        ≡ items_left (made_rank2 (item_table kind.old cents.old numer.old denom.old) (list_table place.old ratio.old wraps.old) generator.0 num_pos_generations num_neg_generations period.0)
        (item_table kind.old cents.old numer.old denom.old) (list_table place.old ratio.old wraps.old) }
    ensures list_after { list_table place.new ratio.new wraps.new
        ≡ list_left (made_rank2 (item_table kind.old cents.old numer.old denom.old) (list_table place.old ratio.old wraps.old) generator.0 num_pos_generations num_neg_generations period.0)
        (item_table kind.old cents.old numer.old denom.old) (list_table place.old ratio.old wraps.old) }
{
    let by = generator.0;
    let within = period.0;
    let n = (num_pos_generations as usize) + (num_neg_generations as usize) + 1;
    if 65535 < n {
        return Err(generate::TOO_MANY);
    }
    if is_temperament(by, within) {
        let room = scl_tables::room_of(kind, cents, numer, denom, place, ratio, wraps);
        if room <= n {
            return Err(generate::NO_PLACE);
        }
        return make(
            within,
            notes::cents_of(by),
            notes::cents_of(within),
            num_pos_generations,
            n as u16,
            kind,
            cents,
            numer,
            denom,
            place,
            ratio,
            wraps,
        );
    }
    Err(scl::NOT_USABLE)
}
