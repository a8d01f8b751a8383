// Scales for C: seven lent columns, the items' four and the sorted list's three, and beside them the count of items.
#![tactic(auto)]

mod generators;

ghost use Rattle.std.specs.Prelude.{Some, None};
ghost use Rattle.scl.specs.Table.{item_of};
ghost use Rattle.scl.specs.declared.Item.TheVariants.{Cents, Fraction};
ghost use Rattle.telbijan_answers.specs.Lent.{columns_before, columns_old, columns_after, list_before, list_old, list_after};
ghost use Rattle.telbijan_scales.specs.Calls.{ItemAsRatio, read_with, ReadScl, NewScl, PushItem, PushRatio, BuildScl, ExportScl};

// The ratio of an item, stored: 10 for an item that cannot be used, one of an unknown kind too.
#[unsafe(no_mangle)]
pub extern "C" fn telbijan_item_as_ratio(
    kind: u8,
    cents: f64,
    numer: u32,
    denom: u32,
    ratio: &mut f64,
) -> u64
    ensures { ItemAsRatio (item_of kind cents numer denom) ratio.old result ratio.new }
{
    telbijan_scales::telbijan_item_as_ratio(kind, cents, numer, denom, ratio)
}

// A scale file, read: its items go to the places after place 0, which gets the implicit 0.0 cents, and their sorted list to the
// first places of the list; the places behind keep their values. Stored are the count of items, and where the description starts
// and ends in the text. The refusals are 1, 3, 4, 5, 6, 9, 10 and 12 with their line; 2 with which required line is missing (1
// description, 2 count); 13, 14 and 18 with 0, after the last line; and 12 with 0, first, where a column has no place.
#[unsafe(no_mangle)]
pub extern "C" fn telbijan_read_scl(
    text: &[u8],
    kind: &mut [u8],
    cents: &mut [f64],
    numer: &mut [u32],
    denom: &mut [u32],
    place: &mut [u32],
    ratio: &mut [f64],
    wraps: &mut [i32],
    count: &mut u16,
    start: &mut usize,
    end: &mut usize,
) -> u64
    ensures { ReadScl text.now (columns_old kind cents numer denom) (list_old place ratio wraps)
        (read_with count.old start.old end.old)
        result (columns_after kind cents numer denom) (list_after place ratio wraps)
        (read_with count.new start.new end.new) }
{
    telbijan_scales::telbijan_read_scl(
        text, kind, cents, numer, denom, place, ratio, wraps, count, start, end,
    )
}

// A builder with nothing pushed: place 0 gets the implicit 0.0 cents, and the room is stored, the places of the shortest column; the
// count is 0. 12 where a column has no place. The list's columns are only measured.
#[unsafe(no_mangle)]
pub extern "C" fn telbijan_new_scl(
    kind: &mut [u8],
    cents: &mut [f64],
    numer: &mut [u32],
    denom: &mut [u32],
    place: &[u32],
    ratio: &[f64],
    wraps: &[i32],
    room: &mut usize,
) -> u64
    ensures { NewScl (columns_old kind cents numer denom) (list_before place ratio wraps) room.old
        result (columns_after kind cents numer denom) room.new }
{
    telbijan_scales::telbijan_new_scl(kind, cents, numer, denom, place, ratio, wraps, room)
}

// One item in cents more, at place `count` + 1 of columns of `room` places; the new count is stored. 10 for a room or count that is
// not the columns', and for cents outside -38400..38400; 12 with no place left.
#[unsafe(no_mangle)]
pub extern "C" fn telbijan_push_cents(
    kind: &mut [u8],
    cents: &mut [f64],
    numer: &mut [u32],
    denom: &mut [u32],
    room: usize,
    count: usize,
    value: f64,
    after: &mut usize,
) -> u64
    ensures { PushItem (Cents value) (columns_old kind cents numer denom) room count after.old
        result (columns_after kind cents numer denom) after.new }
{
    telbijan_scales::telbijan_push_cents(kind, cents, numer, denom, room, count, value, after)
}

// One ratio more, kept as its cents, in the same way; 10 for a ratio outside 2^-900..2^900 too.
#[unsafe(no_mangle)]
pub extern "C" fn telbijan_push_ratio(
    kind: &mut [u8],
    cents: &mut [f64],
    numer: &mut [u32],
    denom: &mut [u32],
    room: usize,
    count: usize,
    value: f64,
    after: &mut usize,
) -> u64
    ensures { PushRatio value (columns_old kind cents numer denom) room count after.old
        result (columns_after kind cents numer denom) after.new }
{
    telbijan_scales::telbijan_push_ratio(kind, cents, numer, denom, room, count, value, after)
}

// One integer more, a fraction whose denominator is lacking, in the same way; 10 for 0.
#[unsafe(no_mangle)]
pub extern "C" fn telbijan_push_int(
    kind: &mut [u8],
    cents: &mut [f64],
    numer: &mut [u32],
    denom: &mut [u32],
    room: usize,
    count: usize,
    value: u32,
    after: &mut usize,
) -> u64
    ensures { PushItem (Fraction value None) (columns_old kind cents numer denom) room count after.old
        result (columns_after kind cents numer denom) after.new }
{
    telbijan_scales::telbijan_push_int(kind, cents, numer, denom, room, count, value, after)
}

// One fraction more, in the same way; 10 where either number is 0.
#[unsafe(no_mangle)]
pub extern "C" fn telbijan_push_fraction(
    kind: &mut [u8],
    cents: &mut [f64],
    numer: &mut [u32],
    denom: &mut [u32],
    room: usize,
    count: usize,
    above: u32,
    below: u32,
    after: &mut usize,
) -> u64
    ensures { PushItem (Fraction above (Some below)) (columns_old kind cents numer denom) room count after.old
        result (columns_after kind cents numer denom) after.new }
{
    telbijan_scales::telbijan_push_fraction(
        kind, cents, numer, denom, room, count, above, below, after,
    )
}

// The scale of the items that were pushed: its sorted list goes to the first `count` + 1 places of the list, and the count of items
// is stored; the items stay. 10 for a state or an item that cannot be used, 13 over 65,535 items, 18 where two or more items
// have the period 1.0.
#[unsafe(no_mangle)]
pub extern "C" fn telbijan_build_scl(
    kind: &[u8],
    cents: &[f64],
    numer: &[u32],
    denom: &[u32],
    place: &mut [u32],
    ratio: &mut [f64],
    wraps: &mut [i32],
    room: usize,
    count: usize,
    items: &mut u16,
) -> u64
    ensures { BuildScl (columns_before kind cents numer denom) (list_old place ratio wraps) room count items.old
        result (list_after place ratio wraps) items.new }
{
    telbijan_scales::telbijan_build_scl(
        kind, cents, numer, denom, place, ratio, wraps, room, count, items,
    )
}

// The text of a scale, written into the lent bytes: the description as it is, the count, the items. The number of bytes is stored, and
// bytes behind it keep their values. 10 for a table that cannot be used or a description that is not UTF-8, 12 where the text is
// longer than the bytes: never where they are the description's length + 7 + 22 for each item.
#[unsafe(no_mangle)]
pub extern "C" fn telbijan_export_scl(
    description: &[u8],
    kind: &[u8],
    cents: &[f64],
    numer: &[u32],
    denom: &[u32],
    count: u16,
    out: &mut [u8],
    written: &mut usize,
) -> u64
    ensures { ExportScl description.now (columns_before kind cents numer denom) (record { count = count })
        out.old written.old result out.new written.new }
{
    telbijan_scales::telbijan_export_scl(
        description,
        kind,
        cents,
        numer,
        denom,
        count,
        out,
        written,
    )
}
