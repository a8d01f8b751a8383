// Scales out: the text of a scale, the Rust's `SclExport`. Document 01, "Writing".
#![tactic(auto)]

ghost use Rattle.std.specs.Prelude.{◌≡◌, true, ◌+◌, ◌≤◌, length};
ghost use Rattle.base.specs.Said.{outcome};
ghost use Rattle.std.proofs.lemmas.List.Edits.{sets};
ghost use Rattle.base.specs.Tables.{after};
ghost use Rattle.scl.specs.Items.{is_usable};
ghost use Rattle.scl.specs.Table.{item_table, is_items};
ghost use Rattle.writing.specs.Fitted.{fitted, text_length};
ghost use Rattle.writing.specs.Lines.{line, lines_text};
ghost use Rattle.scl_write.specs.Export.{standing, item_text, item_texts, listed_in, scale_text, export_of, NeverFull};

use base::Refusal;
use scl::{Item, ItemColumns, Scl};
use utf8::is_utf8;
use writing::{line_length, write_decimal, write_line, write_number, write_text};

// The item and LF at `at`; the next place.
fn write_item(item: Item, out: &mut [u8], at: usize) -> usize
    requires { (is_usable item ≡ true) × (at + length (line (item_text item)) ≤ length out.old) }
    ensures value { result ≡ at + length (line (item_text item)) }
    ensures out_after { out.new ≡ sets out.old at (line (item_text item)) }
{
    match item {
        Item::Cents(cents) => write_decimal(cents, 3, out, at),
        Item::Fraction(numer, denom) => match denom {
            Some(number) => {
                let next = write_number(numer, b'/', out, at);
                write_number(number, b'\n', out, next)
            }
            None => write_number(numer, b'\n', out, at),
        },
    }
}

// How many bytes the item and LF take.
fn item_length(item: Item) -> usize
    requires { is_usable item ≡ true }
    ensures { (result ≡ length (line (item_text item))) × (result ≤ 40) }
{
    let mut scratch = [0u8; writing::LINE];
    write_item(item, &mut scratch, 0)
}

// The item at place i of a usable table.
fn item_at(items: &ItemColumns<'_>, count: usize, i: usize) -> Item
    requires { (is_items count items.now ≡ true) × (i ≤ count) }
    ensures { (result ≡ standing items.now i) × (is_usable result ≡ true) }
{
    items.item(i)
}

// How many bytes the items take, place 0 omitted.
fn items_length(items: &ItemColumns<'_>, count: usize) -> usize
    requires { (is_items count items.now ≡ true) × (count ≤ 65535) }
    ensures { (result ≡ length (lines_text (item_texts (listed_in count items.now)))) × (result ≤ 2621440) }
{
    let mut total: usize = 0;
    for i in 1..count + 1 {
        total += item_length(item_at(items, count, i));
    }
    total
}

// The items from `at` on, place 0 omitted; the next place.
fn write_items(items: &ItemColumns<'_>, count: usize, out: &mut [u8], at: usize) -> usize
    requires { (is_items count items.now ≡ true)
        × (at + length (lines_text (item_texts (listed_in count items.now))) ≤ length out.old) }
    ensures value { result ≡ at + length (lines_text (item_texts (listed_in count items.now))) }
    ensures out_after { out.new ≡ sets out.old at (lines_text (item_texts (listed_in count items.now))) }
{
    let mut next = at;
    for before in 0..count {
        next = write_item(item_at(items, count, before + 1), out, next);
    }
    next
}

// The whole text from the first byte on, and how many bytes it takes; 12 where it is longer than the lent bytes.
fn write_scale(
    description: &[u8],
    items: &ItemColumns<'_>,
    count: usize,
    out: &mut [u8],
) -> Result<usize, Refusal>
    requires { (is_items count items.now ≡ true) × (count ≤ 65535) }
    ensures value { outcome result ≡ text_length (fitted (length out.old) (scale_text description.now (listed_in count items.now))) }
    ensures out_after { out.new ≡ after (fitted (length out.old) (scale_text description.now (listed_in count items.now))) (λ t. t) out.old }
{
    let number = count as i32;
    let taken = items_length(items, count);
    let total = description.len() + 1 + line_length(number) + taken;
    if out.len() < total {
        return Err(writing::NO_ROOM);
    }
    let number_at = write_text(description, out, 0);
    let items_at = write_line(number, out, number_at);
    Ok(write_items(items, count, out, items_at))
}

// The text of a scale into the lent bytes, and how many it takes. 10 for unusable items or a description that is not UTF-8, 12 where
// the text is longer than the bytes; then nothing is written. The description's length + 7 + 22 for each item are enough.
pub fn export_scl(
    scl: Scl,
    description: &[u8],
    items: &ItemColumns<'_>,
    out: &mut [u8],
) -> Result<usize, Refusal>
    ensures value { outcome result ≡ text_length (export_of scl items.now description.now (length out.old)) }
    ensures out_after { out.new ≡ after (export_of scl items.now description.now (length out.old)) (λ t. t) out.old }
    ensures never_full { NeverFull scl description.now (length out.old) (outcome result) }
{
    let count = scl.count as usize;
    if items.holds(count) && is_utf8(description) {
        return write_scale(description, items, count, out);
    }
    Err(writing::NOT_USABLE)
}
