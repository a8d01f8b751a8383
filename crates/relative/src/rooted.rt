// Pitches above a root: the Rust's `root_pitch` and what it is multiplied by. Document 01, "Scales and searches".
//
// Inner functions: their callers have tested the lent tables. The root's degree is an argument: counting from the reference key passes
// the offset turned over (`root_degree`).
ghost use Rattle.std.specs.Prelude.{◌≡◌, true};
ghost use Rattle.base.specs.Said.{and_then, outcome};
ghost use Rattle.pitch.specs.Answers.{says_pitch, says_ratio};
ghost use Rattle.pitch.specs.Pitches.{pitch_times, pitch_over};
ghost use Rattle.sorted.specs.Lent.{list_table, list_in, is_list};
ghost use Rattle.scl.specs.Table.{item_table, items_in, is_items};
ghost use Rattle.relative.specs.Pitches.{root_degree, root_pitch, pitch_from, sorted_pitch_from, pitch_of, sorted_pitch_of};

use base::Refusal;
use kbm::KbmRoot;
use pitch::{Pitch, Ratio};
use scl::ItemColumns;
use sorted::ListColumns;

// The degree of the root, counted from the middle key: the offset turned over; 11 for -2147483648.
pub fn root_degree(root: KbmRoot) -> Result<i32, Refusal>
    ensures { outcome result ≡ root_degree root }
{
    integer_math::to_i32(integer_math::difference(0, root.offset))
}

// The pitch of the scale's place 0, where the degree `root` sounds the reference pitch; 18.
#[tactic(auto, unfolding(crate::specs::Pitches::root_pitch))]
pub fn root_pitch(
    items: &ItemColumns<'_>,
    count: u16,
    reference: Pitch,
    root: i32,
) -> Result<Pitch, Refusal>
    requires { is_items count items.now ≡ true }
    ensures { says_pitch result ≡ root_pitch (items_in count items.now) reference.0 root }
{
    reference.over(crate::relative_at(items, count, root)?)
}

// The pitch of a degree, where the degree `root` sounds the reference pitch; 18.
#[tactic(auto, unfolding(crate::specs::Pitches::pitch_from))]
pub fn pitch_at(
    items: &ItemColumns<'_>,
    count: u16,
    reference: Pitch,
    root: i32,
    degree: i32,
) -> Result<Pitch, Refusal>
    requires { is_items count items.now ≡ true }
    ensures { says_pitch result ≡ pitch_from (items_in count items.now) reference.0 root degree }
{
    let first = root_pitch(items, count, reference, root)?;
    first.times(crate::relative_at(items, count, degree)?)
}

// The same by ascending degree.
#[tactic(auto, unfolding(crate::specs::Pitches::sorted_pitch_from))]
pub fn sorted_pitch_at(
    items: &ItemColumns<'_>,
    list: &ListColumns<'_>,
    count: u16,
    reference: Pitch,
    root: i32,
    degree: i32,
) -> Result<Pitch, Refusal>
    requires { (is_items count items.now ≡ true) × (is_list count list.now ≡ true) }
    ensures { says_pitch result ≡ sorted_pitch_from (items_in count items.now) (list_in count list.now) reference.0 root degree }
{
    let first = root_pitch(items, count, reference, root)?;
    first.times(crate::sorted_relative_at(items, list, count, degree)?)
}

// The pitch of a degree above a root counted from its reference key; 11 for the offset, 18.
#[tactic(auto, unfolding(crate::specs::Pitches::pitch_of))]
pub fn degree_pitch(
    items: &ItemColumns<'_>,
    count: u16,
    root: KbmRoot,
    degree: i32,
) -> Result<Pitch, Refusal>
    requires { is_items count items.now ≡ true }
    ensures { says_pitch result ≡ pitch_of (items_in count items.now) root degree }
{
    let at = root_degree(root)?;
    pitch_at(items, count, root.pitch, at, degree)
}

// The same by ascending degree.
#[tactic(auto, unfolding(crate::specs::Pitches::sorted_pitch_of))]
pub fn sorted_degree_pitch(
    items: &ItemColumns<'_>,
    list: &ListColumns<'_>,
    count: u16,
    root: KbmRoot,
    degree: i32,
) -> Result<Pitch, Refusal>
    requires { (is_items count items.now ≡ true) × (is_list count list.now ≡ true) }
    ensures { says_pitch result ≡ sorted_pitch_of (items_in count items.now) (list_in count list.now) root degree }
{
    let at = root_degree(root)?;
    sorted_pitch_at(items, list, count, root.pitch, at, degree)
}
