// The nodes of a cycle become parts of one node.
ghost use Rattle.std.specs.Prelude.{◌≡◌, ◌≢◌, ℕ, ◌*◌, ◌<◌, ◌≤◌, length, slice_index, if◌then◌else◌};
ghost use Rattle.blossom_match.specs.Views.{holds, label_at};
ghost use Rattle.blossom_match.specs.Ways.{is_within, on_cycle};

use crate::state::Label;
use crate::ways::Join;

/// Whether a node is on a way, at most so many steps up.
fn is_within(place: Option<usize>, most: usize) -> bool
    ensures { result ≡ is_within place most }
{
    match place {
        Some(steps) => steps <= most,
        None => false,
    }
}

/// Whether a node is on one of two ways up to where they join.
fn is_on(one: &[Option<usize>], other: &[Option<usize>], join: Join, s: usize) -> bool
    requires one_in { s < length one.now }
    requires other_in { s < length other.now }
    ensures { result ≡ on_cycle one.now other.now join.one join.other s }
{
    is_within(one[s], join.one) || is_within(other[s], join.other)
}

/// The whole, or a part that stays by itself.
fn node_of(inside: bool, whole: usize, part: usize) -> usize
    ensures { result ≡ (if inside then whole else part) }
{
    if inside { whole } else { part }
}

/// No label, or the one that stays.
fn label_of(inside: bool, label: Label) -> Label
    ensures { result ≡ (if inside then Label.Free else label) }
{
    if inside { Label::Free } else { label }
}

/// Puts the members of the nodes of the cycle into a new one.
pub(crate) fn take_members(
    one: &[Option<usize>],
    other: &[Option<usize>],
    join: Join,
    whole: usize,
    top: &mut [usize],
    held: &mut [bool],
)
    requires few { length top.old ≤ 1000 }
    requires whole_in { whole < 2 * length top.old }
    requires held_len { length held.old ≡ 2 * length top.old * length top.old }
    requires one_in { (v : ℕ) → v < length top.old → slice_index top.old v < length one.now }
    requires other_in { (v : ℕ) → v < length top.old → slice_index top.old v < length other.now }
    ensures tops { (v : ℕ) → v < length top.old → slice_index top.new v ≡ (if on_cycle one.now other.now join.one join.other (slice_index top.old v) then whole else slice_index top.old v) }
    ensures row { (v : ℕ) → v < length top.old → holds (length top.old) held.new whole v ≡ on_cycle one.now other.now join.one join.other (slice_index top.old v) }
    ensures rows { (s v : ℕ) → v < length top.old → s ≢ whole → holds (length top.old) held.new s v ≡ holds (length top.old) held.old s v }
{
    let size = top.len();
    for v in 0..size {
        let part = top[v];
        let inside = is_on(one, other, join, part);
        held[whole * size + v] = inside;
        top[v] = node_of(inside, whole, part);
    }
}

/// Takes the labels of the nodes of the cycle away.
pub(crate) fn free_parts(
    one: &[Option<usize>],
    other: &[Option<usize>],
    join: Join,
    label: &mut [Label],
)
    requires one_len { length one.now ≡ length label.old }
    requires other_len { length other.now ≡ length label.old }
    ensures { (s : ℕ) → s < length label.old → label_at label.new s ≡ (if on_cycle one.now other.now join.one join.other s then Label.Free else label_at label.old s) }
{
    for s in 0..label.len() {
        label[s] = label_of(is_on(one, other, join, s), label[s]);
    }
}
