// Walks along the cycle of a set's children.
ghost use Rattle.std.specs.Prelude.{◌≡◌, ◌≢◌, ℕ, ◌*◌, ◌<◌, ◌≤◌, true, if◌then◌else◌, length, slice_index, Some};
ghost use Rattle.blossom_match.specs.Views.{holds, turned, link_at, mate_at};
ghost use Rattle.blossom_match.specs.Between.{after};
ghost use Rattle.blossom_match.specs.Cycles.{ArePaired, IsOpened, IsReleased, IsRound, IsTrip, IsWhole};

use crate::state::Pair;

/// Gives the members of a child back to it.
fn release(size: usize, held: &[bool], top: &mut [usize], part: usize)
    requires few { size ≤ 1000 }
    requires part_in { part < 2 * size }
    requires held_len { length held.now ≡ 2 * size * size }
    requires top_len { length top.old ≡ size }
    ensures { (v : ℕ) → v < size → slice_index top.new v ≡ (if holds size held.now part v then part else slice_index top.old v) }
{
    for v in 0..size {
        if held[part * size + v] {
            top[v] = part;
        }
    }
}

/// Gives the members of all children back to them. Answers how many children there are.
fn release_all(size: usize, held: &[bool], next: &[usize], top: &mut [usize], first: usize) -> usize
    requires few { size ≤ 1000 }
    requires held_len { length held.now ≡ 2 * size * size }
    requires next_len { length next.now ≡ 2 * size }
    requires top_len { length top.old ≡ size }
    requires round { IsRound size held.now next.now first }
    ensures whole { IsWhole next.now result first }
    ensures released { IsReleased size held.now next.now result first top.old top.new }
{
    let mut part = first;
    for count in 0..size {
        release(size, held, top, part);
        part = next[part];
        if part == first {
            return count + 1;
        }
    }
    unreachable!()
}

/// Matches a child with the one after it, and answers that one.
fn match_next(next: &[usize], link: &[Pair], mate: &mut [Option<Pair>], part: usize) -> usize
    requires part_in { part < length next.now }
    requires after_in { slice_index next.now part < length next.now }
    requires apart { slice_index next.now part ≢ part }
    requires link_len { length link.now ≡ length next.now }
    requires mate_len { length mate.old ≡ length next.now }
    ensures result { result ≡ slice_index next.now part }
    ensures here { mate_at mate.new part ≡ Some (link_at link.now part) }
    ensures there { mate_at mate.new (slice_index next.now part) ≡ Some (turned (link_at link.now part)) }
    ensures off { (t : ℕ) → t ≢ part → t ≢ slice_index next.now part → mate_at mate.new t ≡ mate_at mate.old t }
{
    let after = next[part];
    let pair = link[part];
    mate[part] = Some(pair);
    mate[after] = Some(Pair {
        inside: pair.outside,
        outside: pair.inside,
    });
    after
}

/// Matches the children after one, two by two.
fn match_rest(next: &[usize], link: &[Pair], mate: &mut [Option<Pair>], base: usize, pairs: usize)
    requires trip { IsTrip next.now (length next.now) (2 * pairs) base }
    requires link_len { length link.now ≡ length next.now }
    requires mate_len { length mate.old ≡ length next.now }
    ensures { ArePaired next.now link.now base pairs mate.old mate.new }
{
    let mut part = base;
    for i in 0..pairs {
        part = match_next(next, link, mate, next[part]);
    }
}

/// Makes the children of a set outermost nodes. The one that holds the inner end of the pair takes it, and the others
/// are matched two by two. Answers how many children there are.
pub(crate) fn open_cycle(
    size: usize,
    held: &[bool],
    next: &[usize],
    link: &[Pair],
    top: &mut [usize],
    mate: &mut [Option<Pair>],
    first: usize,
    pair: Pair,
) -> usize
    requires few { size ≤ 1000 }
    requires held_len { length held.now ≡ 2 * size * size }
    requires next_len { length next.now ≡ 2 * size }
    requires link_len { length link.now ≡ 2 * size }
    requires top_len { length top.old ≡ size }
    requires mate_len { length mate.old ≡ 2 * size }
    requires round { IsRound size held.now next.now first }
    requires pair_in { pair.inside < size }
    requires inside { (len : ℕ) → IsWhole next.now len first → (k : ℕ) × (k < len) × (holds size held.now (after next.now k first) pair.inside ≡ true) }
    ensures { IsOpened size held.now next.now link.now first result pair top.old top.new mate.old mate.new }
{
    let len = release_all(size, held, next, top, first);
    let base = top[pair.inside];
    mate[base] = Some(pair);
    match_rest(next, link, mate, base, len / 2);
    len
}
