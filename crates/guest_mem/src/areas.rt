// The areas of a guest's memory, as a list.
ghost use Rattle.std.specs.Prelude.{[], ◌∷◌, ◌++◌, ◌≡◌, true, false, MatchOption, ℕ, ◌+◌, ◌*◌, ◌/◌};
ghost use Rattle.std.specs.Prelude.{IsTrue, ◌↔◌, ◌^◌, ◌<◌, ◌≤◌, length, slice_index_or, slice_set};
ghost use Rattle.std.specs.List.{IsAfterLastMatch, position_or_len};
ghost use Rattle.guest_model.specs.Added.{comes_before, mapped_pages};
ghost use Rattle.guest_model.specs.Areas.{rounded_up};
ghost use Rattle.guest_model.specs.Maps.{ends_low, cut, cut_areas};
ghost use Rattle.guest_model.specs.declared.Area.{Area as Areas};

use arrayvec::ArrayVec;
use guest_model::Area;
use guest_model::platform::{MAPS_START, MOST_AREAS, PAGE_SIZE};

/// A size or an address rounded up to whole pages of 4,096 bytes.
pub(crate) fn rounded_up(size: u64) -> u64
    requires { size ≤ 2 ^ 32 }
    ensures { result ≡ rounded_up size }
{
    (size + (PAGE_SIZE as u64 - 1)) / PAGE_SIZE as u64 * PAGE_SIZE as u64
}

/// How many pages of 4,096 bytes the areas have.
#[tactic(auto, unfolding(guest_model::specs::Added::mapped_pages))]
pub(crate) fn mapped_pages(areas: &[Area]) -> u64
    requires { length areas.now ≤ MOST_AREAS }
    ensures { result ≡ mapped_pages areas.now }
{
    let mut count = 0;
    for area in areas {
        count += (area.end.saturating_sub(area.start) / PAGE_SIZE) as u64;
    }
    count
}

/// Where the area belongs among the areas.
pub(crate) fn place_of(areas: &[Area], area: &Area) -> usize
    ensures place { result ≡ position_or_len (comes_before area.now) areas.now }
    ensures within { result ≤ length areas.now }
{
    for (i, other) in areas.iter().enumerate() {
        if comes_before_other(area, other) {
            return i;
        }
    }
    areas.len()
}

/// The place behind the heap, the last of the areas that end at or below where maps start, or 0
/// where none does.
pub(crate) fn behind_heap(areas: &[Area]) -> usize
    ensures last { IsAfterLastMatch ends_low areas.now result }
    ensures within { result ≤ length areas.now }
{
    let mut behind = 0;
    for (i, area) in areas.iter().enumerate() {
        if area.end <= MAPS_START {
            behind = i + 1;
        }
    }
    behind
}

/// The areas that are left where a range is unmapped, if they are at most 64.
#[tactic(auto, using(crate::proofs::Cut::cut_rules))]
pub(crate) fn cut_areas(areas: &[Area], from: u32, to: u32) -> Option<ArrayVec<Area, MOST_AREAS>>
    ensures { MatchOption result (MOST_AREAS < length (cut_areas from to areas.now))
        (λ left. left.items ≡ cut_areas from to areas.now) }
{
    let mut left = ArrayVec::new();
    for area in areas {
        if !push_parts(&mut left, area, from, to) {
            return None;
        }
    }
    Some(left)
}

/// Appends what is left of an area on each side of the range, if there is room.
fn push_parts(left: &mut ArrayVec<Area, MOST_AREAS>, area: &Area, from: u32, to: u32) -> bool
    ensures pushed { result ≡ true → left.new.items ≡ left.old.items ++ cut from to area.now }
    ensures full { result ≡ false
        → MOST_AREAS < length left.old.items + length (cut from to area.now) }
{
    if area.start >= to || from >= area.end {
        return left.try_push(*area).is_ok();
    }
    if area.start < from && left.try_push(Area { end: from, ..*area }).is_err() {
        return false;
    }
    if to < area.end && left.try_push(Area { start: to, ..*area }).is_err() {
        return false;
    }
    true
}

/// A copy of the areas.
pub(crate) fn copied(areas: &[Area]) -> ArrayVec<Area, MOST_AREAS>
    requires { length areas.now ≤ MOST_AREAS }
    ensures { result.items ≡ areas.now }
{
    let mut copy = ArrayVec::new();
    for area in areas {
        copy.push(*area);
    }
    copy
}

/// Whether the areas are the same.
pub(crate) fn same_areas(one: &[Area], other: &[Area]) -> bool
    ensures { IsTrue result ↔ (one.now ≡ other.now) }
{
    if one.len() != other.len() {
        return false;
    }
    for i in 0..one.len() {
        if one[i] != other[i] {
            return false;
        }
    }
    true
}

/// Ends the area at `place` at `end`.
pub(crate) fn end_at(areas: &mut ArrayVec<Area, MOST_AREAS>, place: usize, end: u32)
    requires { place < length areas.old.items }
    ensures { (d : Areas)
        → areas.new.items
        ≡ slice_set areas.old.items place (record (slice_index_or areas.old.items place d) { end = end }) }
{
    areas[place].end = end;
}

fn comes_before_other(area: &Area, other: &Area) -> bool
    ensures { result ≡ comes_before area.now other.now }
{
    area.start < other.start || area.start == other.start && area.end <= other.end
}
