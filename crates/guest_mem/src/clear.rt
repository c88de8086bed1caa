// Pages that are given back where a range is unmapped.
ghost use Rattle.std.specs.Prelude.{[], ◌∷◌, ◌≡◌, ℕ, ◌+◌, ◌*◌, ◌/◌, ◌%◌, ◌^◌, ◌<◌, ◌≤◌, ◌&&◌, not};
ghost use Rattle.std.specs.Prelude.{true, false, length, if◌then◌else◌, slice_index};
ghost use Rattle.std.specs.Prelude.{slice_index_or};
ghost use Rattle.std.specs.List.{All};
ghost use Rattle.guest_model.specs.Maps.{is_in_range};
ghost use Rattle.cow_pages.specs.Frames.{AddUp};
ghost use Rattle.guest_mem.specs.Sound.{is_cut, no_rights};
ghost use Rattle.guest_model.specs.Valid.{IsWhole};

use crate::rights::{NO_RIGHTS, RightsTable};
use cow_pages::Pages;
use guest_model::Area;
use guest_model::platform::PAGE_SIZE;

/// Gives back the pages of the areas that are in the range, and takes their rights.
pub(crate) fn clear_range(
    areas: &[Area],
    from: u32,
    to: u32,
    pages: &mut Pages,
    rights: &mut RightsTable,
)
    requires whole { All IsWhole areas.now }
    requires from { from % PAGE_SIZE ≡ 0 }
    requires to { to % PAGE_SIZE ≡ 0 }
    requires bytes { length pages.old.flat_bytes ≡ 2 ^ 32 }
    ensures bytes { (q : ℕ) → slice_index pages.new.flat_bytes q
        ≡ (if is_cut from to areas.now q then 0 else slice_index pages.old.flat_bytes q) }
    ensures bytes_len { length pages.new.flat_bytes ≡ 2 ^ 32 }
    ensures framed { (page : ℕ)
        → slice_index_or pages.new.frames.framed page false
        ≡ (not (is_cut from to areas.now (PAGE_SIZE * page)) && slice_index_or pages.old.frames.framed page false) }
    ensures framed_len { length pages.new.frames.framed ≡ length pages.old.frames.framed }
    ensures written { pages.new.frames.written ≡ pages.old.frames.written }
    ensures origin { pages.new.origin ≡ pages.old.origin }
    ensures count { pages.new.frames.count ≡ pages.old.frames.count }
    ensures adds_up { AddUp pages.old.frames → AddUp pages.new.frames }
    ensures rights { (page : ℕ) → slice_index_or rights.new page no_rights
        ≡ (if is_cut from to areas.now (PAGE_SIZE * page) then no_rights
        else slice_index_or rights.old page no_rights) }
{
    for area in areas {
        clear_part(area, from, to, pages, rights);
    }
}

/// The same for one area.
fn clear_part(area: &Area, from: u32, to: u32, pages: &mut Pages, rights: &mut RightsTable)
    requires whole { IsWhole area.now }
    requires from { from % PAGE_SIZE ≡ 0 }
    requires to { to % PAGE_SIZE ≡ 0 }
    requires bytes { length pages.old.flat_bytes ≡ 2 ^ 32 }
    ensures bytes { (q : ℕ) → slice_index pages.new.flat_bytes q
        ≡ (if is_cut from to (area.now ∷ []) q then 0 else slice_index pages.old.flat_bytes q) }
    ensures bytes_len { length pages.new.flat_bytes ≡ 2 ^ 32 }
    ensures framed { (page : ℕ)
        → slice_index_or pages.new.frames.framed page false
        ≡ (not (is_cut from to (area.now ∷ []) (PAGE_SIZE * page)) && slice_index_or pages.old.frames.framed page false) }
    ensures framed_len { length pages.new.frames.framed ≡ length pages.old.frames.framed }
    ensures written { pages.new.frames.written ≡ pages.old.frames.written }
    ensures origin { pages.new.origin ≡ pages.old.origin }
    ensures count { pages.new.frames.count ≡ pages.old.frames.count }
    ensures adds_up { AddUp pages.old.frames → AddUp pages.new.frames }
    ensures rights { (page : ℕ) → slice_index_or rights.new page no_rights
        ≡ (if is_cut from to (area.now ∷ []) (PAGE_SIZE * page) then no_rights
        else slice_index_or rights.old page no_rights) }
{
    let first = area.start.max(from) / PAGE_SIZE;
    let end = (area.end.min(to) / PAGE_SIZE).max(first);
    drop_pages(pages, first, end);
    rights.fill(first, end, NO_RIGHTS);
}

/// Drops the pages from `from` to below `to`.
fn drop_pages(pages: &mut Pages, from: u32, to: u32)
    requires order { from ≤ to }
    requires within { to ≤ 2 ^ 20 }
    requires bytes { length pages.old.flat_bytes ≡ 2 ^ 32 }
    ensures bytes { (q : ℕ) → slice_index pages.new.flat_bytes q
        ≡ (if is_in_range from to (q / PAGE_SIZE) then 0 else slice_index pages.old.flat_bytes q) }
    ensures bytes_len { length pages.new.flat_bytes ≡ 2 ^ 32 }
    ensures framed { (page : ℕ)
        → slice_index_or pages.new.frames.framed page false
        ≡ (not (is_in_range from to page) && slice_index_or pages.old.frames.framed page false) }
    ensures framed_len { length pages.new.frames.framed ≡ length pages.old.frames.framed }
    ensures written { pages.new.frames.written ≡ pages.old.frames.written }
    ensures origin { pages.new.origin ≡ pages.old.origin }
    ensures count { pages.new.frames.count ≡ pages.old.frames.count }
    ensures adds_up { AddUp pages.old.frames → AddUp pages.new.frames }
{
    for page in from..to {
        pages.drop_page(page);
    }
}
