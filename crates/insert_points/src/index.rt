// Where the calls at an address are found: one look-up in a table of parts, one in a part.
ghost use Rattle.std.specs.Prelude.{◌≡◌, [], length, ℕ, ◌<◌, ◌≤◌, ◌^◌, ◌==◌, All, IfSome, MatchOption, OnOk, if◌then◌else◌, slice_index};
ghost use Rattle.std.specs.Bool.{OnFalse};
ghost use Rattle.insert_points.specs.Plan.{IsIndex, IsSite, no_site, part_of, place_of, site_at};

use std::alloc::{AllocError, Global};

/// How many sites a part has.
const PART: usize = 4096;

/// The calls at one address, as places in the list of all calls: those of a routine, of a block, and of the instruction,
/// which stand together by their points.
#[derive(Clone, Copy)]
pub(crate) struct Site {
    pub routine: u32,
    pub block: u32,
    pub instruction: u32,
    pub routine_count: u8,
    pub block_count: u8,
    pub before: u8,
    pub after: u8,
    pub taken: u8,
}

/// Where nothing is called.
const NO_SITE: Site = Site {
    routine: 0,
    block: 0,
    instruction: 0,
    routine_count: 0,
    block_count: 0,
    before: 0,
    after: 0,
    taken: 0,
};

/// The sites of all addresses: for each part of the addresses the number of its sites' part, or 0 where it has none.
#[derive(Drop)]
pub(crate) struct Index {
    pub table: Vec<u32>,
    pub sites: Vec<Site>,
}

// The part in which an address has its site. Addresses that are a multiple of 4 come first.
#[inline(always)]
#[tactic(auto, unfolding(crate::specs::Plan::part_of))]
fn part_of(at: u32) -> usize
    ensures value { result ≡ part_of at }
    ensures few { result < 2 ^ 20 }
{
    ((at % 4 * 0x4000_0000 + at / 4) / 4096) as usize
}

// The place of its site in that part.
#[inline(always)]
#[tactic(auto, unfolding(crate::specs::Plan::place_of))]
fn place_of(at: u32) -> usize
    ensures value { result ≡ place_of at }
    ensures few { result < 4096 }
{
    ((at % 4 * 0x4000_0000 + at / 4) % 4096) as usize
}

impl Index {
    /// No address has a site.
    pub(crate) fn new(alloc: Global) -> Index
        ensures table { result.table.items ≡ [] }
        ensures sites { result.sites.items ≡ [] }
    {
        Index {
            table: Vec::new(alloc),
            sites: Vec::new(alloc),
        }
    }

    /// The site of an address.
    #[inline(always)]
    pub(crate) fn get(&self, at: u32) -> Site
        requires { IsIndex self.now.table.items self.now.sites.items }
        ensures site { result ≡ site_at self.now.table.items self.now.sites.items at }
        ensures sound { (n : ℕ) → All (IsSite n) self.now.sites.items → IsSite n result }
    {
        match self.table.get(part_of(at)) {
            Some(part) if *part > 0 => self.sites[PART * (*part as usize - 1) + place_of(at)],
            _ => NO_SITE,
        }
    }

    /// The site of an address, where there is room for it. Nothing is called where there is none.
    #[inline(always)]
    pub(crate) fn find(&self, at: u32) -> Option<&Site>
        requires { IsIndex self.now.table.items self.now.sites.items }
        ensures site { MatchOption result (site_at self.now.table.items self.now.sites.items at ≡ no_site)
            (λ site. site.now ≡ site_at self.now.table.items self.now.sites.items at) }
        ensures sound { (n : ℕ) → All (IsSite n) self.now.sites.items → IfSome result (λ site. IsSite n site.now) }
    {
        match self.table.get(part_of(at)) {
            Some(part) if *part > 0 => {
                Some(&self.sites[PART * (*part as usize - 1) + place_of(at)])
            }
            _ => None,
        }
    }

    /// Whether there is room for the site of an address. Nothing is called there where there is none.
    pub(crate) fn has_part(&self, at: u32) -> bool
        requires { IsIndex self.now.table.items self.now.sites.items }
        ensures { OnFalse result (site_at self.now.table.items self.now.sites.items at ≡ no_site) }
    {
        match self.table.get(part_of(at)) {
            Some(part) => *part > 0,
            None => false,
        }
    }

    /// Makes room for the site of an address.
    pub(crate) fn reserve(&mut self, at: u32) -> Result<(), AllocError>
        requires { IsIndex self.old.table.items self.old.sites.items }
        ensures index { IsIndex self.new.table.items self.new.sites.items }
        ensures same { (a : ℕ) → site_at self.new.table.items self.new.sites.items a
            ≡ site_at self.old.table.items self.old.sites.items a }
        ensures sound { (n : ℕ) → All (IsSite n) self.old.sites.items → All (IsSite n) self.new.sites.items }
        ensures room { OnOk result (0 < slice_index self.new.table.items (part_of at)) }
    {
        let part = part_of(at);
        self.grow(part + 1)?;
        if self.table[part] == 0 {
            self.give(part)?;
        }
        Ok(())
    }

    // Makes the table at least this long.
    fn grow(&mut self, parts: usize) -> Result<(), AllocError>
        ensures table { (p : ℕ) → slice_index self.new.table.items p ≡ slice_index self.old.table.items p }
        ensures sites { self.new.sites.items ≡ self.old.sites.items }
        ensures room { OnOk result (parts ≤ length self.new.table.items) }
    {
        if self.table.len() < parts {
            self.table.resize(parts, 0)?;
        }
        Ok(())
    }

    // Gives a part sites.
    fn give(&mut self, part: usize) -> Result<(), AllocError>
        requires index { IsIndex self.old.table.items self.old.sites.items }
        requires within { part < length self.old.table.items }
        requires none { slice_index self.old.table.items part ≡ 0 }
        ensures index { IsIndex self.new.table.items self.new.sites.items }
        ensures same { (a : ℕ) → site_at self.new.table.items self.new.sites.items a
            ≡ site_at self.old.table.items self.old.sites.items a }
        ensures sound { (n : ℕ) → All (IsSite n) self.old.sites.items → All (IsSite n) self.new.sites.items }
        ensures room { OnOk result (0 < slice_index self.new.table.items part) }
    {
        let len = self.sites.len();
        let number = len / PART + 1;
        if number > u32::MAX as usize {
            return Err(AllocError);
        }
        self.sites.resize(len + PART, NO_SITE)?;
        self.table[part] = number as u32;
        Ok(())
    }

    /// Sets the site of an address for which there is room.
    pub(crate) fn set(&mut self, at: u32, site: Site)
        requires index { IsIndex self.old.table.items self.old.sites.items }
        requires room { 0 < slice_index self.old.table.items (part_of at) }
        ensures index { IsIndex self.new.table.items self.new.sites.items }
        ensures sites { (a : ℕ) → a < 2 ^ 32 → site_at self.new.table.items self.new.sites.items a
            ≡ (if a == at then site else site_at self.old.table.items self.old.sites.items a) }
        ensures sound { (n : ℕ) → All (IsSite n) self.old.sites.items → IsSite n site
            → All (IsSite n) self.new.sites.items }
    {
        let number = self.table[part_of(at)] as usize;
        self.sites[PART * (number - 1) + place_of(at)] = site;
    }
}
