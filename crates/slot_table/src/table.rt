// The slots of all pages, in two levels.
ghost use Rattle.std.specs.Prelude.{◌++◌, ◌≡◌, ℕ, ◌+◌, ◌*◌, ◌/◌, ◌%◌, ◌^◌, ◌<◌, ◌≤◌, ◌≢◌, true, false, length, slice_index, slice_set, vec_capacity, replicate, IfOk};
ghost use Rattle.slot_table.specs.Slots.{all_unchanged, is_changed, slot_at};
ghost use Rattle.slot_table.specs.Sparse.{IsSparse, entry};

use crate::slot::Slot;
use std::alloc::{AllocError, Global};
use std::marker::Model;
use std::mem;

/// How many pages a leaf has, and how many leaves there can be beside the first.
const LEAF: usize = 1024;

/// How many pages there are.
const PAGES: u32 = 1_048_576;

/// A slot for each of 1,048,576 pages. All memory is taken by `new`, and touched only as leaves are used: no other call takes
/// any. Contracts see the list of the slots.
#[derive(Drop)]
pub struct SlotTable {
    /// For each 1,024 pages the number of their leaf; leaf 0 is that of all those over which nothing stands.
    directory: Vec<u32>,
    /// The leaves, one after another.
    leaves: Vec<Slot>,
}

impl Model for SlotTable {
    ghost use Rattle.std.specs.Prelude.{List};
    ghost use Rattle.slot_table.specs.declared.slot.Slot.{Slot};

    ghost Value = { List Slot };

    ghost use Rattle.slot_table.specs.Slots.{sheet};
    ghost use Rattle.slot_table.specs.Sparse.{entry};
    ghost use Rattle.slot_table.specs.Kept.{IsKept};

    ghost view = { λ t. sheet (entry t.directory.items t.leaves.items) };

    ghost invariant = { IsKept };
}

#[tactic(auto, using(crate::proofs::Rules::table_rules))]
impl SlotTable {
    /// Nothing stands over any page.
    pub fn new(alloc: Global) -> Result<SlotTable, AllocError>
        ensures { IfOk result (λ t. t ≡ all_unchanged) }
    {
        let mut leaves = Vec::with_capacity(alloc, LEAF * (LEAF + 1))?;
        add_leaf(&mut leaves);
        Ok(SlotTable {
            directory: zeros(alloc, LEAF)?,
            leaves,
        })
    }

    /// What stands over a page.
    #[inline(always)]
    pub fn get(&self, page: u32) -> &Slot
        requires { page < 2 ^ 20 }
        ensures { result.now ≡ slot_at self.now page }
    {
        &self.leaves[cell(&self.directory, page)]
    }

    /// Puts a slot over a page, and answers what stood there.
    pub fn replace(&mut self, page: u32, slot: Slot) -> Slot
        requires { page < 2 ^ 20 }
        ensures old { result ≡ slot_at self.old page }
        ensures new { self.new ≡ slice_set self.old page slot }
    {
        own_leaf(&mut self.directory, &mut self.leaves, page / 1024);
        let cell = cell(&self.directory, page);
        mem::replace(&mut self.leaves[cell], slot)
    }

    /// The first changed page from `from` on, or 1,048,576 where there is none.
    pub fn next(&self, from: u32) -> u32
        requires { from ≤ 2 ^ 20 }
        ensures range { (from ≤ result) × (result ≤ 2 ^ 20) }
        ensures none_before { (q : ℕ) → from ≤ q → q < result → is_changed (slot_at self.now q) ≡ false }
        ensures changed { result < 2 ^ 20 → is_changed (slot_at self.now result) ≡ true }
    {
        let mut page = from;
        while page < PAGES {
            if self.directory[(page / 1024) as usize] == 0 {
                page = (page / 1024 + 1) * 1024;
            } else if let Slot::Unchanged = self.get(page) {
                page += 1;
            } else {
                return page;
            }
        }
        page
    }

    /// Nothing stands over any page from now on.
    pub fn clear(&mut self)
        ensures { self.new ≡ all_unchanged }
    {
        clear_entries(&mut self.directory);
        self.leaves.truncate(LEAF);
    }
}

// Where the slot of a page stands.
#[inline(always)]
fn cell(directory: &Vec<u32>, page: u32) -> usize
    requires len { length directory.now.items ≡ 1024 }
    requires page { page < 2 ^ 20 }
    ensures { result ≡ 1024 * slice_index directory.now.items (page / 1024) + page % 1024 }
{
    LEAF * directory[(page / 1024) as usize] as usize + (page % 1024) as usize
}

fn clear_entries(directory: &mut Vec<u32>)
    ensures zero { (c : ℕ) → slice_index directory.new.items c ≡ 0 }
    ensures len { length directory.new.items ≡ length directory.old.items }
{
    for i in 0..directory.len() {
        directory[i] = 0;
    }
}

// Adds a leaf over whose pages nothing stands.
fn add_leaf(leaves: &mut Vec<Slot>)
    requires { length leaves.old.items + 1024 ≤ vec_capacity leaves.old }
    ensures items { leaves.new.items ≡ leaves.old.items ++ replicate 1024 Slot.Unchanged }
    ensures capacity { vec_capacity leaves.new ≡ vec_capacity leaves.old }
{
    for _index in 0..LEAF {
        leaves.push_reserved(Slot::Unchanged);
    }
}

// Gives 1,024 pages a leaf of their own, unless they have one. The slots stay.
#[tactic(auto, using(crate::proofs::Rules::table_rules))]
fn own_leaf(directory: &mut Vec<u32>, leaves: &mut Vec<Slot>, chunk: u32)
    requires chunk { chunk < 1024 }
    requires sparse { IsSparse directory.old.items leaves.old.items }
    requires room { 1024 * 1025 ≤ vec_capacity leaves.old }
    ensures sparse { IsSparse directory.new.items leaves.new.items }
    ensures own { slice_index directory.new.items chunk ≢ 0 }
    ensures same { (q : ℕ) → entry directory.new.items leaves.new.items q ≡ entry directory.old.items leaves.old.items q }
    ensures room { 1024 * 1025 ≤ vec_capacity leaves.new }
{
    if directory[chunk as usize] == 0 {
        directory[chunk as usize] = (leaves.len() / LEAF) as u32;
        add_leaf(leaves);
    }
}

fn zeros(alloc: Global, len: usize) -> Result<Vec<u32>, AllocError>
    ensures { IfOk result (λ v. v.items ≡ replicate len 0) }
{
    vec![in alloc; 0; len]
}
