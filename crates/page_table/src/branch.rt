// The pages of 4,096 neighbouring numbers, in leaves.
ghost use Rattle.std.specs.Prelude.{[], ◌≡◌, ℕ, ◌==◌, ◌<◌, length, if◌then◌else◌, slice_index_or, IfOk, MatchOption, OnOk};
ghost use Rattle.page_table.specs.Table.{page_in, shared_list};

use crate::leaf::Leaf;
use crate::page::PageBytes;
use std::alloc::{AllocError, Global};
use std::marker::Model;
use std::mem;
use std::sync::Arc;

/// How many leaves a branch has.
const BRANCH: usize = 128;

/// 4,096 pages, shared with other branches. Contracts ask for a page by `page_in`.
#[derive(Drop)]
pub(crate) struct Branch {
    leaves: Vec<Option<Arc<Leaf, Global>>>,
}

impl Model for Branch {
    ghost use Rattle.std.specs.Prelude.{ℕ, ◌≡◌, List, length, map};
    ghost use Rattle.page_table.specs.Table.{shared_list};

    ghost Value = { List (List (List ℕ)) };

    ghost view = { λ b. map shared_list b.leaves.items };

    ghost invariant = { λ b. length b.leaves.items ≡ 128 };
}

impl Branch {
    /// No page is in it.
    pub(crate) fn new(alloc: Global) -> Result<Branch, AllocError>
        ensures { IfOk result (λ b. (page : ℕ) → page_in b page ≡ []) }
    {
        let mut leaves = Vec::with_capacity(alloc, BRANCH)?;
        for _index in 0..BRANCH {
            leaves.push(None)?;
        }
        Ok(Branch { leaves })
    }

    /// A page, if it is in it.
    #[inline(always)]
    pub(crate) fn page(&self, index: u32) -> Option<&PageBytes>
        requires { index < 4096 }
        ensures { MatchOption result (page_in self.now index ≡ []) (λ p. page_in self.now index ≡ p.now) }
    {
        match &self.leaves[(index / 32) as usize] {
            Some(leaf) => leaf.page((index % 32) as usize),
            None => None,
        }
    }

    /// A branch of the same pages.
    pub(crate) fn try_clone(&self, alloc: Global) -> Result<Branch, AllocError>
        ensures { IfOk result (λ b. b ≡ self.now) }
    {
        let mut leaves = Vec::with_capacity(alloc, BRANCH)?;
        for leaf in &self.leaves {
            leaves.push(shared_leaf(leaf)?)?;
        }
        Ok(Branch { leaves })
    }

    /// Puts a page into it, or takes one out. After an error some pages may be gone.
    pub(crate) fn set(
        &mut self,
        alloc: Global,
        index: u32,
        page: Option<Arc<PageBytes, Global>>,
    ) -> Result<(), AllocError>
        requires { index < 4096 }
        ensures { OnOk result ((q : ℕ) → page_in self.new q ≡ (if q == index then shared_list page else page_in self.old q)) }
    {
        let place = (index / 32) as usize;
        let old = mem::replace(&mut self.leaves[place], None);
        let mut leaf = private_leaf(alloc, old)?;
        leaf.set((index % 32) as usize, page);
        self.leaves[place] = Some(Arc::new(alloc, leaf)?);
        Ok(())
    }
}

// A leaf of the same pages that no other branch has.
fn private_leaf(alloc: Global, leaf: Option<Arc<Leaf, Global>>) -> Result<Leaf, AllocError>
    ensures same { IfOk result (λ l. (i : ℕ) → slice_index_or l i [] ≡ slice_index_or (shared_list leaf) i []) }
    ensures len { IfOk result (λ l. length l ≡ 32) }
{
    match leaf {
        None => Leaf::new(alloc),
        Some(leaf) => match Arc::try_unwrap(leaf) {
            Ok(leaf) => {
                leaf.tell_len();
                Ok(leaf)
            }
            Err(leaf) => leaf.try_clone(alloc),
        },
    }
}

fn shared_leaf(leaf: &Option<Arc<Leaf, Global>>) -> Result<Option<Arc<Leaf, Global>>, AllocError>
    ensures { IfOk result (λ p. shared_list p ≡ shared_list leaf.now) }
{
    match leaf {
        Some(leaf) => Ok(Some(Arc::try_clone(leaf)?)),
        None => Ok(None),
    }
}
