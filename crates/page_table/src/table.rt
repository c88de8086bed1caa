// A table of all pages, in branches.
ghost use Rattle.std.specs.Prelude.{[], ◌≡◌, ℕ, ◌==◌, ◌^◌, ◌<◌, length, if◌then◌else◌, IfOk, MatchOption, OnOk};
ghost use Rattle.page_table.specs.Table.{page_at, page_in, shared_list};

use crate::branch::Branch;
use crate::page::PageBytes;
use std::alloc::{AllocError, Global};
use std::marker::Model;
use std::mem;
use std::sync::Arc;

/// How many branches there are.
const BRANCHES: usize = 256;

/// The pages of a whole address space. Copies share their branches, leaves and pages, and one with a new page has one branch and
/// one leaf of its own. Contracts ask for a page by `page_at`, which gives the empty list where no page is in the table.
#[derive(Drop)]
pub struct PageTable {
    branches: Vec<Option<Arc<Branch, Global>>>,
}

impl Model for PageTable {
    ghost use Rattle.std.specs.Prelude.{◌≡◌, length, map};
    ghost use Rattle.page_table.specs.Table.{Table, shared_list};

    ghost Value = { Table };

    ghost view = { λ t. map shared_list t.branches.items };

    ghost invariant = { λ t. length t.branches.items ≡ 256 };
}

impl PageTable {
    /// No page is in it.
    pub fn new(alloc: Global) -> Result<PageTable, AllocError>
        ensures { IfOk result (λ t. (page : ℕ) → page_at t page ≡ []) }
    {
        let mut branches = Vec::with_capacity(alloc, BRANCHES)?;
        for _index in 0..BRANCHES {
            branches.push(None)?;
        }
        Ok(PageTable { branches })
    }

    /// A page, if it is in the table.
    #[inline(always)]
    pub fn page(&self, page: u32) -> Option<&PageBytes>
        requires { page < 2 ^ 20 }
        ensures { MatchOption result (page_at self.now page ≡ []) (λ p. page_at self.now page ≡ p.now) }
    {
        match &self.branches[(page / 4096) as usize] {
            Some(branch) => branch.page(page % 4096),
            None => None,
        }
    }

    /// A table of the same pages.
    pub fn try_clone(&self, alloc: Global) -> Result<PageTable, AllocError>
        ensures { IfOk result (λ t. t ≡ self.now) }
    {
        let mut branches = Vec::with_capacity(alloc, BRANCHES)?;
        for branch in &self.branches {
            branches.push(shared_branch(branch)?)?;
        }
        Ok(PageTable { branches })
    }

    /// Puts a page into the table, or takes one out. After an error some pages may be gone.
    pub fn set(
        &mut self,
        alloc: Global,
        page: u32,
        bytes: Option<Arc<PageBytes, Global>>,
    ) -> Result<(), AllocError>
        requires { page < 2 ^ 20 }
        ensures { OnOk result ((q : ℕ) → page_at self.new q ≡ (if q == page then shared_list bytes else page_at self.old q)) }
    {
        let place = (page / 4096) as usize;
        let old = mem::replace(&mut self.branches[place], None);
        let mut branch = private_branch(alloc, old)?;
        branch.set(alloc, page % 4096, bytes)?;
        self.branches[place] = Some(Arc::new(alloc, branch)?);
        Ok(())
    }
}

// A branch of the same pages that no other table has.
fn private_branch(alloc: Global, branch: Option<Arc<Branch, Global>>) -> Result<Branch, AllocError>
    ensures { IfOk result (λ b. (i : ℕ) → page_in b i ≡ page_in (shared_list branch) i) }
{
    match branch {
        None => Branch::new(alloc),
        Some(branch) => match Arc::try_unwrap(branch) {
            Ok(branch) => Ok(branch),
            Err(branch) => branch.try_clone(alloc),
        },
    }
}

fn shared_branch(
    branch: &Option<Arc<Branch, Global>>,
) -> Result<Option<Arc<Branch, Global>>, AllocError>
    ensures { IfOk result (λ p. shared_list p ≡ shared_list branch.now) }
{
    match branch {
        Some(branch) => Ok(Some(Arc::try_clone(branch)?)),
        None => Ok(None),
    }
}
