// The pages of 32 neighbouring numbers.
ghost use Rattle.std.specs.Prelude.{[], ◌≡◌, ℕ, ◌<◌, length, slice_index_or, slice_set, IfOk, MatchOption};
ghost use Rattle.page_table.specs.Table.{shared_list};

use crate::page::PageBytes;
use std::alloc::{AllocError, Global};
use std::marker::Model;
use std::sync::Arc;

/// How many pages a leaf has.
const LEAF: usize = 32;

/// 32 pages, shared with other leaves. A page that is not in it is the empty list.
#[derive(Drop)]
pub(crate) struct Leaf {
    pages: Vec<Option<Arc<PageBytes, Global>>>,
}

impl Model for Leaf {
    ghost use Rattle.std.specs.Prelude.{ℕ, ◌≡◌, List, length, map};

    ghost Value = { List (List ℕ) };

    ghost use Rattle.page_table.specs.Table.{shared_list};

    ghost view = { λ l. map shared_list l.pages.items };

    ghost invariant = { λ l. length l.pages.items ≡ 32 };
}

impl Leaf {
    /// No page is in it.
    pub(crate) fn new(alloc: Global) -> Result<Leaf, AllocError>
        ensures pages { IfOk result (λ l. (page : ℕ) → slice_index_or l page [] ≡ []) }
        ensures len { IfOk result (λ l. length l ≡ 32) }
    {
        let mut pages = Vec::with_capacity(alloc, LEAF)?;
        for _index in 0..LEAF {
            pages.push(None)?;
        }
        Ok(Leaf { pages })
    }

    /// It has 32 pages. Tells a proof so.
    pub(crate) fn tell_len(&self)
        ensures { length self.now ≡ 32 }
    {
        let _pages = &self.pages;
    }

    /// A page, if it is in it.
    #[inline(always)]
    pub(crate) fn page(&self, index: usize) -> Option<&PageBytes>
        requires { index < 32 }
        ensures { MatchOption result (slice_index_or self.now index [] ≡ []) (λ p. slice_index_or self.now index [] ≡ p.now) }
    {
        match &self.pages[index] {
            Some(page) => Some(page),
            None => None,
        }
    }

    /// A leaf of the same pages.
    pub(crate) fn try_clone(&self, alloc: Global) -> Result<Leaf, AllocError>
        ensures same { IfOk result (λ l. l ≡ self.now) }
        ensures len { IfOk result (λ l. length l ≡ 32) }
    {
        let mut pages = Vec::with_capacity(alloc, LEAF)?;
        for page in &self.pages {
            pages.push(shared(page)?)?;
        }
        Ok(Leaf { pages })
    }

    /// Puts a page into it, or takes one out.
    pub(crate) fn set(&mut self, index: usize, page: Option<Arc<PageBytes, Global>>)
        requires { index < 32 }
        ensures { self.new ≡ slice_set self.old index (shared_list page) }
    {
        self.pages[index] = page;
    }
}

fn shared(
    page: &Option<Arc<PageBytes, Global>>,
) -> Result<Option<Arc<PageBytes, Global>>, AllocError>
    ensures { IfOk result (λ p. shared_list p ≡ shared_list page.now) }
{
    match page {
        Some(page) => Ok(Some(Arc::try_clone(page)?)),
        None => Ok(None),
    }
}
