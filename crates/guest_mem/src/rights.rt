// What may be done in each page.
ghost use Rattle.std.specs.Prelude.{[], ◌≡◌, ℕ, ◌*◌, ◌/◌, ◌^◌, ◌<◌, ◌≤◌, ◌&&◌, true, false, length};
ghost use Rattle.std.specs.Prelude.{if◌then◌else◌, nat_le, nat_lt, slice_index_or, vec_capacity, IfOk};
ghost use Rattle.std.specs.Arc.{arc_value};
ghost use Rattle.guest_model.specs.Areas.{permits};
ghost use Rattle.guest_model.specs.declared.Access.{Access as Accesses};
ghost use Rattle.guest_mem.specs.Sound.{allows as allows_access, no_rights};
ghost use Rattle.guest_mem.specs.Table.{entries};

use guest_model::{Access, Area};
use std::alloc::{AllocError, Global};
use std::marker::Model;
use std::sync::Arc;

/// The pages of 4,096 bytes in an address space of 32 bits.
const PAGES: usize = 1_048_576;

/// What may be done in a page.
#[derive(Clone, Copy)]
pub(crate) struct Rights {
    pub(crate) read: bool,
    pub(crate) write: bool,
    pub(crate) execute: bool,
}

/// What may be done in a page of no area.
pub(crate) const NO_RIGHTS: Rights = Rights {
    read: false,
    write: false,
    execute: false,
};

impl Rights {
    /// The rights that an area gives to its pages.
    pub(crate) fn of(area: &Area) -> Rights
        ensures { (access : Accesses) → allows_access access result ≡ permits access area.now }
    {
        Rights {
            read: area.read,
            write: area.write,
            execute: area.execute,
        }
    }

    pub(crate) fn allows(&self, access: Access) -> bool
        ensures { result ≡ allows_access access self.now }
    {
        match access {
            Access::Read => self.read,
            Access::Write => self.write,
            Access::Execute => self.execute,
        }
    }
}

/// What may be done in each page. Forks share a table, until one of them changes what may be done: it
/// has entries of its own from then on. The memory for them is reserved from the start, and touched
/// only then. Contracts see the list of the entries; the pages behind it have no rights.
#[derive(Drop)]
pub(crate) struct RightsTable {
    alloc: Global,
    shared: Arc<Vec<Rights>, Global>,
    /// The table's own entries. None: those that are shared count.
    own: Vec<Rights>,
}

impl Model for RightsTable {
    ghost use Rattle.std.specs.Prelude.{List};
    ghost use Rattle.guest_mem.specs.declared.rights.Rights.{Rights};

    ghost Value = { List Rights };

    ghost use Rattle.guest_mem.specs.Table.{entries_of, IsTable};

    ghost view = { entries_of };

    ghost invariant = { IsTable };
}

impl RightsTable {
    /// A table in which no page has a right.
    pub(crate) fn empty(alloc: Global) -> Result<RightsTable, AllocError>
        ensures { IfOk result (λ t. t ≡ []) }
    {
        let shared = Arc::new(alloc, Vec::new(alloc))?;
        RightsTable::over(alloc, &shared)
    }

    /// A table with the entries of another, which are shared.
    pub(crate) fn over(
        alloc: Global,
        shared: &Arc<Vec<Rights>, Global>,
    ) -> Result<RightsTable, AllocError>
        requires { length (arc_value shared.now).items ≤ 2 ^ 20 }
        ensures { IfOk result (λ t. t ≡ (arc_value shared.now).items) }
    {
        let shared = Arc::try_clone(shared)?;
        let own = Vec::with_capacity(alloc, PAGES)?;
        Ok(RightsTable { alloc, shared, own })
    }

    /// The entries, to be shared. Nothing changes for the table.
    pub(crate) fn share(&mut self) -> Result<Arc<Vec<Rights>, Global>, AllocError>
        ensures shared { IfOk result (λ a. (arc_value a).items ≡ self.old) }
        ensures few { length self.old ≤ 2 ^ 20 }
        ensures same { self.new ≡ self.old }
    {
        if !self.own.is_empty() {
            let mut copy = Vec::with_capacity(self.alloc, self.own.len())?;
            copy.extend_from_slice(&self.own)?;
            self.shared = Arc::new(self.alloc, copy)?;
            self.own.clear();
        }
        Arc::try_clone(&self.shared)
    }

    /// Whether a page may be accessed so.
    #[inline(always)]
    pub(crate) fn allows(&self, page: u32, access: Access) -> bool
        ensures { result ≡ allows_access access (slice_index_or self.now page no_rights) }
    {
        match self.own.get(page as usize) {
            Some(rights) => rights.allows(access),
            None => self.allows_behind(page, access),
        }
    }

    /// The same, where the table has no entry of its own for the page.
    fn allows_behind(&self, page: u32, access: Access) -> bool
        ensures { result ≡ allows_access access (slice_index_or self.now page no_rights) }
    {
        match self.entries().get(page as usize) {
            Some(rights) => rights.allows(access),
            None => false,
        }
    }

    /// The entries that count.
    fn entries(&self) -> &[Rights]
        ensures { result.now ≡ self.now }
    {
        if self.own.is_empty() {
            return self.shared.as_slice();
        }
        self.own.as_slice()
    }

    /// Gives these rights to the pages from `from` to below `to`.
    pub(crate) fn fill(&mut self, from: u32, to: u32, rights: Rights)
        requires order { from ≤ to }
        requires within { to ≤ 2 ^ 20 }
        ensures { (page : ℕ) → slice_index_or self.new page no_rights
            ≡ (if nat_le from page && nat_lt page to then rights
            else slice_index_or self.old page no_rights) }
    {
        if from == to {
            return;
        }
        own_entries(&self.shared, &mut self.own);
        lengthen(&mut self.own, to as usize);
        fill(&mut self.own, from, to, rights);
    }
}

/// Has entries of its own, if there are any that are shared.
fn own_entries(shared: &Vec<Rights>, own: &mut Vec<Rights>)
    requires room { 2 ^ 20 ≤ vec_capacity own.old }
    requires shared_few { length shared.now.items ≤ 2 ^ 20 }
    requires own_few { length own.old.items ≤ 2 ^ 20 }
    ensures entries { own.new.items ≡ entries shared.now.items own.old.items }
    ensures few { length own.new.items ≤ 2 ^ 20 }
    ensures room { 2 ^ 20 ≤ vec_capacity own.new }
{
    if own.is_empty() {
        let _copied = own.extend_from_slice(shared);
    }
}

/// Has an entry for each of the first `len` pages.
fn lengthen(table: &mut Vec<Rights>, len: usize)
    requires few { len ≤ 2 ^ 20 }
    requires room { 2 ^ 20 ≤ vec_capacity table.old }
    requires old_few { length table.old.items ≤ 2 ^ 20 }
    ensures len { len ≤ length table.new.items }
    ensures few { length table.new.items ≤ 2 ^ 20 }
    ensures room { 2 ^ 20 ≤ vec_capacity table.new }
    ensures same { (page : ℕ) → slice_index_or table.new.items page no_rights
        ≡ slice_index_or table.old.items page no_rights }
{
    if table.len() < len {
        let _longer = table.resize(len, NO_RIGHTS);
    }
}

/// Gives these rights to the pages from `from` to below `to`.
fn fill(table: &mut Vec<Rights>, from: u32, to: u32, rights: Rights)
    requires order { from ≤ to }
    requires within { to ≤ length table.old.items }
    ensures len { length table.new.items ≡ length table.old.items }
    ensures capacity { vec_capacity table.new ≡ vec_capacity table.old }
    ensures rights { (page : ℕ) → slice_index_or table.new.items page no_rights
        ≡ (if nat_le from page && nat_lt page to then rights
        else slice_index_or table.old.items page no_rights) }
{
    for page in from..to {
        table[page as usize] = rights;
    }
}
