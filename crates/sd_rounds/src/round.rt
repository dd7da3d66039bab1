//! A pass over the pages of a memory, which makes the entries of an image.
ghost use Rattle.std.specs.Prelude.{◌≡◌, ◌≢◌, length, ◌||◌, ◌<◌, ◌≤◌, ◌^◌, true, false, None, Some, IsSome, IsErr};
ghost use Rattle.std.specs.Prelude.{IfOk, OnOk, OnErr, MatchOption, ◌++◌};
ghost use Rattle.sd_image.specs.declared.run.RunKind.TheVariants.{Parent};
ghost use Rattle.sd_pagetable.specs.Contents.{page_at, plain_of};
ghost use Rattle.sd_pagetable.specs.Order.{is_above};
ghost use Rattle.sd_pagetable.specs.Page.{PageState};
ghost use Rattle.sd_pagetable.specs.Sectors.{sector_bytes};
ghost use Rattle.sd_pagetable.specs.Tracking.{Cleared, Step};
ghost use Rattle.sd_rounds.specs.Left.{pass_left};
ghost use Rattle.sd_rounds.specs.Pass.{Taking, begun_to_take, copied_more, dropped, left_to_parent, opened};
ghost use Rattle.sd_writing.specs.Entries.{data_pages};
ghost use Rattle.sd_rounds.specs.Pass.{place_taken, visited, with_entry};
ghost use Rattle.sd_rounds.specs.Rises.{IsRising};
ghost use Rattle.sd_rounds.specs.Room.{LeavesNext};
ghost use Rattle.sd_rounds.specs.Rounds.{Copies, IsCopied, IsCopying, IsOver, PassStands, TakesPage, Tests};
ghost use Rattle.sd_rounds.specs.Rounds.{entry_parent, is_page_of_zeros};
ghost use Rattle.sd_rounds.specs.SpaceTables.{AreLow};
ghost use Rattle.sd_writing.specs.Tables.{AreTables, entries_in, listed};
ghost use Rattle.sd_rounds.specs.Waits.{is_over};

use crate::copied::Copied;
use crate::left::{PAGE_AHEAD, WRITE, pages_ahead};
use crate::page_copy::PageCopy;
use crate::standing::Standing;
use crate::visit::Visit;
use sd_areas::{PAGE_SIZE, PageNo, SpaceId};
use sd_image::{RunKind, SpaceTable};
use sd_pagetable::{Memory, SECTOR_SIZE, SECTORS, plain_law};
use sd_writing::push_entry;
use std::alloc::{AllocError, Global};
use std::marker::Model;
use std::mem;

/// The bit of a page's word that is set where the page is soft-dirty.
const SOFT_DIRTY: u64 = 1 << 55;

/// An image in the making: the entries so far, and the page that is being taken.
#[derive(Drop)]
pub struct Round {
    alloc: Global,
    takes_all: bool,
    tables: Vec<SpaceTable>,
    after: Option<(SpaceId, PageNo)>,
    taking: Option<(SpaceId, PageNo)>,
    copy: PageCopy,
}

impl Model for Round {
    ghost use Rattle.sd_rounds.specs.Pass.{Pass};
    ghost use Rattle.sd_rounds.specs.Rounds.{IsRound, pass_of};

    ghost Value = { Pass };

    ghost view = { λ r. pass_of r.takes_all r.tables.items r.after r.taking r.copy };

    ghost invariant = { λ r. IsRound r.takes_all r.tables.items r.after r.taking r.copy };
}

impl Round {
    /// A pass that begins: where it takes all, no page is left to the parent.
    pub fn new(alloc: Global, takes_all: bool) -> Self
        ensures { result ≡ opened takes_all }
    {
        Round {
            alloc,
            takes_all,
            tables: Vec::new(alloc),
            after: None,
            taking: None,
            copy: PageCopy::new(Vec::new(alloc)),
        }
    }

    /// How far the page is that is being taken.
    #[inline(always)]
    pub fn standing(&self) -> Standing
        ensures { PassStands self.now result }
    {
        match self.taking {
            None => Standing::Free,
            Some(_) if self.copy.len() == PAGE_SIZE => Standing::Copied,
            Some(_) => Standing::Copying,
        }
    }

    /// Its entries, as the runs of each space that has any.
    pub(crate) fn tables(&self) -> &[SpaceTable]
        ensures are { AreTables (entry_parent self.now.takes_all) 1 (listed result.now) }
        ensures low { AreLow (listed result.now) }
        ensures entries { entries_in result.now ≡ self.now.entries }
    {
        &self.tables
    }

    /// An image has room for the page that is being taken after its data pages. It does nothing: a caller learns it.
    pub fn has_room(&self)
        ensures { (taking : Taking) → self.now.taking ≡ Some taking
            → data_pages self.now.entries < 2 ^ 39 }
    {
        if let Some((_, page)) = self.taking {
            let _number = page.number();
        }
    }

    /// What holds of every pass: its entries rise, and a page that is being taken is the one at the cursor. It does
    /// nothing: a caller learns it.
    pub fn rising(&self)
        ensures { IsRising self.now }
    {
        let _takes_all = self.takes_all;
    }

    /// How many steps and outcomes the pass has before it, at most.
    pub(crate) fn left(&self, memory: &Memory) -> u64
        ensures left { result ≡ pass_left self.now (plain_of memory.now) }
        ensures few { result ≤ 2 ^ 44 }
    {
        let ahead = PAGE_AHEAD * pages_ahead(memory, self.after);
        match self.taking {
            Some(_) => ahead + (SECTORS - self.copy.len() / SECTOR_SIZE) as u64 + WRITE,
            None => ahead,
        }
    }

    /// Tests and clears the next mapped page, and begins to take it or leaves it to the parent. None where there is no
    /// further page.
    ///
    /// # Errors
    ///
    /// Out of memory where the entry of a page that is left to the parent finds no room: nothing changed.
    #[inline(always)]
    pub fn visit(&mut self, memory: &mut Memory) -> Result<Option<Visit>, AllocError>
        requires free { self.old.taking ≡ None }
        ensures visit { IfOk result (λ found. MatchOption found
            (IsOver self.old memory.old self.new memory.new)
            (λ visit. Tests self.old memory.old visit self.new memory.new)) }
        ensures wanted { IsErr result → LeavesNext self.old memory.old }
        ensures err { OnErr result (self.new ≡ self.old) }
        ensures err_memory { OnErr result (memory.new ≡ memory.old) }
    {
        let Some((space, page)) = memory.next_page(self.after) else {
            return Ok(None);
        };
        memory.sound();
        let soft_dirty = is_soft_dirty(memory, space, page);
        self.enter(space, page, soft_dirty)?;
        clear(memory, space, page, soft_dirty);
        Ok(Some(Visit {
            space,
            page,
            soft_dirty,
        }))
    }

    /// Copies the next sector of the page that is being taken, as memory has it now. With the eighth a page of zeros
    /// gets its entry; a page that is no longer mapped gets none.
    ///
    /// # Errors
    ///
    /// Out of memory where the sector or the page's entry finds no room: nothing changed.
    #[inline]
    pub fn copy_sector(&mut self, memory: &Memory) -> Result<Copied, AllocError>
        requires { IsCopying self.old }
        ensures copied { IfOk result (λ copied. Copies self.old memory.now copied self.new) }
        ensures wanted { IsErr result → (taking : Taking) → self.old.taking ≡ Some taking
            → IsSome (page_at memory.now taking.place.0 taking.place.1) }
        ensures err { OnErr result (self.new ≡ self.old) }
    {
        let Some((space, page)) = self.taking else {
            unreachable!()
        };
        let number = self.copy.len() / SECTOR_SIZE;
        let Some(sector) = memory.framed_sector(space, page, number) else {
            self.drop_page();
            return Ok(Copied::Gone);
        };
        if self.ends_in_zeros(sector) {
            self.enter_taken(space, page, RunKind::Zero)?;
            return Ok(Copied::Zero);
        }
        self.append(sector)?;
        Ok(Copied::More)
    }

    /// Takes the page that was copied as data, and gives its bytes out. Its place in the file is after the data pages
    /// before it.
    ///
    /// # Errors
    ///
    /// Out of memory where the page's entry finds no room: nothing changed.
    pub fn take_page(&mut self) -> Result<Vec<u8>, AllocError>
        requires { IsCopied self.old }
        ensures taken { IfOk result (λ buffer. TakesPage self.old buffer.items self.new) }
        ensures err { OnErr result (self.new ≡ self.old) }
    {
        let Some((space, page)) = self.taking else {
            unreachable!()
        };
        push_entry(self.alloc, &mut self.tables, space, page, RunKind::Data)?;
        self.taking = None;
        let next = PageCopy::new(Vec::new(self.alloc));
        Ok(mem::replace(&mut self.copy, next).into_buffer())
    }

    /// Gives the buffer of a page back that was written.
    pub fn give_back(&mut self, buffer: Vec<u8>)
        requires { self.old.taking ≡ None }
        ensures { self.new ≡ self.old }
    {
        self.copy = PageCopy::new(buffer);
    }

    /// The buffer that pages are copied to.
    pub(crate) fn into_buffer(self) -> Vec<u8> {
        let Round { copy, .. } = self;
        copy.into_room()
    }

    /// Whether no page is left to be visited, and none is being taken.
    pub(crate) fn is_over(&self, memory: &Memory) -> bool
        ensures { result ≡ is_over self.now (plain_of memory.now) }
    {
        plain_law();
        self.taking.is_none() && memory.next_page(self.after).is_none()
    }

    /// Whether the page that is being taken is whole with this sector, and all zeros.
    #[inline]
    fn ends_in_zeros(&self, sector: Option<&[u8]>) -> bool
        requires { length (sector_bytes sector) ≡ 512 }
        ensures { (taking : Taking) → self.now.taking ≡ Some taking
            → result ≡ is_page_of_zeros (taking.copied ++ sector_bytes sector.entry) }
    {
        self.copy.len() + SECTOR_SIZE == PAGE_SIZE && self.copy.stays_zeros(sector)
    }

    /// The page that was being taken is no longer mapped.
    #[inline]
    fn drop_page(&mut self)
        ensures { self.new ≡ dropped self.old }
    {
        self.taking = None;
    }

    /// Puts the page that is being taken after the entries.
    fn enter_taken(&mut self, space: SpaceId, page: PageNo, kind: RunKind) -> Result<(), AllocError>
        requires own { kind ≢ Parent }
        requires here { place_taken self.old ≡ Some (space, page) }
        ensures entered { OnOk result (self.new ≡ with_entry self.old (space, page) kind) }
        ensures err { OnErr result (self.new ≡ self.old) }
    {
        push_entry(self.alloc, &mut self.tables, space, page, kind)?;
        self.taking = None;
        Ok(())
    }

    /// Puts a sector after those that were copied.
    #[inline]
    fn append(&mut self, sector: Option<&[u8]>) -> Result<(), AllocError>
        requires copying { IsCopying self.old }
        requires length { length (sector_bytes sector) ≡ 512 }
        requires some { (taking : Taking) → self.old.taking ≡ Some taking
            → is_page_of_zeros (taking.copied ++ sector_bytes sector) ≡ false }
        ensures more { OnOk result ((taking : Taking) → self.old.taking ≡ Some taking
            → self.new ≡ copied_more self.old taking (sector_bytes sector.entry)) }
        ensures err { OnErr result (self.new ≡ self.old) }
    {
        self.copy.add(sector)?;
        Ok(())
    }

    /// Begins to take a page ahead of the cursor, or leaves it to the parent.
    #[inline]
    fn enter(&mut self, space: SpaceId, page: PageNo, soft_dirty: bool) -> Result<(), AllocError>
        requires free { self.old.taking ≡ None }
        requires above { is_above self.old.after space page ≡ true }
        requires least { 1 ≤ space }
        requires greatest { space ≤ 16 }
        ensures entered { OnOk result (self.new ≡ visited self.old (space, page) soft_dirty) }
        ensures wanted { IsErr result → (self.old.takes_all || soft_dirty) ≡ false }
        ensures err { OnErr result (self.new ≡ self.old) }
    {
        if self.takes_all || soft_dirty {
            self.begin_to_take(space, page);
            return Ok(());
        }
        self.leave(space, page)
    }

    /// Begins to take a page ahead of the cursor.
    #[inline]
    fn begin_to_take(&mut self, space: SpaceId, page: PageNo)
        requires free { self.old.taking ≡ None }
        requires above { is_above self.old.after space page ≡ true }
        requires least { 1 ≤ space }
        requires greatest { space ≤ 16 }
        ensures { self.new ≡ begun_to_take self.old (space, page) }
    {
        self.copy.clear();
        self.after = Some((space, page));
        self.taking = Some((space, page));
    }

    /// Leaves a page ahead of the cursor to the parent.
    #[inline]
    fn leave(&mut self, space: SpaceId, page: PageNo) -> Result<(), AllocError>
        requires parent { self.old.takes_all ≡ false }
        requires free { self.old.taking ≡ None }
        requires above { is_above self.old.after space page ≡ true }
        requires least { 1 ≤ space }
        requires greatest { space ≤ 16 }
        ensures left { OnOk result (self.new ≡ left_to_parent self.old (space, page)) }
        ensures err { OnErr result (self.new ≡ self.old) }
    {
        push_entry(self.alloc, &mut self.tables, space, page, RunKind::Parent)?;
        self.after = Some((space, page));
        Ok(())
    }
}

/// Whether a page is soft-dirty.
#[inline]
fn is_soft_dirty(memory: &Memory, space: SpaceId, page: PageNo) -> bool
    ensures { (found : PageState) → page_at memory.now space page ≡ Some found
        → result ≡ found.soft_dirty }
{
    memory.word(space, page) & SOFT_DIRTY != 0
}

/// Clears a mapped page, whose soft-dirty bit is this one. A clean page is write-protected already, and stays as it is.
#[inline]
fn clear(memory: &mut Memory, space: SpaceId, page: PageNo, soft_dirty: bool)
    requires there { IsSome (page_at memory.old space page) }
    requires bit { (found : PageState) → page_at memory.old space page ≡ Some found
        → soft_dirty ≡ found.soft_dirty }
    ensures cleared { Step memory.old (Cleared space page) memory.new }
    ensures plain { plain_of memory.new ≡ plain_of memory.old }
{
    memory.sound();
    if soft_dirty {
        let _was = memory.test_and_clear(space, page);
    }
}
