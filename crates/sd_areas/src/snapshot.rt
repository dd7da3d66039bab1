ghost use Rattle.std.specs.Prelude.{◌≡◌, [], OnOk, OnErr, IsOk, IfOk, IsTrue};
ghost use Rattle.std.specs.FinMap as finmap;
ghost use Rattle.sd_areas.specs.Areas.{AreAreasOf};
ghost use Rattle.sd_areas.specs.Memory.{snapshot_prots};

use crate::area::Area;
use crate::limits::PAGE_SIZE;
use crate::page_no::PageNo;
use crate::prot::Prot;
use crate::runs::push_page;
use crate::snapshot_page::SnapshotPage;
use crate::space_id::SpaceId;
use std::alloc::{AllocError, Global};
use std::collections::BTreeMap;

/// The memory of one moment: the living spaces, and the mapped pages of each.
#[derive(Drop)]
pub struct Snapshot {
    /// The number of the checkpoint that it was saved by.
    pub checkpoint: u64,
    /// The pages of each living space.
    pub spaces: BTreeMap<SpaceId, BTreeMap<PageNo, SnapshotPage>>,
}

impl Snapshot {
    ghost use Rattle.sd_areas.specs.Memory.{memory_of, put_page};

    /// A memory without spaces.
    pub fn new(alloc: Global, checkpoint: u64) -> Self
        ensures memory { memory_of result ≡ finmap.empty }
        ensures checkpoint { result.checkpoint ≡ checkpoint }
    {
        Snapshot {
            checkpoint,
            spaces: BTreeMap::new(alloc),
        }
    }

    /// Adds a space without pages. Where one of that number is there, it loses its pages.
    ///
    /// # Errors
    ///
    /// Out of memory where the map can't grow: nothing changes.
    pub fn add_space(&mut self, alloc: Global, space: SpaceId) -> Result<(), AllocError>
        ensures ok { OnOk result (memory_of self.new
            ≡ finmap.insert (memory_of self.old) space finmap.empty) }
        ensures err { OnErr result (memory_of self.new ≡ memory_of self.old) }
        ensures checkpoint { self.new.checkpoint ≡ self.old.checkpoint }
    {
        self.spaces.insert(space, BTreeMap::new(alloc))?;
        Ok(())
    }

    /// Puts a page into a space that is there, in place of what it had at that number.
    ///
    /// # Errors
    ///
    /// Out of memory where the space's map can't grow: nothing changes.
    pub fn put_page(
        &mut self,
        space: SpaceId,
        page: PageNo,
        prot: Prot,
        bytes: Box<[u8; PAGE_SIZE]>,
    ) -> Result<(), AllocError>
        requires { IsTrue (finmap.contains_key (memory_of self.old) space) }
        ensures ok { OnOk result (memory_of self.new
            ≡ put_page (memory_of self.old) space page
            (record { prot = prot; bytes = bytes.value })) }
        ensures err { OnErr result (memory_of self.new ≡ memory_of self.old) }
        ensures checkpoint { self.new.checkpoint ≡ self.old.checkpoint }
    {
        if let Some(pages) = self.spaces.get_mut(&space) {
            pages.insert(page, SnapshotPage { prot, bytes })?;
        }
        Ok(())
    }
}

/// The maximal runs of a space's pages with equal permissions, in one pass over the pages.
///
/// # Errors
///
/// Out of memory where the list of areas can't grow, which is only where there is a page.
pub fn areas_in(
    alloc: Global,
    pages: &BTreeMap<PageNo, SnapshotPage>,
) -> Result<Vec<Area>, AllocError>
    ensures areas { IfOk result (λ areas. AreAreasOf (snapshot_prots pages.now.entries) areas.items) }
    ensures bare { pages.now.entries ≡ [] → IsOk result }
{
    let mut areas = Vec::new(alloc);
    for (page, found) in pages {
        push_page(&mut areas, *page, found.prot)?;
    }
    Ok(areas)
}
