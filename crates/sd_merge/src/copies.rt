//! The pages of a source that were taken.
ghost use Rattle.std.specs.Prelude.{◌≡◌, ◌≢◌, ◌∷◌, ◌++◌, [], None, OnOk, OnErr, IfOk, map};
ghost use Rattle.sd_image.specs.declared.run.RunKind.TheVariants.{Parent};
ghost use Rattle.sd_image.specs.Table.{listing_of};
ghost use Rattle.sd_chain.specs.Passes.{IsAfterPlace};
ghost use Rattle.sd_writing.specs.Entries.{last_of};
ghost use Rattle.sd_merge.specs.Gathered.{IsTableOf};

use crate::gathered::gathered_table;
use sd_areas::{PageNo, SpaceId};
use sd_image::{RunKind, SpaceTable, Table};
use sd_writing::{entries_law, push_entry};
use std::alloc::{AllocError, Global};
use std::marker::Model;

/// The pages of a source that were taken so far, each as data or as zeros.
#[derive(Drop)]
pub struct Copies {
    alloc: Global,
    spaces: Vec<SpaceTable>,
    last: Option<(SpaceId, PageNo)>,
}

impl Model for Copies {
    ghost use Rattle.std.specs.Prelude.{List};
    ghost use Rattle.sd_writing.specs.Entries.{ImageEntry};
    ghost use Rattle.sd_writing.specs.Tables.{entries_in};
    ghost use Rattle.sd_merge.specs.Gathered.{AreCopies};

    ghost Value = { List ImageEntry };

    ghost view = { λ c. entries_in c.spaces.items };

    ghost invariant = { λ c. AreCopies c.spaces.items c.last };
}

impl Copies {
    /// No page.
    pub(crate) fn new(alloc: Global) -> Self
        ensures { result ≡ [] }
    {
        Copies {
            alloc,
            spaces: Vec::new(alloc),
            last: None,
        }
    }

    /// The page that was taken last.
    pub(crate) fn last(&self) -> Option<(SpaceId, PageNo)>
        ensures { result ≡ last_of None self.now }
    {
        self.last
    }

    /// Puts a page after the others.
    ///
    /// # Errors
    ///
    /// Out of memory where it finds no room: nothing changed.
    pub(crate) fn put(
        &mut self,
        space: SpaceId,
        page: PageNo,
        kind: RunKind,
    ) -> Result<(), AllocError>
        requires own { kind ≢ Parent }
        requires after { IsAfterPlace (last_of None self.old) (space, page) }
        ensures put { OnOk result (self.new
            ≡ self.old ++ (record { place = (space, page); kind = kind }) ∷ []) }
        ensures err { OnErr result (self.new ≡ self.old) }
    {
        push_entry(self.alloc, &mut self.spaces, space, page, kind)?;
        self.last = Some((space, page));
        Ok(())
    }

    /// The table that has the spaces and the areas of the source, and these pages.
    ///
    /// # Errors
    ///
    /// Out of memory where it finds no room.
    pub(crate) fn table(&self, source: &Table) -> Result<Table, AllocError>
        ensures { IfOk result (λ table. IsTableOf (map listing_of source.now.spaces.items) self.now
            (map listing_of table.spaces.items)) }
    {
        entries_law();
        gathered_table(self.alloc, source, &self.spaces)
    }
}
