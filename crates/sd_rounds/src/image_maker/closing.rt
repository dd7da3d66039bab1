//! The end of an image in the making: its table and its header are written.
ghost use Rattle.std.specs.Prelude.{◌≡◌, None, IfOk, OnErr, map};
ghost use Rattle.sd_image.specs.Table.{listing_of};
ghost use Rattle.sd_rounds.specs.declared.stage.Stage.TheVariants.{Pass as PassStage};
ghost use Rattle.sd_image.specs.declared.header.Header.{Header};
ghost use Rattle.sd_pagetable.specs.Order.{IsNextPage};
ghost use Rattle.sd_gate.specs.declared.worker.Worker.TheVariants.{Dumper};
ghost use Rattle.sd_gate.specs.PlanUse.{IsAskedBy};
ghost use Rattle.sd_rounds.specs.Making.{HasTable, WritesTable};
ghost use Rattle.sd_rounds.specs.PlanSteps.{IsTableCallOf};
ghost use Rattle.sd_writing.specs.Entries.{data_pages};
ghost use Rattle.sd_rounds.specs.Writes.{no_writes};

use super::ImageMaker;
use crate::image_step::ImageStep;
use crate::stage::Stage;
use crate::tables::{dump_table, pre_dump_table};
use sd_gate::{Worker, ask};
use sd_image::{Kind, Table};
use sd_pagetable::{Memory, plain_law};
use sd_writing::{Ending, end_file, entries_law};
use std::alloc::AllocError;

impl ImageMaker {
    /// Makes the table, and asks for its write.
    #[inline(never)]
    pub(super) fn close(&mut self, memory: &Memory, ticket: u64) -> Result<ImageStep, AllocError>
        requires stage { self.old.stage ≡ PassStage }
        requires free { self.old.pass.taking ≡ None }
        requires over { IsNextPage memory.now.spaces self.old.pass.after None }
        requires rests { self.old.writes ≡ no_writes }
        ensures table { IfOk result (IsTableCallOf (λ request. WritesTable self.old memory.now request self.new
            × IsAskedBy Dumper ticket request)) }
        ensures err { OnErr result (self.new ≡ self.old) }
    {
        let table = self.table(memory)?;
        let slot = self.order.slot;
        let numbers = self.order.numbers();
        let Ending {
            mut plan,
            header,
            table,
        } = end_file(
            self.alloc,
            slot,
            numbers,
            self.stored,
            &self.digester,
            table,
        )?;
        let request = ask(&mut plan, Worker::Dumper, ticket);
        self.stage = Stage::Close {
            plan,
            header,
            table,
        };
        Ok(ImageStep::TableCall(request))
    }

    /// The table of the image: a dump has the areas of the memory.
    pub(super) fn table(&self, memory: &Memory) -> Result<Table, AllocError>
        ensures { IfOk result (λ table. (header : Header)
            → header.kind ≡ self.now.order.kind → header.parent ≡ self.now.order.parent
            → header.pages ≡ data_pages self.now.pass.entries
            → HasTable self.now.order.kind memory.now self.now.pass.entries header
            (map listing_of table.spaces.items)) }
    {
        plain_law();
        entries_law();
        match self.order.kind {
            Kind::PreDump => pre_dump_table(self.alloc, self.round.tables()),
            Kind::Dump | Kind::Merged => dump_table(self.alloc, self.round.tables(), memory),
        }
    }
}
