//! One merged image in the making: its slot is formatted, the pages of its source are taken, and its gate is opened.
ghost use Rattle.std.specs.Prelude.{◌≡◌, ◌≢◌, ◌↔◌, ◌<◌, ◌≤◌, ◌^◌, ◌∷◌, [], None, Some, Err, IsSome};
ghost use Rattle.std.specs.Prelude.{IsNone, IsTrue, IfSome, IfOk, IfErr, OnOk, OnErr, MatchOption, length, true, false};
ghost use Rattle.sd_gate.specs.declared.call.Call.TheVariants.{Read};
ghost use Rattle.sd_gate.specs.declared.worker.Worker.TheVariants.{Merger};
ghost use Rattle.sd_gate.specs.Calls.{is_done};
ghost use Rattle.sd_gate.specs.Inspections.{nothing};
ghost use Rattle.sd_gate.specs.Plans.{Gives, begun};
ghost use Rattle.sd_gate.specs.Sequences.{data_place};
ghost use Rattle.sd_chain.specs.Passes.{IsAfterPlace, IsNextPageOfImage};
ghost use Rattle.sd_chain.specs.Ways.{AreImages};
ghost use Rattle.sd_merge.specs.declared.stage.Stage.TheVariants.{Pass as PassStage};
ghost use Rattle.sd_merge.specs.declared.work_error.WorkError.TheVariants.{Busy, Idle, Lost, OutOfMemory};
ghost use Rattle.sd_gate.specs.PlanUse.{IsAskedBy};
ghost use Rattle.sd_merge.specs.Copying.{IsLost, LacksSerial, HasReadOut, IsSoundCopying, ReadsPage, Steps};
ghost use Rattle.sd_merge.specs.Copying.{TakesZero, WritesPage, WritesTable, begun_copy, cursor, out_of};
ghost use Rattle.sd_merge.specs.Copying.{page_or_zeros};
ghost use Rattle.sd_merge.specs.Left.{copy_left};
ghost use Rattle.sd_merge.specs.PlanSteps.{IsPageCallOf, IsReadCallOf, IsTableCallOf, IsZeroStep};

use crate::copies::Copies;
use crate::copy_order::CopyOrder;
use crate::merge_step::MergeStep;
use crate::plans::next_call;
use crate::source::PAGE_LIMIT;
use crate::stage::Stage;
use crate::work_error::WorkError;
use sd_areas::{PAGE_SIZE, PageNo, SpaceId};
use sd_chain::{Catalog, Found};
use sd_gate::{Outcome, Plan, Request, Settled, Worker, ask, plan_left};
use sd_image::{Digester, RunKind, few_pages};
use sd_writing::{Ending, digest_page, end_file};
use std::alloc::{AllocError, Global};
use std::marker::Model;
use std::mem;

mod outcomes;

/// A merged image that is made of its source, page by page.
#[derive(Drop)]
pub struct Copier {
    alloc: Global,
    order: CopyOrder,
    copies: Copies,
    /// How many data pages were taken up.
    stored: usize,
    /// How many pages of the source are left.
    ahead: u64,
    /// The page that is read, or that was read and isn't taken yet.
    taking: Option<(SpaceId, PageNo)>,
    /// What was read.
    read: Option<Vec<u8>>,
    /// The buffer of the page before.
    spare: Vec<u8>,
    stage: Stage,
    /// Was fed the data pages that were taken.
    digester: Digester,
}

impl Model for Copier {
    ghost use Rattle.std.specs.Option.{option_map};
    ghost use Rattle.sd_merge.specs.Copying.{Copying, IsCountedCopy, page_or_zeros};

    ghost Value = { Copying };

    ghost view = { λ m. record {
      order = m.order;
      entries = m.copies;
      ahead = m.ahead;
      taking = m.taking;
      read = option_map (λ b. page_or_zeros b.items) m.read;
      stage = m.stage;
      digester = m.digester;
    } };

    ghost invariant = { λ m. IsCountedCopy m.order.slot m.copies m.stored m.ahead m.taking
        (option_map (λ b. page_or_zeros b.items) m.read) m.stage };
}

/// Whether a page is after this one, or after none.
fn is_after_entries(after: Option<(SpaceId, PageNo)>, space: SpaceId, page: PageNo) -> bool
    ensures { IsTrue result ↔ IsAfterPlace after (space, page) }
{
    let Some((last, number)) = after else {
        return true;
    };
    last.number() < space.number()
        || last.number() == space.number() && number.number() < page.number()
}

/// The number of the data page that begins at a byte of a file.
fn place_at(offset: u64) -> usize
    ensures { (place : _) → offset ≡ data_place place → result ≡ place }
{
    (offset.saturating_sub(PAGE_SIZE as u64) / PAGE_SIZE as u64) as usize
}

/// Asks for the read of a data page. None where its number is beyond those that an image can have.
fn read_request(slot: usize, place: usize, buffer: Vec<u8>, ticket: u64) -> Option<(Plan, Request)>
    requires whole { length buffer.items ≡ 4096 }
    ensures gives { IfSome result (λ read. Gives
        (begun slot ((Read (data_place place), buffer.items) ∷ []) nothing) read.0 read.1
        × HasReadOut read.0 × IsAskedBy Merger ticket read.1) }
    ensures none { IsNone result → 2 ^ 39 ≤ place }
{
    let mut plan = Plan::read_page(slot, place, buffer);
    match plan.take(Worker::Merger, ticket) {
        Ok(Some(request)) => Some((plan, request)),
        Ok(None) | Err(_) => None,
    }
}

impl Copier {
    /// An image that begins.
    pub(crate) fn new(alloc: Global, order: CopyOrder) -> Self
        ensures { result ≡ begun_copy order }
    {
        Copier {
            alloc,
            order,
            copies: Copies::new(alloc),
            stored: 0,
            ahead: order.source.pages.min(PAGE_LIMIT),
            taking: None,
            read: None,
            spare: Vec::new(alloc),
            stage: Stage::Format(Plan::format(order.slot, order.state)),
            digester: Digester::new(),
        }
    }

    /// Makes the next step.
    ///
    /// # Errors
    ///
    /// Busy where a request is out. Lost where the catalog doesn't have the next page. Out of memory where a page, its
    /// entry or the table finds no room, which is in the pass alone. Nothing changed.
    pub(crate) fn work(&mut self, catalog: &Catalog, ticket: u64) -> Result<MergeStep, WorkError>
        ensures steps { IfOk result (λ step. Steps ticket catalog.now self.old step self.new) }
        ensures busy { result ≡ Err Busy ↔ IsSome (out_of self.old.stage) }
        ensures wanted { result ≡ Err OutOfMemory → self.old.stage ≡ PassStage }
        ensures lost { result ≡ Err Lost → IsLost catalog.now self.old }
        ensures errors { IfErr result (λ e. e ≢ Idle) }
        ensures err { OnErr result (self.new ≡ self.old) }
    {
        match &mut self.stage {
            Stage::Pass => self.pass(catalog, ticket),
            Stage::Format(plan) => next_call(plan, ticket),
            Stage::PageRead(_) => Err(WorkError::Busy),
            Stage::PageWrite(plan) => next_call(plan, ticket),
            Stage::Close { plan, .. } => next_call(plan, ticket),
        }
    }

    /// Makes the next step of the pass.
    fn pass(&mut self, catalog: &Catalog, ticket: u64) -> Result<MergeStep, WorkError>
        requires { self.old.stage ≡ PassStage }
        ensures steps { IfOk result (λ step. Steps ticket catalog.now self.old step self.new) }
        ensures lost { result ≡ Err Lost → IsLost catalog.now self.old }
        ensures errors { IfErr result (λ e. (e ≢ Idle) × (e ≢ Busy)) }
        ensures err { OnErr result (self.new ≡ self.old) }
    {
        if let Some((space, page)) = self.taking {
            return self.write_page(space, page, ticket);
        }
        let serial = self.order.source.serial;
        let Some((space, page)) = catalog.next_page(serial, self.copies.last()) else {
            return self.close(catalog, ticket);
        };
        self.take(catalog, space, page, ticket)
    }

    /// Takes the page that the source lists next.
    fn take(
        &mut self,
        catalog: &Catalog,
        space: SpaceId,
        page: PageNo,
        ticket: u64,
    ) -> Result<MergeStep, WorkError>
        requires stage { self.old.stage ≡ PassStage }
        requires free { self.old.taking ≡ None }
        requires next { AreImages catalog.now → IsNextPageOfImage catalog.now self.old.order.source.serial
            (cursor self.old) (Some (space, page)) }
        ensures steps { IfOk result (λ step. Steps ticket catalog.now self.old step self.new) }
        ensures lost { result ≡ Err Lost → IsLost catalog.now self.old }
        ensures errors { IfErr result (λ e. (e ≢ Idle) × (e ≢ Busy)) }
        ensures err { OnErr result (self.new ≡ self.old) }
    {
        few_pages();
        catalog.sound();
        let serial = self.order.source.serial;
        let last = self.copies.last();
        if self.ahead == 0 || !is_after_entries(last, space, page) {
            return Err(WorkError::Lost);
        }
        match catalog.resolve(serial, space, page) {
            Some(Found::Zero) => self.take_zero(space, page),
            Some(Found::Data { slot, offset }) => {
                self.read_page(space, page, slot, place_at(offset), ticket)
            }
            None => Err(WorkError::Lost),
        }
    }

    /// Takes the next page, which has only zeros.
    fn take_zero(&mut self, space: SpaceId, page: PageNo) -> Result<MergeStep, WorkError>
        requires stage { self.old.stage ≡ PassStage }
        requires free { self.old.taking ≡ None }
        requires some { 0 < self.old.ahead }
        requires after { IsAfterPlace (cursor self.old) (space, page) }
        ensures zero { IfOk result (λ step. IsZeroStep step × TakesZero (space, page) self.old self.new) }
        ensures errors { IfErr result (λ e. e ≡ OutOfMemory) }
        ensures err { OnErr result (self.new ≡ self.old) }
    {
        self.copies.put(space, page, RunKind::Zero)?;
        self.ahead -= 1;
        Ok(MergeStep::Zero)
    }

    /// Asks for the read of the next page, which has data.
    fn read_page(
        &mut self,
        space: SpaceId,
        page: PageNo,
        slot: usize,
        place: usize,
        ticket: u64,
    ) -> Result<MergeStep, WorkError>
        requires stage { self.old.stage ≡ PassStage }
        requires free { self.old.taking ≡ None }
        requires some { 0 < self.old.ahead }
        requires after { IsAfterPlace (cursor self.old) (space, page) }
        ensures read { IfOk result (IsReadCallOf
            (λ request. ReadsPage (space, page) slot place self.old request self.new
            × IsAskedBy Merger ticket request)) }
        ensures beyond { result ≡ Err Lost → 2 ^ 39 ≤ place }
        ensures errors { IfErr result (λ e. (e ≢ Idle) × (e ≢ Busy)) }
        ensures err { OnErr result (self.new ≡ self.old) }
    {
        let mut buffer = mem::replace(&mut self.spare, Vec::new(self.alloc));
        buffer.clear();
        buffer.extend_from_slice(&[0; PAGE_SIZE])?;
        let Some((plan, request)) = read_request(slot, place, buffer, ticket) else {
            return Err(WorkError::Lost);
        };
        self.ahead -= 1;
        self.taking = Some((space, page));
        self.stage = Stage::PageRead(plan);
        Ok(MergeStep::ReadCall(request))
    }

    /// Takes the page that was read, and asks for its write.
    fn write_page(
        &mut self,
        space: SpaceId,
        page: PageNo,
        ticket: u64,
    ) -> Result<MergeStep, WorkError>
        requires stage { self.old.stage ≡ PassStage }
        requires taking { self.old.taking ≡ Some (space, page) }
        ensures page { IfOk result (IsPageCallOf (λ request. WritesPage self.old request self.new
            × IsAskedBy Merger ticket request)) }
        ensures errors { IfErr result (λ e. e ≡ OutOfMemory) }
        ensures err { OnErr result (self.new ≡ self.old) }
    {
        let Some(read) = &mut self.read else {
            unreachable!()
        };
        make_whole(read)?;
        self.copies.put(space, page, RunKind::Data)?;
        let Some(buffer) = self.read.take() else {
            unreachable!()
        };
        digest_page(&mut self.digester, &buffer);
        let mut plan = Plan::write_page(self.order.slot, self.stored, buffer);
        let request = ask(&mut plan, Worker::Merger, ticket);
        self.stored += 1;
        self.taking = None;
        self.stage = Stage::PageWrite(plan);
        Ok(MergeStep::PageCall(request))
    }

    /// Makes the table, and asks for its write.
    fn close(&mut self, catalog: &Catalog, ticket: u64) -> Result<MergeStep, WorkError>
        requires stage { self.old.stage ≡ PassStage }
        requires free { self.old.taking ≡ None }
        ensures table { IfOk result (IsTableCallOf (λ request. WritesTable catalog.now self.old request self.new
            × IsAskedBy Merger ticket request)) }
        ensures lost { result ≡ Err Lost → LacksSerial catalog.now self.old.order.source.serial }
        ensures errors { IfErr result (λ e. (e ≢ Idle) × (e ≢ Busy)) }
        ensures err { OnErr result (self.new ≡ self.old) }
    {
        let Some(source) = catalog.image(self.order.source.serial) else {
            return Err(WorkError::Lost);
        };
        let table = self.copies.table(source.table())?;
        let slot = self.order.slot;
        let numbers = self.order.numbers();
        let Ending {
            mut plan,
            header,
            table,
        } = end_file(
            self.alloc,
            slot,
            numbers,
            self.stored,
            &self.digester,
            table,
        )?;
        let request = ask(&mut plan, Worker::Merger, ticket);
        self.stage = Stage::Close {
            plan,
            header,
            table,
        };
        Ok(MergeStep::TableCall(request))
    }

    /// What holds of every merged image in the making. It does nothing: a caller learns it.
    pub(crate) fn sound(&self)
        ensures { IsSoundCopying self.now }
    {
        let _stored = self.stored;
    }

    /// How many steps and outcomes the image has before it, at most.
    pub(crate) fn left(&self) -> u128
        ensures left { result ≡ copy_left self.now }
        ensures few { result ≤ 2 ^ 65 }
    {
        let taking = u128::from(self.taking.is_some());
        let pages = 2 * taking + 4 * u128::from(self.ahead) + 10;
        match &self.stage {
            Stage::Format(plan) => plan_left(plan) + pages,
            Stage::Pass => pages,
            Stage::PageRead(plan) => plan_left(plan) + pages,
            Stage::PageWrite(plan) => plan_left(plan) + pages,
            Stage::Close { plan, .. } => plan_left(plan),
        }
    }
}

/// Makes a buffer that was read as long as a page. One that came back with another length is of no page: it becomes
/// zeros.
fn make_whole(buffer: &mut Vec<u8>) -> Result<(), AllocError>
    ensures whole { OnOk result (length buffer.new.items ≡ 4096) }
    ensures same { page_or_zeros buffer.new.items ≡ page_or_zeros buffer.old.items }
{
    if buffer.len() == PAGE_SIZE {
        return Ok(());
    }
    buffer.clear();
    buffer.extend_from_slice(&[0; PAGE_SIZE])?;
    Ok(())
}

/// The buffer that a read filled. None where the device failed.
fn read_of(mut plan: Plan, outcome: Outcome) -> Option<Vec<u8>>
    requires reading { HasReadOut plan }
    requires out { plan.out ≡ Some outcome.request.id }
    ensures { MatchOption result (is_done outcome.answer ≡ false)
        (λ buffer. (is_done outcome.answer ≡ true) × (buffer.items ≡ outcome.request.bytes)) }
{
    match plan.settle(outcome) {
        Settled::Finished => plan.into_found().first,
        Settled::More | Settled::Strange | Settled::Failed => None,
    }
}
