//! A run that is written down, and made again up to each of its device calls, where a crash comes.
use crate::account::{Account, Pair, Saved};
use crate::figures::{Figures, is_call};
use crate::lab::{Failing, Lab};
use crate::rule::Rule;
use crate::trouble::Trouble;
use sd_areas::Snapshot;
use sd_command::{Refusal, Reply};
use sd_disk::MemDisk;
use sd_restore::Fault;
use sd_world::{Event, restore_left};
use std::alloc::{AllocError, Global};

/// Where no checkpoint is pending, a crash comes after the device calls whose steps have a number that is divisible by
/// this. tests/quick raises it in its copy.
const EACH: usize = 1;

/// An event, and how it was answered.
#[derive(Drop)]
pub(crate) struct Step {
    pub(crate) event: Event,
    pub(crate) reply: Reply,
}

/// A run: the disk that it starts from, which is synced, which of its calls fails, and its steps.
#[derive(Drop)]
pub(crate) struct Record {
    alloc: Global,
    start: MemDisk,
    failing: Failing,
    steps: Vec<Step>,
}

/// What a restored store shows: a checkpoint, or none; no answer where the store is damaged.
fn shown(
    alloc: Global,
    restored: Result<Snapshot, Fault>,
) -> Result<Option<Option<Saved>>, Trouble> {
    match restored {
        Ok(snapshot) => Ok(Some(Some(Saved::of_snapshot(alloc, &snapshot)?))),
        Err(Fault::EmptyChain) => Ok(Some(None)),
        Err(Fault::OutOfMemory) => Err(Trouble::OutOfMemory),
        Err(Fault::Damaged { .. } | Fault::Device) => Ok(None),
    }
}

impl Record {
    /// A run without steps, over a disk that is synced.
    pub(crate) fn new(alloc: Global, start: MemDisk, failing: Failing) -> Self {
        Record {
            alloc,
            start,
            failing,
            steps: Vec::new(alloc),
        }
    }

    /// Opens a copy of the disk. A crash of a disk that is synced leaves what it has.
    pub(crate) fn open(&self) -> Result<Result<Lab, MemDisk>, AllocError> {
        let disk = self.start.crash(self.alloc, &mut Rule::Now)?;
        Ok(Lab::open(self.alloc, disk, self.failing))
    }

    /// What the replies of the run say before its first event. A world that opened the store says what a copy of
    /// the store restores to.
    pub(crate) fn account(&self) -> Result<Account, Trouble> {
        match self.shown_at_first()? {
            Some(saved) => Ok(Account::new(self.alloc, saved)?),
            None => Err(Trouble::Differs),
        }
    }

    fn shown_at_first(&self) -> Result<Option<Option<Saved>>, Trouble> {
        let mut disk = self.start.crash(self.alloc, &mut Rule::Now)?;
        shown(self.alloc, self.restored(&mut disk)?)
    }

    /// What a copy of the store restores to.
    fn restored(&self, disk: &mut MemDisk) -> Result<Result<Snapshot, Fault>, AllocError> {
        match self.open()? {
            Ok(lab) => Ok(lab.restored(disk)),
            Err(start) => {
                drop(start);
                Ok(restore_left(self.alloc, disk))
            }
        }
    }

    /// Writes a step down.
    pub(crate) fn push(&mut self, step: Step) -> Result<(), AllocError> {
        self.steps.push(step)?;
        Ok(())
    }

    /// How many steps were made.
    pub(crate) fn count(&self) -> usize {
        self.steps.len()
    }

    /// Makes so many steps again. Returns whether they are answered as they were.
    fn is_made_again(&self, lab: &mut Lab, count: usize) -> bool {
        for step in self.steps.iter().take(count) {
            if lab.step(&step.event) != step.reply {
                return false;
            }
        }
        true
    }

    /// The disk after so many steps, which are made again.
    pub(crate) fn disk_after(&self, count: usize) -> Result<MemDisk, Trouble> {
        match self.open()? {
            Ok(mut lab) => {
                let same = self.is_made_again(&mut lab, count);
                let disk = lab.close();
                if same {
                    Ok(disk)
                } else {
                    Err(Trouble::Differs)
                }
            }
            Err(disk) => Ok(disk),
        }
    }

    /// Which pair it is that a crashed disk shows.
    fn pair(&self, crashed: &mut MemDisk, account: &Account) -> Result<Pair, Trouble> {
        let restored = restore_left(self.alloc, crashed);
        match shown(self.alloc, restored)? {
            Some(saved) => Ok(account.pair(&saved)),
            None => Ok(Pair::Other),
        }
    }

    /// Crashes a disk under a rule.
    fn crash_under(&self, disk: &MemDisk, account: &Account, rule: Rule) -> Result<Pair, Trouble> {
        let mut crashed = disk.crash(self.alloc, &mut { rule })?;
        self.pair(&mut crashed, account)
    }

    /// Crashes a disk under each rule, and counts what is restored.
    fn crash(
        &self,
        disk: &MemDisk,
        account: &Account,
        rules: &[Rule],
        figures: &mut Figures,
    ) -> Result<(), Trouble> {
        for rule in rules {
            figures.crash(self.crash_under(disk, account, *rule)?);
        }
        Ok(())
    }

    /// Makes the run again up to so many steps, and crashes its disk there.
    fn crash_behind(
        &self,
        count: usize,
        account: &Account,
        rules: &[Rule],
        figures: &mut Figures,
    ) -> Result<(), Trouble> {
        let disk = self.disk_after(count)?;
        self.crash(&disk, account, rules, figures)
    }

    /// Makes the run again up to its opening, and up to each device call after it, and crashes its disk there.
    pub(crate) fn crash_everywhere(
        &self,
        rules: &[Rule],
        figures: &mut Figures,
    ) -> Result<(), Trouble> {
        let mut account = self.account()?;
        self.crash_behind(0, &account, rules, figures)?;
        self.crash_at_calls(&mut account, rules, figures)
    }

    /// Goes through the steps, and crashes the disk after each device call.
    fn crash_at_calls(
        &self,
        account: &mut Account,
        rules: &[Rule],
        figures: &mut Figures,
    ) -> Result<(), Trouble> {
        for (index, step) in self.steps.iter().enumerate() {
            figures.reply(account.take(&step.event, &step.reply)?);
            let is_tried = index % EACH == 0 || account.is_pending();
            if is_tried && is_call(&step.event, &step.reply) {
                self.crash_behind(index.saturating_add(1), account, rules, figures)?;
            }
        }
        Ok(())
    }

    /// Makes the run again up to the call that fails, and to its end, and crashes its disk there.
    pub(crate) fn crash_where_it_fails(
        &self,
        rules: &[Rule],
        figures: &mut Figures,
    ) -> Result<(), Trouble> {
        let mut account = self.account()?;
        self.crash_at_failures(&mut account, rules, figures)?;
        self.crash_behind(self.steps.len(), &account, rules, figures)
    }

    /// Goes through the steps, and crashes the disk after each call that fails.
    fn crash_at_failures(
        &self,
        account: &mut Account,
        rules: &[Rule],
        figures: &mut Figures,
    ) -> Result<(), Trouble> {
        for (index, step) in self.steps.iter().enumerate() {
            figures.reply(account.take(&step.event, &step.reply)?);
            if step.reply == Reply::Refused(Refusal::Device) {
                self.crash_behind(index.saturating_add(1), account, rules, figures)?;
            }
        }
        Ok(())
    }
}
