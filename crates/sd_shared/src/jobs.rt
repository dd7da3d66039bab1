ghost use Rattle.std.specs.Prelude.{◌≡◌};
ghost use Rattle.sd_shared.specs.Turns.{counted, job_number};

use sd_gate::Worker;

/// How many drivers the jobs of each worker had, modulo 2^64: a job has one when it is begun, and another one when it
/// is gone on with.
#[derive(Clone, Copy, PartialEq, Eq)]
pub(crate) struct Jobs {
    pub(crate) dumper: u64,
    pub(crate) merger: u64,
    pub(crate) opener: u64,
}

impl Jobs {
    /// No job was begun yet.
    pub(crate) fn none() -> Jobs {
        Jobs {
            dumper: 0,
            merger: 0,
            opener: 0,
        }
    }

    /// The number of the driver of a worker's job.
    pub(crate) fn of(&self, worker: Worker) -> u64
        ensures { result ≡ job_number self.now worker }
    {
        match worker {
            Worker::Dumper => self.dumper,
            Worker::Merger => self.merger,
            Worker::Opener => self.opener,
        }
    }

    /// One more drives.
    pub(crate) fn count(&mut self, worker: Worker)
        ensures { self.new ≡ counted worker self.old }
    {
        match worker {
            Worker::Dumper => self.dumper = self.dumper.wrapping_add(1),
            Worker::Merger => self.merger = self.merger.wrapping_add(1),
            Worker::Opener => self.opener = self.opener.wrapping_add(1),
        }
    }
}
