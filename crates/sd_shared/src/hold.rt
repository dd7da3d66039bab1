/// What sees each device call of a worker before it is made.
pub trait Hold {
    /// Called before each device call, counted from 1 within one call of `run_dumper`, `run_relay`, `run_merger`,
    /// `run_opener`, or of those that go on with a job, in the order in which the calls were taken up. No lock is held.
    fn before(&self, call: u64);
}
