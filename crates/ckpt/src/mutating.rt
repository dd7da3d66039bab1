//! `ckpt mutate`: threads that store into a memory while checkpoints are made.

use sd_exit::{Output, Stop, exit};
use sd_mutate::{MutateFault, Tally, mutate};
use sd_program::{Called, log_info};
use sd_run::unopened;
use std::io::Write;
use std::sync::Wait;
use std::thread::Threads;
use std::time::Clock;

/// What is reported of a store with an image.
const NOT_EMPTY: &str = "it has an image; name a folder that is missing, or has none";

/// Why a run of threads stops the program.
fn stop_of(fault: MutateFault) -> Stop {
    match fault {
        MutateFault::Store(fault) => Stop::Fault(fault),
        MutateFault::NotEmpty => Stop::NotEmpty,
        MutateFault::Open(fault) => unopened(fault),
        MutateFault::Refused(why) => Stop::Order(why),
    }
}

/// Prints what was done by threads. A tally that isn't whole is a failure.
fn print_tally<W: Write>(tally: &Tally, out: &mut Output<W>) -> Result<(), Stop> {
    writeln!(out, "{tally}")?;
    if tally.is_whole() {
        Ok(())
    } else {
        Err(Stop::Refused)
    }
}

/// `ckpt mutate`, by so many threads: files that are missing are made.
pub fn mutate_program<R: Clock + Threads + Wait + Sync, W: Write>(
    called: Called<'_>,
    threads: &R,
    count: usize,
    out: &mut Output<W>,
) -> Result<u8, Stop> {
    let disk = called.make_store(threads)?;
    let log = called.logger();
    log_info(&log, &format_args!("{count} threads begin"));
    let (disk, ended) = mutate(threads, called.rt.alloc(), disk, count);
    log_info(&log, &"the threads have ended");
    if let Some(disk) = &disk {
        called.report_device(disk);
    }
    if matches!(ended, Err(MutateFault::NotEmpty)) {
        called.tell(&NOT_EMPTY);
    }
    let tally = ended.map_err(stop_of)?;
    Ok(exit(&print_tally(&tally, out), out))
}
