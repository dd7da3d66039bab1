//! `ckpt`: saves modelled memories into image files, and restores them.
#![tactic(auto)]

use asked::{
    called_by, counts_asked, difference_asked, export_asked, history_asked, import_asked,
    query_asked, run_asked, send_asked,
};
use called::{NOTHING, hold_descriptors, print_words_fault, words_of};
use clap::ArgMatches;
use command_line::{Work, asked_of};
use mutating::mutate_program;
use sd_arrivals::{receive_program, tip_program};
use sd_cores::export_program;
use sd_disk::Found;
use sd_exit::{Output, Stop, Taken, exit};
use sd_jobs::{check_program, import_program, merge_program, run_program};
use sd_program::{Called, Causes, tell};
use sd_queries::{drop_program, reader_program, report_damage, report_empty, show_program};
use sd_readers::Reader;
use sd_restore::Fault;
use sd_send::send_program;
use sd_shell::shell_program;
use std::io;
use std::io::{BufWriter, Write};
use std::process::ExitCode;
use std::sync::Wait;
use std::thread::Threads;
use std::time::Clock;

mod arguments;
mod asked;
mod called;
mod command_line;
mod help;
mod mutating;

/// The exit status of a program that was refused or stopped.
const FAILED: u8 = 1;

/// `ckpt receive`, also with `--tip`.
fn receive_or_tip<R: Clock + Threads + Wait, W: Write>(
    called: Called<'_>,
    threads: &R,
    words: &ArgMatches<'_>,
    out: &mut Output<W>,
) -> Result<u8, Stop> {
    let as_json = words.get_flag("json");
    if words.get_flag("tip") {
        return tip_program(called, as_json, out);
    }
    receive_program(called, threads, as_json, out)
}

/// Runs a program that only reads, or that changes no more than one image.
fn read_by<R: Clock + Wait, W: Write>(
    called: Called<'_>,
    clock: &R,
    work: Work,
    words: &ArgMatches<'_>,
    out: &mut Output<W>,
) -> Result<u8, Stop> {
    let slot = words.get_one::<usize>("SLOT");
    match work {
        Work::Read(reader) => reader_program(called, clock, query_asked(reader, words), out),
        Work::History => reader_program(called, clock, history_asked(words), out),
        Work::Diff => reader_program(called, clock, difference_asked(words), out),
        Work::Show => show_program(called, clock, slot, words.get_flag("json"), out),
        Work::Drop => drop_program(
            called,
            clock,
            slot.unwrap_or(0),
            words.get_flag("force"),
            out,
        ),
        Work::Send => send_program(called, clock, send_asked(words), out),
        _ => export_program(called, clock, export_asked(words), out),
    }
}

/// `ckpt run`, also with `--check`.
fn run_or_check<R: Clock + Wait, W: Write>(
    called: Called<'_>,
    clock: &R,
    words: &ArgMatches<'_>,
    out: &mut Output<W>,
) -> Result<u8, Stop> {
    match words.get_str("check") {
        Some(name) => check_program(called, name, out),
        None => run_program(called, clock, run_asked(words), out),
    }
}

/// Runs the program that the words ask for, and returns the exit status.
fn run_matches<R: Clock + Threads + Wait + Sync, W: Write>(
    called: Called<'_>,
    threads: &R,
    work: Work,
    words: &ArgMatches<'_>,
    out: &mut Output<W>,
) -> Result<u8, Stop> {
    match work {
        Work::Run => run_or_check(called, threads, words, out),
        Work::Shell => shell_program(called, threads, out),
        Work::Receive => receive_or_tip(called, threads, words, out),
        Work::Merge => merge_program(called, threads, counts_asked(words), out),
        Work::Import => {
            let names = words.get_strs("CORE").unwrap_or(&[]);
            import_program(called, threads, names, import_asked(words), out)
        }
        Work::Mutate => {
            let count = words.get_one::<usize>("THREADS").unwrap_or(1);
            mutate_program(called, threads, count, out)
        }
        _ => read_by(called, threads, work, words, out),
    }
}

/// Whether a program has `--json`. Its document says of a fault what a cause would.
fn has_document(work: Work) -> bool {
    matches!(
        work,
        Work::Read(_) | Work::History | Work::Diff | Work::Show
    )
}

/// Reports what stands after the end of a program: after its exit status, and the fault that its last line has.
fn report_end(
    called: Called<'_>,
    work: Work,
    words: &ArgMatches<'_>,
    status: u8,
    told: Option<Fault>,
) {
    let is_document = has_document(work) && words.get_flag("json");
    if !is_document {
        report_damage(called, told);
    }
    let is_empty = told == Some(Fault::EmptyChain) && work != Work::Run;
    let lists = matches!(
        work,
        Work::Read(Reader::List | Reader::Verify) | Work::History
    );
    if is_empty || lists && status == 0 {
        report_empty(called, is_empty && !is_document);
    }
}

/// Runs the program that the words ask for, and returns its exit status and whether causes are reported. The outer
/// error is a fault of the words.
fn run_words<R: Clock + Threads + Wait + Sync, W: Write>(
    rt: &HostRuntime,
    threads: &R,
    words: &[String],
    found: &Found,
    out: &mut Output<W>,
) -> Result<(Causes, u8), clap::Error> {
    let run_help = command_line::run_help(rt.alloc())?;
    let command = command_line::command(rt.alloc(), &run_help)?;
    let matches = command.try_get_matches_from(words)?;
    Ok(run_matched(rt, threads, &matches, found, out))
}

/// Runs the program that the words name, and returns its exit status and whether causes are reported.
fn run_matched<'a, R: Clock + Threads + Wait + Sync, W: Write>(
    rt: &'a HostRuntime,
    threads: &R,
    matches: &ArgMatches<'a>,
    found: &'a Found,
    out: &mut Output<W>,
) -> (Causes, u8) {
    let Some((work, words)) = asked_of(matches) else {
        return (Causes::Told, exit(&Ok(()), out));
    };
    let called = called_by(rt, words, found);
    let status = match run_matches(called, threads, work, words, out) {
        Ok(status) => status,
        Err(stop) => exit(&Err(stop), out),
    };
    report_end(called, work, words, status, out.fault());
    (called.causes, status)
}

/// Where a fault of the standard output is met, as its cause says.
const PRINTED: &str = "standard output";

/// Reports why something wasn't printed. Who closed the other end of a pipe, as `head` does, needs no report.
fn report_refusal(rt: &impl Eprint, causes: Causes, error: Option<&io::Error>) {
    if let Some(error) = error
        && error.kind() != io::ErrorKind::BrokenPipe
    {
        tell(rt, causes, PRINTED, error);
    }
}

/// Runs the program that the words ask for, or prints what is wrong with them, or the help; and returns the status.
fn run_command<R: Clock + Threads + Wait + Sync>(
    rt: &HostRuntime,
    threads: &R,
    words: &[String],
    found: &Found,
) -> io::Result<u8> {
    let writer = BufWriter::new(rt.alloc(), Taken::new(io::writer(rt)))?;
    let mut out = Output::new(writer);
    match run_words(rt, threads, words, found, &mut out) {
        Ok((causes, status)) => {
            report_refusal(rt, causes, out.error());
            Ok(status)
        }
        Err(error) => print_words_fault(rt, &error),
    }
}

/// The exit status.
fn status_of<R: Clock + Threads + Wait + Sync>(rt: &HostRuntime, threads: &R, found: &Found) -> u8 {
    let held = hold_descriptors(rt);
    if let Err(error) = &held {
        tell(rt, Causes::Told, NOTHING, error);
        return FAILED;
    }
    let words = match words_of(rt) {
        Ok(words) => words,
        Err(status) => return status,
    };
    match run_command(rt, threads, &words, found) {
        Ok(status) => status,
        Err(error) => {
            report_refusal(rt, Causes::Told, Some(&error));
            FAILED
        }
    }
}

fn main(rt: HostRuntime) -> ExitCode {
    // What is promised of `status_of` is so of whatever the files hold. A value is named here, which no code can see.
    let found = Found::any();
    ExitCode::from(status_of(&rt, &rt, &found))
}
