//! The words that the program is called with: each program's arguments as tables, and the command line that they make.

use crate::arguments::{
    AT_LEAST, CHECK, CHECKPOINT, CORES, DIR, DIR_TO_RUN, FOLLOW, FORCE, FORCE_DROP, Form, Item,
    JSON, JSON_REPORT, NEW, NOTES, Numbers, OLD, ONE_SPACE, OUT, QUIET, RESTORES, ROUNDS, SCRIPT,
    SINCE, SLOT, SLOT_TO_DROP, SPACE, STATS, STRICT, SUMMARY, THREADS, TIP, VERBOSE,
};
use crate::help::{
    DIFF, DROP, EXPORT, HISTORY, IMPORT, LIMITS, LIST, MERGE, MUTATE, RECEIVE, RESTORE, RUN_HEAD,
    RUN_TAIL, SEND, SHELL, SHOW, VERIFY,
};
use clap::builder::ValueParser;
use clap::{Arg, ArgAction, ArgMatches, Command};
use sd_readers::Reader;
use sd_script::{LINE_FORMS, LineForm};
use std::alloc::{AllocError, Global};
use std::fmt::Write;

/// What `--version` prints: the version of the program, the images that it writes and reads, and the kit it is proved
/// with.
const VERSION: &str = "1.14.0, writes images of version 2 and reads 1 and 2, rattle-kit-13f";

/// What one of the programs does.
#[derive(Clone, Copy, PartialEq, Eq)]
pub enum Work {
    Run,
    Shell,
    Merge,
    Mutate,
    Read(Reader),
    History,
    Diff,
    Drop,
    Show,
    Export,
    Import,
    Send,
    Receive,
}

/// One of the programs.
#[derive(Clone, Copy)]
struct Program {
    name: &'static str,
    work: Work,
    about: &'static str,
    items: &'static [Item],
    /// What stands at the end of its help. That of `run` is made of the language.
    after: Option<&'static str>,
}

/// The programs, in the order of the help.
const PROGRAMS: [Program; 15] = [
    Program {
        name: "run",
        work: Work::Run,
        about: "Runs a script over the store in a folder, which is made where it is missing",
        items: &[DIR_TO_RUN, SCRIPT, CHECK, RESTORES, STRICT, STATS, SUMMARY],
        after: None,
    },
    Program {
        name: "shell",
        work: Work::Shell,
        about: "Answers requests from the standard input over the store in a folder, one by one",
        items: &[DIR],
        after: Some(SHELL),
    },
    Program {
        name: "merge",
        work: Work::Merge,
        about: "Merges the chain of the newest checkpoint in a folder's store into one image",
        items: &[DIR, STATS, SUMMARY],
        after: Some(MERGE),
    },
    Program {
        name: "mutate",
        work: Work::Mutate,
        about: "Stores by threads into an empty store while checkpoints are made",
        items: &[DIR, THREADS],
        after: Some(MUTATE),
    },
    Program {
        name: "restore",
        work: Work::Read(Reader::Restore),
        about: "Prints the memory that the store in a folder shows, or had at an older checkpoint",
        items: &[DIR, CHECKPOINT, JSON],
        after: Some(RESTORE),
    },
    Program {
        name: "list",
        work: Work::Read(Reader::List),
        about: "Prints the open images of the store in a folder, and which of them is the newest",
        items: &[DIR, JSON],
        after: Some(LIST),
    },
    Program {
        name: "verify",
        work: Work::Read(Reader::Verify),
        about: "Checks that the store in a folder can be restored",
        items: &[DIR, CHECKPOINT, AT_LEAST, JSON],
        after: Some(VERIFY),
    },
    Program {
        name: "history",
        work: Work::History,
        about: "Prints the checkpoints to which the store in a folder goes back",
        items: &[DIR, JSON],
        after: Some(HISTORY),
    },
    Program {
        name: "diff",
        work: Work::Diff,
        about: "Prints what differs between two checkpoints of the store in a folder",
        items: &[DIR, OLD, NEW, JSON],
        after: Some(DIFF),
    },
    Program {
        name: "drop",
        work: Work::Drop,
        about: "Closes an image of the store in a folder that the newest checkpoint doesn't need",
        items: &[DIR, SLOT_TO_DROP, FORCE_DROP],
        after: Some(DROP),
    },
    Program {
        name: "show",
        work: Work::Show,
        about: "Prints what stands in the image files of a folder's store",
        items: &[DIR, SLOT, JSON],
        after: Some(SHOW),
    },
    Program {
        name: "export",
        work: Work::Export,
        about: "Writes the memory that the store in a folder shows as ELF core files",
        items: &[DIR, OUT, CHECKPOINT, ONE_SPACE, NOTES, FORCE],
        after: Some(EXPORT),
    },
    Program {
        name: "import",
        work: Work::Import,
        about: "Makes the memory of ELF core files that of a space, one after the other, and a checkpoint of each",
        items: &[DIR, CORES, SPACE, ROUNDS, STATS, SUMMARY],
        after: Some(IMPORT),
    },
    Program {
        name: "send",
        work: Work::Send,
        about: "Writes the images of the newest checkpoint of a folder's store as a stream",
        items: &[DIR, SINCE, FOLLOW, JSON_REPORT],
        after: Some(SEND),
    },
    Program {
        name: "receive",
        work: Work::Receive,
        about: "Takes the images of a stream from the standard input into the store in a folder",
        items: &[DIR, TIP, JSON_REPORT],
        after: Some(RECEIVE),
    },
];

/// The options of each program, which stand before its name or after it.
const OPTIONS: [Item; 2] = [QUIET, VERBOSE];

/// An argument as its form has it, without its numbers and conflicts.
fn formed<'a>(alloc: Global, item: &Item) -> Result<Arg<'a>, AllocError> {
    let arg = Arg::new(alloc, item.name).help(item.help);
    match item.form {
        Form::Word => Ok(arg.required(true)),
        Form::Words => Ok(arg.required(true).num_args(1..).action(ArgAction::Append)),
        Form::Optional => Ok(arg),
        Form::Unless(other) => arg.required_unless_present(other),
        Form::Flag => Ok(arg.long(item.name).action(ArgAction::SetTrue)),
        Form::Letter(letter) => Ok(
            arg.long(item.name)
                .short(letter)
                .action(ArgAction::SetTrue)
                .global(true),
        ),
        Form::Counted(letter) => Ok(
            arg.long(item.name)
                .short(letter)
                .action(ArgAction::Count)
                .global(true),
        ),
        Form::Value(value) => Ok(arg.long(item.name).value_name(value)),
    }
}

/// An argument.
fn arg_of<'a>(alloc: Global, item: &Item) -> Result<Arg<'a>, AllocError> {
    let arg = formed(alloc, item)?;
    let arg = match item.numbers {
        Some(Numbers { least, most }) => arg.value_parser(ValueParser::unsigned(least, most)),
        None => arg,
    };
    arg.conflicts_with_all(item.conflicts)
}

/// The arguments of a program.
fn args_of<'a>(alloc: Global, items: &[Item]) -> Result<Vec<Arg<'a>>, AllocError> {
    let mut args = Vec::with_capacity(alloc, items.len())?;
    for item in items {
        args.push(arg_of(alloc, item)?)?;
    }
    Ok(args)
}

/// A program, with this text at the end of its help.
fn program_of<'a>(
    alloc: Global,
    program: &Program,
    after: &'a str,
) -> Result<Command<'a>, AllocError> {
    Command::new(alloc, program.name)
        .about(program.about)
        .after_help(after)
        .args(args_of(alloc, program.items)?)
}

/// All programs.
fn programs<'a>(alloc: Global, run_help: &'a str) -> Result<Vec<Command<'a>>, AllocError> {
    let mut programs = Vec::with_capacity(alloc, PROGRAMS.len())?;
    for program in PROGRAMS.iter() {
        let after = program.after.unwrap_or(run_help);
        programs.push(program_of(alloc, program, after)?)?;
    }
    Ok(programs)
}

/// What the program of a name does.
fn work_of(name: &str) -> Option<Work> {
    for program in PROGRAMS.iter() {
        if program.name == name {
            return Some(program.work);
        }
    }
    None
}

/// What is asked for, and the words that it is asked with.
pub fn asked_of<'m, 'a>(matches: &'m ArgMatches<'a>) -> Option<(Work, &'m ArgMatches<'a>)> {
    let (name, words) = matches.subcommand()?;
    Some((work_of(name)?, words))
}

/// The command line: one subcommand for each program. The text stands at the end of the help of `run`.
pub fn command<'a>(alloc: Global, run_help: &'a str) -> Result<Command<'a>, AllocError> {
    Command::new(alloc, "ckpt")
        .about("Saves modelled memories into image files, and restores them")
        .version(VERSION)
        .after_help(LIMITS)
        .args(args_of(alloc, &OPTIONS)?)?
        .subcommand_required(true)
        .subcommands(programs(alloc, run_help)?)
}

/// What stands at the end of the help of `run`: an example, the language, and the statuses.
pub fn run_help(alloc: Global) -> Result<String, AllocError> {
    let mut text = String::new(alloc);
    text.push_str(RUN_HEAD)?;
    for form in LINE_FORMS.iter() {
        push_form(&mut text, form)?;
    }
    text.push_str(RUN_TAIL)?;
    Ok(text)
}

/// A line of the language: its form, and what it does.
fn push_form(text: &mut String, form: &LineForm) -> Result<(), AllocError> {
    let start = text.len();
    write!(text, "  {form}")?;
    for _ in text.len().saturating_sub(start)..FORM_WIDTH {
        text.push(' ')?;
    }
    writeln!(text, "{}", form.does)
}

/// The column in which the help says what a line does.
const FORM_WIDTH: usize = 38;
