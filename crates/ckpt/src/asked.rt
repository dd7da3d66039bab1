//! What the words of the command line ask of a program.

use clap::ArgMatches;
use sd_areas::SpaceId;
use sd_cores::ExportAsked;
use sd_disk::Found;
use sd_jobs::{ImportAsked, RunAsked};
use sd_json::Document;
use sd_program::{Called, Causes};
use sd_queries::{Compared, Query};
use sd_readers::{Reader, ReaderAt};
use sd_run::Rule;
use sd_send::SendAsked;
use sd_watching::CountsAsked;

/// Whether the words ask for causes and progress on the standard error.
fn causes_asked(words: &ArgMatches<'_>) -> Causes {
    if words.get_flag("quiet") {
        Causes::Kept
    } else {
        Causes::Told
    }
}

/// How a program is called: the folder that the words name, and what is found there.
pub fn called_by<'a>(rt: &'a HostRuntime, words: &ArgMatches<'a>, found: &'a Found) -> Called<'a> {
    Called {
        rt,
        folder: words.get_str("DIR").unwrap_or(""),
        found,
        causes: causes_asked(words),
        verbose: words.get_count("verbose"),
    }
}

/// Which counts the words ask for.
pub fn counts_asked<'a>(words: &ArgMatches<'a>) -> CountsAsked<'a> {
    CountsAsked {
        stats: words.get_str("stats"),
        summary: words.get_flag("summary"),
    }
}

/// Which answers end a run before its last request.
fn rule_asked(words: &ArgMatches<'_>) -> Rule {
    if words.get_flag("strict") {
        Rule::Strict
    } else {
        Rule::Plain
    }
}

/// How `ckpt run` runs its script.
pub fn run_asked<'a>(words: &ArgMatches<'a>) -> RunAsked<'a> {
    RunAsked {
        script: words.get_str("SCRIPT").unwrap_or(""),
        counts: counts_asked(words),
        rule: rule_asked(words),
        restores: words.get_flag("restore"),
    }
}

/// What `ckpt export` writes.
pub fn export_asked<'a>(words: &ArgMatches<'a>) -> ExportAsked<'a> {
    ExportAsked {
        folder: words.get_str("OUT").unwrap_or(""),
        notes: words.get_str("notes"),
        checkpoint: words.get_one::<u64>("checkpoint"),
        space: words.get_one::<u64>("space"),
        replaces: words.get_flag("force"),
    }
}

/// How `ckpt import` saves the cores.
pub fn import_asked<'a>(words: &ArgMatches<'a>) -> ImportAsked<'a> {
    ImportAsked {
        space: SpaceId::new(words.get_one::<u64>("space").unwrap_or(1)),
        rounds: words.get_one::<u64>("rounds").unwrap_or(0),
        counts: counts_asked(words),
    }
}

/// What the words ask of a sender.
pub fn send_asked(words: &ArgMatches<'_>) -> SendAsked {
    SendAsked {
        since: words.get_one::<u64>("since"),
        follow: words.get_flag("follow"),
        as_json: words.get_flag("json"),
    }
}

/// A reader of one checkpoint, where a reader has such a one.
fn reader_at(reader: Reader) -> Option<ReaderAt> {
    match reader {
        Reader::Restore => Some(ReaderAt::Restore),
        Reader::Verify => Some(ReaderAt::Verify),
        Reader::List => None,
    }
}

/// A reader of the checkpoint that the words ask for, and its number.
fn at_asked(reader: Reader, words: &ArgMatches<'_>) -> Option<(ReaderAt, u64)> {
    let number = words.get_one::<u64>("checkpoint")?;
    Some((reader_at(reader)?, number))
}

/// What the words ask of a store.
pub fn query_asked(reader: Reader, words: &ArgMatches<'_>) -> Query {
    match (at_asked(reader, words), words.get_flag("json")) {
        (Some((reader, number)), true) => Query::Document(Document::At(reader, number)),
        (None, true) => Query::Document(Document::Newest(reader)),
        (Some((reader, number)), false) => Query::At(reader, number),
        (None, false) => match words.get_one::<u64>("at-least") {
            Some(least) => Query::AtLeast(least),
            None => Query::Newest(reader),
        },
    }
}

/// What `ckpt history` is asked.
pub fn history_asked(words: &ArgMatches<'_>) -> Query {
    if words.get_flag("json") {
        Query::HistoryDocument
    } else {
        Query::History
    }
}

/// What `ckpt diff` is asked.
pub fn difference_asked(words: &ArgMatches<'_>) -> Query {
    Query::Difference(Compared {
        old: words.get_one::<u64>("OLD").unwrap_or(0),
        new: words.get_one::<u64>("NEW").unwrap_or(0),
        is_document: words.get_flag("json"),
    })
}
