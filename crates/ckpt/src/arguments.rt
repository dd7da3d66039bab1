//! The arguments of the programs.

/// What an argument is.
#[derive(Clone, Copy)]
pub enum Form {
    /// A word that has to be there.
    Word,
    /// Words, of which one has to be there.
    Words,
    /// A word that may be left out.
    Optional,
    /// A word that has to be there unless this option is.
    Unless(&'static str),
    /// An option without a value.
    Flag,
    /// An option without a value that this letter stands for too, and which each program has.
    Letter(char),
    /// The same, which may be given several times.
    Counted(char),
    /// An option with a value, which has this name in the help.
    Value(&'static str),
}

/// The least and the greatest number that an argument may be.
#[derive(Clone, Copy)]
pub struct Numbers {
    pub least: u64,
    pub most: u64,
}

/// An argument of a program.
#[derive(Clone, Copy)]
pub struct Item {
    pub name: &'static str,
    pub form: Form,
    /// The numbers that it may be, where it is a number.
    pub numbers: Option<Numbers>,
    /// The arguments beside which it can't stand.
    pub conflicts: &'static [&'static str],
    pub help: &'static str,
}

/// A word that has to be there.
const WORD: Item = Item {
    name: "",
    form: Form::Word,
    numbers: None,
    conflicts: &[],
    help: "",
};

/// An option without a value.
const FLAG: Item = Item {
    form: Form::Flag,
    ..WORD
};

pub const DIR: Item = Item {
    name: "DIR",
    help: "The folder of a store, with the files img-000 to img-063",
    ..WORD
};

/// The folder of `run`, which has none with `--check`.
pub const DIR_TO_RUN: Item = Item {
    form: Form::Unless("check"),
    ..DIR
};

pub const SCRIPT: Item = Item {
    name: "SCRIPT",
    form: Form::Unless("check"),
    help: "A file with one request a line; - is the standard input",
    ..WORD
};

/// The script that is only checked, in the place of a folder and a script.
pub const CHECK: Item = Item {
    name: "check",
    form: Form::Value("SCRIPT"),
    conflicts: &["DIR", "restore", "strict", "stats", "summary"],
    help: "Only checks whether a script fits the language, and opens no folder: prints ok N requests",
    ..WORD
};

pub const RESTORES: Item = Item {
    name: "restore",
    help: "Prints afterwards what `restore` prints of the folder",
    ..FLAG
};

pub const STRICT: Item = Item {
    name: "strict",
    help: "Ends with status 1 at the first request that is refused or answered segv; its line is on standard error",
    ..FLAG
};

pub const STATS: Item = Item {
    name: "stats",
    form: Form::Value("FILE"),
    help: "Writes a JSON object a line into FILE of what each image, checkpoint and merge took; - is standard error",
    ..WORD
};

pub const SUMMARY: Item = Item {
    name: "summary",
    help: "Prints at the end on standard error what each image took, as a table, and each checkpoint and merge",
    ..FLAG
};

pub const QUIET: Item = Item {
    name: "quiet",
    form: Form::Letter('q'),
    help: "Reports no causes and shows no progress on standard error",
    ..WORD
};

pub const VERBOSE: Item = Item {
    name: "verbose",
    form: Form::Counted('v'),
    conflicts: &["quiet"],
    help: "Logs jobs, images and slots on standard error; twice (-vv), each device call too",
    ..WORD
};

pub const THREADS: Item = Item {
    name: "THREADS",
    numbers: Some(Numbers { least: 1, most: 8 }),
    help: "How many threads store, 1 to 8",
    ..WORD
};

pub const JSON: Item = Item {
    name: "json",
    help: "Prints one JSON document in place of the lines",
    ..FLAG
};

pub const SLOT: Item = Item {
    name: "SLOT",
    form: Form::Optional,
    numbers: Some(Numbers { least: 0, most: 63 }),
    help: "The number of the one slot to show, 0 to 63; without it all are shown",
    ..WORD
};

/// The slot whose image is closed.
pub const SLOT_TO_DROP: Item = Item {
    form: Form::Word,
    help: "The number of the slot whose image is closed, 0 to 63",
    ..SLOT
};

pub const OUT: Item = Item {
    name: "OUT",
    help: "The folder of the core files, which is made where it is missing",
    ..WORD
};

/// The space that is written.
pub const ONE_SPACE: Item = Item {
    help: "The one space to write, 1 to 16; without it all are written",
    ..SPACE
};

pub const FORCE: Item = Item {
    name: "force",
    help: "Replaces core files that are there already",
    ..FLAG
};

pub const FORCE_DROP: Item = Item {
    help: "Closes the image also where the newest checkpoint needs it, or another image is damaged",
    ..FORCE
};

/// The core whose notes an export has.
pub const NOTES: Item = Item {
    name: "notes",
    form: Form::Value("CORE"),
    help: "Copies the notes of a core file: its registers, mapped files and the program's name, for a backtrace in gdb",
    ..WORD
};

/// The core files, one or more.
pub const CORES: Item = Item {
    name: "CORE",
    form: Form::Words,
    help: "An ELF core file of a process of x86-64, as gcore, the kernel or export writes it;
        several make a checkpoint each",
    ..WORD
};

/// The space that gets the memory.
pub const SPACE: Item = Item {
    name: "space",
    form: Form::Value("N"),
    numbers: Some(Numbers { least: 1, most: 16 }),
    help: "The space that gets the memory, 1 to 16; without it space 1",
    ..WORD
};

pub const ROUNDS: Item = Item {
    name: "rounds",
    form: Form::Value("R"),
    numbers: Some(Numbers { least: 0, most: 8 }),
    help: "How many rounds a checkpoint has before its freeze, 0 to 8; without it none",
    ..WORD
};

/// The checkpoint that is read, in place of the newest.
pub const CHECKPOINT: Item = Item {
    name: "checkpoint",
    form: Form::Value("N"),
    numbers: Some(Numbers {
        least: 1,
        most: u64::MAX,
    }),
    help: "The checkpoint to go back to; without it the newest. history has those that are there",
    ..WORD
};

pub const AT_LEAST: Item = Item {
    name: "at-least",
    conflicts: &["json", "checkpoint"],
    help: "Ends with status 1 where the newest checkpoint is below N, or there is none",
    ..CHECKPOINT
};

/// The checkpoint that another is compared with.
pub const OLD: Item = Item {
    name: "OLD",
    form: Form::Word,
    help: "The checkpoint from which the changes begin. history has those that are there",
    ..CHECKPOINT
};

pub const NEW: Item = Item {
    name: "NEW",
    help: "The checkpoint to which they lead",
    ..OLD
};

/// How much was sent or received, as a document.
pub const JSON_REPORT: Item = Item {
    name: "json",
    help: "Reports how much it was as one JSON document on standard error",
    ..FLAG
};

/// Whether a sender goes on beside a run.
pub const FOLLOW: Item = Item {
    name: "follow",
    help: "Goes on beside a run that writes the store: sends each further checkpoint as it comes, until the run ends",
    ..FLAG
};

/// Only what a stream has to continue.
pub const TIP: Item = Item {
    name: "tip",
    help: "Only prints the checkpoint that the store shows, for send --since, and the SHA-256 of its memory",
    ..FLAG
};

/// The checkpoint that the receiver has.
pub const SINCE: Item = Item {
    name: "since",
    help: "The checkpoint that the receiver shows, which the images that are sent continue; without it all are sent",
    ..CHECKPOINT
};
