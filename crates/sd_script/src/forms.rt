//! The language as a table: each word, its fields, and what it does. The help of the program, the explanation of a line
//! that doesn't fit and the manual have it from here; `Script::parse` alone decides whether a line fits.

use crate::line_fault::FieldKind;
use std::fmt;

/// A field of a line: its name, and what it has to be.
#[derive(Clone, Copy, PartialEq, Eq)]
pub struct Field {
    pub name: &'static str,
    pub kind: FieldKind,
}

/// The form of a line: its word, the fields after it, and what it does.
#[derive(Clone, Copy)]
pub struct LineForm {
    pub word: &'static str,
    pub fields: &'static [Field],
    pub does: &'static str,
}

/// Prints the word and the names of the fields, as a line has them.
impl fmt::Display for LineForm {
    fn fmt<W: fmt::Write>(&self, f: &mut fmt::Formatter<W>) -> fmt::Result {
        f.write_str(self.word)?;
        for field in self.fields {
            f.write_str(" ")?;
            f.write_str(field.name)?;
        }
        Ok(())
    }
}

const SPACE: Field = Field {
    name: "SPACE",
    kind: FieldKind::Number,
};

const ADDRESS: Field = Field {
    name: "ADDRESS",
    kind: FieldKind::Number,
};

const LENGTH: Field = Field {
    name: "LENGTH",
    kind: FieldKind::Number,
};

const PROT: Field = Field {
    name: "PROT",
    kind: FieldKind::Permissions,
};

const HEX: Field = Field {
    name: "HEX",
    kind: FieldKind::Hex,
};

const COUNT: Field = Field {
    name: "N",
    kind: FieldKind::Number,
};

const SOME: Field = Field {
    name: "N",
    kind: FieldKind::Positive,
};

const ROUNDS: Field = Field {
    name: "ROUNDS",
    kind: FieldKind::Number,
};

const WORKER: Field = Field {
    name: "WORKER",
    kind: FieldKind::WorkerName,
};

const PLACE: Field = Field {
    name: "K",
    kind: FieldKind::Number,
};

/// The form of each line of the language.
pub const LINE_FORMS: [LineForm; 22] = [
    LineForm {
        word: "mmap",
        fields: &[SPACE, ADDRESS, LENGTH, PROT],
        does: "maps pages of zeros; PROT is none or some of rwx",
    },
    LineForm {
        word: "munmap",
        fields: &[SPACE, ADDRESS, LENGTH],
        does: "unmaps pages",
    },
    LineForm {
        word: "mprotect",
        fields: &[SPACE, ADDRESS, LENGTH, PROT],
        does: "gives pages other permissions",
    },
    LineForm {
        word: "fork",
        fields: &[SPACE],
        does: "makes a child with a copy of the memory",
    },
    LineForm {
        word: "exit",
        fields: &[SPACE],
        does: "ends a space",
    },
    LineForm {
        word: "store",
        fields: &[SPACE, ADDRESS, HEX],
        does: "stores 1 to 64 bytes, with the fault that it may need",
    },
    LineForm {
        word: "try",
        fields: &[SPACE, ADDRESS, HEX],
        does: "stores them where the page is writable",
    },
    LineForm {
        word: "fault",
        fields: &[SPACE, ADDRESS],
        does: "takes the fault of a page",
    },
    LineForm {
        word: "load",
        fields: &[SPACE, ADDRESS, COUNT],
        does: "loads 1 to 64 bytes",
    },
    LineForm {
        word: "words",
        fields: &[SPACE, ADDRESS, SOME],
        does: "the words of 1 to 512 pages, as pagemap shows them",
    },
    LineForm {
        word: "checkpoint",
        fields: &[ROUNDS],
        does: "makes a checkpoint with 0 to 8 rounds before its freeze",
    },
    LineForm {
        word: "merge",
        fields: &[],
        does: "merges the newest chain of images into one image",
    },
    LineForm {
        word: "begin",
        fields: &[ROUNDS],
        does: "begins a checkpoint",
    },
    LineForm {
        word: "cancel",
        fields: &[],
        does: "gives the checkpoint that runs up",
    },
    LineForm {
        word: "begin-merge",
        fields: &[],
        does: "begins a merge, which can go on beside a checkpoint",
    },
    LineForm {
        word: "reopen",
        fields: &[],
        does: "opens the store again, after its device failed",
    },
    LineForm {
        word: "trim",
        fields: &[],
        does: "folds the journal up to the last checkpoint",
    },
    LineForm {
        word: "work",
        fields: &[WORKER],
        does: "makes the next step of dumper, merger or opener",
    },
    LineForm {
        word: "perform",
        fields: &[WORKER],
        does: "makes the device call that it asked for",
    },
    LineForm {
        word: "perform-at",
        fields: &[WORKER, PLACE],
        does: "makes the one at place K, from 0, of those that are out",
    },
    LineForm {
        word: "step",
        fields: &[WORKER, SOME],
        does: "makes N of these events",
    },
    LineForm {
        word: "finish",
        fields: &[WORKER],
        does: "makes all of them, up to the end of its job",
    },
];

/// The form of the lines with a word, if there are such lines.
pub fn form_of(word: &str) -> Option<&'static LineForm> {
    LINE_FORMS.iter().find(|form| form.word == word)
}
