//! The commands. Help is made of this table, and so can be completions and a man page.

use crate::options::{
    BUDGET, CHECK, COLOUR, DRAWING, EDITION, FIRST, FORMAT, FOUND_FORMAT, FROM, GOALS, JUDGES,
    LIMIT, ONLY, OUTPUT, OptionRow, SMT, STEP, WORKERS,
};

/// The version of the program. The changelog has its date.
pub static VERSION: &str = "0.6.0";

/// The files that a command names.
#[derive(Clone, Copy)]
pub struct FileRow {
    pub least: usize,
    pub most: usize,
    /// How they are written in a usage line.
    pub usage: &'static str,
    pub help: &'static str,
}

/// A command: what is typed, and what help says of it.
#[derive(Clone, Copy)]
pub struct CommandRow {
    pub name: &'static str,
    pub about: &'static str,
    pub files: FileRow,
    pub options: &'static [OptionRow],
    pub usage: &'static str,
    pub example: &'static str,
}

const SOURCE: FileRow = FileRow {
    least: 1,
    most: 2,
    usage: "PROGRAM [PROOF]",
    help: "A program and a proof of it, or one file with both, parted by a line `proof`; - is standard input",
};

const PROGRAM: FileRow = FileRow {
    least: 1,
    most: 1,
    usage: "PROGRAM",
    help: "A program; - is standard input",
};

const CERTIFIED: FileRow = FileRow {
    least: 2,
    most: 3,
    usage: "PROGRAM [PROOF] CERTIFICATES",
    help: "A program, a proof of it and its certificates; or one file with program and proof, parted by a line `proof`, and the certificates; - is standard input",
};

const SCHEDULED: FileRow = FileRow {
    least: 1,
    most: 3,
    usage: "PROGRAM [PROOF] [SCHEDULE]",
    help: "A program, a proof of it and a schedule; or one file with program and proof, parted by a line `proof`, and the schedule; with --from or --step a program alone; - is standard input",
};

const TEXT: FileRow = FileRow {
    least: 1,
    most: 1,
    usage: "FILE",
    help: "A program, a proof, or one file with both; - is standard input",
};

const CERTIFICATES: FileRow = FileRow {
    least: 1,
    most: 1,
    usage: "CERTIFICATES",
    help: "Certificates of any version; - is standard input",
};

const STREAMS: FileRow = FileRow {
    least: 0,
    most: 1,
    usage: "[--stdio]",
    help: "What editors add; it speaks over standard input and output in any case",
};

const WORD: FileRow = FileRow {
    least: 0,
    most: 1,
    usage: "[WORD]",
    help: "The kind of a fault, as Syntax; a reason, as open; or a status, as 1. Without it the words are listed",
};

const WORDS: FileRow = FileRow {
    least: 0,
    most: 64,
    usage: "WORDS..",
    help: "The words of step",
};

/// What `step` answers too.
pub static QUESTIONS: [CommandRow; 5] = [
    CommandRow {
        name: "verify",
        about: "Search for a proof of each condition, and explain those that have none",
        files: SOURCE,
        options: &[
            FIRST, LIMIT, GOALS, FORMAT, DRAWING, COLOUR, OUTPUT, WORKERS,
        ],
        usage: "milkhour verify [OPTIONS] PROGRAM [PROOF]",
        example: "Examples:\n  milkhour verify peterson.spl peterson.proof\n  milkhour verify peterson.spl --first\n  milkhour verify peterson.spl peterson.proof --goals mutex,enter\n  milkhour verify - peterson.proof --format json < peterson.spl",
    },
    CommandRow {
        name: "check",
        about: "Check the certificates of a proof",
        files: CERTIFIED,
        options: &[FORMAT, DRAWING, COLOUR, OUTPUT, WORKERS],
        usage: "milkhour check [OPTIONS] PROGRAM [PROOF] CERTIFICATES",
        example: "Example:\n  milkhour check peterson.spl peterson.proof peterson.certs",
    },
    CommandRow {
        name: "prove",
        about: "Search as verify does, and write the certificates",
        files: SOURCE,
        options: &[FIRST, LIMIT, EDITION, FORMAT, COLOUR, OUTPUT, WORKERS],
        usage: "milkhour prove [OPTIONS] PROGRAM [PROOF]",
        example: "Example:\n  milkhour prove peterson.spl peterson.proof -o peterson.certs",
    },
    CommandRow {
        name: "trace",
        about: "Play one run of a program, and judge each goal on it; or show which moves may be taken",
        files: SCHEDULED,
        options: &[FROM, STEP, FORMAT, COLOUR, OUTPUT, WORKERS],
        usage: "milkhour trace [OPTIONS] PROGRAM [PROOF] SCHEDULE\n       milkhour trace [OPTIONS] PROGRAM [--from SCHEDULE] [--step]",
        example: "Examples:\n  milkhour trace peterson.spl peterson.proof peterson.run\n  milkhour trace peterson.spl --from 'y1 = false; y2 = false; s = 1; :: l0; l1;'\n  milkhour trace peterson.spl --step -o peterson.run",
    },
    CommandRow {
        name: "invariants",
        about: "Find linear equations that hold on every run, as a proof text",
        files: PROGRAM,
        options: &[FORMAT, COLOUR, OUTPUT, WORKERS],
        usage: "milkhour invariants [OPTIONS] PROGRAM",
        example: "Example:\n  milkhour invariants semaphore.spl -o semaphore.proof",
    },
];

/// What else there is.
pub static TOOLS: [CommandRow; 8] = [
    CommandRow {
        name: "find",
        about: "Find a proof of each claim, or a run on which it fails",
        files: SOURCE,
        options: &[BUDGET, FOUND_FORMAT, COLOUR, OUTPUT, JUDGES],
        usage: "milkhour find [OPTIONS] PROGRAM [PROOF]",
        example: "An invariance is claimed by `invariant NAME: p;`, a response by `response NAME: p leads q by find;`.\n\nExample:\n  milkhour find peterson.spl claims.proof -o peterson.proof",
    },
    CommandRow {
        name: "conditions",
        about: "List the conditions of a proof, or write them for other solvers",
        files: SOURCE,
        options: &[ONLY, SMT, OUTPUT],
        usage: "milkhour conditions [OPTIONS] PROGRAM [PROOF]",
        example: "Examples:\n  milkhour conditions peterson.spl peterson.proof --only 'mutex keep l3 1'\n  milkhour conditions peterson.spl peterson.proof --smt | z3 -in",
    },
    CommandRow {
        name: "draw",
        about: "Draw the control graphs of a program, and the diagrams of a proof, for Graphviz",
        files: SOURCE,
        options: &[OUTPUT],
        usage: "milkhour draw [OPTIONS] PROGRAM [PROOF]",
        example: "Example:\n  milkhour draw peterson.spl peterson.proof | dot -Tsvg > peterson.svg",
    },
    CommandRow {
        name: "fmt",
        about: "Lay out a program or a proof; nothing of it changes but blanks",
        files: TEXT,
        options: &[CHECK, OUTPUT],
        usage: "milkhour fmt [OPTIONS] FILE",
        example: "Examples:\n  milkhour fmt peterson.spl\n  milkhour fmt peterson.spl -o peterson.spl\n  milkhour fmt --check peterson.spl",
    },
    CommandRow {
        name: "certs",
        about: "Write certificates in another version",
        files: CERTIFICATES,
        options: &[EDITION, OUTPUT],
        usage: "milkhour certs [OPTIONS] CERTIFICATES",
        example: "Examples:\n  milkhour certs --version 3 peterson.certs -o peterson.shared\n  milkhour certs peterson.shared",
    },
    CommandRow {
        name: "lsp",
        about: "Be a language server for an editor, over standard input and output",
        files: STREAMS,
        options: &[],
        usage: "milkhour lsp [--stdio]",
        example: "share/ has configurations for neovim, Emacs and VS Code.",
    },
    CommandRow {
        name: "explain",
        about: "Say what a fault, a reason or a status means",
        files: WORD,
        options: &[],
        usage: "milkhour explain [WORD]",
        example: "Examples:\n  milkhour explain Syntax\n  milkhour explain open\n  milkhour explain 8",
    },
    CommandRow {
        name: "step",
        about: "Be the exact program, with its words, its texts and its statuses",
        files: WORDS,
        options: &[],
        usage: "milkhour step WORDS..",
        example: "Example:\n  milkhour step verify program proof --workers 4",
    },
];
