// The words of the program, as a table, and the command that is built of it.
use clap::{Arg, ArgAction, Command, value_parser};
use std::alloc::{AllocError, Global};
use strsim::damerau_levenshtein;

/// How an argument is given.
#[derive(Clone, Copy)]
pub enum Form {
    /// a text at its place
    Needed,
    /// a text at its place, which may be left out
    Optional,
    /// a word at its place that is no text, which may be left out
    Plain,
    /// a number at its place, which may be left out
    Number,
    /// all the words that are left
    Rest,
    /// `--name VALUE`
    Option(&'static str),
    /// `--name NUMBER`
    Bound,
    /// `--name COUNT`
    Count,
    /// `--name tsv`
    Format,
    /// `--name`
    Flag,
}

impl Form {
    /// Whether a text stands at its place.
    pub fn is_text(self) -> bool {
        matches!(self, Form::Needed | Form::Optional)
    }

    /// Whether its name stands before a value.
    pub fn has_value(self) -> bool {
        matches!(
            self,
            Form::Option(_) | Form::Bound | Form::Count | Form::Format
        )
    }

    /// Whether it is given by its name.
    pub fn is_option(self) -> bool {
        self.has_value() || matches!(self, Form::Flag)
    }
}

/// An argument of a word.
#[derive(Clone, Copy)]
pub struct Given {
    pub id: &'static str,
    pub form: Form,
    help: &'static str,
}

/// A word of the program.
#[derive(Clone, Copy)]
pub struct Word {
    name: &'static str,
    about: &'static str,
    example: &'static str,
    pub args: &'static [Given],
}

impl Word {
    /// Whether it is a method of texts.
    pub fn is_method(&self) -> bool {
        !matches!(self.name, "check" | "cut")
    }
}

pub const FILE: &str = "FILE";

pub const SEP: &str = "SEP";

pub const MAXSPLIT: &str = "MAXSPLIT";

pub const SUB: &str = "SUB";

pub const FROM: &str = "FROM";

pub const TO: &str = "TO";

pub const MAXCOUNT: &str = "MAXCOUNT";

pub const DELETE: &str = "DELETE";

pub const CALL: &str = "CALL";

pub const KEEP: &str = "keep";

pub const IN_FILE: &str = "file";

pub const BYTES: &str = "bytes";

pub const ROWS: &str = "rows";

pub const SEP_OPTION: &str = "sep";

pub const FIELDS: &str = "fields";

pub const BOUND: &str = "bound";

pub const FORMAT: &str = "format";

const THE_FILE: Given = Given {
    id: FILE,
    form: Form::Plain,
    help: "The sheet; without it, the standard input",
};

const THE_SEP_OPTION: Given = Given {
    id: SEP_OPTION,
    form: Form::Option("SEP"),
    help: "What stands between fields; without it, a comma",
};

const THE_FORMAT: Given = Given {
    id: FORMAT,
    form: Form::Format,
    help: "For programs: number, start, end, content, tabs between",
};

const THE_IN_FILE: Given = Given {
    id: IN_FILE,
    form: Form::Option("FILE"),
    help: "The sheet; without it, the standard input",
};

const THE_BYTES: Given = Given {
    id: BYTES,
    form: Form::Flag,
    help: "Byte by byte, even if the sheet is text",
};

const THE_ROWS: Given = Given {
    id: ROWS,
    form: Form::Flag,
    help: "On each row by itself, as a script does",
};

const THE_MAXSPLIT: Given = Given {
    id: MAXSPLIT,
    form: Form::Number,
    help: "The most cuts; a negative number is no bound",
};

const THE_SUB: Given = Given {
    id: SUB,
    form: Form::Needed,
    help: "What is looked for",
};

const SPLITTER: Given = Given {
    id: SEP,
    form: Form::Optional,
    help: "The separator; without it, words between whitespace",
};

static VIEW: [Given; 3] = [THE_FILE, THE_SEP_OPTION, THE_FORMAT];

static WORDS: [Word; 11] = [
    Word {
        name: "check",
        about: "The rows that have another number of fields than the header",
        example: "Status 1 if there is one, 0 if none.\nExample: chart check --sep ';' harbour.csv",
        args: &[
            THE_FILE,
            THE_SEP_OPTION,
            Given {
                id: FIELDS,
                form: Form::Count,
                help: "How many fields a row is to have; else as the first",
            },
            THE_FORMAT,
        ],
    },
    Word {
        name: "split",
        about: "The parts between separators",
        example: "Example: chart split --rows , < harbour.csv",
        args: &[
            SPLITTER,
            THE_MAXSPLIT,
            THE_ROWS,
            THE_BYTES,
            THE_FORMAT,
            THE_IN_FILE,
        ],
    },
    Word {
        name: "rsplit",
        about: "The same, cut from the end",
        example: "Example: chart rsplit --rows , 1 < harbour.csv",
        args: &[
            SPLITTER,
            THE_MAXSPLIT,
            THE_ROWS,
            THE_BYTES,
            THE_FORMAT,
            THE_IN_FILE,
        ],
    },
    Word {
        name: "lines",
        about: "The lines",
        example: "Example: chart lines keep < harbour.csv",
        args: &[
            Given {
                id: KEEP,
                form: Form::Plain,
                help: "The word 'keep': each line with its end",
            },
            THE_ROWS,
            THE_BYTES,
            THE_FORMAT,
            THE_IN_FILE,
        ],
    },
    Word {
        name: "find",
        about: "The first place of SUB",
        example: "Example: chart find Quay < harbour.csv",
        args: &[THE_SUB, THE_BYTES, THE_IN_FILE],
    },
    Word {
        name: "rfind",
        about: "The last place of SUB",
        example: "Example: chart rfind Quay < harbour.csv",
        args: &[THE_SUB, THE_BYTES, THE_IN_FILE],
    },
    Word {
        name: "count",
        about: "How often SUB stands in the sheet",
        example: "Example: chart count '\\t' < harbour.csv",
        args: &[THE_SUB, THE_BYTES, THE_IN_FILE],
    },
    Word {
        name: "replace",
        about: "TO in place of FROM",
        example: "Example: chart replace '\\r\\n' '\\n' < harbour.csv",
        args: &[
            Given {
                id: FROM,
                form: Form::Needed,
                help: "What is replaced",
            },
            Given {
                id: TO,
                form: Form::Needed,
                help: "What stands in its place",
            },
            Given {
                id: MAXCOUNT,
                form: Form::Number,
                help: "How often at most; a negative number is no bound",
            },
            THE_BYTES,
            THE_IN_FILE,
        ],
    },
    Word {
        name: "translate",
        about: "Each byte of FROM mapped to its partner in TO",
        example: "Example: chart translate ';\\t' ',,' '\\r' < harbour.csv",
        args: &[
            Given {
                id: FROM,
                form: Form::Needed,
                help: "The bytes that are mapped",
            },
            Given {
                id: TO,
                form: Form::Needed,
                help: "Their partners, as many",
            },
            Given {
                id: DELETE,
                form: Form::Optional,
                help: "The bytes that are left out",
            },
            THE_BYTES,
            THE_IN_FILE,
        ],
    },
    Word {
        name: "join",
        about: "The lines, joined with SEP",
        example: "Example: chart join ' | ' < harbour.csv",
        args: &[
            Given {
                id: SEP,
                form: Form::Needed,
                help: "What stands between a line and the next",
            },
            THE_BYTES,
            THE_IN_FILE,
        ],
    },
    Word {
        name: "cut",
        about: "What calls on a cutter answer, in turn",
        example: "Example: chart cut , next skip:1 rest 'pour:; ' < harbour.csv",
        args: &[
            Given {
                id: SEP,
                form: Form::Needed,
                help: "Where the sheet is cut",
            },
            Given {
                id: CALL,
                form: Form::Rest,
                help: "next, skip:N, rest, or pour:TO",
            },
            Given {
                id: BOUND,
                form: Form::Bound,
                help: "The most cuts; a negative number is no bound",
            },
            THE_BYTES,
            THE_IN_FILE,
        ],
    },
];

const ABOUT: &str = "Shows the rows and fields of a sheet, or what a method gives on it";

const AFTER: &str =
    "In SEP, SUB, FROM, TO and DELETE, \\t, \\n, \\r, \\\\ and \\xHH name a tab, line feed,
carriage return, backslash and the byte of this hexadecimal number; so they are
shown. \\x2d-rows is no option. Messages go to the standard error, with status 1.
Example: chart --sep ';' harbour.csv";

fn arg_of<'a>(heap: Global, given: &Given) -> Arg<'a> {
    let arg = Arg::new(heap, given.id).help(given.help);
    match given.form {
        Form::Needed => arg.required(true),
        Form::Optional | Form::Plain => arg,
        Form::Number => arg
            .value_parser(value_parser!(i64))
            .allow_negative_numbers(true),
        Form::Rest => arg.required(true).num_args(1..),
        Form::Option(value) => arg.long(given.id).value_name(value),
        Form::Bound => arg
            .long(given.id)
            .value_name("N")
            .value_parser(value_parser!(i64))
            .allow_negative_numbers(true),
        Form::Count => arg
            .long(given.id)
            .value_name("N")
            .value_parser(value_parser!(usize)),
        Form::Format => arg
            .long(given.id)
            .value_name("tsv")
            .value_parser(["tsv"].as_slice())
            .hide_possible_values(true),
        Form::Flag => arg.long(given.id).action(ArgAction::SetTrue),
    }
}

fn with_args<'a>(
    heap: Global,
    command: Command<'a>,
    args: &[Given],
) -> Result<Command<'a>, AllocError> {
    let mut command = command;
    for given in args {
        command = command.arg(arg_of(heap, given))?;
    }
    Ok(command)
}

fn command_of<'a>(heap: Global, word: &Word) -> Result<Command<'a>, AllocError> {
    let command = Command::new(heap, word.name)
        .about(word.about)
        .after_help(word.example);
    with_args(heap, command, word.args)
}

/// The program with all its words.
pub fn program<'a>(heap: Global) -> Result<Command<'a>, AllocError> {
    let command = Command::new(heap, "chart")
        .bin_name("chart")?
        .about(ABOUT)
        .after_help(AFTER);
    let mut command = with_args(heap, command, &VIEW)?;
    for word in WORDS.iter() {
        command = command.subcommand(command_of(heap, word)?)?;
    }
    Ok(command)
}

/// The word of the program that has this name.
pub fn word_of(name: &str) -> Option<&'static Word> {
    WORDS.iter().find(|word| word.name == name)
}

// So many slips of the hand still tell which word was meant.
const SLIPS: usize = 2;

/// The word of the program that was meant, if one is near.
pub fn nearest(heap: Global, given: &str) -> Result<Option<&'static str>, AllocError> {
    let mut found = None;
    let mut least = SLIPS + 1;
    for word in WORDS.iter() {
        let slips = damerau_levenshtein(heap, given, word.name)?;
        if slips < least && slips < word.name.len() {
            least = slips;
            found = Some(word.name);
        }
    }
    Ok(found)
}
