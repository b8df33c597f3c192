// Texts that begin with a hyphen. To clap they are options, or `--` the end of these, so it gets
// the hyphen as an escape.
use super::words::{Word, word_of};
use std::alloc::{AllocError, Global};
use strsim::damerau_levenshtein;

const HELP: &str = "help";

// The end of the options, to clap.
const END: &str = "--";

// The name in a word that has the form of a long option.
fn long_name(given: &str) -> Option<&str> {
    let long = given.strip_prefix("--")?;
    match long.split_once('=') {
        Some((name, _)) => Some(name),
        None => Some(long),
    }
}

// Whether an option is named, or near: clap then says which may be meant.
fn is_near(heap: Global, name: &str, option: &str) -> Result<bool, AllocError> {
    Ok(damerau_levenshtein(heap, name, option)? <= 1)
}

// Whether clap is to find an option here, behind a word of the program.
fn is_option(heap: Global, word: &Word, given: &str) -> Result<bool, AllocError> {
    if given == "-h" {
        return Ok(true);
    }
    let Some(name) = long_name(given) else {
        return Ok(false);
    };
    for arg in word.args {
        if arg.form.is_option() && is_near(heap, name, arg.id)? {
            return Ok(true);
        }
    }
    is_near(heap, name, HELP)
}

// Whether the value of an option is behind it.
fn wants_value(word: &Word, given: &str) -> bool {
    let Some(name) = given.strip_prefix("--") else {
        return false;
    };
    word.args
        .iter()
        .any(|arg| arg.form.has_value() && arg.id == name)
}

/// What clap is to read in place of a word.
#[derive(Clone, Copy)]
enum Reading {
    Kept,
    /// its first hyphen as an escape
    Text,
    /// the end of the options before it
    Behind,
}

// A text as clap takes it.
fn guarded_text(heap: Global, given: &str) -> Result<String, AllocError> {
    match given.strip_prefix('-') {
        Some(rest) => format!(in heap; "\\x2d{rest}"),
        None => String::from_str(heap, given),
    }
}

fn add(
    heap: Global,
    given: &str,
    reading: Reading,
    guarded: &mut Vec<String>,
) -> Result<(), AllocError> {
    let word = match reading {
        Reading::Text => guarded_text(heap, given)?,
        _ => String::from_str(heap, given)?,
    };
    if let Reading::Behind = reading {
        guarded.push(String::from_str(heap, END)?)?;
    }
    guarded.push(word)?;
    Ok(())
}

/// Where a walk over what is given behind a word of the program stands.
#[derive(Clone, Copy)]
struct Walk {
    word: &'static Word,
    // how many texts can still be given
    texts: usize,
    // whether the value of an option is next
    at_value: bool,
}

impl Walk {
    fn new(word: &'static Word) -> Walk {
        Walk {
            word,
            texts: word.args.iter().filter(|arg| arg.form.is_text()).count(),
            at_value: false,
        }
    }

    // Reads on. To a method `--` is a word like any other; elsewhere all behind it is kept.
    fn read(&mut self, heap: Global, given: &str) -> Result<Reading, AllocError> {
        if self.at_value || is_option(heap, self.word, given)? {
            self.at_value = !self.at_value && wants_value(self.word, given);
            return Ok(Reading::Kept);
        }
        let is_end = given == END;
        if is_end && !self.word.is_method() {
            self.texts = 0;
            return Ok(Reading::Kept);
        }
        if self.texts > 0 {
            self.texts -= 1;
            return Ok(Reading::Text);
        }
        Ok(if is_end {
            Reading::Behind
        } else {
            Reading::Kept
        })
    }
}

/// The words as clap is to read them, the program's name first.
pub fn guarded(heap: Global, words: &[String]) -> Result<Vec<String>, AllocError> {
    let mut walk = match words.get(1) {
        Some(name) => word_of(name.as_str()).map(Walk::new),
        None => None,
    };
    let mut guarded = Vec::new(heap);
    for (index, given) in words.iter().enumerate() {
        let given = given.as_str();
        let reading = match &mut walk {
            Some(walk) if index > 1 => walk.read(heap, given)?,
            _ => Reading::Kept,
        };
        add(heap, given, reading, &mut guarded)?;
    }
    Ok(guarded)
}
