//! What is printed for a refusal in plain words, on the standard error, after the line that has its numbers.

use crate::advice::{Advice, advice_on};
use crate::faults::{host_reason, job_reason, needs_reason};
use farm_answers::Refusal;
use farm_options::{Command, host_text, lookup};
use host_list::HostFault;
use std::fmt::{self, Display, Formatter};
use std::io::Eprint;

/// What a run was given: the words of the command line, the command that they are, and the variables.
#[derive(Clone, Copy)]
pub struct Given<'a> {
    pub words: &'a [String],
    pub command: Option<Command<'a>>,
    /// The text of an option `--hosts` that no command of `farm` itself has.
    pub hosts: Option<&'a str>,
    pub variables: &'a [(String, String)],
}

/// Prints why this was refused.
pub fn tell_refusal<R: Eprint>(rt: &R, given: Given<'_>, refusal: &Refusal) {
    match refusal {
        Refusal::Words { place } => tell_words(rt, given.words, *place),
        Refusal::Period => tell_period(rt, given.variables),
        Refusal::Hosts { at, fault } => tell_hosts(rt, given, *at, *fault),
        Refusal::Jobs { line, fault, text } => {
            tell_line(rt, text.as_slice(), *line, job_reason(*fault))
        }
        Refusal::Needs { line, fault, text } => {
            tell_line(rt, text.as_slice(), *line, needs_reason(*fault))
        }
        Refusal::Cycle { .. } => {
            let _ = eprintln!(rt;
                "farm: each of these jobs needs the next one, and the last the first"
            );
        }
        Refusal::Unread | Refusal::Memory => {}
    }
}

fn tell_words<R: Eprint>(rt: &R, words: &[String], place: usize) {
    let word = Shown(words.get(place).map_or("", |word| word.as_str()).as_bytes());
    let name = words.first().map_or("", |word| word.as_str());
    let before = Shown(words.last().map_or("", |word| word.as_str()).as_bytes());
    let _ = match advice_on(words, place) {
        Advice::NoCommand => eprintln!(rt; "farm: a command is missing: farm --help has them"),
        Advice::HelpByOption => {
            eprintln!(rt;
                "farm: {word} is no command: farm --help has them, and farm build --help says more of build"
            )
        }
        Advice::UnknownCommand => eprintln!(rt; "farm: {word} is no command: farm --help has them"),
        Advice::BehindOption => {
            eprintln!(rt;
                "farm: no word may follow {name}: farm --help, or farm build --help for a command"
            )
        }
        Advice::MissingWord => {
            eprintln!(rt;
                "farm: a word is missing after {before}: farm {name} --help has what is taken"
            )
        }
        Advice::UnfitWord => {
            eprintln!(rt; "farm: {word} doesn't fit there: farm {name} --help has what is taken")
        }
    };
}

/// Prints which word of `farm share` doesn't fit, or that one is missing.
pub fn tell_bad_share<R: Eprint>(rt: &R, word: Option<&String>) {
    let _ = match word {
        Some(word) => {
            let word = Shown(word.as_str().as_bytes());
            eprintln!(rt; "farm: {word} doesn't fit there: farm share --help has what is taken")
        }
        None => {
            eprintln!(rt; "farm: share: a word is missing: farm share --help has what is taken")
        }
    };
}

fn tell_period<R: Eprint>(rt: &R, variables: &[(String, String)]) {
    let value = lookup(variables, "DISTCC_BACKOFF_PERIOD").unwrap_or("");
    let value = Shown(value.as_bytes());
    let _ = eprintln!(rt;
        "farm: DISTCC_BACKOFF_PERIOD is {value}: a number of seconds from 0 to 1000000 is taken"
    );
}

// The text of the option `--hosts`, if the command has it.
fn hosts_option<'a>(command: Option<Command<'a>>) -> Option<&'a str> {
    match command {
        Some(Command::Build(options) | Command::Watch(options) | Command::Graph(options)) => {
            options.hosts
        }
        Some(Command::Hosts { hosts }) => hosts,
        _ => None,
    }
}

// Prints a fault of the host list, by the word that has it.
fn tell_hosts<R: Eprint>(rt: &R, given: Given<'_>, at: u64, fault: HostFault) {
    let option = given.hosts.or(hosts_option(given.command));
    let text = host_text(option, given.variables).as_bytes();
    let origin = if option.is_some() {
        "--hosts"
    } else {
        "DISTCC_HOSTS"
    };
    let word = Shown(word_around(text, usize::try_from(at).unwrap_or(0)));
    let _ = eprintln!(rt; "farm: {word} of {origin}: {}", host_reason(fault));
}

// Prints why a line of the job list is wrong, or the whole list, which is line 0.
fn tell_line<R: Eprint>(rt: &R, list: &[u8], line: u32, reason: &str) {
    let _ = if line == 0 {
        eprintln!(rt; "farm: {reason}")
    } else {
        eprintln!(rt;
            "farm: line {line} of the job list: {reason}: {}",
            Shown(line_of(list, line))
        )
    };
}

/// Prints that a line of the job list ends with CR LF, since the CR is a part of the line.
pub fn tell_carriage_return<R: Eprint>(rt: &R, line: u32) {
    let _ = eprintln!(rt;
        "farm: line {line} of the job list ends with CR LF: the CR is a part of its last word"
    );
}

// The run without blanks that holds the byte at a place.
fn word_around(text: &[u8], at: usize) -> &[u8] {
    let mut from = 0;
    for (place, byte) in text.iter().enumerate() {
        if matches!(*byte, b' ' | b'\t' | b'\n' | 12) {
            if place >= at {
                return text.get(from..place).unwrap_or(text);
            }
            from = place.saturating_add(1);
        }
    }
    text.get(from..).unwrap_or(text)
}

// A line of a text, which counts from 1.
fn line_of(text: &[u8], line: u32) -> &[u8] {
    let mut number = 1u32;
    let mut from = 0;
    for (place, byte) in text.iter().enumerate() {
        if *byte == b'\n' {
            if number == line {
                return text.get(from..place).unwrap_or(text);
            }
            number = number.saturating_add(1);
            from = place.saturating_add(1);
        }
    }
    text.get(from..).unwrap_or(text)
}

// Bytes as text: the first of them, with all that isn't printable ASCII escaped, so that they make up one line.
#[derive(Drop)]
struct Shown<'a>(&'a [u8]);

/// How many bytes are shown.
const SHOWN: usize = 200;

impl Display for Shown<'_> {
    fn fmt<W: fmt::Write>(&self, f: &mut Formatter<W>) -> fmt::Result {
        for byte in self.0.iter().take(SHOWN) {
            write!(f, "{}", byte.escape_ascii())?;
        }
        if self.0.len() > SHOWN {
            f.write_str("..")?;
        }
        Ok(())
    }
}
