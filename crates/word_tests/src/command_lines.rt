//! Command lines with what they ask for, or the place of the first word that doesn't fit.

use crate::same::{holds, same, same_bytes};
use farm_options::{
    Command, CommandName, Options, back_off_period, help_text, host_text, is_fallback_on, lookup,
    parse_command, version_text,
};
use std::alloc::{AllocError, Global};
use std::process::Abort;
use std::test::Fail;

/// The words of a line with single blanks.
fn words_of(alloc: Global, line: &str) -> Result<Vec<String>, AllocError> {
    let mut words = Vec::new(alloc);
    for word in line.split(' ') {
        if !word.is_empty() {
            words.push(String::from_str(alloc, word)?)?;
        }
    }
    Ok(words)
}

/// A line, and the command that it is.
type CommandRow = (&'static str, &'static str);

const COMMANDS: &[CommandRow] = &[
    (
        "build",
        "Build(Options { hosts: None, workers: None, tries: None, lines: None, fallback: true, retry: true })",
    ),
    (
        "build --hosts red/2 --workers 16 --tries 16 --no-fallback --no-retry",
        "Build(Options { hosts: Some(\"red/2\"), workers: Some(16), tries: Some(16), lines: None, fallback: false, retry: false })",
    ),
    (
        "build --no-retry --tries 01 --workers 016 --hosts --hosts",
        "Build(Options { hosts: Some(\"--hosts\"), workers: Some(16), tries: Some(1), lines: None, fallback: true, retry: false })",
    ),
    (
        "build --workers 001",
        "Build(Options { hosts: None, workers: Some(1), tries: None, lines: None, fallback: true, retry: true })",
    ),
    (
        "graph --tries 2 --hosts a",
        "Graph(Options { hosts: Some(\"a\"), workers: None, tries: Some(2), lines: None, fallback: true, retry: true })",
    ),
    (
        "watch",
        "Watch(Options { hosts: None, workers: None, tries: None, lines: None, fallback: true, retry: true })",
    ),
    (
        "watch --lines 100 --workers 15 --no-retry",
        "Watch(Options { hosts: None, workers: Some(15), tries: None, lines: Some(100), fallback: true, retry: false })",
    ),
    (
        "watch --hosts a --lines 001",
        "Watch(Options { hosts: Some(\"a\"), workers: None, tries: None, lines: Some(1), fallback: true, retry: true })",
    ),
    ("hosts", "Hosts { hosts: None }"),
    ("hosts --hosts @red", "Hosts { hosts: Some(\"@red\") }"),
    (
        "scan scc -c x.c",
        "Scan { words: [\"scc\", \"-c\", \"x.c\"] }",
    ),
    ("cc scc", "Cc { words: [\"scc\"] }"),
    ("scan --help x", "Scan { words: [\"--help\", \"x\"] }"),
    ("rehearse 1", "Rehearse { jobs: 1 }"),
    ("rehearse 002", "Rehearse { jobs: 2 }"),
    ("rehearse 512", "Rehearse { jobs: 512 }"),
    ("--help", "Help(None)"),
    ("--version", "Version"),
    ("build --help", "Help(Some(Build))"),
    ("watch --help", "Help(Some(Watch))"),
    ("graph --help", "Help(Some(Graph))"),
    ("cc --help", "Help(Some(Cc))"),
    ("hosts --help", "Help(Some(Hosts))"),
    ("scan --help", "Help(Some(Scan))"),
    ("rehearse --help", "Help(Some(Rehearse))"),
];

fn text_of(alloc: Global, command: &Command<'_>) -> Result<String, AllocError> {
    format!(in alloc; "{command:?}")
}

/// The text of the command that these words are.
fn command_text<R: Abort>(
    rt: &R,
    alloc: Global,
    words: &[String],
    line: &str,
) -> Result<String, AllocError> {
    match parse_command(words) {
        Ok(command) => text_of(alloc, &command),
        Err(place) => panic!(rt; "{line}: word {place}"),
    }
}

fn expect_command<R: Abort>(
    rt: &R,
    alloc: Global,
    words: &[String],
    row: &CommandRow,
) -> Result<(), AllocError> {
    let (line, wanted) = row;
    let text = command_text(rt, alloc, words, line)?;
    same_bytes(rt, text.as_bytes(), wanted.as_bytes(), line);
    Ok(())
}

fn expect_commands<R: Abort>(rt: &R, alloc: Global, rows: &[CommandRow]) -> Result<(), Fail> {
    for row in rows {
        let words = words_of(alloc, row.0)?;
        expect_command(rt, alloc, words.as_slice(), row)?;
    }
    Ok(())
}

#[test]
fn commands(rt: HostRuntime) -> Result<(), Fail> {
    expect_commands(&rt, rt.alloc(), COMMANDS)
}

/// A line, and the place of the first word that doesn't fit.
type BadRow = (&'static str, usize);

const BAD_WORDS: &[BadRow] = &[
    ("", 0),
    ("make", 0),
    ("Build", 0),
    ("--help build", 1),
    ("--version --help", 1),
    ("build --workers 0", 2),
    ("build --workers 17", 2),
    ("build --workers +4", 2),
    ("build --workers 4x", 2),
    ("build --workers 0016", 2),
    ("build --workers", 2),
    ("build --tries 0", 2),
    ("build --tries 17", 2),
    ("build --tries 001", 2),
    ("build --tries", 2),
    ("build --workers 1 --tries 17", 4),
    ("build --tries 1 --tries 2", 3),
    ("build --hosts", 2),
    ("build --no-retry --hosts", 3),
    ("build --hosts a --hosts b", 3),
    ("build --workers 1 --workers 2", 3),
    ("build --no-fallback --no-fallback", 2),
    ("build --no-retry --no-retry", 2),
    ("build x", 1),
    ("build --hosts=a", 1),
    ("build --no-retry x", 2),
    ("build --help x", 2),
    ("build --lines 10", 1),
    ("graph --lines 10", 1),
    ("hosts --lines 10", 1),
    ("watch --lines 0", 2),
    ("watch --lines 101", 2),
    ("watch --lines 0010", 2),
    ("watch --lines +1", 2),
    ("watch --lines", 2),
    ("watch --lines 1 --lines 2", 3),
    ("watch x", 1),
    ("graph --workers 17", 2),
    ("graph x", 1),
    ("hosts --workers 3", 1),
    ("hosts --tries 3", 1),
    ("hosts --no-fallback", 1),
    ("hosts --hosts a x", 3),
    ("cc", 1),
    ("scan", 1),
    ("rehearse", 1),
    ("rehearse 0", 1),
    ("rehearse 000", 1),
    ("rehearse 0001", 1),
    ("rehearse 513", 1),
    ("rehearse 1 2", 2),
    ("rehearse --help 1", 2),
];

fn expect_bad<R: Abort>(rt: &R, alloc: Global, rows: &[BadRow]) -> Result<(), Fail> {
    for (line, place) in rows {
        let words = words_of(alloc, line)?;
        same(
            rt,
            &parse_command(words.as_slice()).err(),
            &Some(*place),
            line,
        );
    }
    Ok(())
}

#[test]
fn bad_words(rt: HostRuntime) -> Result<(), Fail> {
    expect_bad(&rt, rt.alloc(), BAD_WORDS)
}

/// A line of `watch`, and its number of workers, of tries and of lines.
type CountRow = (&'static str, u8, u8, u8);

const COUNTS: &[CountRow] = &[
    ("watch", 4, 1, 10),
    ("watch --workers 16", 16, 1, 10),
    ("watch --tries 16 --workers 1 --lines 99", 1, 16, 99),
];

fn expect_options<R: Abort>(rt: &R, options: &Options<'_>, row: &CountRow) {
    let (line, workers, tries, lines) = row;
    same(rt, &options.worker_count(), workers, line);
    same(rt, &options.try_count(), tries, line);
    same(rt, &options.line_count(), lines, line);
}

fn expect_watch<R: Abort>(rt: &R, words: &[String], row: &CountRow) {
    match parse_command(words) {
        Ok(Command::Watch(options)) => expect_options(rt, &options, row),
        _ => panic!(rt; "{}", row.0),
    }
}

fn expect_counts<R: Abort>(rt: &R, alloc: Global, rows: &[CountRow]) -> Result<(), Fail> {
    for row in rows {
        let words = words_of(alloc, row.0)?;
        expect_watch(rt, words.as_slice(), row);
    }
    Ok(())
}

#[test]
fn counts(rt: HostRuntime) -> Result<(), Fail> {
    expect_counts(&rt, rt.alloc(), COUNTS)
}

fn pair_of(alloc: Global, name: &str, value: &str) -> Result<(String, String), AllocError> {
    let name = String::from_str(alloc, name)?;
    Ok((name, String::from_str(alloc, value)?))
}

/// The variables of a text `NAME=VALUE NAME=VALUE`.
fn variables_of(alloc: Global, text: &str) -> Result<Vec<(String, String)>, AllocError> {
    let mut env = Vec::new(alloc);
    for part in text.split(' ') {
        if let Some((name, value)) = part.split_once('=') {
            env.push(pair_of(alloc, name, value)?)?;
        }
    }
    Ok(env)
}

const TWICE: &str = "A=1 DISTCC_HOSTS=red DISTCC_HOSTS=blue DISTCC_FALLBACK=0 DISTCC_FALLBACK=1";

/// The variables; the option `--hosts`; the text of the host list; whether fallback is on without `--no-fallback`.
type EnvironmentRow = (&'static str, Option<&'static str>, &'static str, bool);

const ENVIRONMENTS: &[EnvironmentRow] = &[
    ("", None, "", true),
    (TWICE, None, "red", false),
    (TWICE, Some("green"), "green", false),
    (TWICE, Some(""), "", false),
    ("DISTCC_HOST=red DISTCC_FALLBACK=00", None, "", true),
    ("DISTCC_HOSTS= DISTCC_FALLBACK=", None, "", true),
];

fn expect_environment<R: Abort>(rt: &R, env: &[(String, String)], row: &EnvironmentRow) {
    let (text, hosts, wanted, fallback) = row;
    same(rt, &host_text(*hosts, env), wanted, text);
    let mut options = Options {
        hosts: *hosts,
        workers: None,
        tries: None,
        lines: None,
        fallback: true,
        retry: true,
    };
    same(rt, &is_fallback_on(&options, env), fallback, text);
    options.fallback = false;
    same(rt, &is_fallback_on(&options, env), &false, text);
}

fn expect_environments<R: Abort>(
    rt: &R,
    alloc: Global,
    rows: &[EnvironmentRow],
) -> Result<(), Fail> {
    for row in rows {
        let env = variables_of(alloc, row.0)?;
        expect_environment(rt, env.as_slice(), row);
    }
    Ok(())
}

fn expect_lookups<R: Abort>(rt: &R, env: &[(String, String)]) {
    same(rt, &lookup(env, "A"), &Some("1"), &"A");
    same(rt, &lookup(env, "a"), &None, &"a");
}

#[test]
fn environment(rt: HostRuntime) -> Result<(), Fail> {
    expect_environments(&rt, rt.alloc(), ENVIRONMENTS)?;
    let env = variables_of(rt.alloc(), TWICE)?;
    expect_lookups(&rt, env.as_slice());
    Ok(())
}

/// The variables, and the back-off period.
type PeriodRow = (&'static str, Option<u32>);

const PERIODS: &[PeriodRow] = &[
    ("DISTCC_BACKOFF_PERIODS=x", Some(60)),
    ("DISTCC_BACKOFF_PERIOD=0", Some(0)),
    ("DISTCC_BACKOFF_PERIOD=0000007", Some(7)),
    ("DISTCC_BACKOFF_PERIOD=1000000", Some(1_000_000)),
    ("DISTCC_BACKOFF_PERIOD=5 DISTCC_BACKOFF_PERIOD=x", Some(5)),
    ("DISTCC_BACKOFF_PERIOD=", None),
    ("DISTCC_BACKOFF_PERIOD=1000001", None),
    ("DISTCC_BACKOFF_PERIOD=00000007", None),
    ("DISTCC_BACKOFF_PERIOD=+7", None),
    ("DISTCC_BACKOFF_PERIOD=7s", None),
    ("DISTCC_BACKOFF_PERIOD=x DISTCC_BACKOFF_PERIOD=5", None),
];

fn expect_periods<R: Abort>(rt: &R, alloc: Global, rows: &[PeriodRow]) -> Result<(), Fail> {
    for (text, period) in rows {
        let env = variables_of(alloc, text)?;
        same(rt, &back_off_period(env.as_slice()), period, text);
    }
    Ok(())
}

#[test]
fn periods(rt: HostRuntime) -> Result<(), Fail> {
    expect_periods(&rt, rt.alloc(), PERIODS)
}

/// A command, and how its help begins.
type HelpRow = (Option<CommandName>, &'static [u8]);

const HELPS: &[HelpRow] = &[
    (None, b"Usage: farm build --hosts"),
    (Some(CommandName::Build), b"Usage: farm build"),
    (Some(CommandName::Watch), b"Usage: farm watch"),
    (Some(CommandName::Graph), b"Usage: farm graph"),
    (Some(CommandName::Cc), b"Usage: farm cc"),
    (Some(CommandName::Hosts), b"Usage: farm hosts"),
    (Some(CommandName::Scan), b"Usage: farm scan"),
    (Some(CommandName::Rehearse), b"Usage: farm rehearse"),
];

fn expect_helps<R: Abort>(rt: &R, rows: &[HelpRow]) {
    for (name, usage) in rows {
        let text = help_text(*name);
        holds(rt, text.starts_with(usage), usage);
        holds(rt, text.ends_with(b"\n"), usage);
    }
}

#[test]
fn texts(rt: HostRuntime) {
    expect_helps(&rt, HELPS);
    same_bytes(
        &rt,
        version_text(),
        b"farm 0.1, distcc protocol 1\n",
        &"version",
    );
}
