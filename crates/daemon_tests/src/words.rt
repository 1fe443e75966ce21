use crate::same::{holds, same, same_items};
use access_list::Rule;
use daemon_service::Compiler;
use farmd_options::{
    Command, DoorPlace, Options, compilers_of, door_place, help_text, parse_words, rules_of,
    settings_of, tools_of, trusts_options, version_text,
};
use std::alloc::{AllocError, Global};
use std::process::Abort;
use std::test::Fail;

// The words, and the place of the first that isn't right.
const BAD: &[(&[&str], usize)] = &[
    (&["--jobs", "0"], 1),
    (&["--jobs", "17"], 1),
    (&["--jobs", "04"], 1),
    (&["--jobs"], 1),
    (&["--jobs", "1", "--jobs", "2"], 2),
    (&["--serve", "100001"], 1),
    (&["--port", "0"], 1),
    (&["--port", "65536"], 1),
    (&["--listen", "1.2.3"], 1),
    (&["-j"], 0),
    (&["--allow", "10.0.0.0/33"], 1),
    (&["--deny", "10.0.0"], 1),
    (&["--compiler", "scc"], 1),
    (&["--compiler", "=scc"], 1),
    (&["--compiler", "scc="], 1),
    (&["--compiler", "a=b", "--compiler", "a=c"], 3),
    (&["--cache", "0"], 1),
    (&["--cache", "129"], 1),
    (&["--cache", "000"], 1),
    (&["--cache", "0128"], 1),
    (&["--cache"], 1),
    (&["--cache", "1", "--cache", "2"], 2),
    (&["--shared-cache", "0"], 1),
    (&["--shared-cache", "65537"], 1),
    (&["--shared-cache", "000016"], 1),
    (&["--shared-cache"], 1),
    (&["--shared-cache", "1", "--cache", "1"], 3),
    (&["--cache", "1", "--jobs", "1", "--shared-cache", "1"], 5),
    (&["--tools", "bin"], 1),
    (&["--tools", "/opt/gcc/"], 1),
    (&["--tools", "/"], 1),
    (&["--tools", "/opt/../etc"], 1),
    (&["--tools"], 1),
    (&["--job-lifetime", "1000001"], 1),
    (&["--job-lifetime", "060"], 1),
    (&["--job-lifetime", "-1"], 1),
    (&["--job-lifetime", "1", "--job-lifetime", "1"], 2),
    (&["--port", "1", "--help"], 2),
    (&["--help", "--help"], 1),
    (&["--version", "x"], 1),
    (&["--trust-options", "--port", "0"], 2),
    (&["--trust-options", "--jobs"], 2),
    (&["--trust-options", "--trust-options"], 1),
    (&["--port", "1", "--trust-options"], 2),
];

const GOOD: &[&str] = &[
    "--compiler",
    "gcc=/usr/bin/gcc",
    "--deny",
    "10.0.0.1",
    "--port",
    "4000",
    "--listen",
    "127.0.0.1",
    "--jobs",
    "16",
    "--serve",
    "7",
    "--cache",
    "128",
    "--allow",
    "10.0.0.0/8",
    "--tools",
    "/opt/a..b",
    "--job-lifetime",
    "0",
    "--compiler",
    "cc=a=b",
    "--tools",
    "/opt/gcc",
];

fn owned(alloc: Global, words: &[&str]) -> Result<Vec<String>, AllocError> {
    let mut list = Vec::new(alloc);
    for word in words {
        list.push(String::from_str(alloc, word)?)?;
    }
    Ok(list)
}

fn expect_read<R: Abort>(rt: &R, words: &[String], read: Result<Command, usize>) {
    same(rt, &parse_words(words), &read, &words);
}

// The words are read so, and their door has this place.
fn expect<R: Abort>(
    rt: &R,
    alloc: Global,
    words: &[&str],
    read: Result<Command, usize>,
    place: Option<DoorPlace>,
) -> Result<(), Fail> {
    let words = owned(alloc, words)?;
    expect_read(rt, words.as_slice(), read);
    same(rt, &door_place(words.as_slice()), &place, &"the door");
    Ok(())
}

fn expect_bad<R: Abort>(rt: &R, alloc: Global, rows: &[(&[&str], usize)]) -> Result<(), Fail> {
    for (words, place) in rows {
        expect(rt, alloc, words, Err(*place), None)?;
    }
    Ok(())
}

#[test]
fn bad_words_are_named_by_their_place(rt: HostRuntime) -> Result<(), Fail> {
    expect_bad(&rt, rt.alloc(), BAD)
}

fn expect_last<R: Abort>(rt: &R, compilers: &[Compiler]) -> Result<(), Fail> {
    same(rt, &compilers.len(), &2, &"compilers");
    let Some(last) = compilers.get(1) else {
        return Err("there are two compilers".into());
    };
    same_items(rt, last.name.as_slice(), b"cc", &"its name");
    same_items(rt, last.program.as_slice(), b"a=b", &"its program");
    Ok(())
}

fn expect_compilers<R: Abort>(rt: &R, alloc: Global, words: &[String]) -> Result<(), Fail> {
    let compilers = compilers_of(alloc, words)?;
    expect_last(rt, compilers.as_slice())
}

const DENIED: Rule = Rule {
    allow: false,
    net: 167_772_161,
    bits: 32,
};

fn expect_rules<R: Abort>(rt: &R, alloc: Global, words: &[String]) -> Result<(), Fail> {
    let rules = rules_of(alloc, words)?;
    let shown = (rules.len(), rules.get(0).copied());
    same(rt, &shown, &(2, Some(DENIED)), &"rules");
    Ok(())
}

const OPTIONS: Options = Options {
    port: Some(4000),
    listen: Some(2_130_706_433),
    jobs: Some(16),
    serve: Some(7),
    cache: Some(128),
    shared: None,
    job_lifetime: Some(0),
    compilers: 2,
    rules: 2,
    tools: 2,
};

fn expect_tools<R: Abort>(rt: &R, alloc: Global, words: &[String]) -> Result<(), Fail> {
    let tools = tools_of(alloc, words)?;
    let [first, second] = tools.as_slice() else {
        return Err("there are two folders of tools".into());
    };
    same_items(
        rt,
        first.as_str().as_bytes(),
        b"/opt/a..b",
        &"the first folder",
    );
    same_items(
        rt,
        second.as_str().as_bytes(),
        b"/opt/gcc",
        &"the second folder",
    );
    Ok(())
}

fn expect_options<R: Abort>(rt: &R, alloc: Global, words: &[String]) -> Result<(), Fail> {
    expect_read(rt, words, Ok(Command::Serve(OPTIONS)));
    same(rt, &OPTIONS.job_lifetime(), &None, &"no limit of time");
    expect_tools(rt, alloc, words)?;
    expect_compilers(rt, alloc, words)?;
    expect_rules(rt, alloc, words)
}

fn expect_all_options<R: Abort>(rt: &R, alloc: Global, words: &[&str]) -> Result<(), Fail> {
    let words = owned(alloc, words)?;
    expect_options(rt, alloc, words.as_slice())
}

#[test]
fn all_options(rt: HostRuntime) -> Result<(), Fail> {
    expect_all_options(&rt, rt.alloc(), GOOD)
}

// The bytes of a door's cache and of that of all doors.
const CACHES: &[(&[&str], (Option<u64>, Option<u64>))] = &[
    (&["--cache", "016"], (Some(16_777_216), None)),
    (&["--shared-cache", "00016"], (None, Some(16_777_216))),
    (&["--shared-cache", "65536"], (None, Some(68_719_476_736))),
];

fn expect_caches<R: Abort>(rt: &R, alloc: Global) -> Result<(), Fail> {
    for (words, bounds) in CACHES {
        let words = owned(alloc, words)?;
        let Ok(Command::Serve(options)) = parse_words(words.as_slice()) else {
            return Err("it serves".into());
        };
        let shown = (options.book_bound(), options.shared_bound());
        same(rt, &shown, bounds, &words);
    }
    Ok(())
}

#[test]
fn sizes_of_caches(rt: HostRuntime) -> Result<(), Fail> {
    expect_caches(&rt, rt.alloc())
}

const PLACE: DoorPlace = DoorPlace {
    addr: 0,
    port: 3632,
    doors: 4,
};

fn expect_no_options<R: Abort>(rt: &R, words: &[String]) -> Result<(), Fail> {
    same(rt, &door_place(words), &Some(PLACE), &"no words");
    let Ok(Command::Serve(options)) = parse_words(words) else {
        return Err("it serves".into());
    };
    same(rt, &options.serve(), &100_000, &"no words");
    same(rt, &options.job_lifetime(), &Some(600), &"no words");
    Ok(())
}

#[test]
fn no_options(rt: HostRuntime) -> Result<(), Fail> {
    expect_no_options(&rt, &[])
}

const NOWHERE: DoorPlace = DoorPlace { doors: 0, ..PLACE };

fn expect_version<R: Abort>(rt: &R, alloc: Global) -> Result<(), Fail> {
    let words = owned(alloc, &["--version"])?;
    expect_read(rt, words.as_slice(), Ok(Command::Version));
    Ok(())
}

fn expect_texts<R: Abort>(rt: &R) {
    same_items(
        rt,
        version_text(),
        b"farmd 0.1, distcc protocol 1\n",
        &"the version",
    );
    holds(rt, help_text().starts_with(b"Usage: farmd"), &"the help");
}

#[test]
fn help_and_version(rt: HostRuntime) -> Result<(), Fail> {
    expect(
        &rt,
        rt.alloc(),
        &["--help"],
        Ok(Command::Help),
        Some(NOWHERE),
    )?;
    expect_texts(&rt);
    expect_version(&rt, rt.alloc())
}

// An option that is given over and over, each time with the next number from 0 as its value, between these texts.
#[derive(Clone, Copy, Debug)]
struct Numbered {
    option: &'static str,
    begin: &'static str,
    end: &'static str,
}

fn push_numbered(
    alloc: Global,
    words: &mut Vec<String>,
    row: &Numbered,
    number: u8,
) -> Result<(), AllocError> {
    let Numbered { begin, end, .. } = row;
    words.push(String::from_str(alloc, row.option)?)?;
    words.push(format!(in alloc; "{begin}{number}{end}")?)?;
    Ok(())
}

fn numbered_words(alloc: Global, row: &Numbered, count: u8) -> Result<Vec<String>, AllocError> {
    let mut words = Vec::new(alloc);
    for number in 0..count {
        push_numbered(alloc, &mut words, row, number)?;
    }
    Ok(words)
}

// The place of the first bad word if the option is given that often.
fn bad_place(alloc: Global, row: &Numbered, count: u8) -> Result<Option<usize>, AllocError> {
    let words = numbered_words(alloc, row, count)?;
    Ok(parse_words(words.as_slice()).err())
}

// An option may be given this often: once more is a bad word.
fn expect_most<R: Abort>(rt: &R, alloc: Global, rows: &[(Numbered, u8)]) -> Result<(), Fail> {
    for (row, most) in rows {
        let place = 2 * usize::from(*most) + 1;
        same(
            rt,
            &bad_place(alloc, row, most.saturating_add(1))?,
            &Some(place),
            row,
        );
        same(rt, &bad_place(alloc, row, *most)?, &None, row);
    }
    Ok(())
}

const NUMBERED: &[(Numbered, u8)] = &[
    (
        Numbered {
            option: "--compiler",
            begin: "c",
            end: "=x",
        },
        64,
    ),
    (
        Numbered {
            option: "--allow",
            begin: "10.0.0.",
            end: "",
        },
        64,
    ),
    (
        Numbered {
            option: "--tools",
            begin: "/opt/",
            end: "",
        },
        16,
    ),
];

// The 65th compiler, the 65th rule and the 17th folder of tools are bad words.
#[test]
fn one_too_many(rt: HostRuntime) -> Result<(), Fail> {
    expect_most(&rt, rt.alloc(), NUMBERED)
}

fn expect_trust<R: Abort>(rt: &R, words: &[String]) {
    let settings = settings_of(words);
    holds(rt, trusts_options(words), &"all words");
    same(rt, &settings.len(), &1, &"settings");
    holds(rt, !trusts_options(settings), &"settings");
    expect_read(rt, words, Ok(Command::Version));
}

fn expect_trusted<R: Abort>(rt: &R, alloc: Global) -> Result<(), Fail> {
    let words = owned(alloc, &["--trust-options", "--version"])?;
    expect_trust(rt, words.as_slice());
    Ok(())
}

#[test]
fn trusted_options(rt: HostRuntime) -> Result<(), Fail> {
    expect_trusted(&rt, rt.alloc())
}
