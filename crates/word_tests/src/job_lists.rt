//! Rows of texts, with the words that they list or the place at which they are wrong.

use crate::same::{same, same_bytes};
use farm_types::{Bytes, Words};
use job_list::{JobError, JobFault, are_printable, parse, print_words};
use std::alloc::{AllocError, Global};
use std::process::Abort;
use std::test::Fail;

/// The words, with `|` after each.
fn shown(alloc: Global, words: &Words) -> Result<Bytes, AllocError> {
    let mut shown = Bytes::new(alloc);
    for word in words.as_slice() {
        shown.try_extend(word.as_slice())?;
        shown.try_push(b'|')?;
    }
    Ok(shown)
}

/// The words of the first job, with `|` after each.
fn words_text(alloc: Global, text: &[u8]) -> Result<Bytes, JobError> {
    let jobs = parse(alloc, text)?;
    match jobs.get(0) {
        Some(words) => Ok(shown(alloc, words)?),
        None => Ok(Bytes::new(alloc)),
    }
}

/// The fault, and its line.
fn fault_of(alloc: Global, text: &[u8]) -> Option<(u32, JobFault)> {
    match parse(alloc, text) {
        Err(JobError::Fault { line, fault }) => Some((line, fault)),
        _ => None,
    }
}

/// The number of jobs.
fn count_of(alloc: Global, text: &[u8]) -> Result<usize, JobError> {
    let jobs = parse(alloc, text)?;
    Ok(jobs.len())
}

/// A text, and the words of its first job.
type Quoted = (&'static [u8], &'static [u8]);

const QUOTED: &[Quoted] = &[
    (b"scc -c a.c", b"scc|-c|a.c|"),
    (b"scc -c \"a b.c\"", b"scc|-c|a b.c|"),
    (b" \t scc\t\t-c  a.c \t", b"scc|-c|a.c|"),
    (b"'a b'\"c d\"\\ e", b"a bc d e|"),
    (b"'' x", b"|x|"),
    (b"x \"\"", b"x||"),
    (b"''\"\"''", b"|"),
    (b"'a\\b'", b"a\\b|"),
    (b"'\"' \"'\"", b"\"|'|"),
    (b"\"a\\\"b\\\\c\\d\\ e\"", b"a\"b\\c\\d\\ e|"),
    (b"\\\\ \\' \\\" \\x", b"\\|'|\"|x|"),
    (b"a#b #c", b"a#b|#c|"),
    (b"\n# no job\n \t#'\n\t\nx y\n", b"x|y|"),
    (b"a\x0cb\r c", b"a\x0cb\r|c|"),
];

fn expect_quoted<R: Abort>(rt: &R, alloc: Global, rows: &[Quoted]) -> Result<(), Fail> {
    for (text, wanted) in rows {
        let shown = words_text(alloc, text)?;
        same_bytes(rt, shown.as_slice(), wanted, text);
    }
    Ok(())
}

#[test]
fn quoting(rt: HostRuntime) -> Result<(), Fail> {
    expect_quoted(&rt, rt.alloc(), QUOTED)
}

/// A text, its fault, and the line of the fault.
type Faulty = (&'static [u8], u32, JobFault);

const FAULTY: &[Faulty] = &[
    (b"", 0, JobFault::NoJobs),
    (b"\n \t\n# x\n", 0, JobFault::NoJobs),
    (b"scc 'a", 1, JobFault::OpenQuote),
    (b"scc \"a", 1, JobFault::OpenQuote),
    (b"scc \"a\\\"", 1, JobFault::OpenQuote),
    (b"scc \"a\\", 1, JobFault::OpenQuote),
    (b"scc '", 1, JobFault::OpenQuote),
    (b"scc \"", 1, JobFault::OpenQuote),
    (b"\n\nscc 'a\n'", 3, JobFault::OpenQuote),
    (b"scc a\\", 1, JobFault::BadEscape),
    (b"x\n\\\ny", 2, JobFault::BadEscape),
    (b"a\xff", 1, JobFault::NotText),
    (b"x\na\x00b", 2, JobFault::NotText),
    (b"'\xff", 1, JobFault::NotText),
    (b"x\n'\x00", 2, JobFault::NotText),
    (b"#\xff\n#\x00\n'", 3, JobFault::OpenQuote),
    (b"'a\nx\\", 1, JobFault::OpenQuote),
    (b"x\\\n'a", 1, JobFault::BadEscape),
    (b"x \\\r\n\\", 2, JobFault::BadEscape),
    (b"scc -c a.c\nscc -c a.c\n'", 3, JobFault::OpenQuote),
];

fn expect_fault<R: Abort>(rt: &R, alloc: Global, text: &[u8], line: u32, fault: JobFault) {
    same(rt, &fault_of(alloc, text), &Some((line, fault)), &text);
}

fn expect_faulty<R: Abort>(rt: &R, alloc: Global, rows: &[Faulty]) {
    for (text, line, fault) in rows {
        expect_fault(rt, alloc, text, *line, *fault);
    }
}

#[test]
fn faults(rt: HostRuntime) {
    expect_faulty(&rt, rt.alloc(), FAULTY);
}

/// A text, the line of the fault, and the two jobs.
type SameOutput = (&'static [u8], u32, u32, u32);

const SAME_OUTPUTS: &[SameOutput] = &[
    (b"scc -c a.c\nscc -c a.c\n", 2, 1, 2),
    (b"scc -c a.c\n\nscc -c b.c\nscc -c b.c\nscc -c a.c", 4, 2, 3),
    (b"scc -c a.c -o x\n#\n\"scc\" -S b.c -ox\n", 3, 1, 2),
    (b"x\nscc -c a.c\nscc -c d/a.c\nscc -c a.c", 3, 2, 3),
    (b"scc -c a.c\nx\nscc -c b.c\nscc -c c.c -o a.o", 4, 1, 4),
];

fn expect_same_outputs<R: Abort>(rt: &R, alloc: Global, rows: &[SameOutput]) {
    for (text, line, first, second) in rows {
        let wanted = JobFault::SameOutput {
            first: *first,
            second: *second,
        };
        expect_fault(rt, alloc, text, *line, wanted);
    }
}

const OTHER_OUTPUTS: &[u8] = b"scc -E a.c -o x\nscc -E b.c -o x\nscc -c a.c -o x";

#[test]
fn same_outputs(rt: HostRuntime) -> Result<(), Fail> {
    expect_same_outputs(&rt, rt.alloc(), SAME_OUTPUTS);
    same(
        &rt,
        &count_of(rt.alloc(), OTHER_OUTPUTS)?,
        &3,
        &OTHER_OUTPUTS,
    );
    Ok(())
}

const NUMBERS: &[(JobFault, u8)] = &[
    (JobFault::OpenQuote, 1),
    (JobFault::BadEscape, 2),
    (JobFault::NoJobs, 3),
    (JobFault::TooMany, 4),
    (JobFault::TooLong { bytes: 9 }, 5),
    (
        JobFault::SameOutput {
            first: 1,
            second: 2,
        },
        6,
    ),
    (JobFault::NotText, 7),
];

fn expect_numbers<R: Abort>(rt: &R, rows: &[(JobFault, u8)]) {
    for (fault, number) in rows {
        same(rt, &fault.number(), number, fault);
    }
}

#[test]
fn numbers(rt: HostRuntime) {
    expect_numbers(&rt, NUMBERS);
}

/// A text of as many lines `x`, and after them another one.
fn lines_of_x(alloc: Global, count: usize, last: &[u8]) -> Result<Vec<u8>, AllocError> {
    let mut text = Vec::new(alloc);
    for _ in 0..count {
        text.extend_from_slice(b"x\n")?;
    }
    text.extend_from_slice(last)?;
    Ok(text)
}

/// The fault of as many lines `x`, and of another one after them.
fn fault_of_lines(
    alloc: Global,
    count: usize,
    last: &[u8],
) -> Result<Option<(u32, JobFault)>, AllocError> {
    let text = lines_of_x(alloc, count, last)?;
    Ok(fault_of(alloc, text.as_slice()))
}

fn count_of_lines(alloc: Global, count: usize) -> Result<usize, Fail> {
    let text = lines_of_x(alloc, count, b"")?;
    Ok(count_of(alloc, text.as_slice())?)
}

#[test]
fn limits(rt: HostRuntime) -> Result<(), Fail> {
    let alloc = rt.alloc();
    same(&rt, &count_of_lines(alloc, 512)?, &512, &"512 lines");
    let many = fault_of_lines(alloc, 513, b"")?;
    same(&rt, &many, &Some((513, JobFault::TooMany)), &"513 lines");
    let bad = fault_of_lines(alloc, 512, b"\\")?;
    same(&rt, &bad, &Some((513, JobFault::BadEscape)), &"the 513th");
    Ok(())
}

/// A text without a job that has as many bytes as a text may have.
fn long_comment(alloc: Global) -> Result<Vec<u8>, AllocError> {
    let mut text = vec![in alloc; b' '; 16_777_216]?;
    text[0] = b'#';
    Ok(text)
}

#[test]
fn long_texts(rt: HostRuntime) -> Result<(), Fail> {
    let mut text = long_comment(rt.alloc())?;
    let fault = fault_of(rt.alloc(), text.as_slice());
    same(&rt, &fault, &Some((0, JobFault::NoJobs)), &"the longest");
    text.push(b' ')?;
    let fault = fault_of(rt.alloc(), text.as_slice());
    let long = JobFault::TooLong { bytes: 16_777_217 };
    same(&rt, &fault, &Some((0, long)), &"a byte more");
    Ok(())
}

const PRINTED: &[&[u8]] = &[
    b"scc -c a.c",
    b"'a b' \"c\\\"d\" e\\\\f",
    b"''",
    b"'' ''",
    b"\\#x '#' '\\'",
    b"\"'\" \"\\a\"",
];

/// The line that is printed of the words of the first job.
fn printed(alloc: Global, text: &[u8]) -> Result<Bytes, JobError> {
    let jobs = parse(alloc, text)?;
    match jobs.get(0) {
        Some(words) => Ok(print_words(alloc, words)?),
        None => Ok(Bytes::new(alloc)),
    }
}

fn expect_again<R: Abort>(rt: &R, alloc: Global, line: &[u8], text: &[u8]) -> Result<(), Fail> {
    let again = words_text(alloc, line)?;
    let shown = words_text(alloc, text)?;
    same_bytes(rt, again.as_slice(), shown.as_slice(), &text);
    Ok(())
}

fn expect_printed<R: Abort>(rt: &R, alloc: Global, rows: &[&[u8]]) -> Result<(), Fail> {
    for text in rows {
        let line = printed(alloc, text)?;
        expect_again(rt, alloc, line.as_slice(), text)?;
    }
    Ok(())
}

#[test]
fn printed_lines(rt: HostRuntime) -> Result<(), Fail> {
    expect_printed(&rt, rt.alloc(), PRINTED)
}

/// A word, and whether a line spells it.
type Spelled = (&'static [u8], bool);

const SPELLED: &[Spelled] = &[
    (b"", true),
    (b"\t\r'\"\\#\xff", true),
    (b"a\n", false),
    (b"\x00", false),
    (b"a\x00\n", false),
];

fn words_of(alloc: Global, texts: &[&[u8]]) -> Result<Words, AllocError> {
    let mut words = Words::new(alloc);
    for text in texts {
        words.try_push(Bytes::from_slice(alloc, text)?)?;
    }
    Ok(words)
}

fn expect_spelled<R: Abort>(rt: &R, alloc: Global, rows: &[Spelled]) -> Result<(), Fail> {
    for (word, wanted) in rows {
        let words = words_of(alloc, &[b"scc", word])?;
        same(rt, &are_printable(&words), wanted, word);
    }
    Ok(())
}

#[test]
fn words_that_no_line_spells(rt: HostRuntime) -> Result<(), Fail> {
    expect_spelled(&rt, rt.alloc(), SPELLED)
}
