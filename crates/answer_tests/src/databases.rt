//! Databases with their job lists or their faults.

use crate::same::{same, same_bytes};
use compile_database::{DatabaseError, DatabaseFault, Selection, job_list_of};
use farm_types::Bytes;
use job_list::JobFault;
use std::alloc::{AllocError, Global};
use std::process::Abort;
use std::test::Fail;

const ALL: Selection<'static> = Selection {
    folder: None,
    from: 0,
    count: None,
};

/// A database, what is taken of it, and the job list that it gives.
type ListRow = (&'static str, Selection<'static>, &'static str);

const TWO_FOLDERS: &str = "[{\"directory\":\"/a\",\"arguments\":[\"gcc\",\"-c\",\"x.c\"]},
 {\"directory\":\"/b\",\"arguments\":[\"gcc\",\"-c\",\"y.c\"]},
 {\"directory\":\"/a\",\"arguments\":[\"gcc\",\"-c\",\"z.c\"]}]";

const LISTS: &[ListRow] = &[
    (
        "[{\"directory\":\"/a\",\"file\":\"x.c\",\"arguments\":[\"gcc\",\"-DA=\\\"b c\\\"\",\"\",\"-c\",\"x.c\"],\"command\":\"cc\"}]",
        ALL,
        "\"gcc\" \"-DA=\\\"b c\\\"\" \"\" \"-c\" \"x.c\"\n",
    ),
    (
        "[{\"directory\":\"/a\",\"command\":\"gcc -DA=\\\\\\\"b\\\\\\\" '-DB=c d' \\\"e\\\\$f\\\\gh\\\" i\\\\\\nj  -c x.c\"}]",
        ALL,
        "\"gcc\" \"-DA=\\\"b\\\"\" \"-DB=c d\" \"e$f\\\\gh\" \"ij\" \"-c\" \"x.c\"\n",
    ),
    (
        TWO_FOLDERS,
        Selection {
            folder: Some("/a"),
            ..ALL
        },
        "\"gcc\" \"-c\" \"x.c\"\n\"gcc\" \"-c\" \"z.c\"\n",
    ),
    (
        TWO_FOLDERS,
        Selection {
            folder: Some("/a"),
            from: 1,
            ..ALL
        },
        "\"gcc\" \"-c\" \"z.c\"\n",
    ),
    (
        "[{\"directory\":\"/a\",\"command\":\"gcc -MD -c x.c -o o/x.o\"},{\"directory\":\"/a\",\"command\":\"gcc -MD y.c -o y\"}]",
        ALL,
        "\"gcc\" \"-MD\" \"-c\" \"x.c\" \"-o\" \"o/x.o\" \"-MF\" \"o/x.d\" \"-MQ\" \"o/x.o\"\n\"gcc\" \"-MD\" \"y.c\" \"-o\" \"y\"\n",
    ),
    (
        TWO_FOLDERS,
        Selection {
            folder: Some("/a"),
            count: Some(1),
            ..ALL
        },
        "\"gcc\" \"-c\" \"x.c\"\n",
    ),
];

/// The job list of the database in this row.
fn list_of<R: Abort>(
    rt: &R,
    alloc: Global,
    text: &str,
    selection: &Selection<'_>,
    at: usize,
) -> Bytes {
    match job_list_of(alloc, text.as_bytes(), selection) {
        Ok(list) => list,
        Err(error) => panic!(rt; "row {at}: {error:?}"),
    }
}

fn expect_lists<R: Abort>(rt: &R, alloc: Global, rows: &[ListRow]) {
    for (at, (text, selection, wanted)) in rows.iter().enumerate() {
        let list = list_of(rt, alloc, text, selection, at);
        same_bytes(rt, list.as_slice(), wanted.as_bytes(), &at);
    }
}

#[test]
fn lists(rt: HostRuntime) {
    expect_lists(&rt, rt.alloc(), LISTS);
}

/// A database, what is taken of it, and its fault.
type FaultRow = (&'static str, Selection<'static>, DatabaseFault);

const FAULTS: &[FaultRow] = &[
    ("[", ALL, DatabaseFault::NotJson),
    ("{}", ALL, DatabaseFault::NotArray),
    ("[]", ALL, DatabaseFault::NoEntries),
    ("[1]", ALL, DatabaseFault::NoFolder { entry: 0 }),
    (
        "[{\"arguments\":[\"a\"]}]",
        ALL,
        DatabaseFault::NoFolder { entry: 0 },
    ),
    (TWO_FOLDERS, ALL, DatabaseFault::OtherFolder { entry: 1 }),
    (
        TWO_FOLDERS,
        Selection {
            folder: Some("/c"),
            ..ALL
        },
        DatabaseFault::NoEntries,
    ),
    (
        TWO_FOLDERS,
        Selection {
            folder: Some("/a"),
            from: 2,
            ..ALL
        },
        DatabaseFault::NoEntries,
    ),
    (
        "[{\"directory\":\"/\",\"command\":\"a\"},{\"directory\":\"/\"}]",
        ALL,
        DatabaseFault::NoForm { entry: 1 },
    ),
    (
        "[{\"directory\":\"/\",\"arguments\":[\"a\",1]}]",
        ALL,
        DatabaseFault::NoForm { entry: 0 },
    ),
    (
        "[{\"directory\":\"/\",\"arguments\":\"a\",\"command\":\"a\"}]",
        ALL,
        DatabaseFault::NoForm { entry: 0 },
    ),
    (
        "[{\"directory\":\"/\",\"command\":\"a 'b\"}]",
        ALL,
        DatabaseFault::OpenQuote { entry: 0 },
    ),
    (
        "[{\"directory\":\"/\",\"command\":\"a \\\\\"}]",
        ALL,
        DatabaseFault::OpenQuote { entry: 0 },
    ),
    (
        "[{\"directory\":\"/\",\"command\":\" \"}]",
        ALL,
        DatabaseFault::NoWords { entry: 0 },
    ),
    (
        "[{\"directory\":\"/\",\"arguments\":[\"a\",\"b\\nc\"]}]",
        ALL,
        DatabaseFault::BadWord { entry: 0 },
    ),
    (
        "[{\"directory\":\"/\",\"arguments\":[\"a\\u0000\"]}]",
        ALL,
        DatabaseFault::BadWord { entry: 0 },
    ),
    (
        "[{\"directory\":\"/\",\"command\":\"gcc -c a.c\"},{\"directory\":\"/\",\"command\":\"gcc -c a.c\"}]",
        ALL,
        DatabaseFault::JobList {
            line: 2,
            fault: JobFault::SameOutput {
                first: 1,
                second: 2,
            },
        },
    ),
];

/// Why there is no job list.
fn error_of(alloc: Global, text: &str, selection: &Selection<'_>) -> Option<DatabaseError> {
    job_list_of(alloc, text.as_bytes(), selection).err()
}

fn expect_faults<R: Abort>(rt: &R, alloc: Global, rows: &[FaultRow]) {
    for (at, (text, selection, fault)) in rows.iter().enumerate() {
        let error = error_of(alloc, text, selection);
        same(rt, &error, &Some(DatabaseError::Fault(*fault)), &at);
    }
}

#[test]
fn each_bad_database_has_its_fault(rt: HostRuntime) {
    expect_faults(&rt, rt.alloc(), FAULTS);
}

/// A database of that many entries, each of them `true`.
fn many(alloc: Global, count: usize) -> Result<String, AllocError> {
    let mut text = String::from_str(alloc, "[")?;
    for at in 0..count {
        if 0 < at {
            text.push_str(",")?;
        }
        text.push_str("{\"directory\":\"/\",\"command\":\"true\"}")?;
    }
    text.push_str("]")?;
    Ok(text)
}

/// What is taken of 514 entries, and the fault.
const MOST: &[(Selection<'static>, Option<DatabaseFault>)] = &[
    (ALL, Some(DatabaseFault::TooMany { entry: 512 })),
    (
        Selection { from: 1, ..ALL },
        Some(DatabaseFault::TooMany { entry: 513 }),
    ),
    (Selection { from: 2, ..ALL }, None),
    (
        Selection {
            from: 1,
            count: Some(512),
            ..ALL
        },
        None,
    ),
];

fn expect_most<R: Abort>(
    rt: &R,
    alloc: Global,
    text: &str,
    rows: &[(Selection<'static>, Option<DatabaseFault>)],
) {
    for (selection, fault) in rows {
        let error = error_of(alloc, text, selection);
        same(rt, &error, &fault.map(DatabaseError::Fault), selection);
    }
}

#[test]
fn at_most_512(rt: HostRuntime) -> Result<(), Fail> {
    let text = many(rt.alloc(), 514)?;
    expect_most(&rt, rt.alloc(), text.as_str(), MOST);
    Ok(())
}
