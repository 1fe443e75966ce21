//! Each end with its printed line and its number, by the tables of docs/farm-command.md.

use crate::same::{same, same_bytes};
use edge_traits::Cause;
use farm_machine::{By, End, EventList, Report, ReportList, Why5};
use farm_types::{Bytes, Host, HostName, HostVec, Hosts};
use report_text::{Printed, command_lines, lines, status, total};
use std::alloc::{AllocError, Global};
use std::process::Abort;
use std::test::Fail;
use wire_tokens::{ReplyFault, Which};

/// How a job ended, without its messages.
#[derive(Clone, Copy, Debug)]
enum Way {
    Done(By, u32),
    Failed(Why5),
}

/// An end, what is in its line after the number, and its exit status.
type Row = (Way, &'static str, u8);

const ROWS: &[Row] = &[
    (Way::Done(By::Cpp, 256), "cpp stat 00000100", 1),
    (
        Way::Done(By::Remote(0), 0),
        "remote red:4000 stat 00000000",
        0,
    ),
    (
        Way::Done(By::Remote(1), 65_280),
        "remote blue:3632 stat 0000ff00",
        255,
    ),
    (Way::Done(By::Here, 9), "here stat 00000009", 104),
    (Way::Done(By::Here, 139), "here stat 0000008b", 104),
    (Way::Done(By::Here, 128), "here stat 00000080", 104),
    (Way::Done(By::InPlace, 65_536), "local stat 00010000", 104),
    (Way::Done(By::InPlace, u32::MAX), "local stat ffffffff", 104),
    (Way::Failed(Why5::Station), "failed child", 107),
    (Way::Failed(Why5::Put), "failed put", 107),
    (
        Way::Failed(Why5::Broke {
            host: 0,
            cause: Cause::Dial,
        }),
        "failed red:4000 dial",
        103,
    ),
    (
        Way::Failed(Why5::Broke {
            host: 1,
            cause: Cause::Send,
        }),
        "failed blue:3632 send",
        107,
    ),
    (
        Way::Failed(Why5::Broke {
            host: 0,
            cause: Cause::Recv,
        }),
        "failed red:4000 recv",
        107,
    ),
    (
        Way::Failed(Why5::Broke {
            host: 0,
            cause: Cause::Truncated { have: 72 },
        }),
        "failed red:4000 cut 72",
        108,
    ),
    (
        Way::Failed(Why5::Broke {
            host: 0,
            cause: Cause::BadReply {
                at: 0,
                fault: ReplyFault::WrongName,
            },
        }),
        "failed red:4000 reply 1 at 0",
        109,
    ),
    (
        Way::Failed(Why5::Broke {
            host: 0,
            cause: Cause::BadReply {
                at: 4,
                fault: ReplyFault::BadDigit,
            },
        }),
        "failed red:4000 reply 2 at 4",
        109,
    ),
    (
        Way::Failed(Why5::Broke {
            host: 0,
            cause: Cause::BadReply {
                at: 11,
                fault: ReplyFault::BadVersion { n: 2 },
            },
        }),
        "failed red:4000 reply 3 at 11",
        109,
    ),
    (
        Way::Failed(Why5::Broke {
            host: 0,
            cause: Cause::BadReply {
                at: 59,
                fault: ReplyFault::TooLarge {
                    which: Which::Doto,
                    len: 2_147_483_647,
                },
            },
        }),
        "failed red:4000 reply 5 at 59",
        109,
    ),
    (
        Way::Failed(Why5::Broke {
            host: 0,
            cause: Cause::BadReply {
                at: 59,
                fault: ReplyFault::ObjectWithFailure {
                    status: 256,
                    len: 4,
                },
            },
        }),
        "failed red:4000 reply 6 at 59",
        109,
    ),
    (
        Way::Failed(Why5::Broke {
            host: 0,
            cause: Cause::Stopped,
        }),
        "failed red:4000 stopped",
        107,
    ),
    (Way::Failed(Why5::NoHost), "failed no host", 116),
    (Way::Failed(Why5::Memory), "failed memory", 105),
    (Way::Failed(Why5::Fetch), "failed read", 107),
];

fn host_of(alloc: Global, name: &[u8], port: u16) -> Result<Host, AllocError> {
    Ok(Host {
        name: HostName {
            text: Bytes::from_slice(alloc, name)?,
        },
        port,
        limit: 4,
        local: false,
    })
}

fn hosts_of(alloc: Global) -> Result<Hosts, AllocError> {
    let mut list = HostVec::new(alloc);
    list.try_push(host_of(alloc, b"red", 4000)?)?;
    list.try_push(host_of(alloc, b"blue", 3632)?)?;
    Ok(Hosts {
        list,
        local_slots: 4,
        local_cpp: 8,
        randomize: false,
    })
}

/// A job that was done has the messages `note`, `err` and `out`, each with a line feed.
fn done(alloc: Global, by: By, status: u32) -> Result<End, AllocError> {
    Ok(End::Done {
        status,
        note: Bytes::from_slice(alloc, b"note\n")?,
        err: Bytes::from_slice(alloc, b"err\n")?,
        out: Bytes::from_slice(alloc, b"out\n")?,
        by,
    })
}

fn end_of(alloc: Global, way: Way) -> Result<End, AllocError> {
    match way {
        Way::Done(by, status) => done(alloc, by, status),
        Way::Failed(why) => Ok(End::Failed(why)),
    }
}

/// The report of a job that ended so.
fn report_of(alloc: Global, number: u32, way: Way) -> Result<Report, AllocError> {
    let end = end_of(alloc, way)?;
    Ok(Report {
        number,
        worker: 0,
        events: EventList::new(alloc),
        end,
    })
}

fn reports_of(alloc: Global, number: u32, ways: &[Way]) -> Result<ReportList, AllocError> {
    let mut reports = ReportList::new(alloc);
    for way in ways {
        reports.try_push(report_of(alloc, number, *way)?)?;
    }
    Ok(reports)
}

/// The texts in one.
fn joined(alloc: Global, parts: &[&str]) -> Result<Bytes, AllocError> {
    let mut text = Bytes::new(alloc);
    for part in parts {
        text.try_extend(part.as_bytes())?;
    }
    Ok(text)
}

fn expect_printed<R: Abort>(rt: &R, printed: &Printed, err: &[u8], out: &[u8], way: Way) {
    same_bytes(rt, printed.err.as_slice(), err, &way);
    same_bytes(rt, printed.out.as_slice(), out, &way);
}

/// What is printed of an end in a build.
fn expect_lines<R: Abort>(
    rt: &R,
    alloc: Global,
    printed: &Printed,
    row: &Row,
) -> Result<(), AllocError> {
    let (way, text, _) = row;
    let (err, out) = match way {
        Way::Done(..) => ("note\nerr\n", "out\n"),
        Way::Failed(_) => ("", ""),
    };
    let line = joined(alloc, &[out, "4294967295 ", text, "\n"])?;
    expect_printed(rt, printed, err.as_bytes(), line.as_slice(), *way);
    Ok(())
}

/// What is printed of an end of a command that is run only.
fn expect_alone<R: Abort>(
    rt: &R,
    alloc: Global,
    printed: &Printed,
    row: &Row,
) -> Result<(), AllocError> {
    let (way, text, _) = row;
    if let Way::Done(..) = way {
        expect_printed(rt, printed, b"note\nerr\n", b"out\n", *way);
        return Ok(());
    }
    let failure = joined(alloc, &["farm: ", text, "\n"])?;
    expect_printed(rt, printed, failure.as_slice(), b"", *way);
    Ok(())
}

fn expect_report<R: Abort>(
    rt: &R,
    alloc: Global,
    hosts: &Hosts,
    report: &Report,
    row: &Row,
) -> Result<(), AllocError> {
    let printed = lines(alloc, hosts, report)?;
    expect_lines(rt, alloc, &printed, row)?;
    let alone = command_lines(alloc, hosts, &report.end)?;
    expect_alone(rt, alloc, &alone, row)
}

/// What is printed of an end, in a build and by itself, and its exit status.
fn expect_end<R: Abort>(rt: &R, alloc: Global, hosts: &Hosts, row: &Row) -> Result<(), AllocError> {
    let report = report_of(alloc, 4_294_967_294, row.0)?;
    expect_report(rt, alloc, hosts, &report, row)?;
    let reports = reports_of(alloc, 4_294_967_294, &[row.0])?;
    same(rt, &status(&reports), &row.2, &row.0);
    Ok(())
}

fn expect_ends<R: Abort>(rt: &R, alloc: Global, hosts: &Hosts, rows: &[Row]) -> Result<(), Fail> {
    for row in rows {
        expect_end(rt, alloc, hosts, row)?;
    }
    Ok(())
}

#[test]
fn each_end_has_its_line_and_its_number(rt: HostRuntime) -> Result<(), Fail> {
    let hosts = hosts_of(rt.alloc())?;
    expect_ends(&rt, rt.alloc(), &hosts, ROWS)
}

/// The ends of some jobs, the line of the total, and the exit status.
type Build = (&'static [Way], &'static str, u8);

const BUILDS: &[Build] = &[
    (&[], "total 0 ok 0\n", 0),
    (
        &[Way::Done(By::Remote(0), 0), Way::Done(By::InPlace, 0)],
        "total 2 ok 2\n",
        0,
    ),
    (
        &[
            Way::Done(By::Remote(0), 0),
            Way::Failed(Why5::Put),
            Way::Done(By::Here, 0),
        ],
        "total 3 ok 2\n",
        107,
    ),
    (
        &[
            Way::Done(By::Here, 0),
            Way::Done(By::Cpp, 256),
            Way::Failed(Why5::NoHost),
        ],
        "total 3 ok 1\n",
        1,
    ),
    (
        &[Way::Failed(Why5::NoHost), Way::Done(By::Cpp, 256)],
        "total 2 ok 0\n",
        116,
    ),
];

fn expect_build<R: Abort>(
    rt: &R,
    alloc: Global,
    reports: &ReportList,
    build: &Build,
) -> Result<(), AllocError> {
    let (ways, text, exit) = build;
    let line = total(alloc, reports)?;
    same_bytes(rt, line.as_slice(), text.as_bytes(), ways);
    same(rt, &status(reports), exit, ways);
    Ok(())
}

fn expect_builds<R: Abort>(rt: &R, alloc: Global, builds: &[Build]) -> Result<(), Fail> {
    for build in builds {
        let reports = reports_of(alloc, 0, build.0)?;
        expect_build(rt, alloc, &reports, build)?;
    }
    Ok(())
}

#[test]
fn a_build_has_its_total_and_its_status(rt: HostRuntime) -> Result<(), Fail> {
    expect_builds(&rt, rt.alloc(), BUILDS)
}
