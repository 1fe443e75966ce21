//! The service over links and stations that fail.

use crate::scripts::{REPLY, REQUEST};
use crate::services::{Course, Left, NOTHING, OBJECT, PLAIN, expect};
use daemon_service::Served;
use std::alloc::Global;
use std::process::Abort;
use std::test::Fail;

// One connection of a request: how its link moves bytes, what the station leaves; what is answered and written.
#[derive(Clone, Copy)]
struct Row {
    course: Course<'static>,
    left: Left<'static>,
    served: Served,
    written: &'static [u8],
}

const FIFTY: Course<'static> = Course {
    most: 50,
    fails: &[],
    zeros: &[],
};

// The first 50 bytes of the reply.
const BEGUN: &[u8] = b"DONE00000001STAT00000000SERR00000000SOUT00000000DO";

const FAULT: Row = Row {
    course: FIFTY,
    left: OBJECT,
    served: Served::LinkFault,
    written: b"",
};

// Three receives and two sends of at most 50 bytes: how each call's failure and its zero are answered, and what was written
// by then. There is no sixth call.
const CALLS: &[Row] = &[
    Row {
        course: Course {
            fails: &[1],
            ..FIFTY
        },
        ..FAULT
    },
    Row {
        course: Course {
            fails: &[2],
            ..FIFTY
        },
        ..FAULT
    },
    Row {
        course: Course {
            fails: &[3],
            ..FIFTY
        },
        ..FAULT
    },
    Row {
        course: Course {
            fails: &[4],
            ..FIFTY
        },
        ..FAULT
    },
    Row {
        course: Course {
            fails: &[5],
            ..FIFTY
        },
        written: BEGUN,
        ..FAULT
    },
    Row {
        course: Course {
            zeros: &[1],
            ..FIFTY
        },
        served: Served::Cut { have: 0 },
        ..FAULT
    },
    Row {
        course: Course {
            zeros: &[2],
            ..FIFTY
        },
        served: Served::Cut { have: 50 },
        ..FAULT
    },
    Row {
        course: Course {
            zeros: &[3],
            ..FIFTY
        },
        served: Served::Cut { have: 100 },
        ..FAULT
    },
    Row {
        course: Course {
            zeros: &[4],
            ..FIFTY
        },
        served: Served::Stopped,
        ..FAULT
    },
    Row {
        course: Course {
            zeros: &[5],
            ..FIFTY
        },
        served: Served::Stopped,
        written: BEGUN,
        ..FAULT
    },
    Row {
        course: Course {
            most: 50,
            fails: &[6],
            zeros: &[6],
        },
        served: Served::Answered(0),
        written: REPLY,
        ..FAULT
    },
];

fn expect_rows<R: Abort>(rt: &R, alloc: Global, rows: &[Row]) -> Result<(), Fail> {
    for row in rows {
        let wanted = (row.served, row.written);
        expect(rt, alloc, REQUEST, &row.course, &row.left, wanted)?;
    }
    Ok(())
}

#[test]
fn failing_calls(rt: HostRuntime) -> Result<(), Fail> {
    expect_rows(&rt, rt.alloc(), CALLS)
}

// A compile that fails has no object in its reply, and a run that fails has no reply.
const RUNS: &[Row] = &[
    Row {
        course: PLAIN,
        left: Left {
            status: 256,
            err: b"bad\n",
            object: b"half",
            fails: &[],
        },
        served: Served::Answered(256),
        written: b"DONE00000001STAT00000100SERR00000004bad\nSOUT00000000DOTO00000000",
    },
    Row {
        course: PLAIN,
        left: Left {
            fails: &[1],
            ..NOTHING
        },
        served: Served::StationFault,
        written: b"",
    },
];

#[test]
fn failing_runs(rt: HostRuntime) -> Result<(), Fail> {
    expect_rows(&rt, rt.alloc(), RUNS)
}
