//! Given runs, and what the check of each answers.

use crate::same::same;
use farm_machine::{By, End, Event, EventList, Report, ReportList, are_numbered, check_run};
use farm_types::Bytes;
use slot_table::{CallEntry, CallList, Limits, Mask, SlotCall, SlotReply};
use std::alloc::{AllocError, Global};
use std::process::Abort;
use std::test::Fail;

/// A caller, its call and the reply.
pub(crate) type Call = (u32, SlotCall, SlotReply);

/// Some lists of calls, one after another, and what the check of them answers.
pub(crate) type Row = (&'static [&'static [Call]], Option<u64>);

/// A worker, and the events of its job.
pub(crate) type Job = (u32, &'static [Event]);

const NONE: Mask = Mask { bits: 0 };

const FIRST: Mask = Mask { bits: 1 };

pub(crate) const SECOND: Mask = Mask { bits: 2 };

pub(crate) const BOTH: Mask = Mask { bits: 3 };

fn events_of(alloc: Global, events: &[Event]) -> Result<EventList, AllocError> {
    let mut list = EventList::new(alloc);
    for event in events {
        list.try_push(*event)?;
    }
    Ok(list)
}

/// The report of a job that host 0 compiled.
fn report_of(alloc: Global, number: u32, job: &Job) -> Result<Report, AllocError> {
    Ok(Report {
        number,
        worker: job.0,
        events: events_of(alloc, job.1)?,
        end: End::Done {
            status: 0,
            note: Bytes::new(alloc),
            err: Bytes::new(alloc),
            out: Bytes::new(alloc),
            by: By::Remote(0),
        },
    })
}

/// The reports of these jobs, in order.
fn reports_of(alloc: Global, jobs: &[Job]) -> Result<ReportList, AllocError> {
    let mut reports = ReportList::new(alloc);
    let mut number: u32 = 0;
    for job in jobs {
        reports.try_push(report_of(alloc, number, job)?)?;
        number = number.saturating_add(1);
    }
    Ok(reports)
}

fn add_calls(calls: &mut CallList, part: &[Call]) -> Result<(), AllocError> {
    for (caller, call, reply) in part {
        calls.try_push(CallEntry {
            caller: *caller,
            call: *call,
            reply: *reply,
        })?;
    }
    Ok(())
}

/// The calls of some lists, one list after another.
fn calls_of(alloc: Global, parts: &[&[Call]]) -> Result<CallList, AllocError> {
    let mut calls = CallList::new(alloc);
    for part in parts {
        add_calls(&mut calls, part)?;
    }
    Ok(calls)
}

/// What the check of these calls answers, if it may be made.
fn checked(
    limits: &Limits<16>,
    calls: &CallList,
    reports: &ReportList,
) -> Result<Option<u64>, Fail> {
    if !limits.are_valid() {
        return Err("the limits are valid".into());
    }
    if !are_numbered(reports) {
        return Err("the reports are numbered".into());
    }
    if reports.len() != limits.jobs as usize {
        return Err("each job has a report".into());
    }
    Ok(check_run(limits, calls, reports))
}

fn expect_row<R: Abort>(
    rt: &R,
    alloc: Global,
    limits: &Limits<16>,
    reports: &ReportList,
    row: &Row,
) -> Result<(), Fail> {
    let (parts, wanted) = row;
    let calls = calls_of(alloc, parts)?;
    same(rt, &checked(limits, &calls, reports)?, wanted, parts);
    Ok(())
}

fn expect_rows<R: Abort>(
    rt: &R,
    alloc: Global,
    limits: &Limits<16>,
    reports: &ReportList,
    rows: &[Row],
) -> Result<(), Fail> {
    for row in rows {
        expect_row(rt, alloc, limits, reports, row)?;
    }
    Ok(())
}

/// Checks the calls of each row against the reports of these jobs.
pub(crate) fn check_rows<R: Abort>(
    rt: &R,
    alloc: Global,
    limits: &Limits<16>,
    jobs: &[Job],
    rows: &[Row],
) -> Result<(), Fail> {
    let reports = reports_of(alloc, jobs)?;
    expect_rows(rt, alloc, limits, &reports, rows)
}

/// The events of a job that host 0 compiled at its first try.
const COMPILED: &[Event] = &[
    Event::Ran(0),
    Event::Took(0),
    Event::Exchanged(0),
    Event::Gave(0),
    Event::Put(0),
];

const DRAWS: &[Call] = &[
    (0, SlotCall::Draw, SlotReply::Drawn(Some(0))),
    (1, SlotCall::Draw, SlotReply::Drawn(Some(1))),
    (2, SlotCall::Draw, SlotReply::Drawn(Some(2))),
];

const TAKE_0: &[Call] = &[(
    0,
    SlotCall::Take {
        job: 0,
        mask: FIRST,
        now: 5,
    },
    SlotReply::Got(0),
)];

const REFUSED: &[Call] = &[
    (
        1,
        SlotCall::Take {
            job: 1,
            mask: FIRST,
            now: 5,
        },
        SlotReply::Full,
    ),
    (
        2,
        SlotCall::Take {
            job: 2,
            mask: FIRST,
            now: 5,
        },
        SlotReply::Full,
    ),
];

const GIVE_0: &[Call] = &[(0, SlotCall::Give { host: 0, job: 0 }, SlotReply::Given)];

const JOB_2: &[Call] = &[
    (
        2,
        SlotCall::Take {
            job: 2,
            mask: FIRST,
            now: 6,
        },
        SlotReply::Got(0),
    ),
    (2, SlotCall::Give { host: 0, job: 2 }, SlotReply::Given),
];

const TAKE_1: &[Call] = &[(
    1,
    SlotCall::Take {
        job: 1,
        mask: FIRST,
        now: 7,
    },
    SlotReply::Got(0),
)];

const GIVE_1: &[Call] = &[(1, SlotCall::Give { host: 0, job: 1 }, SlotReply::Given)];

const NO_MORE: &[Call] = &[
    (0, SlotCall::Draw, SlotReply::Drawn(None)),
    (1, SlotCall::Draw, SlotReply::Drawn(None)),
    (2, SlotCall::Draw, SlotReply::Drawn(None)),
];

const TAKE_1_EARLY: &[Call] = &[(
    1,
    SlotCall::Take {
        job: 1,
        mask: FIRST,
        now: 5,
    },
    SlotReply::Full,
)];

const TAKE_NO_HOST: &[Call] = &[(
    0,
    SlotCall::Take {
        job: 0,
        mask: NONE,
        now: 5,
    },
    SlotReply::Down,
)];

const DRAW_BY_ANOTHER: &[Call] = &[(1, SlotCall::Draw, SlotReply::Drawn(Some(0)))];

const GIVE_TWICE: &[Call] = &[(0, SlotCall::Give { host: 0, job: 0 }, SlotReply::Given)];

const ONE_SLOT: &[Row] = &[
    (
        &[
            DRAWS, TAKE_0, REFUSED, GIVE_0, JOB_2, TAKE_1, GIVE_1, NO_MORE,
        ],
        None,
    ),
    (
        &[
            DRAWS,
            TAKE_1_EARLY,
            REFUSED,
            GIVE_0,
            JOB_2,
            TAKE_1,
            GIVE_1,
            NO_MORE,
        ],
        Some(3),
    ),
    (
        &[DRAWS, TAKE_0, REFUSED, GIVE_0, JOB_2, TAKE_1, GIVE_1],
        None,
    ),
    (
        &[DRAWS, TAKE_0, REFUSED, GIVE_0, JOB_2, TAKE_1, NO_MORE],
        Some(13),
    ),
    (&[DRAWS, TAKE_NO_HOST], Some(3)),
    (&[DRAW_BY_ANOTHER], Some(0)),
    (&[DRAWS, TAKE_0, REFUSED, GIVE_0, GIVE_TWICE], Some(7)),
    (&[], Some(0)),
];

const JOBS: &[Job] = &[(0, COMPILED), (1, COMPILED), (2, COMPILED)];

/// One remote entry of one slot, one local slot, and three jobs.
pub(crate) const LIMITS: Limits<16> = Limits {
    count: 1,
    limit: [1; 16],
    local: [false; 16],
    local_slots: 1,
    jobs: 3,
    rotate: false,
};

#[test]
fn one_slot_for_three_callers(rt: HostRuntime) -> Result<(), Fail> {
    check_rows(&rt, rt.alloc(), &LIMITS, JOBS, ONE_SLOT)
}
