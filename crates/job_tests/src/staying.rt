//! Jobs whose commands stay on this machine.

use crate::rows::{FIRST, MADE, expect_rows};
use crate::scripted::{Ended, Row};
use farm_machine::{By, Event};
use farm_types::Ran;
use std::test::Fail;

/// A command that stays here.
const IN_PLACE: Row = Row {
    rans: &[MADE],
    events: &[Event::TookLocal, Event::Ran(0), Event::GaveLocal],
    end: Ended::Done(0, b"w\n", By::InPlace),
    exchanges: &[],
    object: b"old",
    ..FIRST
};

const STAYING: &[Row] = &[
    Row {
        line: "scc -c x.c y.c",
        runs: &[("scc -c x.c y.c", b"")],
        ..IN_PLACE
    },
    Row {
        line: "scc -march=native -c x.c",
        runs: &[("scc -march=native -c x.c", b"")],
        ..IN_PLACE
    },
    Row {
        line: "scc -c conftest.c",
        runs: &[("scc -c conftest.c", b"")],
        ..IN_PLACE
    },
];

#[test]
fn a_command_that_stays_here_runs_in_place(rt: HostRuntime) -> Result<(), Fail> {
    expect_rows(&rt, rt.alloc(), STAYING)
}
