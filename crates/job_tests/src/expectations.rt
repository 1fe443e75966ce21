//! What becomes of the jobs of rows.

use crate::same::{same, same_bytes};
use crate::scripted::{Ended, Passed, Row, Scripted, done, kit, station};
use edge_memory::{MemDialer, MemStation};
use edge_traits::{Clock, Dialer, Exchange, Keeper, Kit, Run, Station, is_staged};
use farm_machine::{End, Event, Report};
use farm_types::{Bytes, Ext, Items, Word};
use std::alloc::Global;
use std::process::Abort;
use std::sync::Wait;
use std::test::Fail;

/// Does the job of a row, or a second one after it, and compares its end.
fn expect_done<R: Wait + Abort, D: Dialer, S: Station, K: Keeper, C: Clock>(
    rt: &R,
    alloc: Global,
    row: &Row,
    again: bool,
    kit: &mut Kit<D, S, K, C>,
) -> Result<(), Fail> {
    let report = done(rt, alloc, row, again, kit)?;
    expect_end(rt, &report, row)
}

/// Does the job of a row over this station and this keeper, or a second one after it, and compares its end.
pub(crate) fn expect_ended<R: Wait + Abort, K: Keeper + Drop>(
    rt: &R,
    alloc: Global,
    row: &Row,
    again: bool,
    station: MemStation,
    keeper: K,
) -> Result<(), Fail> {
    let mut kit = kit(alloc, row, station, keeper)?;
    expect_done(rt, alloc, row, again, &mut kit)
}

/// What a file holds, which is nothing if it isn't there.
fn content<K: Keeper>(alloc: Global, keeper: &mut K, name: &[u8]) -> Result<Bytes, Fail> {
    let path = Bytes::from_slice(alloc, name)?;
    if keeper.is_pending() || is_staged(path.as_slice()) {
        return Err("the file may be fetched".into());
    }
    match keeper.fetch(alloc, &path, 1_000) {
        Ok(content) => Ok(content),
        Err(_) => Ok(Bytes::new(alloc)),
    }
}

/// The words of a run as a line, with `{i}` for the input and `{o}` for the output.
fn line_of(alloc: Global, words: &[Word]) -> Result<Bytes, Fail> {
    let mut line = Bytes::new(alloc);
    for word in words {
        if !line.is_empty() {
            line.try_push(b' ')?;
        }
        let text: &[u8] = match word {
            Word::Text(text) => text.as_slice(),
            Word::Input(Ext::I) => b"{i}",
            Word::Input(Ext::Ii) => b"{ii}",
            Word::Output => b"{o}",
        };
        for byte in text {
            line.try_push(*byte)?;
        }
    }
    Ok(line)
}

fn expect_end<R: Abort>(rt: &R, report: &Report, row: &Row) -> Result<(), Fail> {
    match (&report.end, row.end) {
        (
            End::Done {
                status,
                err,
                by,
                ..
            },
            Ended::Done(wanted, messages, one),
        ) => {
            same(rt, status, &wanted, &row.line);
            same_bytes(rt, err.as_slice(), messages, &row.line);
            same(rt, by, &one, &row.line);
        }
        (End::Failed(why), Ended::Failed(wanted)) => same(rt, why, &wanted, &row.line),
        _ => return Err("the job has this end".into()),
    }
    Ok(())
}

fn expect_exchange<R: Abort>(rt: &R, exchange: &Exchange, passed: &Passed, row: &Row) {
    let name = exchange.host.text.as_slice();
    same_bytes(rt, name, passed.0.as_bytes(), &row.line);
    same(rt, &exchange.dialed, &!passed.1.is_empty(), &row.line);
    same_bytes(rt, exchange.sent.as_slice(), passed.1, &row.line);
    same_bytes(rt, exchange.given.as_slice(), passed.2, &row.line);
}

fn expect_exchanges<R: Abort>(rt: &R, exchanges: &[Exchange], row: &Row) {
    same(rt, &exchanges.len(), &row.exchanges.len(), &row.line);
    for (exchange, passed) in exchanges.iter().zip(row.exchanges) {
        expect_exchange(rt, exchange, passed, row);
    }
}

fn expect_run<R: Abort>(
    rt: &R,
    alloc: Global,
    run: &Run,
    words: &str,
    input: &[u8],
) -> Result<(), Fail> {
    let line = line_of(alloc, run.words.as_slice())?;
    same_bytes(rt, line.as_slice(), words.as_bytes(), &words);
    same_bytes(rt, run.input.as_slice(), input, &words);
    Ok(())
}

fn expect_runs<R: Abort>(rt: &R, alloc: Global, runs: &[Run], row: &Row) -> Result<(), Fail> {
    same(rt, &runs.len(), &row.runs.len(), &row.line);
    for (run, (words, input)) in runs.iter().zip(row.runs) {
        expect_run(rt, alloc, run, words, input)?;
    }
    Ok(())
}

fn expect_dialer<R: Abort>(
    rt: &R,
    alloc: Global,
    row: &Row,
    dialer: MemDialer,
) -> Result<(), Fail> {
    let exchanges: Items<Exchange> = dialer.into_exchanges().into_items(alloc)?;
    expect_exchanges(rt, exchanges.as_slice(), row);
    Ok(())
}

fn expect_station<R: Abort>(
    rt: &R,
    alloc: Global,
    row: &Row,
    station: MemStation,
) -> Result<(), Fail> {
    let runs: Items<Run> = station.into_runs().into_items(alloc)?;
    expect_runs(rt, alloc, runs.as_slice(), row)
}

/// Compares what the devices kept with the row, and gives the keeper back.
fn expect_kept<R: Abort, K: Keeper + Drop>(
    rt: &R,
    alloc: Global,
    row: &Row,
    kit: Scripted<K>,
) -> Result<K, Fail> {
    let Kit {
        dialer,
        station,
        keeper,
        ..
    } = kit;
    expect_dialer(rt, alloc, row, dialer)?;
    expect_station(rt, alloc, row, station)?;
    Ok(keeper)
}

fn expect_report<R: Abort>(rt: &R, report: &Report, row: &Row) -> Result<(), Fail> {
    expect_events(rt, report.events.as_slice(), row);
    expect_end(rt, report, row)
}

fn expect_events<R: Abort>(rt: &R, events: &[Event], row: &Row) {
    assert_eq!(rt; events, row.events, "{}", row.line);
}

fn expect_object<R: Abort, K: Keeper>(
    rt: &R,
    alloc: Global,
    keeper: &mut K,
    row: &Row,
) -> Result<(), Fail> {
    let object = content(alloc, keeper, b"x.o")?;
    same_bytes(rt, object.as_slice(), row.object, &row.line);
    Ok(())
}

/// Does the job of a row over these devices, and compares its report and its object.
fn expect_job<R: Wait + Abort, D: Dialer, S: Station, K: Keeper, C: Clock>(
    rt: &R,
    alloc: Global,
    row: &Row,
    kit: &mut Kit<D, S, K, C>,
) -> Result<(), Fail> {
    let report = done(rt, alloc, row, false, kit)?;
    expect_report(rt, &report, row)?;
    expect_object(rt, alloc, &mut kit.keeper, row)
}

/// Does the job of a row over this keeper, compares all but its files with the row, and gives the keeper back.
pub(crate) fn expect_over<R: Wait + Abort, K: Keeper + Drop>(
    rt: &R,
    alloc: Global,
    row: &Row,
    keeper: K,
) -> Result<K, Fail> {
    let mut kit = kit(alloc, row, station(alloc, row)?, keeper)?;
    expect_job(rt, alloc, row, &mut kit)?;
    expect_kept(rt, alloc, row, kit)
}
