//! Requests to the daemon's service, whose station is the sample compiler.

use crate::same::{same, same_items};
use daemon_service::{Compilers, Served, serve_connection};
use edge_memory::{LinkScript, MemLink, Moves};
use edge_traits::{CallNumbers, Station};
use farm_types::Bytes;
use rehearsal::compiler_table;
use sample_compiler::SampleStation;
use sample_lang::FileMap;
use std::alloc::{AllocError, Global};
use std::process::Abort;
use std::test::Fail;

// What a client sends, `scc -c a.i -o a.o` on one line of source; the status; and the reply.
type Answered = (&'static [u8], u32, &'static [u8]);

const SERVED: &[Answered] = &[
    (
        b"DIST00000001ARGC00000005ARGV00000003sccARGV00000002-cARGV00000003a.iARGV00000002-oARGV00000003a.oDOTI0000000bint a = 1;\n",
        0,
        b"DONE00000001STAT00000000SERR00000000SOUT00000000DOTO0000000dSCO1\ndef a 1\n",
    ),
    (
        b"DIST00000001ARGC00000005ARGV00000003sccARGV00000002-cARGV00000003a.iARGV00000002-oARGV00000003a.oDOTI0000000bint a = b;\n",
        256,
        b"DONE00000001STAT00000100SERR00000017line 1: unknown name b\nSOUT00000000DOTO00000000",
    ),
];

// A link that gives this, and moves at most that many bytes by one call.
fn script(alloc: Global, gives: &[u8], most: u32) -> Result<LinkScript, AllocError> {
    let gives = Bytes::from_slice(alloc, gives)?;
    Ok(LinkScript {
        gives,
        moves: Moves {
            fails: CallNumbers::new(alloc),
            zeros: CallNumbers::new(alloc),
            most,
        },
    })
}

fn serve_at<S: Station>(
    alloc: Global,
    script: LinkScript,
    station: &mut S,
    table: &Compilers,
) -> (Served, Bytes) {
    let mut link = MemLink::new(alloc, script);
    let served = serve_connection(alloc, &mut link, station, table);
    (served, link.into_sent())
}

fn serve_link(alloc: Global, script: LinkScript, table: &Compilers) -> (Served, Bytes) {
    let mut station = SampleStation::new(FileMap::new(alloc));
    serve_at(alloc, script, &mut station, table)
}

// Serves one connection that gives this, and answers what was written too.
fn serve(alloc: Global, gives: &[u8], most: u32) -> Result<(Served, Bytes), AllocError> {
    let table = compiler_table(alloc)?;
    let script = script(alloc, gives, most)?;
    Ok(serve_link(alloc, script, &table))
}

fn expect<R: Abort>(
    rt: &R,
    alloc: Global,
    gives: &[u8],
    most: u32,
    wanted: (u32, &[u8]),
) -> Result<(), Fail> {
    let (served, written) = serve(alloc, gives, most)?;
    same(rt, &served, &Served::Answered(wanted.0), &most);
    same_items(rt, written.as_slice(), wanted.1, &most);
    Ok(())
}

fn expect_rows<R: Abort>(rt: &R, alloc: Global, rows: &[Answered]) -> Result<(), Fail> {
    for (gives, status, reply) in rows {
        expect(rt, alloc, gives, 7, (*status, reply))?;
        expect(rt, alloc, gives, 1_000, (*status, reply))?;
    }
    Ok(())
}

#[test]
fn the_service_answers_with_what_the_compiler_leaves(rt: HostRuntime) -> Result<(), Fail> {
    expect_rows(&rt, rt.alloc(), SERVED)
}
