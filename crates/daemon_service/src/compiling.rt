//! The outcome of a request, by at most one run.

ghost use Rattle.std.specs.Prelude.{◌≡◌, ◌≤◌, ◌<◌, ◌^◌, [], length, take, IfOk, IfErr, OnOk};
ghost use Rattle.farm_types.specs.Fits.{OutcomeFits};
ghost use Rattle.edge_traits.specs.Told.{Grew, SameRelation3};
ghost use Rattle.edge_traits.specs.Stations.{IsWithin, StationStill, run_entries, RunFault, compile_bounds};
ghost use Rattle.arg_scan.specs.Class.{IsRemote};
ghost use Rattle.arg_strip.specs.Words.{placed_words};
ghost use Rattle.daemon_service.specs.Replies as replies;
ghost use Rattle.daemon_service.specs.Replies.{with_program};
ghost use Rattle.daemon_service.specs.Parts.{Made};
ghost use Rattle.daemon_service.specs.Services.{StationCause};
ghost use Rattle.daemon_service.specs.Calls.{Tries, Asks};

use crate::{Compilers, Served};
use arg_strip::{is_remote, placed};
use edge_traits::{COMPILE_BOUNDS, Station, StationFault};
use farm_types::{Bytes, Items, Outcome, PlacedWords, Ran, Request, Word, Words};
use std::alloc::{AllocError, Global};

/// The status of a reply to a request whose compiler the table doesn't name: exit code 110.
const UNKNOWN_COMPILER: u32 = 110 * 256;
/// The status of a reply to a request that isn't a compile of one source: exit code 111.
const NOT_ONE_SOURCE: u32 = 111 * 256;
/// The most bytes of a compiler's name that a message has.
const SHOWN_NAME_MAX: usize = 64;

fn first_word(words: &Words) -> &[u8]
    ensures { result.now ≡ replies.first_word words.now }
{
    match words.as_slice() {
        [word, ..] => word.as_slice(),
        [] => &[],
    }
}

// The front of a name.
fn front_of(name: &[u8]) -> &[u8]
    ensures { result.now ≡ take replies.shown_name_max name.now }
{
    if SHOWN_NAME_MAX < name.len() {
        &name[..SHOWN_NAME_MAX]
    } else {
        name
    }
}

fn unknown_message(alloc: Global, name: &[u8]) -> Result<Bytes, AllocError>
    ensures { IfOk result (λ message. message ≡ replies.unknown_message name.now) }
{
    let mut message = Bytes::from_slice(alloc, b"unknown compiler ")?;
    message.try_extend(front_of(name))?;
    message.try_push(b'\n')?;
    Ok(message)
}

// The outcome of a request that isn't compiled.
fn refusal(alloc: Global, status: u32, message: Bytes) -> Outcome
    ensures { result ≡ replies.refusal status message }
{
    Outcome {
        status,
        err: message,
        out: Bytes::new(alloc),
        object: Bytes::new(alloc),
    }
}

// The outcome of a run.
fn outcome_of(alloc: Global, ran: Ran) -> Outcome
    ensures outcome { result ≡ replies.sent_outcome ran }
    ensures small { result.status < 2 ^ 32 }
{
    let status = ran.status;
    Outcome {
        status,
        err: ran.err,
        out: ran.out,
        object: if status == 0 {
            ran.object
        } else {
            Bytes::new(alloc)
        },
    }
}

// The words with this program in place of the first.
fn exchange_first(words: PlacedWords, program: Bytes) -> PlacedWords
    ensures { result ≡ with_program program words }
{
    let mut stored = words.into_vec();
    if !stored.is_empty() {
        stored[0] = Word::Text(program);
    }
    Items::from_vec(stored)
}

// Compiles the source of a request by this program.
fn compile<S: Station>(
    alloc: Global,
    station: &mut S,
    program: &Bytes,
    request: &Request,
) -> Result<Ran, StationFault>
    requires { IsRemote request.now.words }
    ensures runs { Grew (S.shows station.old).runs (S.shows station.new).runs
        (run_entries (with_program program.now (placed_words request.now.words)) request.now.source result) }
    ensures ran { IfOk result (S.ran station.new (with_program program.now (placed_words request.now.words)) request.now.source) }
    ensures within { IfOk result (IsWithin compile_bounds) }
    ensures done { OnOk result (StationStill (S.shows station.old) (S.shows station.new)) }
    ensures cause { IfErr result (RunFault compile_bounds (S.shows station.old) (S.shows station.new)) }
    ensures same { SameRelation3 (S.ran station.old) (S.ran station.new) }
    ensures faults { (S.shows station.old).faults ≤ (S.shows station.new).faults }
    ensures overruns { (S.shows station.old).overruns ≤ (S.shows station.new).overruns }
    ensures calls { Tries S.goes program.now request.now station.old station.new result }
{
    let words = placed(alloc, &request.words)?;
    let words = exchange_first(words, program.copy()?);
    station.run(
        alloc,
        words.as_slice(),
        request.source.as_slice(),
        &COMPILE_BOUNDS,
    )
}

/// Makes the outcome of a request: a refusal without a run, or what one run left.
pub(crate) fn make_outcome<S: Station>(
    alloc: Global,
    station: &mut S,
    table: &Compilers,
    request: &Request,
) -> Result<Outcome, Served>
    ensures made { Made table.now.rows (S.ran station.new) (S.shows station.old) (S.shows station.new) request.now result }
    ensures done { OnOk result (StationStill (S.shows station.old) (S.shows station.new)) }
    ensures cause { IfErr result (λ served. StationCause served (S.shows station.old) (S.shows station.new)) }
    ensures same { SameRelation3 (S.ran station.old) (S.ran station.new) }
    ensures faults { (S.shows station.old).faults ≤ (S.shows station.new).faults }
    ensures overruns { (S.shows station.old).overruns ≤ (S.shows station.new).overruns }
    ensures calls { Asks S.goes table.now.rows request.now station.old station.new result }
{
    let name = first_word(&request.words);
    let Some(program) = table.program(name) else {
        let message = unknown_message(alloc, name)?;
        return Ok(refusal(alloc, UNKNOWN_COMPILER, message));
    };
    if !is_remote(&request.words) {
        let message = Bytes::from_slice(alloc, b"not a compile of one source\n")?;
        return Ok(refusal(alloc, NOT_ONE_SOURCE, message));
    }
    match compile(alloc, station, program, request) {
        Ok(ran) => Ok(outcome_of(alloc, ran)),
        Err(StationFault::Failed) => Err(Served::StationFault),
        Err(StationFault::TooMuch { .. }) => Err(Served::StationFault),
        Err(StationFault::Memory) => Err(Served::Memory),
    }
}
