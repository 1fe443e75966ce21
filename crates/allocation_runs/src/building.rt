//! Twelve jobs over devices in memory, as a list or as a graph.

ghost use Rattle.std.specs.Prelude.{◌≡◌, ◌≤◌, false, length, All, IfOk};
ghost use Rattle.farm_types.specs.Limits.{workers_max};
ghost use Rattle.farm_program.specs.Worlds.{AreReady};
ghost use Rattle.edge_memory.specs.Sinks.{sink_shows, sink_state};
ghost use Rattle.edge_memory.specs.Sources.{source_shows, source_state};
ghost use Rattle.edge_traits.specs.Keepers.{IsIdle};
ghost use Rattle.object_delivery.specs.ScriptedFiles.{files_state, files_shows};
ghost use Rattle.object_delivery.specs.Staging.{keeper_view};

use crate::judging::{JOBS, Verdict, lines_of, objects};
use edge_memory::{
    LinkScript, LinkScripts, MemClock, MemDialer, MemSink, MemSource, MemStation, Moments, Moves,
    RanList,
};
use edge_traits::{CallNumbers, FileList, Kit};
use farm_program::{Ended, farm};
use farm_types::Bytes;
use object_delivery::{FileKeeper, MemFiles};
use std::alloc::{AllocError, Global};
use std::sync::Wait;
use std::thread::Threads;

type FileKit = Kit<MemDialer, MemStation, FileKeeper<MemFiles>, MemClock>;

const REPLY: &[u8] = b"DONE00000001STAT00000000SERR00000000SOUT00000000DOTO0000000dSCO1\ndef a 1\n";

/// How the jobs are run.
#[derive(Clone, Copy, PartialEq, Eq)]
pub enum Shape {
    /// As a list, by one worker.
    One,
    /// As a list, by four workers.
    Four,
    /// As a graph of three levels with four jobs each, by one worker.
    Graph,
}

const WORDS: [&str; 4] = ["--hosts", "H:3632/4 localhost/2", "--workers", "4"];

// How many jobs a level of the graph has.
const LEVEL: u32 = 4;

// Each of twelve jobs has an object of its own name. In a graph each job above the first level needs one of the level below.
fn job_list(alloc: Global, shape: Shape) -> Result<Bytes, AllocError> {
    let mut text = Bytes::new(alloc);
    for number in 1..=JOBS {
        if shape == Shape::Graph && number > LEVEL {
            let needs = format!(in alloc; "needs: {}\n", number - LEVEL)?;
            text.try_extend(needs.as_bytes())?;
        }
        let line = format!(in alloc; "scc -I. -DN=3 -O2 -MD -c f{number}.c -o f{number}.o\n")?;
        text.try_extend(line.as_bytes())?;
    }
    Ok(text)
}

fn moves(alloc: Global) -> Moves {
    Moves {
        fails: CallNumbers::new(alloc),
        zeros: CallNumbers::new(alloc),
        most: 4_096,
    }
}

// Twelve links that give the object.
fn links(alloc: Global) -> Result<LinkScripts, AllocError> {
    let mut links = LinkScripts::new(alloc);
    for _ in 0..JOBS {
        links.try_push(LinkScript {
            gives: Bytes::from_slice(alloc, REPLY)?,
            moves: moves(alloc),
        })?;
    }
    Ok(links)
}

fn kit(alloc: Global) -> Result<FileKit, AllocError>
    ensures { IfOk result (λ kit. IsIdle (keeper_view (files_shows (files_state kit.keeper.files)) kit.keeper.pending)) }
{
    let links = links(alloc)?;
    let files = MemFiles::new(FileList::new(alloc), CallNumbers::new(alloc), 4_096);
    Ok(Kit {
        dialer: MemDialer::new(links, CallNumbers::new(alloc)),
        station: MemStation::new(RanList::new(alloc), CallNumbers::new(alloc)),
        keeper: FileKeeper::new(files),
        clock: MemClock::new(Moments::new(alloc)),
    })
}

// The words of the command line.
fn words_of(alloc: Global, shape: Shape) -> Result<Vec<String>, AllocError> {
    let command = if shape == Shape::Graph {
        "graph"
    } else {
        "build"
    };
    let mut words = Vec::new(alloc);
    words.push(String::from_str(alloc, command)?)?;
    for word in WORDS {
        words.push(String::from_str(alloc, word)?)?;
    }
    Ok(words)
}

// One kit, or four of them.
fn kits(alloc: Global, four: bool) -> Result<Vec<FileKit>, AllocError>
    ensures some { IfOk result (λ kits. 1 ≤ length kits.items) }
    ensures most { IfOk result (λ kits. length kits.items ≤ workers_max) }
    ensures idle { IfOk result (λ kits. All (λ kit. IsIdle (keeper_view (files_shows (files_state kit.keeper.files)) kit.keeper.pending)) kits.items) }
{
    let mut kits = Vec::new(alloc);
    kits.push(kit(alloc)?)?;
    if four {
        kits.push(kit(alloc)?)?;
        kits.push(kit(alloc)?)?;
        kits.push(kit(alloc)?)?;
    }
    Ok(kits)
}

// Whether every slot of each run of jobs is back.
fn is_all_back(ended: &Ended) -> bool {
    ended.built.as_slice().iter().all(|built| built.last.state.local_held == 0
        && built.last.state.held == [0; 16])
}

// How many jobs have a report, over all runs of jobs.
fn report_count(ended: &Ended) -> usize {
    let mut count: usize = 0;
    for built in ended.built.as_slice() {
        count = count.saturating_add(built.reports.len());
    }
    count
}

// The status of a run, and how many jobs have a report, if every slot is back.
fn seen_of(ended: &Ended) -> Option<(u8, usize)> {
    if is_all_back(ended) {
        Some((ended.status, report_count(ended)))
    } else {
        None
    }
}

// The streams of a run.
#[derive(Drop)]
struct Streams {
    input: MemSource,
    out: MemSink,
    err: MemSink,
}

// The streams of a run in this shape.
fn streams_of(alloc: Global, shape: Shape) -> Result<Streams, AllocError>
    ensures input { IfOk result (λ streams. (source_shows (source_state streams.input)).ended ≡ false) }
    ensures out { IfOk result (λ streams. (sink_shows (sink_state streams.out)).stopped ≡ false) }
    ensures err { IfOk result (λ streams. (sink_shows (sink_state streams.err)).stopped ≡ false) }
{
    let text = job_list(alloc, shape)?;
    Ok(Streams {
        input: MemSource::new(text, CallNumbers::new(alloc), 4_096),
        out: MemSink::new(alloc, moves(alloc)),
        err: MemSink::new(alloc, moves(alloc)),
    })
}

// Does the jobs in this shape: the status, and how many jobs have a report, if every slot is back.
fn run<W: Threads + Wait + Sync>(
    rt: &W,
    alloc: Global,
    shape: Shape,
    kits: &mut Vec<FileKit>,
    streams: &mut Streams,
) -> Result<Option<(u8, usize)>, AllocError>
    requires input { (source_shows (source_state streams.old.input)).ended ≡ false }
    requires kits { AreReady 1 (λ kit. IsIdle (keeper_view (files_shows (files_state kit.keeper.files)) kit.keeper.pending)) kits.old.items }
    requires out { (sink_shows (sink_state streams.old.out)).stopped ≡ false }
    requires err { (sink_shows (sink_state streams.old.err)).stopped ≡ false }
{
    let words = words_of(alloc, shape)?;
    let ended = farm(
        rt,
        alloc,
        words.as_slice(),
        &[],
        &mut streams.input,
        kits,
        &mut streams.out,
        &mut streams.err,
    );
    Ok(seen_of(&ended))
}

// How many objects a kit put.
fn kit_objects(alloc: Global, kit: FileKit) -> Result<Option<u32>, AllocError> {
    let mut files = kit.keeper.into_files();
    objects(alloc, &mut files)
}

// How many objects were put, if each is whole and nothing is left of a put.
fn all_objects(alloc: Global, kits: Vec<FileKit>) -> Result<Option<u32>, AllocError> {
    let mut whole = Some(0u32);
    for kit in kits {
        whole = match (whole, kit_objects(alloc, kit)?) {
            (Some(sum), Some(more)) => Some(sum.saturating_add(more)),
            _ => None,
        };
    }
    Ok(whole)
}

// The verdict on a run that returned this status, printed this, has this many reports, and put this many objects, if each is whole.
fn judge(status: u8, out: &[u8], err: &[u8], reports: usize, whole: Option<u32>) -> Verdict {
    let Some(whole) = whole else {
        return Verdict::Wrong("a put is there in part");
    };
    let Some(seen) = std::str::from_utf8(out).ok().and_then(lines_of) else {
        return Verdict::Wrong("a line is none of this run");
    };
    if status == 0 && seen.total && seen.ok == JOBS && whole == JOBS && err.is_empty() {
        return Verdict::Usual;
    }
    if status != 105 {
        return Verdict::Wrong("the status is none of this run");
    }
    if !seen.total && !err.starts_with(b"farm: no") {
        return Verdict::Wrong("the lines end without a word");
    }
    if reports < whole as usize || whole < seen.ok || seen.total && whole != seen.ok {
        return Verdict::Wrong("an object is missing, or one too many");
    }
    Verdict::Wanting
}

// The verdict on twelve jobs in this shape, over these streams.
fn verdict_on<W: Threads + Wait + Sync>(
    rt: &W,
    alloc: Global,
    shape: Shape,
    streams: &mut Streams,
) -> Result<Verdict, AllocError>
    requires input { (source_shows (source_state streams.old.input)).ended ≡ false }
    requires out { (sink_shows (sink_state streams.old.out)).stopped ≡ false }
    requires err { (sink_shows (sink_state streams.old.err)).stopped ≡ false }
{
    let mut kits = kits(alloc, shape == Shape::Four)?;
    let Some((status, reports)) = run(rt, alloc, shape, &mut kits, streams)? else {
        return Ok(Verdict::Wrong("a slot isn't back"));
    };
    let whole = all_objects(alloc, kits)?;
    let out = streams.out.written();
    let err = streams.err.written();
    Ok(judge(status, out, err, reports, whole))
}

/// Does twelve jobs in this shape.
pub fn twelve_jobs<W: Threads + Wait + Sync>(
    rt: &W,
    alloc: Global,
    shape: Shape,
) -> Result<Verdict, AllocError> {
    let mut streams = streams_of(alloc, shape)?;
    verdict_on(rt, alloc, shape, &mut streams)
}
