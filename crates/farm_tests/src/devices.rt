//! Devices of a run of `farm` that follow a script, and what is seen after it.

ghost use Rattle.std.specs.Prelude.{◌≤◌, length, All, IfOk};
ghost use Rattle.farm_types.specs.Limits.{workers_max};
ghost use Rattle.edge_traits.specs.Keepers.{IsIdle};
ghost use Rattle.edge_memory.specs.Keepers.{keeper_state, keeper_shows};

use edge_memory::{
    LinkScript, LinkScripts, MemClock, MemDialer, MemKeeper, MemStation, Moves, RanList,
};
use edge_traits::{CallNumbers, FileList, Kit};
use farm_calls::{Asked, Seen, content_of, kit_count, standing_clock, strings, told};
use farm_types::{Bytes, Ran};
use std::alloc::{AllocError, Global};
use std::sync::Wait;
use std::thread::Threads;

pub(crate) type MemKit = Kit<MemDialer, MemStation, MemKeeper, MemClock>;

// What `farm` is given, and what its devices do: which calls fail, by their numbers, of which 0 names none, and what the
// programs and the host give.
#[derive(Clone, Copy)]
pub(crate) struct Script {
    pub(crate) words: &'static [&'static str],
    pub(crate) env: &'static [(&'static str, &'static str)],
    pub(crate) input: &'static [u8],
    pub(crate) kits: usize,
    // No program prints anything.
    pub(crate) quiet: bool,
    pub(crate) file: Option<&'static str>,
    pub(crate) read_fails: u64,
    pub(crate) run_fails: u64,
    pub(crate) run_status: u32,
    pub(crate) compile_status: u32,
    pub(crate) dial_fails: u64,
    pub(crate) link_fails: u64,
    pub(crate) link_stops: u64,
    // How many bytes a call of a link moves at most.
    pub(crate) most: u32,
    pub(crate) reply: &'static [u8],
    // How many bytes of the reply come.
    pub(crate) given: usize,
    pub(crate) put_fails: u64,
}

const WHOLE: &[u8] = b"DONE00000001STAT00000000SERR00000000SOUT00000000DOTO0000000dSCO1\ndef a 1\n";

/// One job, which a host compiles.
pub(crate) const FIRST: Script = Script {
    words: &["build", "--hosts", "H:3632", "--no-fallback"],
    env: &[],
    input: b"scc -c x.c -o x.o\n",
    kits: 1,
    quiet: false,
    file: None,
    read_fails: 0,
    run_fails: 0,
    run_status: 0,
    compile_status: 0,
    dial_fails: 0,
    link_fails: 0,
    link_stops: 0,
    most: 4_096,
    reply: WHOLE,
    given: 73,
    put_fails: 0,
};

pub(crate) fn numbers(alloc: Global, number: u64) -> Result<CallNumbers, AllocError> {
    let mut list = CallNumbers::new(alloc);
    if number > 0 {
        list.try_push(number)?;
    }
    Ok(list)
}

fn link_of(alloc: Global, script: &Script) -> Result<LinkScript, AllocError> {
    let fails = numbers(alloc, script.link_fails)?;
    let zeros = numbers(alloc, script.link_stops)?;
    let mut gives = Bytes::from_slice(alloc, script.reply)?;
    gives.truncate(script.given);
    Ok(LinkScript {
        gives,
        moves: Moves {
            fails,
            zeros,
            most: script.most,
        },
    })
}

fn links_of(alloc: Global, script: &Script) -> Result<LinkScripts, AllocError> {
    let mut links = LinkScripts::new(alloc);
    for _ in 0..12 {
        links.try_push(link_of(alloc, script)?)?;
    }
    Ok(links)
}

fn ran_of(alloc: Global, status: u32, out: &[u8], err: &[u8]) -> Result<Ran, AllocError> {
    let out = Bytes::from_slice(alloc, out)?;
    let err = Bytes::from_slice(alloc, err)?;
    Ok(Ran {
        status,
        out,
        err,
        object: Bytes::new(alloc),
    })
}

// If it isn't quiet, the first run gives its status, a source and a message, and the second one its status and nothing.
fn rans_of(alloc: Global, script: &Script) -> Result<RanList, AllocError> {
    let mut rans = RanList::new(alloc);
    if script.quiet {
        return Ok(rans);
    }
    rans.try_push(ran_of(alloc, script.run_status, b"int a = 1;\n", b"note\n")?)?;
    rans.try_push(ran_of(alloc, script.compile_status, b"", b"")?)?;
    Ok(rans)
}

fn files_of(alloc: Global, script: &Script) -> Result<FileList, AllocError> {
    let mut files = FileList::new(alloc);
    if let Some(name) = script.file {
        let path = Bytes::from_slice(alloc, name.as_bytes())?;
        let text = Bytes::from_slice(alloc, b"int a = 1;\n")?;
        files.try_put(path, text)?;
    }
    Ok(files)
}

fn dialer_of(alloc: Global, script: &Script) -> Result<MemDialer, AllocError> {
    let fails = numbers(alloc, script.dial_fails)?;
    let links = links_of(alloc, script)?;
    Ok(MemDialer::new(links, fails))
}

fn station_of(alloc: Global, script: &Script) -> Result<MemStation, AllocError> {
    let fails = numbers(alloc, script.run_fails)?;
    let rans = rans_of(alloc, script)?;
    Ok(MemStation::new(rans, fails))
}

fn keeper_of(alloc: Global, script: &Script) -> Result<MemKeeper, AllocError>
    ensures { IfOk result (λ keeper. IsIdle (keeper_shows (keeper_state keeper))) }
{
    let fails = numbers(alloc, script.put_fails)?;
    let files = files_of(alloc, script)?;
    Ok(MemKeeper::new(files, fails))
}

/// One kit of a script.
pub(crate) fn kit(alloc: Global, script: &Script) -> Result<MemKit, AllocError>
    ensures { IfOk result (λ kit. IsIdle (keeper_shows (keeper_state kit.keeper))) }
{
    let keeper = keeper_of(alloc, script)?;
    let station = station_of(alloc, script)?;
    let dialer = dialer_of(alloc, script)?;
    Ok(Kit {
        dialer,
        station,
        keeper,
        clock: standing_clock(alloc),
    })
}

/// That many kits of a script, but 1 at least and 16 at most.
pub(crate) fn kits(alloc: Global, script: &Script) -> Result<Vec<MemKit>, AllocError>
    ensures some { IfOk result (λ kits. 1 ≤ length kits.items) }
    ensures most { IfOk result (λ kits. length kits.items ≤ workers_max) }
    ensures idle { IfOk result (λ kits. All (λ kit. IsIdle (keeper_shows (keeper_state kit.keeper))) kits.items) }
{
    let count = kit_count(script.kits);
    let mut kits = Vec::new(alloc);
    'making: while kits.len() < count {
        kits.push(kit(alloc, script)?)?;
    }
    Ok(kits)
}

fn variable(alloc: Global, name: &str, value: &str) -> Result<(String, String), AllocError> {
    let name = String::from_str(alloc, name)?;
    let value = String::from_str(alloc, value)?;
    Ok((name, value))
}

fn variables_of(
    alloc: Global,
    env: &[(&'static str, &'static str)],
) -> Result<Vec<(String, String)>, AllocError> {
    let mut variables = Vec::new(alloc);
    for (name, value) in env {
        variables.push(variable(alloc, name, value)?)?;
    }
    Ok(variables)
}

fn asked_by(alloc: Global, script: &Script) -> Result<Asked, AllocError> {
    let words = strings(alloc, script.words)?;
    let variables = variables_of(alloc, script.env)?;
    let text = Bytes::from_slice(alloc, script.input)?;
    let fails = numbers(alloc, script.read_fails)?;
    Ok(Asked {
        words,
        variables,
        text,
        whole: false,
        fails,
    })
}

// The file `x.o` of the last kit, if it is there.
fn last_object(alloc: Global, kits: &mut Vec<MemKit>) -> Result<Option<Bytes>, AllocError> {
    match kits.last_mut() {
        Some(kit) => content_of(alloc, &mut kit.keeper, b"x.o"),
        None => Ok(None),
    }
}

/// One run over the kits of a script. The object is the file `x.o` of the last kit.
pub(crate) fn run<W: Threads + Wait + Sync>(
    rt: &W,
    alloc: Global,
    script: &Script,
) -> Result<Seen, AllocError> {
    let mut kits = kits(alloc, script)?;
    let asked = asked_by(alloc, script)?;
    let mut seen = told(rt, alloc, asked, &mut kits);
    seen.object = last_object(alloc, &mut kits)?;
    Ok(seen)
}
