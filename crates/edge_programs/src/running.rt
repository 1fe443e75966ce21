// A program's run, from its start to what it left.
ghost use Rattle.std.specs.Prelude.{true, ◌≡◌, ◌≢◌, ℕ, ◌≤◌, List, [], length, Option, None, Err, IfSome, IfOk, IfErr};
ghost use Rattle.edge_programs.specs.Children.{IsRunFault, IsStreamFault, taken_of, left_by};
ghost use Rattle.edge_runs.specs.Commands.{NamesNoStream};
ghost use Rattle.edge_traits.specs.Stations.{has_output};
ghost use Rattle.object_kind.specs.Asked.{is_asked_kind, is_filled};
ghost use Rattle.edge_streams.specs.Reading.{IsReadWithin, IsReadOf};
ghost use Rattle.edge_files.specs.Loads.{IsLoadFault};

use crate::notices::{tell_empty, tell_lost, tell_missing, tell_unasked, tell_unstarted};
use crate::waiting::wait_watched;
use edge_files::load;
use edge_runs::{RunWatch, nameless_file};
use edge_streams::{Reading, read_to_end};
use edge_traits::{Bounds, FetchFault, StationFault, Stream, has_output};
use farm_types::{Bytes, Ran, Word};
use object_kind::{is_asked_kind, is_filled};
use std::alloc::Global;
use std::fs::File;
use std::io::{Eprint, Read, Seek};
use std::os::unix::process::ExitStatusExt;
use std::process::{Child, Command, OpenProcess, Processes, Stdio};
use std::random::RandomSource;
use std::rt::{self, Clock};
use std::time::Duration;

/// What a program gave: its wait status, its standard output and its standard error.
#[derive(Drop)]
pub struct Ended {
    pub status: u32,
    pub out: Bytes,
    pub err: Bytes,
}

impl Ended {
    /// What the run gave, with the object that the program left.
    pub fn with_object(self, object: Bytes) -> Ran
        ensures { result ≡ record { status = self.status; out = self.out; err = self.err; object = object } }
    {
        Ran {
            status: self.status,
            out: self.out,
            err: self.err,
            object,
        }
    }
}

/// How a run for others may end.
#[derive(Drop)]
pub struct Watched<'a, W> {
    pub watch: &'a W,
    /// How long the program may run, if that is bounded.
    pub lifetime: Option<Duration>,
    pub bounds: &'a Bounds,
}

/// Runs a command to its end. Its standard error goes to a file of this folder that has no name there.
#[tactic(auto, using(crate::proofs::ChildLemmas::unnamed, crate::proofs::ChildLemmas::of_out, crate::proofs::ChildLemmas::of_err))]
pub fn run_command<R: Processes + rt::Files<File = File> + RandomSource + Eprint>(
    rt: &R,
    alloc: Global,
    folder: &str,
    command: Command,
    bounds: &Bounds,
) -> Result<Ended, StationFault>
    ensures out { IfOk result (λ ended. length ended.out ≤ bounds.now.out) }
    ensures err { IfOk result (λ ended. length ended.err ≤ bounds.now.err) }
    ensures fault { IfErr result (IsRunFault bounds.now) }
{
    let mut messages = nameless_file(rt, alloc, folder)?;
    let child = start(rt, command, Stdio::piped(), &messages)?;
    let (status, out) = run_to_end(rt, child, alloc, bounds.out)?;
    let err = read_again(&mut messages, alloc, bounds.err, Stream::Err)?;
    Ok(Ended { status, out, err })
}

/// Runs a command for others to its end, or to an early one. Its standard output and its standard error go to files of this folder that have no names
/// there: what outlives the program and holds them holds nobody up.
#[tactic(auto, using(crate::proofs::ChildLemmas::unnamed, crate::proofs::ChildLemmas::of_out, crate::proofs::ChildLemmas::of_err))]
pub fn run_watched<
    R: Processes + rt::Files<File = File> + RandomSource + Eprint + Clock,
    W: RunWatch,
>(
    rt: &R,
    alloc: Global,
    folder: &str,
    command: Command,
    words: &[Word],
    watched: &Watched<'_, W>,
) -> Result<Ended, StationFault>
    ensures out { IfOk result (λ ended. length ended.out ≤ watched.now.bounds.now.out) }
    ensures err { IfOk result (λ ended. length ended.err ≤ watched.now.bounds.now.err) }
    ensures fault { IfErr result (IsRunFault watched.now.bounds.now) }
{
    let mut output = nameless_file(rt, alloc, folder)?;
    let mut messages = nameless_file(rt, alloc, folder)?;
    let status = run_into(rt, command, words, watched, (&output, &messages))?;
    let (out, err) = read_both(alloc, (&mut output, &mut messages), watched.bounds)?;
    Ok(Ended { status, out, err })
}

/// Runs a command for others to its end, or to an early one, and returns its wait status. Its standard output and its standard error go to these files.
fn run_into<R: Processes + Eprint + Clock, W: RunWatch>(
    rt: &R,
    command: Command,
    words: &[Word],
    watched: &Watched<'_, W>,
    files: (&File, &File),
) -> Result<u32, StationFault>
    ensures fault { IfErr result NamesNoStream }
{
    let mut child = start(rt, command, written_to(files.0)?, files.1)?;
    wait_watched(rt, &mut child, words, watched.watch, watched.lifetime)
}

/// What was written into the files of a program's standard output and standard error, which are open still.
#[tactic(auto, using(crate::proofs::ChildLemmas::of_out, crate::proofs::ChildLemmas::of_err))]
fn read_both(
    alloc: Global,
    files: (&mut File, &mut File),
    bounds: &Bounds,
) -> Result<(Bytes, Bytes), StationFault>
    ensures out { IfOk result (λ both. length both.0 ≤ bounds.now.out) }
    ensures err { IfOk result (λ both. length both.1 ≤ bounds.now.err) }
    ensures fault { IfErr result (IsRunFault bounds.now) }
{
    let out = read_again(files.0, alloc, bounds.out, Stream::Out)?;
    let err = read_again(files.1, alloc, bounds.err, Stream::Err)?;
    Ok((out, err))
}

/// The object that a program left at this path, if it was to leave one. If it ended with status 0 and left none, that is reported.
pub fn object_left<R: rt::Files + Eprint>(
    rt: &R,
    alloc: Global,
    words: &[Word],
    path: &Option<String>,
    status: u32,
    bound: u32,
) -> Result<Bytes, StationFault>
    ensures within { IfOk result (λ bytes. length bytes ≤ bound) }
    ensures none { path.now ≡ None → IfOk result (λ bytes. bytes ≡ []) }
    ensures fault { IfErr result (IsStreamFault Stream.Object bound) }
{
    let Some(path) = path else {
        return Ok(Bytes::new(alloc));
    };
    let loaded = load(rt, alloc, path.as_str(), bound);
    if status == 0 && matches!(loaded, Err(FetchFault::Absent)) {
        tell_missing(rt, words);
    }
    left_by(alloc, loaded, Stream::Object)
}

/// The object, if it is of the kind that the words ask for. One of another kind is a fault if its program ended with status 0; the fault is reported.
pub fn of_asked_kind<R: Eprint>(
    rt: &R,
    words: &[Word],
    status: u32,
    object: Bytes,
) -> Result<Bytes, StationFault>
    ensures same { IfOk result (λ bytes. bytes ≡ object) }
    ensures kind { IfOk result (λ bytes. status ≡ 0 → has_output words.now ≡ true → is_asked_kind words.now bytes ≡ true) }
    ensures fault { IfErr result NamesNoStream }
{
    if status == 0 && has_output(words) && !is_asked_kind(words, object.as_slice()) {
        tell_unasked(rt, words, object.len());
        return Err(StationFault::Failed);
    }
    Ok(object)
}

/// The object, if it is more than nothing or no driver of gcc or clang was to leave it. An empty one is a fault if its driver ended with status 0;
/// the fault is reported.
pub fn of_any_kind<R: Eprint>(
    rt: &R,
    words: &[Word],
    status: u32,
    object: Bytes,
) -> Result<Bytes, StationFault>
    ensures same { IfOk result (λ bytes. bytes ≡ object) }
    ensures filled { IfOk result (λ bytes. status ≡ 0 → has_output words.now ≡ true → is_filled words.now bytes ≡ true) }
    ensures fault { IfErr result NamesNoStream }
{
    if status == 0 && has_output(words) && !is_filled(words, object.as_slice()) {
        tell_empty(rt, words);
        return Err(StationFault::Failed);
    }
    Ok(object)
}

/// A stream of a program that goes to this file.
fn written_to(file: &File) -> Result<Stdio, StationFault>
    ensures fault { IfErr result NamesNoStream }
    ensures memory { result ≢ Err StationFault.Memory }
{
    match file.try_clone() {
        Ok(file) => Ok(Stdio::from(file)),
        Err(_) => Err(StationFault::Failed),
    }
}

/// Starts a program, with an empty standard input. Its standard error goes to this file.
fn start<R: Processes + Eprint>(
    rt: &R,
    command: Command,
    output: Stdio,
    messages: &File,
) -> Result<Child<R::Started>, StationFault>
    ensures fault { IfErr result NamesNoStream }
    ensures memory { result ≢ Err StationFault.Memory }
{
    let errors = written_to(messages)?;
    let mut command = command;
    command.stdin(Stdio::null()).stdout(output).stderr(errors);
    match command.spawn(rt) {
        Ok(child) => Ok(child),
        Err(error) => {
            tell_unstarted(rt, command.get_program(), &error);
            Err(StationFault::Failed)
        }
    }
}

/// Runs a program to its end. Its standard output is read here, so it doesn't hold the program up.
#[tactic(auto, using(crate::proofs::ChildLemmas::unnamed_in))]
fn run_to_end<R: Eprint, P: OpenProcess + Drop>(
    rt: &R,
    mut child: Child<P>,
    alloc: Global,
    bound: u32,
) -> Result<(u32, Bytes), StationFault>
    ensures within { IfOk result (λ ended. length ended.1 ≤ bound) }
    ensures fault { IfErr result (IsStreamFault Stream.Out bound) }
{
    let out = read_pipe(child.stdout.take(), alloc, bound);
    let status = wait_for(rt, &mut child)?;
    Ok((status, out?))
}

/// The wait status of a program, once it has ended. If the system doesn't say how it ended, that is reported.
fn wait_for<R: Eprint, P: OpenProcess + Drop>(
    rt: &R,
    child: &mut Child<P>,
) -> Result<u32, StationFault>
    ensures fault { IfErr result NamesNoStream }
    ensures memory { result ≢ Err StationFault.Memory }
{
    match child.wait() {
        Ok(status) => Ok(status.into_raw().cast_unsigned()),
        Err(error) => {
            tell_lost(rt, &error);
            Err(StationFault::Failed)
        }
    }
}

fn read_pipe<S: Read + Drop>(
    pipe: Option<S>,
    alloc: Global,
    bound: u32,
) -> Result<Bytes, StationFault>
    ensures within { IfOk result (λ bytes. length bytes ≤ bound) }
    ensures fault { IfErr result (IsStreamFault Stream.Out bound) }
    ensures none { pipe ≡ None → result ≡ Err StationFault.Failed }
    ensures read { IfOk result (λ bytes. IfSome pipe (λ stream. IfSome (S.remaining stream) (λ all. bytes ≡ all))) }
{
    let Some(mut pipe) = pipe else {
        return Err(StationFault::Failed);
    };
    read_stream(&mut pipe, alloc, bound, Stream::Out)
}

/// What was written into a file that is open still.
#[tactic(auto, using(crate::proofs::ChildLemmas::unnamed_in))]
fn read_again(
    file: &mut File,
    alloc: Global,
    bound: u32,
    which: Stream,
) -> Result<Bytes, StationFault>
    ensures within { IfOk result (λ bytes. length bytes ≤ bound) }
    ensures fault { IfErr result (IsStreamFault which bound) }
{
    to_its_start(file)?;
    read_stream(file, alloc, bound, which)
}

fn to_its_start(file: &mut File) -> Result<(), StationFault>
    ensures fault { IfErr result NamesNoStream }
    ensures memory { result ≢ Err StationFault.Memory }
{
    match file.rewind() {
        Ok(()) => Ok(()),
        Err(_) => Err(StationFault::Failed),
    }
}

fn read_stream<S: Read>(
    stream: &mut S,
    alloc: Global,
    bound: u32,
    which: Stream,
) -> Result<Bytes, StationFault>
    ensures within { IfOk result (λ bytes. length bytes ≤ bound) }
    ensures fault { IfErr result (IsStreamFault which bound) }
    ensures read { IfOk result (λ bytes. IfSome (S.remaining stream.old) (λ all. bytes ≡ all)) }
{
    taken(read_to_end(stream, alloc, bound, 0)?, which)
}

/// What is taken of a stream, by what its reading gave.
fn taken(reading: Reading, which: Stream) -> Result<Bytes, StationFault>
    ensures taken { result ≡ taken_of which reading }
    ensures within { (bound : ℕ) → IsReadWithin bound reading → IfOk result (λ bytes. length bytes ≤ bound) }
    ensures fault { (bound : ℕ) → IsReadWithin bound reading → IfErr result (IsStreamFault which bound) }
    ensures read { (known : Option (List ℕ)) → IsReadOf known reading → IfOk result (λ bytes. IfSome known (λ all. bytes ≡ all)) }
{
    match reading {
        Reading::Whole(bytes) => Ok(bytes),
        Reading::Over(bytes) => Err(StationFault::TooMuch {
            stream: which,
            bytes,
        }),
        Reading::Failed => Err(StationFault::Failed),
    }
}

/// What a program left in a file, by the load of it: one that isn't there holds nothing.
fn left_by(
    alloc: Global,
    loaded: Result<Bytes, FetchFault>,
    stream: Stream,
) -> Result<Bytes, StationFault>
    ensures left { result ≡ left_by stream loaded }
    ensures within { (bound : ℕ) → IfOk loaded (λ bytes. length bytes ≤ bound) → IfOk result (λ bytes. length bytes ≤ bound) }
    ensures fault { (bound : ℕ) → IfErr loaded (IsLoadFault bound) → IfErr result (IsStreamFault stream bound) }
{
    match loaded {
        Ok(bytes) => Ok(bytes),
        Err(FetchFault::Absent) => Ok(Bytes::new(alloc)),
        Err(FetchFault::TooMuch { bytes }) => Err(StationFault::TooMuch { stream, bytes }),
        Err(FetchFault::Failed) => Err(StationFault::Failed),
        Err(FetchFault::Memory) => Err(StationFault::Memory),
    }
}
