ghost use Rattle.std.specs.Prelude.{◌≡◌, ◌≢◌, ⊤, true, false, ◌≤◌, length, [], Option, None, Some, Err, IfOk, IfErr, IfSome, OnOk, option_map, All, string_bytes};
ghost use Rattle.edge_traits.specs.Stations.{IsWithin, has_output};
ghost use Rattle.edge_programs.specs.Counts.{run_faults, run_overruns};
ghost use Rattle.edge_programs.specs.Children.{IsRunFault};
ghost use Rattle.edge_programs.specs.Runs.{IsAnswerTo, IsRunOf};
ghost use Rattle.edge_runs.specs.Commands.{CanBeGiven, needs_folder};
ghost use Rattle.edge_programs.specs.Serving.{are_let_through, unserved_place, IsOfKind, IsRefusal};
ghost use Rattle.edge_programs.specs.Views.{station_view, counted_station, folder_of, policy_of, policy_in, lifetime_of, rules_of};

use crate::files::{input_file, output_path};
use crate::notices::{tell_overrun, tell_signal, tell_unserved};
use crate::running::{Watched, object_left, of_any_kind, of_asked_kind, run_command, run_watched};
use allowed_options::first_unserved;
use edge_runs::{
    RunFolder, RunWatch, SharedNotes, Unwatched, command_in, command_of, have_descriptors,
    needs_folder, path_of, refusal_of,
};
use edge_streams::raise;
use edge_traits::{Bounds, Station, StationFault, has_output};
use farm_types::{Bytes, Ran, Word};
use std::alloc::Global;
use std::fs::File;
use std::io::Eprint;
use std::process::Processes;
use std::random::RandomSource;
use std::rt::{self, Clock};
use std::time::Duration;

/// Which words a station runs that serves others.
#[derive(Drop)]
pub enum WordPolicy {
    /// Those that are let through, as `allowed_options` has it: anybody may send them. They may name these folders of a compiler's parts.
    ServedWords { tools: Vec<String> },
    /// All words: whoever sends them is trusted as this process is.
    AllWords,
}

/// How a station serves others.
#[derive(Drop)]
pub struct ServingRules {
    pub policy: WordPolicy,
    /// How long a program may run before it is killed, if that is bounded.
    pub lifetime: Option<Duration>,
}

/// What a station has that serves others.
#[derive(Drop)]
struct Service<W> {
    rules: ServingRules,
    /// The folder of this process, from which its programs may be named.
    here: String,
    /// The notes that a door shares with this station, if one does.
    notes: Option<SharedNotes>,
    watch: W,
}

/// Runs programs as children of this process, and waits for their ends. A run with files, and each run for others, has
/// a new folder, which is removed when the run ends, or later by the door that shares the notes. Only its owner may look into it, and its name has
/// a random word.
/// A program for others runs in that folder. It is killed if its peer has gone or its lifetime has passed, and its run has failed.
/// A line on the standard error says why a run failed, unless memory ran out or one of its streams couldn't be used. docs/real-devices.md has the rest.
#[derive(Drop)]
pub struct ChildStation<R, W = Unwatched> {
    rt: R,
    folder: String,
    service: Option<Service<W>>,
    faults: u64,
    overruns: u64,
}

impl<R: Processes + rt::Files<File = File>> ChildStation<R, Unwatched> {
    /// A station that makes the folders of its runs in `folder`. So may any number of stations, of this process and of others.
    pub fn new(rt: R, folder: String) -> ChildStation<R, Unwatched>
        ensures view { station_view result ≡ counted_station 0 0 }
        ensures folder { folder_of result ≡ string_bytes folder }
        ensures policy { policy_of result ≡ None }
    {
        ChildStation {
            rt,
            folder,
            service: None,
            faults: 0,
            overruns: 0,
        }
    }
}

impl<R: Processes + rt::Files<File = File>, W> ChildStation<R, W> {
    /// A station that runs what others send, by these rules. `here` is the folder of this process: a program that is named by a path from there
    /// is found, though its run is in another. A door may share the notes, and removes the folders of runs then.
    pub fn serving(
        rt: R,
        folder: String,
        here: String,
        rules: ServingRules,
        notes: Option<SharedNotes>,
        watch: W,
    ) -> ChildStation<R, W>
        ensures view { station_view result ≡ counted_station 0 0 }
        ensures folder { folder_of result ≡ string_bytes folder }
        ensures policy { policy_of result ≡ Some rules.policy }
        ensures lifetime { lifetime_of result ≡ rules.lifetime }
    {
        ChildStation {
            rt,
            folder,
            service: Some(Service {
                rules,
                here,
                notes,
                watch,
            }),
            faults: 0,
            overruns: 0,
        }
    }
}

impl<R: Processes + rt::Files<File = File> + RandomSource + Eprint + Clock, W: RunWatch> Station
    for ChildStation<R, W> {
    ghost shows = { station_view };

    ghost ran = { λ s words input ran. ⊤ };

    fn run(
        &mut self,
        alloc: Global,
        words: &[Word],
        input: &[u8],
        bounds: &Bounds,
    ) -> Result<Ran, StationFault>
        ensures within { IfOk result (IsWithin bounds.now) }
        ensures fault { IfErr result (IsRunFault bounds.now) }
        ensures given { are_let_through (policy_of self.old) words.now ≡ true → OnOk result (All CanBeGiven words.now) }
        ensures no_object { IfOk result (λ ran. has_output words.now ≡ false → ran.object ≡ []) }
        ensures kind { IfOk result (IsOfKind (policy_of self.old) words.now) }
        ensures refused { IfSome (unserved_place (policy_of self.old) words.now) (IsRefusal bounds.now.err words.now result) }
        ensures rules { rules_of self.new ≡ rules_of self.old }
        ensures folder { folder_of self.new ≡ folder_of self.old }
        ensures faults { (station_view self.new).faults ≡ run_faults result (station_view self.old).faults }
        ensures overruns { (station_view self.new).overruns ≡ run_overruns result (station_view self.old).overruns }
    {
        let task = Task {
            words,
            input,
            bounds,
        };
        note_asked(&self.service);
        let ran = run_served(&self.rt, self.folder.as_str(), &self.service, alloc, &task);
        if let Ok(ran) = &ran {
            tell_signal(&self.rt, words, ran.status);
        }
        match ran {
            Ok(_) => {}
            Err(StationFault::TooMuch { stream, bytes }) => {
                tell_overrun(&self.rt, words, stream, bytes);
                raise(&mut self.overruns);
            }
            Err(StationFault::Failed) => raise(&mut self.faults),
            Err(StationFault::Memory) => {}
        }
        ran
    }
}

/// Notes for a door that this station is asked for a run.
fn note_asked<W>(service: &Option<Service<W>>) {
    if let Some(
        Service {
            notes: Some(notes),
            ..
        },
    ) = service
    {
        notes.note_asked();
    }
}

/// The place of the first word that isn't let through, if the words are tested. It is reported.
fn unserved_place<R: Eprint, W>(
    rt: &R,
    service: &Option<Service<W>>,
    words: &[Word],
) -> Option<usize>
    ensures { result ≡ unserved_place (policy_in service.now) words.now }
{
    let service = service.as_ref()?;
    match &service.rules.policy {
        WordPolicy::AllWords => None,
        WordPolicy::ServedWords { tools } => {
            let place = first_unserved(words, tools.as_slice())?;
            tell_unserved(rt, words, place);
            Some(place)
        }
    }
}

/// What a run is to do.
#[derive(Clone, Copy)]
struct Task<'a> {
    words: &'a [Word],
    input: &'a [u8],
    bounds: &'a Bounds,
}

/// Runs the words if they are let through. Otherwise nothing is run, and the reply says which word isn't.
fn run_served<R: Processes + rt::Files<File = File> + RandomSource + Eprint + Clock, W: RunWatch>(
    rt: &R,
    folder: &str,
    service: &Option<Service<W>>,
    alloc: Global,
    task: &Task<'_>,
) -> Result<Ran, StationFault>
    ensures answer { IsAnswerTo (policy_in service.now) task.now.words.now task.now.bounds.now result }
    ensures given { are_let_through (policy_in service.now) task.now.words.now ≡ true → OnOk result (All CanBeGiven task.now.words.now) }
    ensures refused { IfSome (unserved_place (policy_in service.now) task.now.words.now) (IsRefusal task.now.bounds.now.err task.now.words.now result) }
{
    match unserved_place(rt, service, task.words) {
        Some(place) => refusal_of(alloc, task.words, place, task.bounds),
        None => run_child(rt, folder, service, alloc, task),
    }
}

/// Runs words that are let through.
fn run_child<R: Processes + rt::Files<File = File> + RandomSource + Eprint + Clock, W: RunWatch>(
    rt: &R,
    folder: &str,
    service: &Option<Service<W>>,
    alloc: Global,
    task: &Task<'_>,
) -> Result<Ran, StationFault>
    requires served { are_let_through (policy_in service.now) task.now.words.now ≡ true }
    ensures ran { IsRunOf (policy_in service.now) task.now.words.now task.now.bounds.now result }
{
    match service {
        Some(service) => run_for_others(rt, folder, service, alloc, task),
        None if needs_folder(task.words) => run_with_files(rt, folder, alloc, task),
        None => run_alone(rt, folder, alloc, task.words, task.bounds),
    }
}

/// Runs words for others, in the folder of the run.
#[tactic(auto, using(crate::proofs::ChildLemmas::unnamed))]
fn run_for_others<
    R: Processes + rt::Files<File = File> + RandomSource + Eprint + Clock,
    W: RunWatch,
>(
    rt: &R,
    folder: &str,
    service: &Service<W>,
    alloc: Global,
    task: &Task<'_>,
) -> Result<Ran, StationFault>
    ensures ran { IsRunOf (Some service.now.rules.policy) task.now.words.now task.now.bounds.now result }
{
    have_descriptors(rt, &service.watch);
    let folder = RunFolder::create(rt, alloc, folder, &service.notes)?;
    run_in_folder(rt, &folder, service, alloc, task)
}

/// Runs words for others, in this folder.
#[tactic(auto, using(crate::proofs::ChildLemmas::unnamed, crate::proofs::ChildLemmas::of_object))]
fn run_in_folder<
    R: Processes + rt::Files<File = File> + RandomSource + Eprint + Clock,
    W: RunWatch,
>(
    rt: &R,
    folder: &RunFolder<'_, R>,
    service: &Service<W>,
    alloc: Global,
    task: &Task<'_>,
) -> Result<Ran, StationFault>
    ensures ran { IsRunOf (Some service.now.rules.policy) task.now.words.now task.now.bounds.now result }
{
    let Task {
        words,
        input,
        bounds,
    } = *task;
    let _source = input_file(folder, words, input)?;
    let path = output_path(folder, words)?;
    let command = command_in(alloc, words, folder.path(), service.here.as_str())?;
    let watched = Watched {
        watch: &service.watch,
        lifetime: service.rules.lifetime,
        bounds,
    };
    let ended = run_watched(rt, alloc, folder.path(), command, words, &watched)?;
    let object = object_left(rt, alloc, words, &path, ended.status, bounds.object)?;
    let object = of_asked_kind(rt, words, ended.status, object)?;
    Ok(ended.with_object(object))
}

/// Runs words in the folder of this process, with the files of `Input` and `Output` in a folder of the run.
#[tactic(auto, using(crate::proofs::ChildLemmas::unnamed))]
fn run_with_files<R: Processes + rt::Files<File = File> + RandomSource + Eprint>(
    rt: &R,
    folder: &str,
    alloc: Global,
    task: &Task<'_>,
) -> Result<Ran, StationFault>
    ensures ran { IsRunOf None task.now.words.now task.now.bounds.now result }
{
    let notes = None;
    let folder = RunFolder::create(rt, alloc, folder, &notes)?;
    run_on_files(rt, &folder, alloc, task)
}

/// Runs words in the folder of this process, with the files of `Input` and `Output` in this one.
#[tactic(auto, using(crate::proofs::ChildLemmas::unnamed, crate::proofs::ChildLemmas::of_object))]
fn run_on_files<R: Processes + rt::Files<File = File> + RandomSource + Eprint>(
    rt: &R,
    folder: &RunFolder<'_, R>,
    alloc: Global,
    task: &Task<'_>,
) -> Result<Ran, StationFault>
    ensures ran { IsRunOf None task.now.words.now task.now.bounds.now result }
{
    let Task {
        words,
        input,
        bounds,
    } = *task;
    let source = input_file(folder, words, input)?;
    let path = output_path(folder, words)?;
    let command = command_of(alloc, words, path_of(&source), path_of(&path))?;
    let ended = run_command(rt, alloc, folder.path(), command, bounds)?;
    let object = object_left(rt, alloc, words, &path, ended.status, bounds.object)?;
    let object = of_any_kind(rt, words, ended.status, object)?;
    Ok(ended.with_object(object))
}

/// Runs words without `Input` and `Output` in the folder of this process, so that the run needs no folder of its own.
#[tactic(auto, using(crate::proofs::ChildLemmas::unnamed))]
fn run_alone<R: Processes + rt::Files<File = File> + RandomSource + Eprint>(
    rt: &R,
    folder: &str,
    alloc: Global,
    words: &[Word],
    bounds: &Bounds,
) -> Result<Ran, StationFault>
    requires alone { needs_folder words.now ≡ false }
    ensures ran { IsRunOf None words.now bounds.now result }
{
    let command = command_of(alloc, words, "", "")?;
    let ended = run_command(rt, alloc, folder, command, bounds)?;
    Ok(ended.with_object(Bytes::new(alloc)))
}
