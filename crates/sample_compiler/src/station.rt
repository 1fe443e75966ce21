//! The compiler as a station.

ghost use Rattle.std.specs.Prelude.{◌≡◌, ◌<◌, [], length, map, IfOk, IfSome, OnOk, OnErr, MatchOption};
ghost use Rattle.edge_traits.specs.Told.{SameRelation3};
ghost use Rattle.edge_traits.specs.Stations.{IsWithin, bound_of};
ghost use Rattle.sample_compiler.specs.Stations as stations;
ghost use Rattle.sample_compiler.specs.Stations.{own_word, StationRan, station_files, station_shows};

use crate::compiler::leave;
use crate::task::{Product, Task, task_of};
use edge_traits::{Bounds, Run, Station, StationFault, Stream, has_output, raised};
use farm_types::{Bytes, PlacedWords, Ran, Room, Trail, Word, Words};
use sample_lang::FileMap;
use std::alloc::{AllocError, Global};

/// The name of the file that holds a run's input. No word of a command line has its first byte.
const OWN_INPUT: &[u8] = b"\0.i";
/// The name that means a run's object.
const OWN_OUTPUT: &[u8] = b"\0.object";

/// The compiler over a map of files, as a station. What it leaves is what `compile` gives over these files and the input.
#[derive(Drop)]
pub struct SampleStation {
    files: FileMap,
    runs: Trail<Run>,
    overruns: u64,
}

// The text of a word: the names of the station's own mean the input and the object.
fn own_word(alloc: Global, word: &Word) -> Result<Bytes, AllocError>
    ensures { IfOk result (λ text. text ≡ own_word word.now) }
{
    match word {
        Word::Text(text) => text.copy(),
        Word::Input(_) => Bytes::from_slice(alloc, OWN_INPUT),
        Word::Output => Bytes::from_slice(alloc, OWN_OUTPUT),
    }
}

// The words as the compiler reads them.
fn spelled(alloc: Global, words: &[Word]) -> Result<Words, AllocError>
    ensures { IfOk result (λ texts. texts ≡ map own_word words.now) }
{
    let mut texts = Words::new(alloc);
    for word in words {
        texts.try_push(own_word(alloc, word)?)?;
    }
    Ok(texts)
}

// Whether the name of `-o` is the one that means the object.
fn is_output_named(asked: &Option<Task>) -> bool
    ensures { result ≡ stations.is_output_named asked.now }
{
    match asked {
        Some(task) => match &task.product {
            Product::Object(output) => output.as_slice() == OWN_OUTPUT,
            Product::Text => false,
        },
        None => false,
    }
}

// The run as these words leave it: with no object if none of them means it as the operand of `-o`.
fn as_left(alloc: Global, words: &[Word], asked: &Option<Task>, mut ran: Ran) -> Ran
    ensures { result ≡ stations.as_left words.now asked.now ran }
{
    if !(has_output(words) && is_output_named(asked)) {
        ran.object = Bytes::new(alloc);
    }
    ran
}

// The first stream of a run that is above its bound, with its length.
fn first_over(ran: &Ran, bounds: &Bounds) -> Option<(Stream, u64)>
    ensures over { MatchOption result (IsWithin bounds.now ran.now) (λ over. bound_of bounds.now over.0 < over.1) }
    ensures len { IfSome result (λ over. over.1 ≡ length (stations.stream_of ran.now over.0)) }
{
    if ran.out.len() > bounds.out as usize {
        return Some((Stream::Out, ran.out.len() as u64));
    }
    if ran.err.len() > bounds.err as usize {
        return Some((Stream::Err, ran.err.len() as u64));
    }
    if ran.object.len() > bounds.object as usize {
        return Some((Stream::Object, ran.object.len() as u64));
    }
    None
}

// The entry of a run.
fn entry_of(alloc: Global, words: &[Word], input: &[u8], ran: &Ran) -> Result<Run, AllocError>
    ensures { IfOk result (λ entry. entry ≡ record { words = words.now; input = input.now; ran = ran.now }) }
{
    let words = PlacedWords::from_slice(alloc, words)?;
    let input = Bytes::from_slice(alloc, input)?;
    let ran = ran.copy()?;
    Ok(Run { words, input, ran })
}

// Gives the input its name.
fn put_input(alloc: Global, files: &mut FileMap, input: &[u8]) -> Result<(), AllocError>
    ensures held { OnOk result (files.new ≡ stations.with_input files.old input.now) }
    ensures same { OnErr result (files.new ≡ files.old) }
{
    let name = Bytes::from_slice(alloc, OWN_INPUT)?;
    let content = Bytes::from_slice(alloc, input)?;
    files.try_put(name, content)
}

// What a run leaves.
fn left(alloc: Global, files: &mut FileMap, words: &[Word], input: &[u8]) -> Result<Ran, AllocError>
    ensures ran { IfOk result (StationRan files.new words.now input.now) }
    ensures same { SameRelation3 (StationRan files.old) (StationRan files.new) }
{
    let texts = spelled(alloc, words)?;
    let asked = task_of(alloc, texts.as_slice())?;
    put_input(alloc, files, input)?;
    let ran = leave(alloc, files, &asked)?;
    Ok(as_left(alloc, words, &asked, ran))
}

impl SampleStation {
    /// The station over these files. It takes no memory.
    pub fn new(files: FileMap) -> SampleStation
        ensures files { station_files result ≡ files }
        ensures shows { station_shows result ≡ stations.fresh_shows }
    {
        SampleStation {
            files,
            runs: Trail::new(),
            overruns: 0,
        }
    }

    /// The runs that went well, in order. It takes no memory.
    pub fn into_runs(self) -> Trail<Run>
        ensures { result ≡ (station_shows self).runs.value }
    {
        self.runs
    }
}

impl Station for SampleStation {
    ghost use Rattle.std.specs.Prelude.{◌≡◌, ◌≤◌, false, [], IfOk, IfErr, OnOk};
    ghost use Rattle.edge_traits.specs.Told.{Grew, SameRelation3};
    ghost use Rattle.edge_traits.specs.Stations.{IsWithin, StationStill, RunFault, has_output, run_entries};
    ghost use Rattle.sample_compiler.specs.Stations.{StationRan, OverrunsAre, station_files, station_shows};

    ghost shows = { station_shows };

    ghost ran = { λ s. StationRan (station_files s) };

    #[tactic(auto, using(edge_traits::proofs::Counting::causes))]
    fn run(
        &mut self,
        alloc: Global,
        words: &[Word],
        input: &[u8],
        bounds: &Bounds,
    ) -> Result<Ran, StationFault>
        ensures overrun { OverrunsAre self.old self.new words.now input.now result }

        // What each station ensures.
        ensures within { IfOk result (IsWithin bounds.now) }
        ensures ran { IfOk result (StationRan (station_files self.new) words.now input.now) }
        ensures no_object { IfOk result (λ ran. has_output words.now ≡ false → ran.object ≡ []) }
        ensures same { SameRelation3 (StationRan (station_files self.old)) (StationRan (station_files self.new)) }
        ensures runs { Grew (station_shows self.old).runs (station_shows self.new).runs (run_entries words.now input.now result) }
        ensures faults { (station_shows self.old).faults ≤ (station_shows self.new).faults }
        ensures overruns { (station_shows self.old).overruns ≤ (station_shows self.new).overruns }
        ensures done { OnOk result (StationStill (station_shows self.old) (station_shows self.new)) }
        ensures cause { IfErr result (RunFault bounds.now (station_shows self.old) (station_shows self.new)) }
    {
        let room = Room::new(alloc)?;
        let ran = left(alloc, &mut self.files, words, input)?;
        if let Some((stream, bytes)) = first_over(&ran, bounds) {
            self.overruns = raised(self.overruns);
            return Err(StationFault::TooMuch { stream, bytes });
        }
        let entry = entry_of(alloc, words, input, &ran)?;
        self.runs.add(room, entry);
        Ok(ran)
    }
}
