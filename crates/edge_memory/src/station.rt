ghost use Rattle.std.specs.Prelude.{◌≡◌, IfOk};
ghost use Rattle.farm_types.specs.Rans.{nothing_ran};
ghost use Rattle.edge_memory.specs.Scripts.{first_or};
ghost use Rattle.edge_memory.specs.Stations.{as_left, first_over};

use crate::front::take_first_or;
use edge_traits::{
    Bounds, CallNumbers, Calls, Run, Station, StationFault, Stream, has_output, raised,
};
use farm_types::{Bytes, Items, PlacedWords, Ran, Room, Trail, Word};
use std::alloc::{AllocError, Global};

/// Scripted runs, in order.
pub type RanList = Items<Ran>;

/// A station whose runs are scripted.
#[derive(Drop)]
pub struct MemStation {
    rans: Vec<Ran>,
    calls: Calls,
    overruns: u64,
    runs: Trail<Run>,
}

impl MemStation {
    ghost use Rattle.std.specs.Prelude.{◌≡◌, []};
    ghost use Rattle.edge_memory.specs.Stations.{station_state};

    /// A station that gives these runs, and then runs of status 0 with nothing in them. It takes no memory.
    pub fn new(rans: RanList, fails: CallNumbers) -> MemStation
        ensures { station_state result ≡ record { rans = rans; fails = fails; made = 0; overruns = 0; runs = [] } }
    {
        MemStation {
            rans: rans.into_vec(),
            calls: Calls::new(fails),
            overruns: 0,
            runs: Trail::new(),
        }
    }

    /// The runs that went well, in order. It takes no memory.
    pub fn into_runs(self) -> Trail<Run>
        ensures { result ≡ (station_state self).runs }
    {
        self.runs
    }
}

/// A copy of the first run, or of one with nothing in it.
fn copy_first(alloc: Global, rans: &[Ran]) -> Result<Ran, AllocError>
    ensures { IfOk result (λ ran. ran ≡ first_or nothing_ran rans.now) }
{
    match rans {
        [] => Ok(Ran::nothing(alloc)),
        [ran, ..] => ran.copy(),
    }
}

/// The run as these words leave it: without an object if the words have no output.
fn as_left(alloc: Global, words: &[Word], mut ran: Ran) -> Ran
    ensures { result ≡ as_left words.now ran }
{
    if !has_output(words) {
        ran.object = Bytes::new(alloc);
    }
    ran
}

/// The first stream of a run that is above its bound, as these words leave it, with its length.
fn first_over(ran: &Ran, words: &[Word], bounds: &Bounds) -> Option<(Stream, u64)>
    ensures { result ≡ first_over bounds.now (as_left words.now ran.now) }
{
    let (out, err) = (ran.out.len(), ran.err.len());
    let object = if has_output(words) {
        ran.object.len()
    } else {
        0
    };
    if out > bounds.out as usize {
        return Some((Stream::Out, out as u64));
    }
    if err > bounds.err as usize {
        return Some((Stream::Err, err as u64));
    }
    if object > bounds.object as usize {
        return Some((Stream::Object, object as u64));
    }
    None
}

/// The same of the first of some runs, or of one with nothing in it.
fn first_ran_over(
    alloc: Global,
    rans: &[Ran],
    words: &[Word],
    bounds: &Bounds,
) -> Option<(Stream, u64)>
    ensures { result ≡ first_over bounds.now (as_left words.now (first_or nothing_ran rans.now)) }
{
    match rans {
        [] => first_over(&Ran::nothing(alloc), words, bounds),
        [ran, ..] => first_over(ran, words, bounds),
    }
}

impl Station for MemStation {
    ghost use Rattle.std.specs.Prelude.{◌≡◌, ◌≤◌, ⊤, [], false, IfOk, IfErr, OnOk};
    ghost use Rattle.edge_traits.specs.Stations.{IsWithin, StationStill, RunFault, has_output};
    ghost use Rattle.edge_memory.specs.Stations.{station_state, station_shows, IsRunAnswer, after_run};

    ghost shows = { λ s. station_shows (station_state s) };

    ghost ran = { λ s words input ran. ⊤ };

    #[tactic(auto, using(edge_traits::proofs::Counting::causes))]
    fn run(
        &mut self,
        alloc: Global,
        words: &[Word],
        input: &[u8],
        bounds: &Bounds,
    ) -> Result<Ran, StationFault>
        ensures answer { IsRunAnswer (station_state self.old) words.now bounds.now result }
        ensures state { station_state self.new ≡ after_run (station_state self.old) words.now input.now result }
        ensures within { IfOk result (IsWithin bounds.now) }
        ensures no_object { IfOk result (λ ran. has_output words.now ≡ false → ran.object ≡ []) }
        ensures faults { (station_shows (station_state self.old)).faults ≤ (station_shows (station_state self.new)).faults }
        ensures done { OnOk result (StationStill (station_shows (station_state self.old)) (station_shows (station_state self.new))) }
        ensures cause { IfErr result (RunFault bounds.now (station_shows (station_state self.old)) (station_shows (station_state self.new))) }
    {
        if self.calls.fails_next() {
            return Err(StationFault::Failed);
        }
        if let Some((stream, bytes)) = first_ran_over(alloc, self.rans.as_slice(), words, bounds) {
            self.overruns = raised(self.overruns);
            let _used = take_first_or(&mut self.rans, Ran::nothing(alloc));
            return Err(StationFault::TooMuch { stream, bytes });
        }
        let room = Room::new(alloc)?;
        let entry = Run {
            words: PlacedWords::from_slice(alloc, words)?,
            input: Bytes::from_slice(alloc, input)?,
            ran: as_left(alloc, words, copy_first(alloc, self.rans.as_slice())?),
        };
        let answer = take_first_or(&mut self.rans, Ran::nothing(alloc));
        self.runs.add(room, entry);
        Ok(as_left(alloc, words, answer))
    }
}
