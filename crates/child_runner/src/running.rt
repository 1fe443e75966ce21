ghost use Rattle.std.specs.Prelude.{◌≡◌, ◌<◌, ◌≤◌, [], length, IfOk, IfErr, OnOk};
ghost use Rattle.edge_traits.specs.Told.{Grew, SameRelation3};
ghost use Rattle.edge_traits.specs.Stations.{IsWithin, run_entries, StationStill, RunFault, compile_bounds};
ghost use Rattle.arg_scan.specs.Class.{IsRemote, class_of};
ghost use Rattle.arg_strip.specs.Words.{preprocessing_words, placed_words};
ghost use Rattle.child_runner.specs.Runs;

use crate::bounds::{IN_PLACE, PREPROCESSOR};
use crate::texts::texts;
use arg_strip::{cpp_words, placed};
use edge_traits::{COMPILE_BOUNDS, Station, StationFault};
use farm_types::{Bytes, Ran, Words};
use std::alloc::Global;

/// Runs the preprocessor of a command that may be sent and whose source isn't preprocessed.
///
/// It is one run of the words that preprocess, each unchanged, with no input. `Failed` and `TooMuch` come only if the station's count of
/// faults or overruns rose. If memory runs out before the run, there is no run.
pub fn preprocess<S: Station>(
    alloc: Global,
    words: &Words,
    station: &mut S,
) -> Result<Ran, StationFault>
    requires remote { IsRemote words.now }
    requires source { Runs.IsUnpreprocessed (class_of words.now) }
    ensures runs { Grew (S.shows station.old).runs (S.shows station.new).runs (run_entries (Runs.texts (preprocessing_words words.now)) [] result) }
    ensures ran { IfOk result (S.ran station.new (Runs.texts (preprocessing_words words.now)) []) }
    ensures within { IfOk result (IsWithin Runs.preprocessor_bounds) }
    ensures done { OnOk result (StationStill (S.shows station.old) (S.shows station.new)) }
    ensures cause { IfErr result (RunFault Runs.preprocessor_bounds (S.shows station.old) (S.shows station.new)) }

    // What it may answer is the same, and its counts don't fall.
    ensures same { SameRelation3 (S.ran station.old) (S.ran station.new) }
    ensures faults { (S.shows station.old).faults ≤ (S.shows station.new).faults }
    ensures overruns { (S.shows station.old).overruns ≤ (S.shows station.new).overruns }
{
    let words = cpp_words(alloc, words)?;
    let words = texts(alloc, words.as_slice())?;
    station.run(alloc, words.as_slice(), &[], &PREPROCESSOR)
}

/// Compiles a preprocessed source by the words of a command that may be sent.
///
/// It is one run of the words that are sent, with the station's own names for the source and the output, on this source. `Failed` and
/// `TooMuch` come only if the station's count of faults or overruns rose. If memory runs out before the run, there is no run.
pub fn compile<S: Station>(
    alloc: Global,
    words: &Words,
    source: &Bytes,
    station: &mut S,
) -> Result<Ran, StationFault>
    requires remote { IsRemote words.now }
    ensures runs { Grew (S.shows station.old).runs (S.shows station.new).runs (run_entries (placed_words words.now) source.now result) }
    ensures ran { IfOk result (S.ran station.new (placed_words words.now) source.now) }
    ensures within { IfOk result (IsWithin compile_bounds) }
    ensures done { OnOk result (StationStill (S.shows station.old) (S.shows station.new)) }
    ensures cause { IfErr result (RunFault compile_bounds (S.shows station.old) (S.shows station.new)) }

    // What it may answer is the same, and its counts don't fall.
    ensures same { SameRelation3 (S.ran station.old) (S.ran station.new) }
    ensures faults { (S.shows station.old).faults ≤ (S.shows station.new).faults }
    ensures overruns { (S.shows station.old).overruns ≤ (S.shows station.new).overruns }
{
    let words = placed(alloc, words)?;
    station.run(alloc, words.as_slice(), source.as_slice(), &COMPILE_BOUNDS)
}

/// Runs a whole command unchanged, for a job that isn't sent.
///
/// It is one run of all its words, with no input; the files are the command's own. `Failed` and `TooMuch` come only if the station's count
/// of faults or overruns rose. If memory runs out before the run, there is no run.
pub fn in_place<S: Station>(
    alloc: Global,
    words: &Words,
    station: &mut S,
) -> Result<Ran, StationFault>
    requires some { 0 < length words.now }
    ensures runs { Grew (S.shows station.old).runs (S.shows station.new).runs (run_entries (Runs.texts words.now) [] result) }
    ensures ran { IfOk result (S.ran station.new (Runs.texts words.now) []) }
    ensures within { IfOk result (IsWithin Runs.in_place_bounds) }
    ensures done { OnOk result (StationStill (S.shows station.old) (S.shows station.new)) }
    ensures cause { IfErr result (RunFault Runs.in_place_bounds (S.shows station.old) (S.shows station.new)) }

    // What it may answer is the same, and its counts don't fall.
    ensures same { SameRelation3 (S.ran station.old) (S.ran station.new) }
    ensures faults { (S.shows station.old).faults ≤ (S.shows station.new).faults }
    ensures overruns { (S.shows station.old).overruns ≤ (S.shows station.new).overruns }
{
    let words = texts(alloc, words.as_slice())?;
    station.run(alloc, words.as_slice(), &[], &IN_PLACE)
}
