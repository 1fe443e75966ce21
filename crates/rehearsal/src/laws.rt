//! What jobs put over loops.

ghost use Rattle.rehearsal.specs.Loops.{HonestLoopLaw, LoopLaw};

use edge_traits::{Clock, Keeper, Station};

/// Over loops to the sample compiler, if each kit's own station is the sample compiler over the same files, every object
/// that a job puts is what the sample compiler leaves of the job's own preprocessed source and words. Nothing is assumed of
/// the hosts: a loop's peer is this project's own service.
pub fn loops_answer_as_the_compiler<K: Keeper, C: Clock>(_keeper: &K, _clock: &C)
    ensures { LoopLaw K.shows C.shows }
{}

/// A loop over a station is fully honest to each job that may be sent and whose compiler the loop's table names, each by its own name. What
/// is promised of fully honest peers holds over this project's own daemon, with fallback or retry off too.
pub fn loops_are_fully_honest<S: Station>(_station: &S)
    ensures { HonestLoopLaw (S.ran _station.now) }
{}
