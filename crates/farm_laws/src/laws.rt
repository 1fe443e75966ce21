//! The laws, one function each.
ghost use Rattle.farm_machine.specs.Farm.{AllBackLaw, KeptLaw, PrefixLaw, RunLaw, WeaveLaw};
ghost use Rattle.farm_machine.specs.Reading.{ReadingLaw};
ghost use Rattle.farm_machine.specs.Weave.{CallersLaw, NothingLostLaw, UnreadLaw};
ghost use Rattle.farm_laws.specs.Laws.{UpLaw};

/// The farm machine, after every list of steps that it may make, and so at every front of one. The calls are a legal history, and the jobs
/// drawn are those begun or returned. A worker has at most one begun job, and a begun job's acts are the front of a course. What is
/// outstanding is what begun jobs took and have not given back. At the end of every run nothing is outstanding.
pub fn machine_law()
    ensures kept { KeptLaw }
    ensures prefixes { PrefixLaw }
    ensures run { RunLaw }
{}

/// The law of the weave: if calls agree with reports that are courses, what is woven of them is a run, and
/// every grant was given back. The weave has all calls, all that each job does, and its return, and nothing else.
pub fn weave_law()
    ensures run { WeaveLaw }
    ensures back { AllBackLaw }
    ensures whole { NothingLostLaw }
{}

/// The law by callers: a legal list of calls in which every job was drawn agrees with reports exactly if each worker's own calls do.
pub fn callers_law()
    ensures { CallersLaw }
{}

/// Whether calls agree with reports depends only on the reports' workers and slot events, which are read without the entries of devices.
pub fn unread_law()
    ensures alike { UnreadLaw }
    ensures read { ReadingLaw }
{}

/// Hosts are found down only after one of them got a back-off, or by a job that took one before. So if there is a host, and no job gives
/// one a back-off or finds the hosts down after it took one, no job finds them down at all.
pub fn up_law()
    ensures { UpLaw }
{}
