//! Laws of the course of one job.
#![tactic(auto)]

ghost use Rattle.course_laws.specs.Answers.{EndAnswerLaw, FullyHonestLaw, PutAnswerLaw, WholeAnswerLaw};
ghost use Rattle.course_laws.specs.Laws.{DownLaw, FallbackLaw, LengthLaw, OrderLaw, PutLaw, StaysHereLaw, UntimedLaw};
ghost use Rattle.course_laws.specs.Returns.{OwnEndLaw, UnbrokenLaw};
ghost use Rattle.farm_machine.specs.Numbered.{NumberedLaw};
ghost use Rattle.farm_machine.specs.Table.{MemoryLaw, TableLaw};

use edge_traits::{Dialer, Station};

/// The slot events of a course come in their turn: a job takes only if it has nothing out, gives back what it has out,
/// never gives a local host a back-off, and has nothing out at its end.
pub fn order_law()
    ensures { OrderLaw }
{}

/// If a job may find all hosts down, it may also be given a slot of any host that it hasn't taken one of before. So
/// which of these answers a take gets is left to the slots, and a take that is refused may come wherever one of them
/// may.
pub fn down_law()
    ensures { DownLaw }
{}

/// The courses that don't end for lack of memory are those of the table, and those that do are the first acts of one of
/// these, with the give of what is out then. An exchange that is the last of these acts need only be begun.
pub fn table_law()
    ensures table { TableLaw }
    ensures memory { MemoryLaw }
{}

/// Events that are numbered on from the lengths of a worker's lists read as the acts that they number: they name
/// exactly the entries that the acts add, in order. No course has a look at the clock, the only deed that is no event.
pub fn numbered_law()
    ensures numbered { NumberedLaw }
    ensures untimed { UntimedLaw }
{}

/// A put of a course is its last act, under the output's name, of the object of a compile of the job's own source with
/// status 0; the job is then done with status 0. So a job that has put its object never fails, and none puts twice.
pub fn put_law()
    ensures { PutLaw }
{}

/// A job that may not be sent has no exchange: its command is run here unchanged, or nothing is.
pub fn stays_here_law()
    ensures { StaysHereLaw }
{}

/// A course has at most three acts for each host that it may try, and five more.
pub fn length_law()
    ensures { LengthLaw }
{}

/// With fallback on no job fails for a host: whatever dialers, links and peers do, it is done, or memory ran out, or a run,
/// a fetch or a put of its own failed.
pub fn fallback_law()
    ensures { FallbackLaw }
{}

/// A job that no host fails is done, or memory ran out, if its station and keeper did nothing wrong. If none of its exchanges broke, a job
/// gives no host a back-off, and no host is the cause of its end unless it finds all hosts down before it took a slot of one. That holds
/// with fallback off, too.
pub fn return_law()
    ensures own { OwnEndLaw }
    ensures unbroken { UnbrokenLaw }
{}

/// Over honest peers, what a host answers whole with status 0 is what a compiler of this station may answer to the
/// job's request, and over peers that are fully honest to the job with any status. So over honest peers each object that a job puts is one
/// that a compiler may answer, whether a host or this machine compiled it. If a host's failure is compiled here once more,
/// or over peers fully honest to the job, the status and messages of each job that was compiled are such an outcome's too.
pub fn answer_law<D: Dialer, S: Station>(_dialer: &D, _station: &S)
    ensures fully { FullyHonestLaw (D.may_give _dialer.now) (S.ran _station.now) }
    ensures whole { WholeAnswerLaw (D.may_give _dialer.now) (S.ran _station.now) }
    ensures put { PutAnswerLaw (D.may_give _dialer.now) (S.ran _station.now) }
    ensures end { EndAnswerLaw (D.may_give _dialer.now) (S.ran _station.now) }
{}
