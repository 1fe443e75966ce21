//! What the calls of one worker say of its jobs, and those of all workers of the farm.

ghost use Rattle.std.specs.Prelude.{◌≡◌, ℕ, ◌<◌};
ghost use Rattle.farm_machine.specs.Course.{Course};
ghost use Rattle.farm_machine.specs.Driver.{AllWorked, DriverLaw, WorkersRun, WorkersRunLaw};
ghost use Rattle.farm_machine.specs.Farm.{farm_of, wanted};
ghost use Rattle.farm_machine.specs.Machine.{FarmRun};
ghost use Rattle.farm_machine.specs.Own.{ServesMoreLaw, WorkerLaw};
ghost use Rattle.farm_machine.specs.Weave.{Agrees, weave};
ghost use Rattle.farm_laws.specs.Example.{calls, jobs, limits};
ghost use Rattle.farm_laws.specs.ExampleRun.{done_by, reports, steps};

/// One worker: if its calls are its jobs, one after another until a draw answers none, they agree with its
/// reports. `more` lets a job's calls grow one slot event at a time, the refused takes before it included.
pub fn worker_law()
    ensures worker { WorkerLaw }
    ensures more { ServesMoreLaw }
{}

/// All workers: if each did one job after another until a draw answered none, and no one else called, each
/// job was done by a worker, and the calls agree with the reports of what the workers did. If what they did
/// were courses, there are such reports, one for each job, and what is woven of them and the calls is a run.
pub fn driver_law()
    ensures agree { DriverLaw }
    ensures run { WorkersRunLaw }
{}

/// An example that computes: two workers, one host with one slot, three jobs and one refused take. Its reports
/// are courses of its jobs' commands, its calls agree with them, and what is woven of both is the list of steps
/// that docs/farm.md shows, which is a run. Each worker did one job after another until a draw answered none, so
/// that the laws above lead to a run too.
pub fn example()
    ensures courses { (j : ℕ) → j < limits.jobs → Course (jobs j) (reports.acts j) (reports.ends j) }
    ensures agrees { Agrees limits reports (wanted limits) calls }
    ensures woven { weave calls reports ≡ steps }
    ensures run { FarmRun (farm_of limits jobs) limits steps }
    ensures worked { AllWorked (wanted limits) 2 done_by calls }
    ensures workers { WorkersRun limits jobs 2 done_by calls }
{}
