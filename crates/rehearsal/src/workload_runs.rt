//! Laws of what the sample compiler leaves of the workload's jobs (docs/rehearsal.md).

ghost use Rattle.rehearsal.specs.WorkloadRuns.{SentLaw, PreprocessedLaw, CompiledLaw};

use workload::one_file_for_each_job;

/// The command of each job may be sent, with a source that is to be preprocessed. At a station over the workload's files its
/// preprocessor leaves the source itself. And what a compile of that source leaves there, by the words that are sent, the
/// compiler leaves by the job's own words over the files.
pub fn runs_of_jobs()
    ensures sent { SentLaw }
    ensures preprocessed { PreprocessedLaw }
    ensures compiled { CompiledLaw }
{
    one_file_for_each_job();
}
