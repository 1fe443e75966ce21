//! The law of the workload (docs/rehearsal.md).

ghost use Rattle.std.specs.Prelude.{◌≡◌, ℕ, ◌≤◌, Some};
ghost use Rattle.std.specs.FinMap.{get};
ghost use Rattle.farm_types.specs.Limits.{jobs_max};
ghost use Rattle.workload.specs.Loads.{files_of, job_source, source_text, factor_of, generator_after};

/// Each job has its own source: no other job's file replaces it.
pub fn one_file_for_each_job()
    ensures { (n job : ℕ) → n ≤ jobs_max → 1 ≤ job → job ≤ n → get (files_of n) (job_source job) ≡ Some (source_text job (factor_of (generator_after n job))) }
{}
