//! Jobs that have the same output.

ghost use Rattle.std.specs.Prelude.{◌≡◌, ◌<◌, length, map, IfOk, IfSome, IfNone};
ghost use Rattle.job_list.specs.Outputs as spec;
ghost use Rattle.job_list.specs.Outputs.{AreApart, IsLeastPair, outputs_of};

use arg_scan::{Verdict, classify, output_name};
use farm_types::{Bytes, Jobs, Words};
use std::alloc::{AllocError, Global};
use std::collections::BTreeMap;

// The output of a command that may be sent.
fn output_of(alloc: Global, words: &Words) -> Result<Option<Bytes>, AllocError>
    ensures { IfOk result (λ output. output ≡ spec.command_output words.now) }
{
    match classify(words) {
        Verdict::Remote(plan) => Ok(Some(output_name(alloc, words, &plan)?)),
        Verdict::Empty | Verdict::Local { .. } => Ok(None),
    }
}

// The output of each job.
fn outputs_of(alloc: Global, jobs: &Jobs) -> Result<Vec<Option<Bytes>>, AllocError>
    ensures { IfOk result (λ outputs. outputs.items ≡ outputs_of jobs.now) }
{
    let mut outputs = Vec::new(alloc);
    for words in jobs.as_slice() {
        outputs.push(output_of(alloc, words)?)?;
    }
    Ok(outputs)
}

/// The places of two jobs. They count from 0.
#[derive(Clone, Copy, Debug)]
pub struct Pair {
    pub first: usize,
    pub second: usize,
}

// The least pair with the same output, by a map from each output to the place of its first job.
fn least_pair(alloc: Global, outputs: &[Option<Bytes>]) -> Result<Option<Pair>, AllocError>
    ensures none { IfOk result (λ found. IfNone found (AreApart outputs.now)) }
    ensures some { IfOk result (λ found. IfSome found (λ pair. IsLeastPair outputs.now pair.first pair.second)) }
{
    let mut places: BTreeMap<&[u8], usize> = BTreeMap::new(alloc);
    for (second, output) in outputs.iter().enumerate() {
        if let Some(output) = output {
            if let Some(first) = places.get(output.as_slice()) {
                return Ok(Some(Pair {
                    first: *first,
                    second,
                }));
            }
            places.insert(output.as_slice(), second)?;
        }
    }
    Ok(None)
}

/// Of the pairs of jobs that have the same output, that with the least second job, and for it the least
/// first one.
pub fn shared_output(alloc: Global, jobs: &Jobs) -> Result<Option<Pair>, AllocError>
    ensures none { IfOk result (λ found. IfNone found (AreApart (outputs_of jobs.now))) }
    ensures some { IfOk result (λ found. IfSome found (λ pair. IsLeastPair (outputs_of jobs.now) pair.first pair.second)) }
{
    let outputs = outputs_of(alloc, jobs)?;
    least_pair(alloc, &outputs)
}
