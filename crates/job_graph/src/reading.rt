//! The needs of each job of a text.

ghost use Rattle.std.specs.Prelude.{ℕ, ◌≡◌, ◌<◌, ◌≤◌, ◌++◌, ◌∷◌, [], true, false, length, IfOk, IfErr, None};
ghost use Rattle.farm_types.specs.Limits.{job_list_max};
ghost use Rattle.job_list.specs.Texts.{lines_of};
ghost use Rattle.job_graph.specs.Lines.{plain_words};
ghost use Rattle.job_graph.specs.Needs.{all_named, jobs_named, needs_fault, needs_of};
ghost use Rattle.job_graph.specs.Steps.{IsNeedsError, job_count};

use crate::fault::{GraphError, GraphFault};
use crate::line::{needs_behind, next_word};
use crate::need::job_named;
use crate::{NeedLists, Numbers};
use job_list::{is_job, line_end};
use std::alloc::{AllocError, Global};

// Adds the jobs that the words of a line name, and says whether each word names one.
fn add_needs(ahead: &mut Numbers, words: &[u8], count: usize) -> Result<bool, AllocError>
    ensures all { IfOk result (λ right. right ≡ all_named count (plain_words words.now)) }
    ensures added { IfOk result (λ right. right ≡ true → ahead.new ≡ ahead.old ++ jobs_named count (plain_words words.now)) }
{
    let mut rest = words;
    while let Some((word, behind)) = next_word(rest) {
        match job_named(word, count) {
            Some(job) => ahead.try_push(job)?,
            None => return Ok(false),
        }
        rest = behind;
    }
    Ok(true)
}

/// Reads the needs of each job of a text with that many jobs.
pub fn read_needs(alloc: Global, text: &[u8], count: usize) -> Result<NeedLists, GraphError>
    requires short { length text.now ≤ job_list_max }
    requires jobs { job_count (lines_of text.now) ≡ count }
    ensures right { IfOk result (λ needs. needs_fault count text.now ≡ None) }
    ensures needs { IfOk result (λ needs. needs ≡ needs_of count text.now) }
    ensures fault { IfErr result (λ e. IsNeedsError count text.now e) }
{
    let mut needs = NeedLists::new(alloc);
    let mut ahead = Numbers::new(alloc);
    let mut from = 0;
    let mut number = 1;
    while from <= text.len() {
        let end = line_end(text, from);
        let line = &text[from..end];
        if let Some(words) = needs_behind(line) {
            if !add_needs(&mut ahead, words, count)? {
                return Err(GraphError::Fault {
                    line: number,
                    fault: GraphFault::BadNeed,
                });
            }
            if needs.len() == count {
                return Err(GraphError::Fault {
                    line: number,
                    fault: GraphFault::NoJobAfter,
                });
            }
        } else if is_job(line) {
            needs.try_push(ahead)?;
            ahead = Numbers::new(alloc);
        }
        from = end + 1;
        number += 1;
    }
    Ok(needs)
}
