//! The class of a command, with the output's name.

ghost use Rattle.std.specs.Prelude.{◌≡◌, ◌≢◌, IfOk};
ghost use Rattle.arg_scan.specs.Roles.{word_at};
ghost use Rattle.arg_scan.specs.Names.{derived_output};
ghost use Rattle.arg_scan.specs.Class.{ClassOf, IsRemote, output_text};

use crate::class::Scan;
use crate::names::{Ending, last_name, name_from};
use crate::verdict::{Action, Plan, Verdict, classify};
use farm_types::{Bytes, Words};
use std::alloc::{AllocError, Global};

/// The class of a command.
///
/// The rules are those of docs/command-words.md. `Memory` may be returned in place of `Remote` only.
pub fn scan(alloc: Global, words: &Words) -> Scan
    ensures class { result ≢ Scan.Memory → ClassOf words.now result }
    ensures memory { result ≡ Scan.Memory → IsRemote words.now }
{
    match classify(words) {
        Verdict::Empty => Scan::Empty,
        Verdict::Local { why, at } => Scan::Local { why, at: at as u64 },
        Verdict::Remote(plan) => match output_name(alloc, words, &plan) {
            Ok(output) => Scan::Remote {
                action: plan.action,
                input: plan.input as u64,
                output,
                preprocessed: plan.ending.is_preprocessed(),
                ext: plan.ending.ext(),
            },
            Err(_) => Scan::Memory,
        },
    }
}

/// The name of a command's output.
pub fn output_name(alloc: Global, words: &Words, plan: &Plan) -> Result<Bytes, AllocError>
    ensures { IfOk result (λ name. name ≡ output_text words.now plan.now plan.now.output) }
{
    match plan.output {
        Some(place) => Bytes::from_slice(alloc, name_from(word_at(words, place.at), place.from)),
        None => derived_output(alloc, plan.action, word_at(words, plan.input), plan.ending),
    }
}

// The word at a place; past the end the empty one.
fn word_at(words: &Words, at: usize) -> &[u8]
    ensures { result.now ≡ word_at words.now at }
{
    match words.get(at) {
        Some(word) => word.as_slice(),
        None => &[],
    }
}

/// The output of a command that names none: the source's last name, its ending replaced by `.o` or `.s`
/// (docs/command-words.md, "The output").
pub fn derived_output(
    alloc: Global,
    action: Action,
    source: &[u8],
    ending: Ending,
) -> Result<Bytes, AllocError>
    ensures { IfOk result (λ name. name ≡ derived_output action source.now ending) }
{
    let name = last_name(source);
    let mut output = Bytes::from_slice(alloc, name)?;
    output.truncate(name.len().saturating_sub(ending.text().len()));
    output.try_extend(match action {
        Action::Compile => b".o",
        Action::Assemble => b".s",
    })?;
    Ok(output)
}
