//! Commands that would replace their source.

ghost use Rattle.std.specs.Prelude.{◌≡◌, IfOk, option_map};
ghost use Rattle.arg_scan.specs.Class.{IsRemote, plan_of};
ghost use Rattle.arg_scan.specs.Roles.{word_at};
ghost use Rattle.arg_strip.specs.Words.{output_of};
ghost use Rattle.arg_strip.specs.Checks.{names_of};

use arg_scan::{output_name, remote_plan};
use farm_types::{Bytes, Words};
use std::alloc::{AllocError, Global};

/// The names that a command has for its source and for its output.
#[derive(Debug, Drop)]
pub struct Names {
    pub source: Bytes,
    pub output: Bytes,
}

/// The names of the source and of the output, if a command that may be sent names an output. If these name one file, the command would replace its
/// source.
pub fn source_and_output(alloc: Global, words: &Words) -> Result<Option<Names>, AllocError>
    requires { IsRemote words.now }
    ensures { IfOk result (λ names. names ≡ names_of words.now) }
{
    let plan = remote_plan(words);
    if plan.output.is_none() {
        return Ok(None);
    }
    Ok(Some(Names {
        source: Bytes::from_slice(alloc, word_at(words, plan.input))?,
        output: output_name(alloc, words, &plan)?,
    }))
}

// The word at a place; past the end the empty one.
fn word_at(words: &Words, at: usize) -> &[u8]
    ensures { result.now ≡ word_at words.now at }
{
    match words.get(at) {
        Some(word) => word.as_slice(),
        None => &[],
    }
}
