//! The words of a command with those of its dependency file.

ghost use Rattle.std.specs.Prelude.{◌≡◌, ◌++◌, [], IfOk};
ghost use Rattle.arg_scan.specs.Class.{IsRemote, class_of, plan_of};
ghost use Rattle.arg_strip.specs.Words.{placed_words, preprocessing_words, stripped};
ghost use Rattle.dependency_options.specs.Words.{added_words, file_words, target_words, with_dependencies};

use crate::asked::asked_of;
use crate::naming::dependency_name;
use arg_scan::{Plan, output_name};
use farm_types::{Bytes, Words};
use std::alloc::{AllocError, Global};

/// The words of a command that may be sent, and after them those that its preprocessor needs to
/// write the dependency file that the whole command would write.
///
/// If `-MD` or `-MMD` and an output are given they are `-MF` and the dependency file of the
/// output, if no `-MF` is given, and `-MQ` and the output, if neither `-MT` nor `-MQ` is given.
/// Otherwise there are none. `plan` is the command's, as its class has it.
pub fn dependency_words(alloc: Global, words: &Words, plan: &Plan) -> Result<Words, AllocError>
    requires remote { IsRemote words.now }
    requires plan { plan.now ≡ plan_of words.now }
    ensures words { IfOk result (λ all. all ≡ with_dependencies words.now) }

    // The class is as before.
    ensures class { IfOk result (λ all. class_of all ≡ class_of words.now) }
    // The words that are sent are as before.
    ensures sent { IfOk result (λ all. stripped all ≡ stripped words.now) }
    // So are the words of the compile.
    ensures placed { IfOk result (λ all. placed_words all ≡ placed_words words.now) }
    // The words that preprocess have the added words at their end.
    ensures preprocessing { IfOk result (λ all. preprocessing_words all ≡ preprocessing_words words.now ++ added_words words.now) }

    // If no words are needed, all is as before.
    ensures unchanged { IfOk result (λ all. added_words words.now ≡ [] → all ≡ words.now) }
    // The command may still be sent.
    ensures remote { IfOk result (λ all. IsRemote all) }
    // No more words are needed.
    ensures again { IfOk result (λ all. added_words all ≡ []) }
{
    let added = added_words(alloc, words, plan)?;
    let mut all = words.copy()?;
    all.try_extend(&added)?;
    Ok(all)
}

// The words that are added.
fn added_words(alloc: Global, words: &Words, plan: &Plan) -> Result<Words, AllocError>
    requires { plan.now ≡ plan_of words.now }
    ensures { IfOk result (λ added. added ≡ added_words words.now) }
{
    let asked = asked_of(words.as_slice());
    if !asked.list || plan.output.is_none() {
        return Ok(Words::new(alloc));
    }
    let output = output_name(alloc, words, plan)?;
    let mut added = file_words(alloc, asked.file, &output)?;
    added.try_extend(&target_words(alloc, asked.target, &output)?)?;
    Ok(added)
}

// The words that name the file of this output, if it isn't named.
fn file_words(alloc: Global, named: bool, output: &Bytes) -> Result<Words, AllocError>
    ensures { IfOk result (λ added. added ≡ file_words named output.now) }
{
    if named {
        return Ok(Words::new(alloc));
    }
    let mut added = Words::new(alloc);
    added.try_push(Bytes::from_slice(alloc, b"-MF")?)?;
    added.try_push(dependency_name(alloc, output.as_slice())?)?;
    Ok(added)
}

// The words that name this output as the target, if none is named.
fn target_words(alloc: Global, named: bool, output: &Bytes) -> Result<Words, AllocError>
    ensures { IfOk result (λ added. added ≡ target_words named output.now) }
{
    if named {
        return Ok(Words::new(alloc));
    }
    let mut added = Words::new(alloc);
    added.try_push(Bytes::from_slice(alloc, b"-MQ")?)?;
    added.try_push(output.copy()?)?;
    Ok(added)
}
