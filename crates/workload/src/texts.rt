//! The words and the sources of the workload's jobs.

ghost use Rattle.std.specs.Prelude.{◌≡◌, ◌++◌, codes, IfOk, OnOk};
ghost use Rattle.std.specs.Fmt.{decimal};
ghost use Rattle.workload.specs.Loads.{job_source, job_object, source_text, job_words};

use farm_types::{Bytes, Words};
use std::alloc::{AllocError, Global};

// Adds the number's decimal digits at the end of the text.
fn add_number(alloc: Global, text: &mut Bytes, number: u32) -> Result<(), AllocError>
    ensures { OnOk result (text.new ≡ text.old ++ decimal number) }
{
    let digits = number.to_string(alloc)?;
    text.try_extend(digits.as_bytes())
}

// The name of a job, without an ending.
fn stem(alloc: Global, job: u32) -> Result<Bytes, AllocError>
    ensures { IfOk result (λ made. made ≡ codes "j" ++ decimal job) }
{
    let mut name = Bytes::from_slice(alloc, b"j")?;
    add_number(alloc, &mut name, job)?;
    Ok(name)
}

/// The path of a job's source.
pub(crate) fn job_source(alloc: Global, job: u32) -> Result<Bytes, AllocError>
    ensures { IfOk result (λ made. made ≡ job_source job) }
{
    let mut name = stem(alloc, job)?;
    name.try_extend(b".c")?;
    Ok(name)
}

/// The path of a job's object.
pub(crate) fn job_object(alloc: Global, job: u32) -> Result<Bytes, AllocError>
    ensures { IfOk result (λ made. made ≡ job_object job) }
{
    let mut name = stem(alloc, job)?;
    name.try_extend(b".o")?;
    Ok(name)
}

/// The source of a job with this factor.
pub(crate) fn source_text(alloc: Global, job: u32, factor: u32) -> Result<Bytes, AllocError>
    ensures { IfOk result (λ made. made ≡ source_text job factor) }
{
    let mut text = Bytes::from_slice(alloc, b"int j")?;
    add_number(alloc, &mut text, job)?;
    text.try_extend(b" = ")?;
    add_number(alloc, &mut text, factor)?;
    text.try_extend(b" * 7 + ")?;
    add_number(alloc, &mut text, job)?;
    text.try_extend(b";\n")?;
    Ok(text)
}

/// The words of a job.
pub(crate) fn job_words(alloc: Global, job: u32) -> Result<Words, AllocError>
    ensures { IfOk result (λ words. words ≡ job_words job) }
{
    let mut words = Words::new(alloc);
    words.try_push(Bytes::from_slice(alloc, b"scc")?)?;
    words.try_push(Bytes::from_slice(alloc, b"-c")?)?;
    words.try_push(job_source(alloc, job)?)?;
    words.try_push(Bytes::from_slice(alloc, b"-o")?)?;
    words.try_push(job_object(alloc, job)?)?;
    Ok(words)
}
