//! What the compiler leaves.

ghost use Rattle.std.specs.Prelude.{◌≡◌, ◌++◌, IfOk};
ghost use Rattle.std.specs.Fmt.{decimal};
ghost use Rattle.sample_compiler.specs.Samples as samples;
ghost use Rattle.sample_compiler.specs.Samples.{line_text, CompilesTo};

use crate::object::object_of;
use crate::stops::ExpandFault;
use farm_types::{Bytes, Ran};
use sample_lang::{Parsed, parse};
use std::alloc::{AllocError, Global};

/// The wait status of exit code 2: words that the compiler doesn't take.
const BAD_WORDS_WAIT_STATUS: u32 = 512;

// The message of a fault of the preprocessor.
fn message_of(alloc: Global, fault: &ExpandFault) -> Result<Bytes, AllocError>
    ensures { IfOk result (λ text. text ≡ samples.expand_message fault.now) }
{
    match fault {
        ExpandFault::BadDirective => Bytes::from_slice(alloc, b"bad directive"),
        ExpandFault::NoFile(name) => {
            let mut text = Bytes::from_slice(alloc, b"no file ")?;
            text.try_extend(name.as_slice())?;
            Ok(text)
        }
        ExpandFault::TooDeep => Bytes::from_slice(alloc, b"includes too deep"),
    }
}

// A message with the line that it is about.
fn line_text(alloc: Global, line: u64, message: &[u8]) -> Result<Bytes, AllocError>
    ensures { IfOk result (λ text. text ≡ samples.line_text line message.now) }
{
    let front = format!(in alloc; "line {line}: ")?;
    let mut text = Bytes::from_slice(alloc, front.as_bytes())?;
    text.try_extend(message)?;
    text.try_push(b'\n')?;
    Ok(text)
}

/// A fault: status 256, and its message.
pub fn failed(alloc: Global, line: u64, message: &[u8]) -> Result<Ran, AllocError>
    ensures { IfOk result (λ ran. ran ≡ samples.failed line message.now) }
{
    let err = line_text(alloc, line, message)?;
    Ok(Ran {
        status: 256,
        out: Bytes::new(alloc),
        err,
        object: Bytes::new(alloc),
    })
}

/// A fault of the preprocessor.
pub fn expand_failed(alloc: Global, line: u64, fault: &ExpandFault) -> Result<Ran, AllocError>
    ensures { IfOk result (λ ran. ran ≡ samples.failed line (samples.expand_message fault.now)) }
{
    let message = message_of(alloc, fault)?;
    failed(alloc, line, message.as_slice())
}

/// What a run leaves that prints this text and nothing else, with status 0.
pub fn printed(alloc: Global, text: Bytes) -> Ran
    ensures { result ≡ samples.printed text }
{
    Ran {
        status: 0,
        out: text,
        err: Bytes::new(alloc),
        object: Bytes::new(alloc),
    }
}

/// What the compiler leaves of words that it doesn't take: wait status 512 and a message. It fails if memory runs out.
pub fn bad_words(alloc: Global) -> Result<Ran, AllocError>
    ensures { IfOk result (λ ran. ran ≡ samples.bad_words) }
{
    let err = Bytes::from_slice(alloc, b"scc: bad words\n")?;
    Ok(Ran {
        status: BAD_WORDS_WAIT_STATUS,
        out: Bytes::new(alloc),
        err,
        object: Bytes::new(alloc),
    })
}

/// A source, compiled.
pub fn compiled(alloc: Global, text: &Bytes) -> Result<Ran, AllocError>
    ensures { IfOk result (CompilesTo text.now) }
{
    match parse(alloc, text) {
        Parsed::Program(items) => {
            let object = object_of(alloc, items.as_slice())?;
            Ok(Ran {
                status: 0,
                out: Bytes::new(alloc),
                err: Bytes::new(alloc),
                object,
            })
        }
        Parsed::Fault { line, message } => {
            let ran = failed(alloc, line, message.as_slice())?;
            Ok(ran)
        }
        Parsed::Memory => Err(AllocError),
    }
}
