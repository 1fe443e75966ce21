//! The name of a dependency file.

ghost use Rattle.std.specs.Prelude.{◌≡◌, IfOk};
ghost use Rattle.dependency_options.specs.Words.{dependency_name, stem};

use farm_types::Bytes;
use memchr::memrchr2;
use std::alloc::{AllocError, Global};

/// The dependency file of an output: the output's name with `.d` in place of its ending, or after
/// a name that has none.
pub fn dependency_name(alloc: Global, output: &[u8]) -> Result<Bytes, AllocError>
    ensures { IfOk result (λ name. name ≡ dependency_name output.now) }
{
    let mut name = Bytes::from_slice(alloc, stem(output))?;
    name.try_extend(b".d")?;
    Ok(name)
}

// The name without its ending: the last dot of its last part, and what is after it.
fn stem(name: &[u8]) -> &[u8]
    ensures { result.now ≡ stem name.now }
{
    match memrchr2(b'.', b'/', name) {
        Some(at) if name[at] == b'.' => &name[..at],
        _ => name,
    }
}
