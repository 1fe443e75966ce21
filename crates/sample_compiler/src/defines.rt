//! Defined names.

ghost use Rattle.std.specs.Prelude.{◌≡◌, IfOk};
ghost use Rattle.std.specs.Option.{option_copied};
ghost use Rattle.sample_compiler.specs.Words as words;

use farm_types::{Bytes, TryCopy};
use std::alloc::AllocError;

/// A name, and what is in its place.
#[derive(Debug, Drop)]
pub struct Define {
    pub name: Bytes,
    pub value: Bytes,
}

impl TryCopy for Define {
    fn try_copy(&self) -> Result<Define, AllocError> {
        let name = self.name.copy()?;
        let value = self.value.copy()?;
        Ok(Define { name, value })
    }
}

/// The last definition of a name.
pub fn last_of<'a>(defines: &'a [Define], name: &[u8]) -> Option<&'a Define>
    ensures { option_copied result ≡ words.last_of defines.now name.now }
{
    let mut found = None;
    for define in defines {
        if define.name.as_slice() == name {
            found = Some(define);
        }
    }
    found
}
