//! What a run of a program left, and what a daemon answers.

ghost use Rattle.std.specs.Prelude.{◌≡◌, ◌↔◌, IfOk, IsTrue};
ghost use Rattle.farm_types.specs.Fits.{OutcomeFits};
ghost use Rattle.farm_types.specs.Rans.{nothing_ran};

use crate::bytes::Bytes;
use crate::copying::TryCopy;
use crate::limits::{MESSAGES_MAX, OBJECT_MAX};
use std::alloc::{AllocError, Global};

/// What a daemon answers: the Unix wait status, standard error, standard output and the object.
#[derive(Debug, Drop)]
pub struct Outcome {
    pub status: u32,
    pub err: Bytes,
    pub out: Bytes,
    pub object: Bytes,
}

impl Outcome {
    /// Whether the outcome is within the limits: at most `MESSAGES_MAX` bytes on each stream and an
    /// object of at most `OBJECT_MAX`, which is empty beside a nonzero status. It takes no memory.
    pub fn fits(&self) -> bool
        ensures { IsTrue result ↔ OutcomeFits self.now.status self.now.err self.now.out self.now.object }
    {
        self.err.len() <= MESSAGES_MAX
            && self.out.len() <= MESSAGES_MAX
            && self.object.len() <= OBJECT_MAX
            && (self.status == 0 || self.object.is_empty())
    }
}

/// What one run of a program left: its Unix wait status, both outputs, and the object.
#[derive(Debug, Drop)]
pub struct Ran {
    pub status: u32,
    pub out: Bytes,
    pub err: Bytes,
    pub object: Bytes,
}

impl Ran {
    /// A run of status 0 with nothing in it. It takes no memory.
    pub fn nothing(alloc: Global) -> Ran
        ensures { result ≡ nothing_ran }
    {
        Ran {
            status: 0,
            out: Bytes::new(alloc),
            err: Bytes::new(alloc),
            object: Bytes::new(alloc),
        }
    }

    /// An equal run.
    pub fn copy(&self) -> Result<Ran, AllocError>
        ensures { IfOk result (λ made. made ≡ self.now) }
    {
        Ok(Ran {
            status: self.status,
            out: self.out.copy()?,
            err: self.err.copy()?,
            object: self.object.copy()?,
        })
    }
}

impl TryCopy for Ran {
    fn try_copy(&self) -> Result<Ran, AllocError> {
        self.copy()
    }
}
