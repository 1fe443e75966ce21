//! A sink that holds what is printed back.

ghost use Rattle.std.specs.Prelude.{◌≡◌, []};
ghost use Rattle.whole_command.specs.Held.{held_of};

use edge_traits::{EdgeFault, Sink};
use farm_types::Bytes;
use std::alloc::Global;

/// A sink that keeps what is written, until it is known whether that is printed.
#[derive(Drop)]
pub struct HeldSink {
    bytes: Bytes,
}

impl HeldSink {
    /// A sink to which nothing was written. It takes no memory.
    pub fn new(alloc: Global) -> HeldSink
        ensures { held_of result ≡ [] }
    {
        HeldSink {
            bytes: Bytes::new(alloc),
        }
    }

    /// What was written.
    pub fn held(&self) -> &[u8]
        ensures { result.now ≡ held_of self.now }
    {
        self.bytes.as_slice()
    }
}

impl Sink for HeldSink {
    ghost use Rattle.std.specs.Prelude.{◌≡◌, ◌<◌, ◌≤◌, ◌||◌, IfOk, length};
    ghost use Rattle.edge_traits.specs.Causes.{HasCause};
    ghost use Rattle.edge_traits.specs.Links.{moved, moved_none};
    ghost use Rattle.edge_traits.specs.Told.{Grew};
    ghost use Rattle.whole_command.specs.Held.{held_shows};

    ghost shows = { held_shows };

    fn write(&mut self, piece: &[u8]) -> Result<usize, EdgeFault>
        requires { 0 < length piece.now }
        ensures all { IfOk result (λ count. count ≡ length piece.now) }

        // What each sink ensures.
        ensures bound { IfOk result (λ n. n ≤ length piece.now) }
        ensures written { Grew (held_shows self.old).written (held_shows self.new).written (moved result piece.now) }
        ensures stopped { (held_shows self.new).stopped ≡ ((held_shows self.old).stopped || moved_none result) }
        ensures cause { HasCause (held_shows self.old).faults (held_shows self.new).faults result }
    {
        self.bytes.try_extend(piece)?;
        Ok(piece.len())
    }
}
